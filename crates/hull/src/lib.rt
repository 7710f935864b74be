//! Curves: the strict lower vertices of points, each with a cost and a lower end of backorders, and the score of a line
//! unit's backorders that is added up over the bases.
//!
//! A point is a vertex if at some price it alone has the least Lagrangian, a weighted sum of its lower end and its
//! cost. At every price some vertex has the least Lagrangian of all points, so a curve can replace its points. Marginal
//! analysis walks such curves (C. C. Sherbrooke, *Optimal Inventory Modeling of Systems*, 2nd ed.).
#![tactic(auto)]

mod chain;
mod curve;
mod joins;
mod laws;
mod point;
mod price;
mod scan;
mod score;
mod spot;
mod walk;

pub use chain::Chain;
pub use curve::Curve;
pub use laws::{
    adds_curves, begins_cheapest, chain_is_own_curve, ends_lowest, has_one_curve, is_convex,
    is_of_members, joins_curves, reaches_least,
};
pub use point::Point;
pub use price::Price;
pub use score::{Plain, Score};
pub use spot::{Spot, is_first};

/// The most cost of a point, in whole money.
pub const MOST_COST: u128 = 1_000_000_000_000;

/// The most units of a price, in units of 2^-48.
pub const MOST_PRICE_UNITS: u128 = 1 << 74;

/// The most money of a price, in whole money.
pub const MOST_PRICE_MONEY: u64 = 1_000_000_000_000;

/// The largest Lagrangian of a point.
pub const MOST_FLOOR: u128 = 1 << 115;

/// The largest sum of an end of each curve, in units of 2^-48.
pub const MOST_TOTAL: u128 = 1 << 85;
