//! The points of a family, a line unit with its shop units: its vectors of stocks within bounds, what they cost, and
//! their scored backorders.
//!
//! A vector lists the stocks of a family, site by site. Each has a cost and the ends of its scored backorders. At given
//! stocks of the depot, cost and score are sums over the bases, and each term depends only on the stocks of its base.
#![tactic(auto)]

ghost use Rattle.family_points.specs.Laws.{Separates};
ghost use Rattle.family_points.specs.Least.{LeastSeparates};
ghost use Rattle.family_points.specs.Local.{ChangesAreLocal, FamiliesAreLocal, ItemsAreLocal};

pub mod bounds;
mod counts;
pub mod family;
mod laws;
pub mod order;
mod places;
mod vectors;

pub use bounds::Bounds;
pub use counts::{MOST_TABLES, choices, held_tables, tables, tables_within, work};
pub use family::Family;
pub use laws::{vectors_are_counted, vectors_stand};
pub use places::{limits_of, place_parts, vector_of};

/// The points of a family are the sums of the depot's point and a point of each base, for each choice of stocks at the
/// depot.
pub fn points_separate()
    ensures { Separates }
{}

/// The least Lagrangian of a box at a price is the least, over the depot's stocks, of their cost at the price plus the
/// least of each base.
pub fn least_separates()
    ensures { LeastSeparates }
{}

/// A line unit's item at a base depends only on its family's stocks at the depot and at that base.
pub fn items_are_local()
    ensures { ItemsAreLocal }
{}

/// A family's rates, items and points depend only on the sites and parts of the case and on the rates of its own parts.
pub fn families_are_local()
    ensures { FamiliesAreLocal }
{}

/// Replacing a pair's row of rates changes no family but the family of its part.
pub fn changes_are_local()
    ensures { ChangesAreLocal }
{}
