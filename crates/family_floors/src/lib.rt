//! Whether the Lagrangian of each vector of a family reaches a floor at one price, and the upper end of a vector's
//! score, neither of which needs a curve.
#![tactic(auto)]

mod least;
mod upper;

pub use least::is_at_least;
pub use upper::upper_within;
