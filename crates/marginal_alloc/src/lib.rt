//! Marginal analysis: which vertex of each family's curve to buy under a budget.
#![tactic(auto)]

mod allocation;
mod change;
mod filling;
pub mod laws;
pub mod plans;
mod start;

pub use allocation::{Chosen, Critical, allocate, allocate_near, allocate_within};
pub use change::{Change, best_change};
pub use filling::{cost_at, fill, take_change};
pub use start::first_cost;
