//! Plans that begin with stocks on hand, by curves and parts of curves that a maker makes: the curves from the held
//! stocks to the limits, and the plan of a case by them or by their parts near the price at which the budget is spent.
//! Parts can be kept for further plans.
//!
//! The maker is a trait, so that this crate and those that are above it alone are proved beside the crates that make
//! curves. `on_hand` has the maker.
#![tactic(auto)]

mod curves;
mod families;
mod guess;
mod kept;
mod maker;
mod parts;
mod plan;
mod sample;
mod size;

pub use curves::held_curves;
pub use kept::KeptParts;
pub use maker::CurveMaker;
pub use plan::{choose_by_kept_parts, plan_case};
