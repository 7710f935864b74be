//! The best choices for every budget, and the cost of a target.
//!
//! The sweep takes the steps of all families' curves by falling slope. The state after each number of steps is a point
//! of the sweep: no choice that costs at most a point's cost has a lower sum. For a target of the sum, the sweep shows
//! a point that reaches it and a cost below which no choice does.
#![tactic(auto)]

pub mod laws;
mod reaching;
mod report;
mod states;
mod sums;
mod texts;

pub use reaching::target;
pub use report::{SweepPoint, SweepReport, TargetReport};
pub use states::sweep;
