//! A walk through the sums of several curves, which hands out the sums that may be vertices of a curve.
//!
//! Each curve lists its vertices by cost, so its steps fall less and less per money. There are many sums of one vertex
//! of each curve; a walk that always takes the steepest step passes every sum that is a vertex.
#![tactic(auto)]

mod lanes;
mod order;
mod passed;
mod sums;
pub mod walk;
