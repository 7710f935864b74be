//! The commands that plan a case once: `plan`, `sweep`, `target` and `demo`.
#![tactic(auto)]

mod confirming;
mod curves;
mod demonstrating;
mod planning;
mod summing_up;
mod sweeping;
mod targeting;

pub use demonstrating::demo;
pub use planning::plan;
pub use sweeping::sweep;
pub use targeting::target;
