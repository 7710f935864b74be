//! The reports that the planner prints.
#![tactic(auto)]

mod check;
mod eval;
mod item;
mod plan;
mod single;
mod summary;
mod text;

pub use check::CheckReport;
pub use eval::EvalReport;
pub use plan::{CriticalLine, PlanReport};
pub use single::SingleReport;
pub use summary::Summary;
pub use text::{prints_outward, put_interval, put_number_line};
