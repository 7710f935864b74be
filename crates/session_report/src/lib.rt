//! The report of a session: its plans, their texts, and when a plan's report answers the plan that is due.
#![tactic(auto)]

mod report;

pub use report::SessionReport;
