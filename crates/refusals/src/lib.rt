//! The refusals of commands, and their lines.
#![tactic(auto)]

mod failure;
mod line;
mod of_cases;
mod of_certificates;
mod of_edits;
mod of_tables;
mod refusal;

pub use failure::Failure;
pub use line::Line;
pub use refusal::{File, Refusal};
