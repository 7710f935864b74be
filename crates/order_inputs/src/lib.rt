//! What an order works on: the files that it reads, the tables among them, and the cases of tables.
#![tactic(auto)]

mod cases;
mod files;
mod given;
mod tables;

pub use cases::{case_to_edit, case_within_work, few_tables, stocked};
pub use files::{Input, files_of};
pub use given::{fourth_of, table_at, tables_of};
pub use tables::{Table, Tables};
