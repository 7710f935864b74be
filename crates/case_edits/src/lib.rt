//! The lines of an edits file, which plans a case again and again: their grammar, and the plans that follow.
//!
//! A line is `budget,N`, `plan`, or `rate,` with the fields of a row of rates. The lines are taken in order, and each
//! applies to the case and the budget after the lines before it.
#![tactic(auto)]

mod fault;
mod lines;

pub use fault::EditFault;
pub use lines::{Edit, edit_in, first_line};
