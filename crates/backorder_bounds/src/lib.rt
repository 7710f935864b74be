//! Lower bounds on expected backorders, for less work than a table.
//!
//! From a stock to the next, the backorders of a table fall by the chance of more units in the pipeline. The chance of
//! a number of units is its weight over the sum of all weights, so an upper bound on the sum gives lower bounds on the
//! chances and on the backorders. It adds up the first weights, and bounds the others by a geometric series.
#![tactic(auto)]

mod falling;
mod lead;
mod scale;
mod sums;
mod walk;

pub use walk::Walk;
