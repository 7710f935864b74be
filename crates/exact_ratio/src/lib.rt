//! Exact decimals and ratios: the numbers that a user writes, read without rounding.
#![tactic(auto)]

mod decimal;
mod ratio;

pub use decimal::{Decimal, NumberFault, read_decimal, reads_as_defined, reads_one_answer};
pub use ratio::Ratio;
