//! Worked rows of the library crates: cases as tables and certificates as texts, with the crates' answers. The tests of
//! this crate run them.
#![tactic(auto)]

#[cfg(test)]
mod certificates;
#[cfg(test)]
mod curves;
