//! Worked rows of the tables that an evaluator keeps, over a case written as texts. The tests of this crate run them.
#![tactic(auto)]

#[cfg(test)]
mod counts;
#[cfg(test)]
mod helpers;
#[cfg(test)]
mod tables;
