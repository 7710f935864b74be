//! The program's worked rows: words and files, with the contents of its two outputs. The tests of this crate run them,
//! over a shelf and sinks in memory. It is a program, which does nothing, because the kit sums up the files below a
//! library anew for each path through crates.txt.
#![tactic(auto)]

#[cfg(test)]
mod beside_tests;
#[cfg(test)]
mod check_tests;
#[cfg(test)]
mod demo_tests;
#[cfg(test)]
mod eval_tests;
#[cfg(test)]
mod helpers;
#[cfg(test)]
mod plan_tests;
#[cfg(test)]
mod sweep_tests;
#[cfg(test)]
mod tests;

/// Does nothing: the tests are what counts.
fn main() {}
