//! Worked rows of reports, sessions and certificates of plans. The tests of this crate run them. It is a program, which
//! does nothing, because the kit sums up the files below a library anew for each path through crates.txt.
#![tactic(auto)]

#[cfg(test)]
mod certified_plan_tests;
#[cfg(test)]
mod eval_report_tests;
#[cfg(test)]
mod metric_compare_tests;
#[cfg(test)]
mod on_hand_tests;
#[cfg(test)]
mod parts_plan_tests;
#[cfg(test)]
mod plan_report_tests;
#[cfg(test)]
mod plan_session_tests;

/// Does nothing: the tests are what counts.
fn main() {}
