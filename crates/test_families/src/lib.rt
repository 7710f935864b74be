//! Worked rows of the rates of a case and of the figures of a family's stocks. The tests of this crate run them.
#![tactic(auto)]

#[cfg(test)]
mod case_rates_tests;
#[cfg(test)]
mod demand_rates_tests;
#[cfg(test)]
mod family_eval_tests;
#[cfg(test)]
mod test_inputs_tests;
