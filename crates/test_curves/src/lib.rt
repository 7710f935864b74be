//! Worked rows of curves and of the choices over them. They are run by the tests of this crate.
#![tactic(auto)]

#[cfg(test)]
mod hull_tests;
#[cfg(test)]
mod log_loss_tests;
#[cfg(test)]
mod marginal_alloc_tests;
