//! Worked rows of the command line. The tests of this crate run them.
#![tactic(auto)]

#[cfg(test)]
mod spares_words_tests;
