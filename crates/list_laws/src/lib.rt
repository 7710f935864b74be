//! Lemmas of lists, sums, counts and plain numbers, for the proofs of all crates above.
#![tactic(auto)]
