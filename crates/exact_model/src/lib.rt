//! The model of a pipeline's expected backorders and of their variance, in exact fractions, and its laws.
//!
//! The definitions are in `specs/`, and no code computes with them: the crates above print intervals that enclose their
//! values. Each law is the contract of a public function with an empty body, for every depth `n` of the cut series.
#![tactic(auto)]

mod arithmetic;
mod backorders;
mod weights;

pub use arithmetic::{cuts_join, larger_is_one, quotients_divide};
pub use backorders::{
    backorders_fall, cuts_lose_nothing, values_alone, variance_falls, within_caps,
};
pub use weights::{
    chances_add_up, mean_within, ratios_bounded, remainder_bounded, weights_by_ratios,
};
