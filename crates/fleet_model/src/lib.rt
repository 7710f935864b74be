//! The model of a case in exact fractions: its demands, pipelines and backorders, its availability, and its allocations
//! with their cost and their total, or another aim; and the laws of these.
//!
//! The definitions are in `specs/`, and no code computes with them: the crates above print intervals that enclose their
//! values. Each law is the contract of a public function with an empty body. `p` is a part, `l` a line unit, `i` a shop
//! unit of it, `k` a site and `j` a base, all by number; `s` lists the stocks of a case by part and then by site, and
//! `n` is the depth at which the series of backorders are cut.
#![tactic(auto)]

mod allocations;
mod bounds;
mod pipelines;

pub use allocations::{families, stocks_allocate, words_agree};
pub use bounds::{floors_bound, price_limits};
pub use pipelines::{
    divisors_positive, nothing_cut, whole_units, within_zero_stock_means, zero_stock_means,
};
