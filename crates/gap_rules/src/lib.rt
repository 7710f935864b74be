//! The rules that a certificate keeps, and what holds if it breaks none.
//!
//! A certificate has a case, a budget, a price, a floor for each family, stocks, an upper end and a bound. A family's
//! cover splits its box of vectors into leaves; each leaf has a value, which the floor must not exceed. This crate
//! reads covers, counts their tables and judges stocks, costs and bounds. It computes no value of a leaf.
#![tactic(auto)]

pub mod bound;
pub mod cost;
pub mod covers;
pub mod family;
mod laws;
pub mod leaf;
pub mod reading;
pub mod stocks;
mod work;

pub use check_answers::{Accepted, Reject};
pub use laws::{
    accepted_are_acceptable, accepted_are_sound, floors_hold, leaves_cover, trees_are_read,
};
