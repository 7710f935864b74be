//! The checker of certificates, which trusts none of their claims. It computes each floor anew, or shows it by boxes of
//! stocks whose cheapest corner is dear enough; it names the first false claim with the value that would be true.
//!
//! If the checker accepts a certificate, no allocation within the budget has less than the bound at any depth of the
//! model from 1024 on, and its own stocks have at most the upper end.
#![tactic(auto)]

mod checking;
mod floors;
mod low;
mod upper;
mod value;

pub use checking::{check, check_within};
pub use gap_rules::{Accepted, Reject};
