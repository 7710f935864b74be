//! The answers of a check of a certificate.
#![tactic(auto)]

mod refusal;

pub use refusal::{Accepted, Reject};
