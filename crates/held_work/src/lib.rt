//! The tables that the curves of a case take from its held stocks to its limits. With nothing held they are those of
//! all vectors.
#![tactic(auto)]

mod laws;
mod work;

pub use laws::nothing_held_is_all;
pub use work::held_work;
