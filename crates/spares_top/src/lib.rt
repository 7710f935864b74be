//! The whole program over a shelf and two sinks, which the caller passes in.
#![tactic(auto)]

mod session;
mod top;
mod work;

pub use command_outcomes::{Done, refuse, status};
pub use refusals::{File, Refusal};
pub use top::run;
