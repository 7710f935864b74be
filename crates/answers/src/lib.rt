//! What calls answer: a value, want of memory, or a fault beside it; and lists of values.
#![tactic(auto)]

mod list;
mod stop;

pub use list::List;
pub use stop::{NoMemory, Stop};
