//! What a demonstration shows, and that every demonstration case is accepted: no rate of it is refused, and its curves
//! take few tables.
#![tactic(auto)]

mod law;
mod with_rates;

pub use law::{demonstrations_are_accepted, demonstrations_take_few_tables};
pub use with_rates::demonstration;
