//! The words of the command line.
#![tactic(auto)]

mod arguments;
mod commands;
mod laws;
mod number;
mod order;
mod orders;
mod read;
mod values;

pub use arguments::words;
pub use laws::{
    refuses_other_counts, refuses_second_option, takes_any_words, takes_joined_option,
    takes_joined_plan, takes_option, takes_two_words,
};
pub use order::{Order, Which, WordsFault};
pub use read::read_words;
