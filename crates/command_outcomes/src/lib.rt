//! Tasks and outcomes: what a command has to make of its inputs, what it makes, and what is true of that.
//!
//! - The task of each order, the outcomes that fulfil it, and the headline: each report is true, in the model's words.
//! - The commands that plan nothing: `single`, `eval`, `check` and `compare`.
//! - The delivery of an outcome, the line of a refusal, and the exit status.
#![tactic(auto)]

mod checking;
mod comparing;
mod delivery;
mod done;
mod evaluating;
mod exit;
mod held;
mod pipeline;
mod refusing;

pub use checking::{Claim, check};
pub use comparing::compare;
pub use delivery::finish;
pub use done::{Done, TaskOutcome, Written};
pub use evaluating::eval;
pub use exit::status;
pub use held::{cost_of, held_in};
pub use pipeline::single;
pub use refusing::{put_line, refusal_of, refuse};
