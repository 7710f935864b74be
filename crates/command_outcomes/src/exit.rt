//! The exit status of an answer.
ghost use Rattle.std.specs.Prelude.{◌≡◌};
ghost use Rattle.command_outcomes.specs.Status.{status_of};

use crate::done::Done;
use refusals::Refusal;

/// The exit status of an answer: 0 for a report; a refusal's status depends on its kind.
pub fn status(answer: &Result<Done, Refusal>) -> u8
    ensures { result ≡ status_of answer.now }
{
    match answer {
        Ok(_) => 0,
        Err(Refusal::Words(_)) => 2,
        Err(
            Refusal::Table(_, _)
            | Refusal::Case(_)
            | Refusal::Stock(_)
            | Refusal::Rate(_)
            | Refusal::Work(_)
            | Refusal::Edit(_),
        ) => 3,
        Err(Refusal::Cert(_) | Refusal::Rejected(_)) => 4,
        Err(Refusal::ReadFault(_)) => 5,
        Err(Refusal::WriteFault) => 6,
        Err(Refusal::NoMemory) => 7,
        Err(Refusal::TooLong(_)) => 8,
    }
}
