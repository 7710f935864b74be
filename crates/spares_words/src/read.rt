//! From words to an order.
ghost use Rattle.std.specs.Prelude.{IfOk};
ghost use Rattle.answers.specs.Answers.{Gives};
ghost use Rattle.spares_words.specs.Order.{Follows, IsInRange, StopsBy, by_command, order_of};

use crate::commands::{CommandName, command_named, command_of};
use crate::orders::order_named;
use crate::{Order, WordsFault};
use answers::Stop;
use clap::error::ErrorKind;
use clap::{ArgMatches, Error};
use spares_io::Text;
use std::alloc::Global;

/// The stop for an error of `clap`.
fn stop_of(error: &Error) -> Stop<WordsFault>
    ensures { StopsBy error.now result }
{
    match error.kind() {
        ErrorKind::OutOfMemory => Stop::NoMemory,
        _ => Stop::Fault(WordsFault::Shape),
    }
}

/// The order of a command, from the answer of `clap` for its words.
fn order_from(
    alloc: Global,
    name: CommandName,
    parsed: &Result<ArgMatches<'_>, Error>,
) -> Result<Order, Stop<WordsFault>>
    ensures order { Follows name parsed.now result }
    ensures range { IfOk result IsInRange }
{
    match parsed {
        Ok(matches) => order_named(alloc, name, matches),
        Err(error) => Err(stop_of(error)),
    }
}

/// The order of a command's words.
fn read_command(alloc: Global, name: CommandName, words: &[Text]) -> Result<Order, Stop<WordsFault>>
    ensures order { Gives (by_command name words.now) result }
    ensures range { IfOk result IsInRange }
{
    let parsed = command_of(alloc, name)?.try_get_matches_from(words);
    order_from(alloc, name, &parsed)
}

/// The order of the words after the program's name.
///
/// The first word must be the name of a command, and the words after it must fit this command: otherwise the fault is
/// `Shape`. Then the numbers are read in the order of the fields of `Order`, and each number's `Number` comes before
/// its `Range`.
#[tactic(auto, unfolding(crate::specs::Order::order_of))]
pub fn read_words(alloc: Global, words: &[Text]) -> Result<Order, Stop<WordsFault>>
    ensures order { Gives (order_of words.now) result }
    ensures range { IfOk result IsInRange }
{
    let Some(name) = words.first() else {
        return Err(Stop::Fault(WordsFault::Shape));
    };
    match command_named(name.as_str()) {
        Some(command) => read_command(alloc, command, words),
        None => Err(Stop::Fault(WordsFault::Shape)),
    }
}
