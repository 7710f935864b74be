//! `demo`: the plan of a made-up case, and the check of its certificate.
//!
//! - Reads no file, and refuses nothing.
//! - Makes the report.
ghost use Rattle.spares_words.specs.Order.{IsInRange};
ghost use Rattle.spares_words.specs.declared.order.Order.TheVariants as order;
ghost use Rattle.command_outcomes.specs.Making.{Is, MakesBy};
ghost use Rattle.command_outcomes.specs.Task.{demonstrate};

use crate::summing_up::demonstrate;
use answers::Stop;
use command_outcomes::{Done, TaskOutcome};
use refusals::Failure;
use std::alloc::Global;

/// Carries out `demo` for a number and 1 to 80 line units. The only error is want of memory.
pub fn demo(alloc: Global, number: u32, lines: u16) -> Result<TaskOutcome, Stop<Failure>>
    requires { IsInRange (order.Demo number lines) }
    ensures { MakesBy (Is (Ok (demonstrate number lines))) result }
{
    let summary = demonstrate(alloc, number, lines)?;
    Ok(TaskOutcome::printed(Done::Demo(summary)))
}
