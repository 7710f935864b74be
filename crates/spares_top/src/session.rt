//! `session`: the plans that a file of edits asks for.
//!
//! - Reads sites, parts, rates and edits.
//! - Refuses, in this order: the first fault of the tables; too much work; the first line of the edits that is wrong or
//!   whose plan isn't made.
//! - Makes the report of all plans.
ghost use Rattle.order_inputs.specs.Given.{bytes_of};
ghost use Rattle.command_outcomes.specs.Making.{Is, MakesBy};
ghost use Rattle.command_outcomes.specs.Task.{session_task};

use answers::Stop;
use command_outcomes::{Done, TaskOutcome};
use order_inputs::{Tables, case_to_edit};
use plan_session::run_edits;
use refusals::{Failure, Refusal};
use std::alloc::Global;

/// Carries out `session` on the tables of a case and on the bytes of its edits.
pub(crate) fn session(
    alloc: Global,
    tables: &Tables<'_>,
    edits: &[u8],
) -> Result<TaskOutcome, Stop<Failure>>
    ensures { MakesBy (Is (session_task (bytes_of tables.now) edits.now)) result }
{
    let case = case_to_edit(alloc, tables)?;
    match run_edits(alloc, case, edits) {
        Ok(report) => Ok(TaskOutcome::printed(Done::Session(report))),
        Err(Stop::NoMemory) => Err(Stop::NoMemory),
        Err(Stop::Fault(fault)) => Err(Stop::Fault(Failure::of(Refusal::Edit(fault)))),
    }
}
