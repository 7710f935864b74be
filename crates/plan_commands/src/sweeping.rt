//! `sweep`: the best backorders of a case for every budget.
//!
//! - Reads sites, parts and rates.
//! - Refuses, in this order: the first fault of the tables; a pipeline beyond the limits of the model; too much work.
//! - Makes the report.
ghost use Rattle.std.specs.Prelude.{IfOk};
ghost use Rattle.budget_sweep.specs.Cases.{IsCaseSweep};
ghost use Rattle.budget_sweep.specs.Fits.{SweepFits};
ghost use Rattle.family_points.specs.Points.{plain_ends};
ghost use Rattle.spares_input.specs.Stocks.{nothing_held};
ghost use Rattle.order_inputs.specs.Given.{CanPlan, bytes_of};
ghost use Rattle.command_outcomes.specs.Making.{Is, MakesBy};
ghost use Rattle.command_outcomes.specs.Task.{sweep_task};

use crate::curves::curves_of;
use answers::{NoMemory, Stop};
use budget_sweep::SweepReport;
use case_tables::AcceptedCase;
use command_outcomes::{Done, TaskOutcome};
use order_inputs::{Tables, case_within_work};
use refusals::Failure;
use std::alloc::Global;

/// The sweep of a case.
fn sweep_of(alloc: Global, given: &AcceptedCase) -> Result<SweepReport, NoMemory>
    requires { CanPlan given.now }
    ensures sweep { IfOk result (IsCaseSweep plain_ends given.now.case (nothing_held given.now.case).list) }
    ensures fits { IfOk result SweepFits }
{
    let curves = curves_of(alloc, given)?;
    budget_sweep::sweep(alloc, curves.as_slice())
}

/// Carries out `sweep` on the tables of a case: the best backorders for every budget, or the first refusal. Want of
/// memory may always come.
pub fn sweep(alloc: Global, tables: &Tables<'_>) -> Result<TaskOutcome, Stop<Failure>>
    ensures { MakesBy (Is (sweep_task (bytes_of tables.now))) result }
{
    let given = case_within_work(alloc, tables)?;
    let report = sweep_of(alloc, &given);
    drop(given);
    Ok(TaskOutcome::printed(Done::Swept(report?)))
}
