//! `target`: what it costs to have no more backorders than a target.
//!
//! - Reads sites, parts and rates.
//! - Refuses, in this order: the first fault of the tables; a pipeline beyond the limits of the model; too much work.
//! - Makes the report.
ghost use Rattle.std.specs.Prelude.{◌≡◌, ◌≤◌, IfOk};
ghost use Rattle.budget_sweep.specs.Cases.{IsCaseTarget};
ghost use Rattle.budget_sweep.specs.Fits.{TargetFits};
ghost use Rattle.family_points.specs.Points.{plain_ends};
ghost use Rattle.spares_input.specs.Stocks.{nothing_held};
ghost use Rattle.order_inputs.specs.Given.{CanPlan, bytes_of};
ghost use Rattle.command_outcomes.specs.Making.{Is, MakesBy};
ghost use Rattle.command_outcomes.specs.Task.{target_task};

use crate::curves::curves_of;
use answers::{NoMemory, Stop};
use budget_sweep::TargetReport;
use case_tables::AcceptedCase;
use command_outcomes::{Done, TaskOutcome};
use exact_ratio::Decimal;
use order_inputs::{Tables, case_within_work};
use refusals::Failure;
use std::alloc::Global;

/// The report of a target from the sweep of a case.
fn target_of(
    alloc: Global,
    given: &AcceptedCase,
    backorders: Decimal,
) -> Result<TargetReport, NoMemory>
    requires given { CanPlan given.now }
    requires places { backorders.places ≡ 4 }
    requires most { backorders.units ≤ 10000000000000 }
    ensures target { IfOk result (IsCaseTarget plain_ends given.now.case
        (nothing_held given.now.case).list backorders) }
    ensures fits { IfOk result TargetFits }
{
    let curves = curves_of(alloc, given)?;
    budget_sweep::target(alloc, curves.as_slice(), backorders)
}

/// Carries out `target` on the tables of a case, for a target in ten-thousandths of a backorder: its cost, or the first
/// refusal. Want of memory may always come.
pub fn target(
    alloc: Global,
    tables: &Tables<'_>,
    backorders: Decimal,
) -> Result<TaskOutcome, Stop<Failure>>
    requires places { backorders.places ≡ 4 }
    requires most { backorders.units ≤ 10000000000000 }
    ensures { MakesBy (Is (target_task (bytes_of tables.now) backorders)) result }
{
    let given = case_within_work(alloc, tables)?;
    let report = target_of(alloc, &given, backorders);
    drop(given);
    Ok(TaskOutcome::printed(Done::Targeted(report?)))
}
