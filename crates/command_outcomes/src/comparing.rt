//! `compare`: the backorders of a case at given stocks, beside those with Poisson pipelines.
//!
//! - Reads sites, parts, rates and stocks.
//! - Refuses, in this order: the first fault of the tables; a pipeline beyond the limits of the model.
//! - Makes the report.
ghost use Rattle.std.specs.Prelude.{◌≡◌, IfOk};
ghost use Rattle.metric_compare.specs.Fits.{FitsComparison};
ghost use Rattle.metric_compare.specs.Report.{comparison_of};
ghost use Rattle.order_inputs.specs.Given.{IsStocked, bytes_of};
ghost use Rattle.command_outcomes.specs.Headline.{IsTrueComparison};
ghost use Rattle.command_outcomes.specs.Making.{Is, MakesBy};
ghost use Rattle.command_outcomes.specs.Task.{compare_task};

use crate::done::{Done, TaskOutcome};
use answers::{NoMemory, Stop};
use case_tables::Stocked;
use metric_compare::CompareReport;
use order_inputs::{Table, Tables, stocked};
use refusals::{Failure, File};
use std::alloc::Global;

/// The comparison of a case at its stocks.
fn compared(alloc: Global, given: &Stocked) -> Result<CompareReport, NoMemory>
    requires { IsStocked given.now }
    ensures report { IfOk result (λ report. report ≡ comparison_of given.now.case given.now.stocks) }
    ensures is_true { IfOk result (IsTrueComparison given.now.case given.now.stocks) }
    ensures prints { IfOk result FitsComparison }
{
    let Stocked {
        case,
        stocks,
        rates,
    } = given;
    case.invariant();
    metric_compare::compare(alloc, case, rates, stocks)
}

/// Carries out `compare` on the tables of a case and of its stocks: the comparison, or the first refusal. Want of
/// memory may always come.
pub fn compare(
    alloc: Global,
    tables: &Tables<'_>,
    stocks: &Table<'_>,
) -> Result<TaskOutcome, Stop<Failure>>
    ensures { MakesBy (Is (compare_task (bytes_of tables.now) stocks.now.bytes.now)) result }
{
    let given = stocked(alloc, tables, File::Stocks, stocks)?;
    let report = compared(alloc, &given);
    drop(given);
    Ok(TaskOutcome::printed(Done::Compared(report?)))
}
