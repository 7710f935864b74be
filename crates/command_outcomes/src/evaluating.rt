//! `eval`: the figures of a case at given stocks.
//!
//! - Reads sites, parts, rates and stocks.
//! - Refuses, in this order: the first fault of the tables; a pipeline beyond the limits of the model.
//! - Makes the report.
ghost use Rattle.std.specs.Prelude.{◌≡◌, IfOk};
ghost use Rattle.fixed_interval.specs.Widths.{IsWidth};
ghost use Rattle.case_figures.specs.Figures.{figures_of};
ghost use Rattle.case_figures.specs.Shows.{ShowsFigures};
ghost use Rattle.case_figures.specs.Fits.{FitsPrint};
ghost use Rattle.order_inputs.specs.Given.{IsStocked, bytes_of};
ghost use Rattle.command_outcomes.specs.Headline.{ShowsCase};
ghost use Rattle.command_outcomes.specs.Making.{Is, MakesBy};
ghost use Rattle.command_outcomes.specs.Task.{eval_of, eval_task};

use crate::done::{Done, TaskOutcome};
use answers::{NoMemory, Stop};
use case_figures::{Figures, figures_at};
use case_tables::Stocked;
use family_eval::evaluate_all;
use order_inputs::{Table, Tables, stocked};
use plan_report::EvalReport;
use refusals::{Failure, File};
use std::alloc::Global;

/// The figures of a case at its stocks, with `F` bits.
fn figures<const F: u32>(alloc: Global, given: &Stocked) -> Result<Figures, NoMemory>
    requires width { IsWidth F }
    requires given { IsStocked given.now }
    ensures figures { IfOk result (λ figures. figures ≡ figures_of F given.now.case given.now.stocks) }
    ensures shows { IfOk result (ShowsFigures F given.now.case given.now.stocks) }
    ensures prints { IfOk result FitsPrint }
{
    let Stocked {
        case,
        stocks,
        rates,
    } = given;
    case.invariant();
    let families = evaluate_all::<F>(alloc, case, rates, stocks)?;
    figures_at(alloc, case, families.as_slice(), stocks)
}

/// The figures of a case at its stocks, with 32, 48 or 52 bits.
fn figures_with(alloc: Global, given: &Stocked, bits: u8) -> Result<Figures, NoMemory>
    requires given { IsStocked given.now }
    requires bits { IsWidth bits }
    ensures figures { IfOk result (λ figures. figures ≡ figures_of bits given.now.case given.now.stocks) }
    ensures shows { IfOk result (ShowsFigures bits given.now.case given.now.stocks) }
    ensures prints { IfOk result FitsPrint }
{
    match bits {
        32 => figures::<32>(alloc, given),
        48 => figures::<48>(alloc, given),
        _ => figures::<52>(alloc, given),
    }
}

/// The report of a case at its stocks.
fn evaluated(alloc: Global, given: &Stocked, bits: u8) -> Result<EvalReport, NoMemory>
    requires given { IsStocked given.now }
    requires bits { IsWidth bits }
    ensures report { IfOk result (λ report. report ≡ eval_of bits given.now.case given.now.stocks) }
    ensures shows { IfOk result (ShowsCase bits given.now.case given.now.stocks) }
    ensures prints { IfOk result (λ report. FitsPrint report.figures) }
{
    let figures = figures_with(alloc, given, bits)?;
    Ok(EvalReport { bits, figures })
}

/// Carries out `eval` on the tables of a case and of its stocks, with 32, 48 or 52 bits: the figures, or the first
/// refusal. Want of memory may always come.
pub fn eval(
    alloc: Global,
    tables: &Tables<'_>,
    stocks: &Table<'_>,
    bits: u8,
) -> Result<TaskOutcome, Stop<Failure>>
    requires { IsWidth bits }
    ensures { MakesBy (Is (eval_task (bytes_of tables.now) stocks.now.bytes.now bits)) result }
{
    let given = stocked(alloc, tables, File::Stocks, stocks)?;
    let report = evaluated(alloc, &given, bits);
    drop(given);
    Ok(TaskOutcome::printed(Done::Evaluated(report?)))
}
