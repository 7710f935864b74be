//! `single`: the backorders of one pipeline, and their variance.
//!
//! - Reads no file.
//! - Refuses a mean or a variance beyond the limits of the model.
//! - Makes the report.
ghost use Rattle.std.specs.Prelude.{◌≡◌, ◌≤◌, ◌<◌, ◌^◌, IfOk};
ghost use Rattle.spares_input.specs.Limits.{most_stock};
ghost use Rattle.demand_rates.specs.Single.{WithinLimits};
ghost use Rattle.fixed_interval.specs.Ends.{In, IsWithinLimit, ends_ratio};
ghost use Rattle.fleet_model.specs.Rows.{ten_thousandths};
ghost use Rattle.spares_words.specs.Order.{IsInRange};
ghost use Rattle.spares_words.specs.declared.order.Order.TheVariants as order;
ghost use Rattle.command_outcomes.specs.Headline.{ShowsModel};
ghost use Rattle.command_outcomes.specs.Making.{Is, MakesBy};
ghost use Rattle.command_outcomes.specs.Task.{single_of, single_task, variance_of};

use crate::done::{Done, TaskOutcome};
use answers::{NoMemory, Stop};
use demand_rates::check_single;
use exact_ratio::Decimal;
use fixed_interval::Iv;
use moment_table::row_at;
use plan_report::SingleReport;
use refusals::{Failure, Refusal};
use std::alloc::Global;

const TEN_THOUSAND: u128 = 10_000;

/// A number of ten-thousandths, as an interval.
fn interval_of(units: u64) -> Iv<48>
    requires { units ≤ 2560000 }
    ensures ends { result ≡ ends_ratio 48 units 10000 }
    ensures encloses { In 48 result (ten_thousandths units) }
    ensures small { IsWithinLimit 48 result }
{
    Iv::of_ratio(u128::from(units), TEN_THOUSAND)
}

/// The expected backorders of a pipeline at a stock and their variance.
fn single_report(
    alloc: Global,
    mean: Decimal,
    variance: Decimal,
    stock: u8,
) -> Result<SingleReport, NoMemory>
    requires limits { WithinLimits mean.units variance.units }
    requires stock { stock ≤ most_stock }
    ensures report { IfOk result (λ report. report ≡ single_of mean.units variance.units stock) }
    ensures shows { IfOk result (ShowsModel (ten_thousandths mean.units) (ten_thousandths variance.units) stock) }
    ensures backorders { IfOk result (λ report. report.backorders.hi < 2 ^ 86) }
    ensures spread { IfOk result (λ report. report.spread.hi < 2 ^ 86) }
{
    let mean = interval_of(mean.units);
    let variance = interval_of(variance.units);
    let row = row_at(alloc, mean, variance, stock)?;
    Ok(SingleReport {
        backorders: row.ebo,
        spread: row.vbo,
    })
}

/// Carries out `single`, for a mean and a variance in ten-thousandths: the backorders, or the refusal of the pipeline.
/// The default variance is the mean. Want of memory may always come.
pub fn single(
    alloc: Global,
    mean: Decimal,
    variance: Option<Decimal>,
    stock: u8,
) -> Result<TaskOutcome, Stop<Failure>>
    requires { IsInRange (order.Single mean variance stock) }
    ensures { MakesBy (Is (single_task mean.units (variance_of mean variance).units stock)) result }
{
    let variance = variance.unwrap_or(mean);
    if let Err(fault) = check_single(mean, variance) {
        return Err(Stop::Fault(Failure::of(Refusal::Rate(fault))));
    }
    let report = single_report(alloc, mean, variance, stock)?;
    Ok(TaskOutcome::printed(Done::Single(report)))
}
