//! The cases of tables: with stocks, for a plan, and for edits.
ghost use Rattle.std.specs.Prelude.{IfOk};
ghost use Rattle.std.specs.Result.{IsOk};
ghost use Rattle.answers.specs.Answers.{Gives};
ghost use Rattle.case_tables.specs.Answers.{Tells, TellsStocked};
ghost use Rattle.family_points.specs.Counts.{work_of};
ghost use Rattle.refusals.specs.Causes.{or_refuse};
ghost use Rattle.refusals.specs.Lines.{no_names};
ghost use Rattle.refusals.specs.declared.refusal.Refusal.TheVariants as refusal;
ghost use Rattle.order_inputs.specs.Cases.{case_to_edit, case_within_work, stocked_by};
ghost use Rattle.order_inputs.specs.Given.{CanPlan, IsStocked, bytes_of};

use crate::tables::{Table, Tables};
use answers::Stop;
use case_tables::{AcceptedCase, Stocked, accepted_of, case_of, stocked_of};
use family_points::work;
use refusals::{Failure, File, Refusal};
use spares_input::Case;
use std::alloc::Global;

/// The count of backorder tables that curves take. `Work` if it is above the limit.
pub fn few_tables(work: Result<u64, u64>) -> Result<u64, Stop<Failure>>
    ensures { Gives (or_refuse no_names refusal.Work work) result }
{
    match work {
        Ok(count) => Ok(count),
        Err(count) => Err(Stop::Fault(Failure::of(Refusal::Work(count)))),
    }
}

/// The case of tables and the stocks of one more table, which is this file. The first fault of the tables is refused,
/// and then `Rate` if a pipeline is beyond the limits of the model.
pub fn stocked(
    alloc: Global,
    tables: &Tables<'_>,
    file: File,
    stocks: &Table<'_>,
) -> Result<Stocked, Stop<Failure>>
    ensures answer { TellsStocked (stocked_by file (bytes_of tables.now) stocks.now.bytes.now) result }
    ensures given { IfOk result IsStocked }
{
    let (sites, parts) = (tables.sites.bytes, tables.parts.bytes);
    stocked_of(alloc, sites, parts, tables.rates.bytes, file, stocks.bytes)
}

/// The case of tables. The first fault of the tables is refused, then `Rate` if a pipeline is beyond the limits of the
/// model, and then `Work` if its curves take too many tables.
pub fn case_within_work(alloc: Global, tables: &Tables<'_>) -> Result<AcceptedCase, Stop<Failure>>
    ensures answer { Tells (case_within_work (bytes_of tables.now)) result }
    ensures given { IfOk result CanPlan }
{
    let (sites, parts) = (tables.sites.bytes, tables.parts.bytes);
    let given = accepted_of(alloc, sites, parts, tables.rates.bytes)?;
    given.case.invariant();
    few_tables(work(&given.case)).and(Ok(given))
}

/// The case of tables. The first fault of the tables is refused, and then `Work` if its curves take too many tables.
/// Its rates may be beyond the limits of the model: edits may change them before a plan.
pub fn case_to_edit(alloc: Global, tables: &Tables<'_>) -> Result<Case, Stop<Failure>>
    ensures answer { Gives (case_to_edit (bytes_of tables.now)) result }
    ensures work { IfOk result (λ case. IsOk (work_of case)) }
{
    let (sites, parts) = (tables.sites.bytes, tables.parts.bytes);
    let case = case_of(alloc, sites, parts, tables.rates.bytes)?;
    few_tables(work(&case)).and(Ok(case))
}
