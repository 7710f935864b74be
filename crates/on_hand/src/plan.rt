//! The plan of a case, with no curves passed in.

ghost use Rattle.std.specs.Prelude.{◌≤◌, IfOk};
ghost use Rattle.std.specs.Result.{IsOk};
ghost use Rattle.demand_rates.specs.Rates.{AreRatesOf};
ghost use Rattle.spares_input.specs.Money.{most_budget};
ghost use Rattle.spares_input.specs.Stocks.{AreStocksOf};
ghost use Rattle.held_work.specs.Work.{held_work_of};
ghost use Rattle.case_plan.specs.Report.{IsOutcome};

use crate::maker::FamilyCurves;
use answers::NoMemory;
use case_plan::{Outcome, Request};
use demand_rates::kinds::Rates;
use hull::Score;
use spares_input::{Case, Stocks};
use std::alloc::Global;

/// The plan of a case as it is asked for, from held stocks: a list for the case, within the limits. If nothing is held,
/// the list is zeros.
///
/// It is the one plan of all vectors of the families from the held stocks to the limits, reported as `plan` of
/// `case_plan` does. The work from the held stocks is within its limit. Want of memory is the only error.
pub fn plan_case<S: Score>(
    alloc: Global,
    case: &Case,
    rates: &Rates,
    held: &Stocks,
    score: &S,
    request: Request,
) -> Result<Outcome, NoMemory>
    requires rates { AreRatesOf case.now rates.now }
    requires held { AreStocksOf case.now held.now }
    requires work { IsOk (held_work_of case.now held.now.list) }
    requires budget { request.budget ≤ most_budget }
    ensures { IfOk result (IsOutcome S.ends case.now held.now.list request) }
{
    held_plan::plan_case(alloc, case, rates, held, score, &FamilyCurves, request)
}
