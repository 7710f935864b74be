//! The plan of a case, with no curves passed in.

ghost use Rattle.std.specs.Prelude.{◌<◌, ◌≤◌, List, IfOk, IfSome};
ghost use Rattle.std.specs.Result.{IsOk};
ghost use Rattle.spares_input.specs.Money.{most_budget};
ghost use Rattle.spares_input.specs.Stocks.{AreStocksOf};
ghost use Rattle.demand_rates.specs.Rates.{AreRatesOf};
ghost use Rattle.hull.specs.declared.point.Point.{Point};
ghost use Rattle.hull.specs.Limits.{most_price_units};
ghost use Rattle.marginal_alloc.specs.Choice.{AreCurves};
ghost use Rattle.part_filling.specs.Known.{IsPriceWindow};
ghost use Rattle.fleet_plan.specs.Families.{case_points};
ghost use Rattle.held_work.specs.Work.{held_work_of};
ghost use Rattle.case_plan.specs.Chosen.{FitsCase, IsChosen};
ghost use Rattle.case_plan.specs.Report.{IsOutcome};
ghost use Rattle.held_plan.specs.Kept.{AreKeptParts};

use crate::curves::whole_curves;
use crate::families::HeldFamilies;
use crate::guess::guess;
use crate::kept::KeptParts;
use crate::maker::CurveMaker;
use answers::NoMemory;
use case_plan::{ChosenStocks, Outcome, Request, evaluated_outcome, plan};
use demand_rates::kinds::Rates;
use held_work::held_work;
use hull::{Price, Score};
use part_filling::Window;
use spares_input::{Case, Stocks};
use std::alloc::Global;

/// With fewer families a guess of the price costs more than parts of curves save.
const MANY: u32 = 48;

/// With fewer tables of backorders it does so too.
const MANY_TABLES: u64 = 20_000;

/// With as many families the sample is large enough for a close guess.
const ENOUGH: u32 = 500;

/// The prices from one to another, in units of 2^-48 for whole money.
fn window_of(low: u128, high: u128) -> Window
    requires positive { 0 < low }
    requires order { low ≤ high }
    requires most { high ≤ most_price_units }
    ensures { IsPriceWindow result.low result.high }
{
    Window {
        low: Price { p: low, q: 1 },
        high: Price { p: high, q: 1 },
    }
}

/// Whether parts of curves are likely to cost less work than whole ones.
fn are_parts_cheaper<S: Score, M: CurveMaker>(families: &HeldFamilies<'_, S, M>) -> bool {
    if families.count() < MANY {
        return false;
    }
    match held_work(families.case(), families.held()) {
        Ok(tables) => tables >= MANY_TABLES,
        Err(_) => true,
    }
}

/// Windows of prices near the one at which the budget is about spent: a close one, and a wide one around it. None if
/// nearly all is bought. Want of memory is the only error.
fn windows_near<S: Score, M: CurveMaker>(
    alloc: Global,
    families: &HeldFamilies<'_, S, M>,
    budget: u64,
) -> Result<Option<(Window, Window)>, NoMemory>
    ensures close { IfOk result (λ found. IfSome found (λ x. IsPriceWindow x.0.low x.0.high)) }
    ensures wide { IfOk result (λ found. IfSome found (λ x. IsPriceWindow x.1.low x.1.high)) }
{
    let Some(price) = guess(alloc, families, budget)? else {
        return Ok(None);
    };
    let close = if families.count() < ENOUGH {
        window_of(price * 5 / 8, price * 13 / 8)
    } else {
        window_of(price * 3 / 4, price * 17 / 16)
    };
    let wide = window_of(price / 2, price * 4);
    Ok(Some((close, wide)))
}

/// The stocks that parts of the curves choose: in the window of the kept parts, or, if none is kept, in one near the
/// price at which the budget is about spent. None if whole curves likely cost less work: if there are few tables, if
/// nearly all is bought, if the price left the window of the kept parts, or if the guess of the price is wrong.
fn choose_near<S: Score, M: CurveMaker>(
    alloc: Global,
    families: &HeldFamilies<'_, S, M>,
    kept: &mut KeptParts,
    budget: u64,
) -> Result<Option<ChosenStocks>, NoMemory>
    requires budget { budget ≤ most_budget }
    requires kept { AreKeptParts (case_points S.ends families.now.case families.now.held.list) kept.old }
    ensures kept { AreKeptParts (case_points S.ends families.now.case families.now.held.list) kept.new }
    ensures fits { IfOk result (λ found. IfSome found (FitsCase families.now.case)) }
    ensures chosen { (curves : List (List Point))
        → AreCurves (case_points S.ends families.now.case families.now.held.list) curves
        → IfOk result (λ found. IfSome found (IsChosen families.now.case curves budget)) }
{
    if !are_parts_cheaper(families) {
        return Ok(None);
    }
    if kept.has_parts() {
        return kept.choose_again(alloc, families, budget);
    }
    let Some((close, wide)) = windows_near(alloc, families, budget)? else {
        return Ok(None);
    };
    if let Some(chosen) = kept.choose_anew(alloc, families, close, budget)? {
        return Ok(Some(chosen));
    }
    kept.choose_anew(alloc, families, wide, budget)
}

/// Stocks for a case under a budget in whole money, from held stocks, by parts of the curves.
///
/// They are those of the one plan of all vectors of the families from the held stocks to the limits. Parts that are
/// kept serve while the plan's price lies between their prices, and the parts that were used are kept for the next
/// call. None if whole curves likely cost less work, or if the plan's price doesn't lie there. What the case and the
/// held stocks must meet is as of [`plan_case`]. Want of memory is the only error.
pub fn choose_by_kept_parts<S: Score, M: CurveMaker>(
    alloc: Global,
    case: &Case,
    rates: &Rates,
    held: &Stocks,
    score: &S,
    maker: &M,
    kept: &mut KeptParts,
    budget: u64,
) -> Result<Option<ChosenStocks>, NoMemory>
    requires rates { AreRatesOf case.now rates.now }
    requires held { AreStocksOf case.now held.now }
    requires work { IsOk (held_work_of case.now held.now.list) }
    requires budget { budget ≤ most_budget }
    requires kept { AreKeptParts (case_points S.ends case.now held.now.list) kept.old }
    ensures kept { AreKeptParts (case_points S.ends case.now held.now.list) kept.new }
    ensures fits { IfOk result (λ found. IfSome found (FitsCase case.now)) }
    ensures chosen { (curves : List (List Point)) → AreCurves (case_points S.ends case.now held.now.list) curves
        → IfOk result (λ found. IfSome found (IsChosen case.now curves budget)) }
{
    let families = HeldFamilies::of(case, rates, held, score, maker);
    choose_near(alloc, &families, kept, budget)
}

/// The plan by parts of the curves. None if whole curves likely cost less work, nearly all is bought, or the guess of
/// the price is wrong.
fn plan_by_parts<S: Score, M: CurveMaker>(
    alloc: Global,
    families: &HeldFamilies<'_, S, M>,
    request: Request,
) -> Result<Option<Outcome>, NoMemory>
    requires budget { request.budget ≤ most_budget }
    ensures { IfOk result (λ found. IfSome found
        (IsOutcome S.ends families.now.case families.now.held.list request)) }
{
    let (case, rates) = (families.case(), families.rates());
    let mut kept = KeptParts::new(alloc, families.count() as usize)?;
    let Some(chosen) = choose_near(alloc, families, &mut kept, request.budget)? else {
        return Ok(None);
    };
    let outcome = evaluated_outcome(alloc, case, rates, chosen, request)?;
    Ok(Some(outcome))
}

/// The plan by the whole curves.
fn plan_by_curves<S: Score, M: CurveMaker>(
    alloc: Global,
    families: &HeldFamilies<'_, S, M>,
    request: Request,
) -> Result<Outcome, NoMemory>
    requires budget { request.budget ≤ most_budget }
    ensures { IfOk result (IsOutcome S.ends families.now.case families.now.held.list request) }
{
    let Request {
        budget,
        loss,
        on_hand,
    } = request;
    let case = families.case();
    let rates = families.rates();
    let curves = whole_curves(alloc, families)?;
    plan(alloc, case, rates, curves.as_slice(), budget, loss, on_hand)
}

/// The plan of a case as it is asked for, from held stocks: a list for the case, within the limits. If nothing is held,
/// the list is zeros.
///
/// It is the one plan of all vectors of the families from the held stocks to the limits, reported as [`plan`] does. The
/// work from the held stocks is within its limit. Want of memory is the only error.
pub fn plan_case<S: Score, M: CurveMaker>(
    alloc: Global,
    case: &Case,
    rates: &Rates,
    held: &Stocks,
    score: &S,
    maker: &M,
    request: Request,
) -> Result<Outcome, NoMemory>
    requires rates { AreRatesOf case.now rates.now }
    requires held { AreStocksOf case.now held.now }
    requires work { IsOk (held_work_of case.now held.now.list) }
    requires budget { request.budget ≤ most_budget }
    ensures { IfOk result (IsOutcome S.ends case.now held.now.list request) }
{
    let families = HeldFamilies::of(case, rates, held, score, maker);
    if let Some(outcome) = plan_by_parts(alloc, &families, request)? {
        return Ok(outcome);
    }
    plan_by_curves(alloc, &families, request)
}
