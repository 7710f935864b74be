//! The plan of a case.

ghost use Rattle.std.specs.Prelude.{◌≡◌, ◌^◌, ◌<◌, ◌≤◌, List, IfOk, IfSome, length, get_or, option_map};
ghost use Rattle.spares_input.specs.Money.{most_budget};
ghost use Rattle.demand_rates.specs.Limits.{rate_fault_of};
ghost use Rattle.demand_rates.specs.Rates.{AreRatesOf};
ghost use Rattle.family_items.specs.Profile.{families_of};
ghost use Rattle.hull.specs.declared.point.Point.{Point};
ghost use Rattle.fleet_model.specs.Rows.{line_units};
ghost use Rattle.fleet_plan.specs.Plans.{line_of_family};
ghost use Rattle.case_plan.specs.Chosen.{FitsCase, IsChosen};
ghost use Rattle.case_plan.specs.Outcomes.{chosen_outcome, IsOutcomeOf};
ghost use Rattle.case_plan.specs.Report.{if_asked, step_line, AreFamilyCurves, IsPlanOf};

use crate::chosen::{ChosenStocks, filled};
use crate::numbers::{floors_at, hull_numbers};
use crate::outcome::Outcome;
use crate::request::Request;
use answers::{List, NoMemory};
use case_figures::figures_with_cost;
use demand_rates::kinds::Rates;
use family_eval::evaluate_all;
use family_items::FamilyResult;
use fixed_interval::Iv;
use hull::{Curve, Price};
use marginal_alloc::{allocate_near, fill};
use plan_report::{CriticalLine, PlanReport};
use spares_input::{Case, PartId};
use std::alloc::Global;

/// The line unit with this index among the line units.
fn line_at(case: &Case, place: u32) -> PartId
    requires { place < length (line_units case.now) }
    ensures { result.0 ≡ get_or (line_units case.now) place 0 }
{
    let lines = case.line_units();
    lines[place as usize]
}

/// The report line of the critical step's family, if there is one.
fn line_of(case: &Case, critical: Option<u32>, price: Price) -> Option<CriticalLine>
    requires { IfSome critical (λ family. family < length (line_units case.now)) }
    ensures { result ≡ option_map (step_line case.now price.q) (option_map (line_of_family case.now) critical) }
{
    let Some(family) = critical else {
        return None;
    };
    let line = line_at(case, family);
    Some(CriticalLine {
        part: case.part(line).name,
        cost: price.q,
    })
}

/// The ends of the aim, if the report asks for them.
fn aim_of(asked: bool, lower: u128, upper: u128) -> Option<Iv<48>>
    requires ordered { lower ≤ upper }
    requires room { upper < 2 ^ 86 }
    ensures { result ≡ if_asked asked (record { lo = lower; hi = upper }) }
{
    if asked {
        Some(Iv::of_ends(lower, upper))
    } else {
        None
    }
}

/// Stocks for a case under a budget in whole money, from a curve for each line unit in order.
///
/// Each curve begins at cost 0, and the stocks of its points are vectors of its family within the limits. The choice is
/// the one plan of all the points that these curves summarise. `near` guesses the plan's price, in units of 2^-48 for
/// whole money; it changes no answer, and a guess slightly above the price saves time. Want of memory is the only
/// error.
pub fn choose_stocks(
    alloc: Global,
    case: &Case,
    curves: &[Curve],
    budget: u64,
    near: u128,
) -> Result<ChosenStocks, NoMemory>
    requires budget { budget ≤ most_budget }
    requires curves { AreFamilyCurves case.now curves.now }
    ensures fits { IfOk result (FitsCase case.now) }
    ensures chosen { IfOk result (IsChosen case.now curves.now budget) }
{
    case.invariant();
    let chosen = allocate_near(alloc, curves, budget, near)?;
    let cost = chosen.cost;
    let price = chosen.price;
    let critical = chosen.critical;
    let mut picks = chosen.picks.into_vec();
    let hull = hull_numbers(curves, picks.as_slice(), cost, price, critical, budget);
    let floors = floors_at(alloc, curves, picks.as_slice(), price)?;
    fill(curves, &mut picks, budget);
    let stocks = filled(alloc, case, curves, picks.as_slice(), floors, hull)?;
    Ok(stocks)
}

/// The outcome of chosen stocks, from the families' evaluation at these stocks.
///
/// If the stocks were chosen from curves, the outcome is their plan's, as [`plan`] returns it for this request. Want of
/// memory is the only error.
pub fn outcome_at(
    alloc: Global,
    case: &Case,
    chosen: ChosenStocks,
    families: &[FamilyResult<48>],
    request: Request,
) -> Result<Outcome, NoMemory>
    requires rates { rate_fault_of case.now ≡ None }
    requires fits { FitsCase case.now chosen }
    requires families { families.now ≡ families_of 48 case.now chosen.stocks }
    ensures chosen { IfOk result (λ outcome. outcome ≡ chosen_outcome case.now request chosen) }
    ensures case { IfOk result (λ outcome. (curves : List (List Point)) → IsChosen case.now curves request.budget chosen
        → IsPlanOf case.now curves request outcome) }
{
    case.invariant();
    let numbers = chosen.numbers;
    let figures = figures_with_cost(alloc, case, families, numbers.cost)?;
    let report = PlanReport {
        budget: request.budget,
        figures,
        on_hand: request.on_hand,
        loss: aim_of(request.loss, chosen.lower, numbers.upper),
        bound: numbers.bound,
        gap: numbers.gap,
        rounding: numbers.rounding,
        price: numbers.price,
        hull: numbers.hull_cost,
        critical: line_of(case, numbers.critical, numbers.price),
    };
    Ok(Outcome {
        report,
        stocks: chosen.stocks,
        price: numbers.price,
        floors: List::of(chosen.floors),
        upper: numbers.upper,
    })
}

/// The outcome of chosen stocks, as [`outcome_at`] returns it, from an evaluation of all families at these stocks. Want
/// of memory is the only error.
pub fn evaluated_outcome(
    alloc: Global,
    case: &Case,
    rates: &Rates,
    chosen: ChosenStocks,
    request: Request,
) -> Result<Outcome, NoMemory>
    requires rates { AreRatesOf case.now rates.now }
    requires fits { FitsCase case.now chosen }
    ensures chosen { IfOk result (λ outcome. outcome ≡ chosen_outcome case.now request chosen) }
    ensures case { IfOk result (λ outcome. (curves : List (List Point)) → IsChosen case.now curves request.budget chosen
        → IsPlanOf case.now curves request outcome) }
{
    case.invariant();
    let families = evaluate_all::<48>(alloc, case, rates, &chosen.stocks)?;
    outcome_at(alloc, case, chosen, families.as_slice(), request)
}

/// The plan of a case under a budget in whole money, from a curve for each line unit in order.
///
/// Each curve begins at cost 0, and the stocks of its points are vectors of its family within the limits. The outcome
/// is the one plan of all the points that these curves summarise, whatever the points. If they are the points of the
/// case's families from held stocks, it is the case's plan from these stocks. If `loss` is set, the report has the ends
/// of the curves' aim as a loss. `on_hand` is copied into the report. Want of memory is the only error.
pub fn plan(
    alloc: Global,
    case: &Case,
    rates: &Rates,
    curves: &[Curve],
    budget: u64,
    loss: bool,
    on_hand: Option<u64>,
) -> Result<Outcome, NoMemory>
    requires rates { AreRatesOf case.now rates.now }
    requires budget { budget ≤ most_budget }
    requires curves { AreFamilyCurves case.now curves.now }
    ensures curves { IfOk result (IsOutcomeOf case.now curves.now
        (record { budget = budget; loss = loss; on_hand = on_hand })) }
    ensures case { IfOk result (IsPlanOf case.now curves.now
        (record { budget = budget; loss = loss; on_hand = on_hand })) }
{
    let chosen = choose_stocks(alloc, case, curves, budget, 0)?;
    let request = Request {
        budget,
        loss,
        on_hand,
    };
    evaluated_outcome(alloc, case, rates, chosen, request)
}
