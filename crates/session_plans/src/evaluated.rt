//! The evaluations that a session keeps.

ghost use Rattle.std.specs.Prelude.{◌≡◌, ◌<◌, ℕ, List, [], None, Some, true, length, map, IfOk, IfSome, IsSome, OnOk};
ghost use Rattle.spares_input.specs.Stocks.{stock_at, HasPair, IsFor};
ghost use Rattle.fleet_model.specs.Rows.{line_units};
ghost use Rattle.demand_rates.specs.Limits.{rate_fault_of};
ghost use Rattle.demand_rates.specs.Rates.{AreRatesOf};
ghost use Rattle.family_items.specs.Encloses.{CanEvaluate};
ghost use Rattle.family_items.specs.Inputs.{IsLine};
ghost use Rattle.family_items.specs.Profile.{families_of};
ghost use Rattle.family_points.specs.Points.{plain_ends};
ghost use Rattle.hull.specs.declared.point.Point.{Point};
ghost use Rattle.marginal_alloc.specs.Choice.{AreCurves};
ghost use Rattle.fleet_plan.specs.Families.{case_points};
ghost use Rattle.case_plan.specs.Chosen.{FitsCase, IsChosen};
ghost use Rattle.case_plan.specs.Report.{IsPlanOf};
ghost use Rattle.session_report.specs.Reports.{IsReportOf};
ghost use Rattle.session_plans.specs.Sessions.{AreEvaluated, AreOfFamilies, IsEvaluation};
ghost use Rattle.session_plans.specs.Settling.{AreSettled};

use crate::kept::place_of;
use crate::values::{all_taken, no_values, put_back};
use answers::NoMemory;
use case_plan::{ChosenStocks, Outcome, Request, outcome_at};
use demand_rates::kinds::Rates;
use family_eval::evaluate;
use family_items::FamilyResult;
use plan_report::PlanReport;
use spares_input::{Case, PartId, SiteId, Stocks, nothing_held};
use std::alloc::Global;

/// The stocks of a session's last plan, and the evaluation of each family at these stocks, if it is kept.
#[derive(Drop)]
pub(crate) struct Evaluated {
    pub stocks: Stocks,
    pub families: Vec<Option<FamilyResult<48>>>,
}

/// No family is evaluated.
pub(crate) fn nothing_evaluated(alloc: Global, case: &Case) -> Result<Evaluated, NoMemory>
    ensures { IfOk result (AreEvaluated case.now) }
{
    let lines = case.line_units();
    let stocks = nothing_held(alloc, case)?;
    let families = no_values(alloc, lines.len())?;
    Ok(Evaluated { stocks, families })
}

/// A copy of stocks.
fn copied(alloc: Global, stocks: &Stocks, sites: u8) -> Result<Stocks, NoMemory>
    requires { stocks.now.sites ≡ sites }
    ensures { IfOk result (λ copy. copy ≡ stocks.now) }
{
    let list = stocks.as_slice().to_vec(alloc)?;
    Ok(Stocks::of(list, sites))
}

/// True only if a part has the same stocks in both at each of the `sites` sites.
fn is_stocked_alike(old: &Stocks, new: &Stocks, part: PartId, sites: u8) -> bool
    requires old { (k : ℕ) → k < sites → HasPair old.now part.0 k }
    requires new { (k : ℕ) → k < sites → HasPair new.now part.0 k }
    ensures { result ≡ true → (k : ℕ) → k < sites → stock_at old.now part.0 k ≡ stock_at new.now part.0 k }
{
    for k in 0..sites {
        let site = SiteId(k);
        if old.get(part, site) != new.get(part, site) {
            return false;
        }
    }
    true
}

/// Forgets the evaluation of each family with a part whose stocks differ.
fn settle(case: &Case, old: &Stocks, new: &Stocks, families: &mut [Option<FamilyResult<48>>])
    requires count { length families.old ≡ length (line_units case.now) }
    requires old { IsFor case.now old.now }
    requires new { IsFor case.now new.now }
    ensures { AreSettled case.now old.now new.now families.old families.new (length case.now.parts) }
{
    let sites = case.site_count();
    for p in 0..case.part_count() {
        let part = PartId(p);
        if !is_stocked_alike(old, new, part, sites) {
            families[place_of(case, part)] = None;
        }
    }
}

/// Evaluates a family at these stocks, unless its evaluation is kept.
fn renew(
    alloc: Global,
    case: &Case,
    rates: &Rates,
    stocks: &Stocks,
    line: PartId,
    kept: &mut Option<FamilyResult<48>>,
) -> Result<(), NoMemory>
    requires inputs { CanEvaluate 48 case.now stocks.now }
    requires rates { AreRatesOf case.now rates.now }
    requires line { IsLine case.now line.0 }
    requires kept { IfSome kept.old (IsEvaluation case.now stocks.now line.0) }
    ensures kept { IfSome kept.new (IsEvaluation case.now stocks.now line.0) }
    ensures later { IsSome kept.old → IsSome kept.new }
    ensures on { OnOk result (IsSome kept.new) }
{
    if kept.is_none() {
        let found = evaluate::<48>(alloc, case, rates, line, stocks)?;
        *kept = Some(found);
    }
    Ok(())
}

/// Evaluates each family at these stocks whose evaluation isn't kept, in order.
fn renew_all(
    alloc: Global,
    case: &Case,
    rates: &Rates,
    stocks: &Stocks,
    families: &mut [Option<FamilyResult<48>>],
) -> Result<(), NoMemory>
    requires inputs { CanEvaluate 48 case.now stocks.now }
    requires rates { AreRatesOf case.now rates.now }
    requires kept { AreOfFamilies (IsEvaluation case.now stocks.now) case.now families.old }
    ensures kept { AreOfFamilies (IsEvaluation case.now stocks.now) case.now families.new }
    ensures all { OnOk result (families.new ≡ map Some (families_of 48 case.now stocks.now)) }
{
    let lines = case.line_units();
    for place in 0..lines.len() {
        renew(
            alloc,
            case,
            rates,
            stocks,
            lines[place],
            &mut families[place],
        )?;
    }
    Ok(())
}

/// Evaluates the case at these stocks: each family whose evaluation isn't kept or whose stocks have changed.
fn evaluate_at(
    alloc: Global,
    case: &Case,
    rates: &Rates,
    stocks: &Stocks,
    evaluated: &mut Evaluated,
) -> Result<(), NoMemory>
    requires inputs { CanEvaluate 48 case.now stocks.now }
    requires rates { AreRatesOf case.now rates.now }
    requires kept { AreEvaluated case.now evaluated.old }
    ensures kept { AreEvaluated case.now evaluated.new }
    ensures all { OnOk result (evaluated.new.families.items ≡ map Some (families_of 48 case.now stocks.now)) }
{
    match copied(alloc, stocks, case.site_count()) {
        Ok(copy) => {
            settle(case, &evaluated.stocks, stocks, &mut evaluated.families);
            evaluated.stocks = copy;
            renew_all(alloc, case, rates, stocks, &mut evaluated.families)
        }
        Err(no_memory) => Err(no_memory),
    }
}

/// The outcome of chosen stocks at which all families are evaluated. Each evaluation stays kept, also if memory is
/// wanted.
fn outcome_by(
    alloc: Global,
    case: &Case,
    chosen: ChosenStocks,
    kept: &mut [Option<FamilyResult<48>>],
    request: Request,
) -> Result<Outcome, NoMemory>
    requires rates { rate_fault_of case.now ≡ None }
    requires fits { FitsCase case.now chosen }
    requires all { kept.old ≡ map Some (families_of 48 case.now chosen.stocks) }
    ensures kept { kept.new ≡ kept.old }
    ensures case { IfOk result (λ outcome. (curves : List (List Point)) → IsChosen case.now curves request.budget chosen
        → IsPlanOf case.now curves request outcome) }
{
    match all_taken(alloc, kept) {
        Ok(families) => {
            let outcome = outcome_at(alloc, case, chosen, families.as_slice(), request);
            put_back(kept, families);
            outcome
        }
        Err(no_memory) => {
            drop(chosen);
            Err(no_memory)
        }
    }
}

/// The report of chosen stocks at which all families are evaluated, by weighted backorders under a budget. Each
/// evaluation stays kept, also if memory is wanted.
fn report_by(
    alloc: Global,
    case: &Case,
    chosen: ChosenStocks,
    kept: &mut [Option<FamilyResult<48>>],
    budget: u64,
) -> Result<PlanReport, NoMemory>
    requires rates { rate_fault_of case.now ≡ None }
    requires fits { FitsCase case.now chosen }
    requires all { kept.old ≡ map Some (families_of 48 case.now chosen.stocks) }
    ensures kept { kept.new ≡ kept.old }
    ensures report { IfOk result (λ report. (curves : List (List Point))
        → AreCurves (case_points plain_ends case.now []) curves → IsChosen case.now curves budget chosen
        → IsReportOf (record { case = case.now; budget = budget }) report) }
{
    case.invariant();
    let request = Request {
        budget,
        loss: false,
        on_hand: None,
    };
    match outcome_by(alloc, case, chosen, kept, request) {
        Ok(outcome) => Ok(outcome.report),
        Err(no_memory) => Err(no_memory),
    }
}

/// The report of chosen stocks, by weighted backorders under a budget. Each evaluation at these stocks stays kept, also
/// if memory is wanted.
pub(crate) fn report_of(
    alloc: Global,
    case: &Case,
    rates: &Rates,
    chosen: ChosenStocks,
    budget: u64,
    evaluated: &mut Evaluated,
) -> Result<PlanReport, NoMemory>
    requires rates { AreRatesOf case.now rates.now }
    requires fits { FitsCase case.now chosen }
    requires kept { AreEvaluated case.now evaluated.old }
    ensures kept { AreEvaluated case.now evaluated.new }
    ensures report { IfOk result (λ report. (curves : List (List Point))
        → AreCurves (case_points plain_ends case.now []) curves → IsChosen case.now curves budget chosen
        → IsReportOf (record { case = case.now; budget = budget }) report) }
{
    case.invariant();
    match evaluate_at(alloc, case, rates, &chosen.stocks, evaluated) {
        Ok(()) => report_by(alloc, case, chosen, &mut evaluated.families, budget),
        Err(no_memory) => {
            drop(chosen);
            Err(no_memory)
        }
    }
}
