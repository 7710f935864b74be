//! The curves, and the parts of curves, that a session keeps.

ghost use Rattle.std.specs.Prelude.{◌≡◌, ◌==◌, ◌<◌, ◌≤◌, List, [], None, true, length, position, replicate, All, IfOk, IfSome, IsSome, OnOk};
ghost use Rattle.std.specs.Result.{IsOk};
ghost use Rattle.spares_input.specs.Money.{most_budget};
ghost use Rattle.fleet_model.specs.Rows.{line_units};
ghost use Rattle.demand_rates.specs.Rates.{AreRatesOf};
ghost use Rattle.family_items.specs.Inputs.{IsLine};
ghost use Rattle.family_points.specs.Counts.{work_of};
ghost use Rattle.family_points.specs.Local.{home_of};
ghost use Rattle.hull.specs.declared.point.Point.{Point};
ghost use Rattle.marginal_alloc.specs.Choice.{AreCurves};
ghost use Rattle.fleet_plan.specs.Families.{case_points};
ghost use Rattle.held_work.specs.Curves.{IsFamilyCurve};
ghost use Rattle.case_plan.specs.Chosen.{FitsCase, IsChosen};
ghost use Rattle.family_points.specs.Points.{plain_ends};
ghost use Rattle.session_plans.specs.Sessions.{family_place, marks_of, AreKept, AreLater, ArePartsKept};
ghost use Rattle.session_plans.specs.Settling.{values_of};

use crate::values::{all_taken, no_values, put_back};
use answers::NoMemory;
use case_plan::{ChosenStocks, choose_stocks};
use demand_rates::kinds::Rates;
use family_curve::curve;
use held_plan::{CurveMaker, KeptParts, choose_by_kept_parts};
use hull::{Curve, Plain};
use spares_input::{Case, PartId, nothing_held};
use std::alloc::Global;

/// No curve is kept.
pub(crate) fn nothing_kept(alloc: Global, case: &Case) -> Result<Vec<Option<Curve>>, NoMemory>
    ensures { IfOk result (λ curves. curves.items ≡ replicate (length (line_units case.now)) None) }
{
    let lines = case.line_units();
    no_values(alloc, lines.len())
}

/// The line unit of the family of a part.
fn home_of(case: &Case, part: PartId) -> PartId
    requires { part.0 < length case.now.parts }
    ensures home { result.0 ≡ home_of case.now part.0 }
    ensures line { IsLine case.now result.0 }
{
    match case.parent(part) {
        Some(line) => line,
        None => part,
    }
}

/// The place of a line unit among these.
fn place_in(lines: &[PartId], line: PartId) -> Option<usize>
    ensures { result ≡ position (λ q. q.0 == line.0) lines.now }
{
    lines.iter().position(|q| q.0 == line.0)
}

/// The index of the family of a part.
pub(crate) fn place_of(case: &Case, part: PartId) -> usize
    requires { part.0 < length case.now.parts }
    ensures place { result ≡ family_place case.now part.0 }
    ensures within { result < length (line_units case.now) }
{
    case.invariant();
    match place_in(case.line_units(), home_of(case, part)) {
        Some(place) => place,
        None => 0,
    }
}

/// Computes and keeps the curve of a family, unless it is kept.
fn keep(
    alloc: Global,
    case: &Case,
    rates: &Rates,
    line: PartId,
    kept: &mut Option<Curve>,
) -> Result<(), NoMemory>
    requires rates { AreRatesOf case.now rates.now }
    requires work { IsOk (work_of case.now) }
    requires line { IsLine case.now line.0 }
    requires kept { IfSome kept.old (IsFamilyCurve plain_ends case.now [] line.0) }
    ensures kept { IfSome kept.new (IsFamilyCurve plain_ends case.now [] line.0) }
    ensures later { IsSome kept.old → IsSome kept.new }
    ensures on { OnOk result (IsSome kept.new) }
{
    case.invariant();
    if kept.is_none() {
        let found = curve(alloc, case, rates, line, &Plain)?;
        *kept = Some(found);
    }
    Ok(())
}

/// Computes and keeps each curve that isn't kept, in order.
pub(crate) fn keep_all(
    alloc: Global,
    case: &Case,
    rates: &Rates,
    curves: &mut [Option<Curve>],
) -> Result<(), NoMemory>
    requires rates { AreRatesOf case.now rates.now }
    requires work { IsOk (work_of case.now) }
    requires kept { AreKept case.now curves.old }
    ensures kept { AreKept case.now curves.new }
    ensures later { AreLater (marks_of curves.old) (marks_of curves.new) }
    ensures on { OnOk result (marks_of curves.new ≡ replicate (length (line_units case.now)) true) }
{
    let lines = case.line_units();
    for place in 0..lines.len() {
        keep(alloc, case, rates, lines[place], &mut curves[place])?;
    }
    Ok(())
}

/// The stocks that the curves of all families choose. `near` guesses the plan's price. Each curve stays kept, also if
/// memory is wanted.
pub(crate) fn chosen_by(
    alloc: Global,
    case: &Case,
    kept: &mut [Option<Curve>],
    budget: u64,
    near: u128,
) -> Result<ChosenStocks, NoMemory>
    requires budget { budget ≤ most_budget }
    requires all { All IsSome kept.old }
    requires kept { AreKept case.now kept.old }
    ensures kept { kept.new ≡ kept.old }
    ensures fits { IfOk result (FitsCase case.now) }
    ensures chosen { IfOk result (IsChosen case.now (values_of kept.old) budget) }
{
    match all_taken(alloc, kept) {
        Ok(curves) => {
            let chosen = choose_stocks(alloc, case, curves.as_slice(), budget, near);
            put_back(kept, curves);
            chosen
        }
        Err(no_memory) => Err(no_memory),
    }
}

/// The stocks that parts of the curves of all families choose, if some serve. Parts that were used stay kept.
pub(crate) fn chosen_by_parts<M: CurveMaker>(
    alloc: Global,
    case: &Case,
    rates: &Rates,
    maker: &M,
    parts: &mut KeptParts,
    budget: u64,
) -> Result<Option<ChosenStocks>, NoMemory>
    requires rates { AreRatesOf case.now rates.now }
    requires work { IsOk (work_of case.now) }
    requires budget { budget ≤ most_budget }
    requires parts { ArePartsKept case.now parts.old }
    ensures parts { ArePartsKept case.now parts.new }
    ensures fits { IfOk result (λ found. IfSome found (FitsCase case.now)) }
    ensures chosen { (curves : List (List Point)) → AreCurves (case_points plain_ends case.now []) curves
        → IfOk result (λ found. IfSome found (IsChosen case.now curves budget)) }
{
    case.invariant();
    let held = nothing_held(alloc, case)?;
    choose_by_kept_parts(alloc, case, rates, &held, &Plain, maker, parts, budget)
}
