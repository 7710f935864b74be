//! The curves of a case that begin at the held stocks.

ghost use Rattle.std.specs.Prelude.{◌≡◌, ◌≤◌, IfOk, length, take};
ghost use Rattle.std.specs.List.{AllZip};
ghost use Rattle.std.specs.Result.{IsOk};
ghost use Rattle.demand_rates.specs.Rates.{AreRatesOf};
ghost use Rattle.spares_input.specs.Stocks.{AreStocksOf};
ghost use Rattle.fleet_model.specs.Rows.{line_units};
ghost use Rattle.family_rows.specs.Sources.{AreSources};
ghost use Rattle.held_work.specs.Work.{held_work_of};
ghost use Rattle.held_work.specs.Curves.{IsFamilyCurve};
ghost use Rattle.held_plan.specs.Held.{held_box};

use crate::families::HeldFamilies;
use crate::maker::CurveMaker;
use crate::sample::{bounds_of, families_of, sources_of};
use answers::NoMemory;
use demand_rates::kinds::Rates;
use family_rows::sources::Sources;
use hull::{Curve, Score};
use spares_input::{Case, Stocks};
use std::alloc::Global;

/// So many families have their sources made before their curves: the instructions that make sources and those that
/// make curves fit into a processor's cache one after the other, but not together.
const AT_ONCE: u32 = 16;

/// The curve of the family of these sources.
fn curve_from<S: Score, M: CurveMaker>(
    alloc: Global,
    families: &HeldFamilies<'_, S, M>,
    sources: &Sources<'_>,
) -> Result<Curve, NoMemory>
    requires sources { AreSources sources.now }
    requires family { sources.now.family.now ≡ held_box families.now sources.now.family.now.line }
    ensures { IfOk result (IsFamilyCurve S.ends families.now.case families.now.held.list
        sources.now.family.now.line) }
{
    families.invariant();
    sources.family.invariant();
    let maker = families.maker();
    let curve = maker.curve_from(alloc, sources, families.score())?;
    Ok(curve)
}

/// Adds the curves of the families from the number `from` up to, not including, `to` to those of the families before.
fn add_curves<S: Score, M: CurveMaker>(
    alloc: Global,
    families: &HeldFamilies<'_, S, M>,
    curves: &mut Vec<Curve>,
    from: u32,
    to: u32,
) -> Result<(), NoMemory>
    requires order { from ≤ to }
    requires within { to ≤ length (line_units families.now.case) }
    requires before { AllZip (IsFamilyCurve S.ends families.now.case families.now.held.list)
        (take from (line_units families.now.case)) curves.old.items }
    ensures { IfOk result (λ _. AllZip (IsFamilyCurve S.ends families.now.case families.now.held.list)
        (take to (line_units families.now.case)) curves.new.items) }
{
    families.invariant();
    let (case, rates, held) = (families.case(), families.rates(), families.held());
    let all = case.line_units();
    let lines = &all[from as usize..to as usize];
    let bounds = bounds_of(alloc, case, held, lines)?;
    let boxes = families_of(alloc, case, rates, held, lines, bounds.as_slice())?;
    let sources = sources_of(alloc, boxes.as_slice())?;
    for k in 0..sources.len() {
        let curve = curve_from(alloc, families, &sources[k])?;
        curves.push(curve)?;
    }
    Ok(())
}

/// The curve of each family in order.
pub(crate) fn whole_curves<S: Score, M: CurveMaker>(
    alloc: Global,
    families: &HeldFamilies<'_, S, M>,
) -> Result<Vec<Curve>, NoMemory>
    ensures { IfOk result (λ curves. AllZip (IsFamilyCurve S.ends families.now.case families.now.held.list)
        (line_units families.now.case) curves.items) }
{
    let count = families.count();
    let mut curves = Vec::new(alloc);
    let mut from = 0;
    while from < count {
        let to = (from + AT_ONCE).min(count);
        add_curves(alloc, families, &mut curves, from, to)?;
        from = to;
    }
    Ok(curves)
}

/// The curve of each line unit's family in order, over its vectors from the held stocks to the limits, with the cost of
/// the stocks above the held ones. `held` has a number for each pair of the case, at most its limit, and the work from
/// it is within the limit. Want of memory is the only error.
pub fn held_curves<S: Score, M: CurveMaker>(
    alloc: Global,
    case: &Case,
    rates: &Rates,
    held: &Stocks,
    score: &S,
    maker: &M,
) -> Result<Vec<Curve>, NoMemory>
    requires rates { AreRatesOf case.now rates.now }
    requires held { AreStocksOf case.now held.now }
    requires work { IsOk (held_work_of case.now held.now.list) }
    ensures { IfOk result (λ curves. AllZip (IsFamilyCurve S.ends case.now held.now.list)
        (line_units case.now) curves.items) }
{
    let families = HeldFamilies::of(case, rates, held, score, maker);
    whole_curves(alloc, &families)
}
