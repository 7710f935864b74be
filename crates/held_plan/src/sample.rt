//! Some of a case's families, with all that doesn't depend on a price.

ghost use Rattle.std.specs.Prelude.{◌≡◌, IfOk, All, map};
ghost use Rattle.demand_rates.specs.Rates.{AreRatesOf};
ghost use Rattle.spares_input.specs.Stocks.{AreStocksOf, IsFor};
ghost use Rattle.family_items.specs.Inputs.{IsLine};
ghost use Rattle.family_points.specs.Vectors.{box_from};
ghost use Rattle.family_rows.specs.Sources.{AreSources};
ghost use Rattle.held_plan.specs.Held.{held_box, held_case};

use answers::NoMemory;
use demand_rates::kinds::Rates;
use family_points::Bounds;
use family_points::family::Family;
use family_rows::sources::Sources;
use spares_input::{Case, PartId, Stocks};
use std::alloc::Global;

/// The bounds of the families of line units, from the held stocks to the limits. Want of memory is the only error.
pub(crate) fn bounds_of(
    alloc: Global,
    case: &Case,
    held: &Stocks,
    lines: &[PartId],
) -> Result<Vec<Bounds>, NoMemory>
    requires held { IsFor case.now held.now }
    requires lines { All (λ p. IsLine case.now p.0) lines.now }
    ensures { IfOk result (λ v. v.items ≡ map (λ p. box_from case.now p.0 held.now.list) lines.now) }
{
    let mut bounds = Vec::new(alloc);
    for k in 0..lines.len() {
        let one = Bounds::from_held(alloc, case, lines[k], held)?;
        bounds.push(one)?;
    }
    Ok(bounds)
}

/// The families of line units within these bounds. Want of memory is the only error.
pub(crate) fn families_of<'b>(
    alloc: Global,
    case: &'b Case,
    rates: &'b Rates,
    held: &Stocks,
    lines: &[PartId],
    bounds: &'b [Bounds],
) -> Result<Vec<Family<'b>>, NoMemory>
    requires rates { AreRatesOf case.now rates.now }
    requires held { AreStocksOf case.now held.now }
    requires lines { All (λ p. IsLine case.now p.0) lines.now }
    requires bounds { bounds.now ≡ map (λ p. box_from case.now p.0 held.now.list) lines.now }
    ensures { IfOk result (λ v. v.items
        ≡ map (λ p. held_box (held_case case.now rates.now held.now) p.0) lines.now) }
{
    case.invariant();
    let mut families = Vec::new(alloc);
    for k in 0..lines.len() {
        let family = Family::of(case, rates, lines[k], &bounds[k]);
        families.push(family)?;
    }
    Ok(families)
}

/// The sources of families. Want of memory is the only error.
pub(crate) fn sources_of<'f>(
    alloc: Global,
    families: &'f [Family<'f>],
) -> Result<Vec<Sources<'f>>, NoMemory>
    ensures are { IfOk result (λ v. All AreSources v.items) }
    ensures families { IfOk result (λ v. map (λ s. s.family.now) v.items ≡ families.now) }
{
    let mut sources = Vec::new(alloc);
    for k in 0..families.len() {
        let source = Sources::of(alloc, &families[k])?;
        sources.push(source)?;
    }
    Ok(sources)
}
