//! The curve of a family, a line unit with its shop units: the stocks of it that are worth their money, at each price.
//!
//! A vector lists the stocks of a family, site by site. Each has a cost and the ends of its scored backorders, and the
//! curve has the strict lower vertices of these points. A family may have 2^96 vectors and more, and the curve is made
//! without trying them all: at given stocks of the depot, cost and score are sums over the bases, and each term depends
//! only on the stocks of its base. So each base has a curve, the curves of the bases are added, and the sums for all
//! choices of the depot's stocks are joined. Choices that add nothing by lower bounds are passed over.
#![tactic(auto)]

ghost use Rattle.std.specs.Prelude.{◌≡◌, ◌≤◌, IfOk};
ghost use Rattle.demand_rates.specs.Rates.{AreRatesOf};
ghost use Rattle.family_items.specs.Inputs.{IsLine};
ghost use Rattle.hull.specs.declared.point.Point.{Point};
ghost use Rattle.hull.specs.Curves.{Among, InRange, IsCurve, point_at};
ghost use Rattle.family_points.specs.Vectors.{limits, zeros, IsBetween};
ghost use Rattle.family_points.specs.Points.{points_within, AreOrdered};
ghost use Rattle.family_points.specs.Counts.{most_tables, tables_between, tables_of};
ghost use Rattle.family_points.specs.Inputs.{box_points};
ghost use Rattle.family_rows.specs.Sources.{AreSources};

use crate::joining::family_curve;
use answers::NoMemory;
use demand_rates::kinds::Rates;
use family_points::family::Family;
use family_rows::sources::Sources;
use hull::{Curve, Score};
use spares_input::{Case, PartId, nothing_held};
use std::alloc::Global;

mod joining;
mod low_curve;
mod passed;

pub use family_points::{
    Bounds, MOST_TABLES, choices, limits_of, place_parts, tables, tables_within, vector_of, work,
};

/// The curve of a family over all its vectors, from the family's sources. The cost counts stocks above the held ones.
///
/// Of vectors with the same cost and the same lower end, the first in dictionary order is kept. The curve begins at
/// cost 0 if the least stocks are the held ones. Want of memory is the only error.
pub fn curve_from<S: Score>(
    alloc: Global,
    sources: &Sources<'_>,
    score: &S,
) -> Result<Curve, NoMemory>
    requires sources { AreSources sources.now }
    requires few { let x = sources.now.family.now in tables_between x.case x.line x.low x.high ≤ most_tables }
    ensures curve { IfOk result (IsCurve (box_points S.ends sources.now.family.now)) }
    ensures ranges { IfOk result (λ curve. (v : Point) → Among v curve → InRange v) }
    ensures begins { let x = sources.now.family.now in
        x.held ≡ x.low → IfOk result (λ curve. (point_at curve 0).cost ≡ 0) }
    ensures stocks { let x = sources.now.family.now in IfOk result (λ curve. (v : Point) → Among v curve
        → IsBetween x.low x.high v.stocks) }
{
    sources.family.invariant();
    let curve = family_curve(alloc, sources, score)?;
    curve.invariant();
    Ok(curve)
}

/// The curve of a line unit's family over the vectors from `low` to `high`. The cost counts stocks above `held`.
///
/// The rates are those of the case, and the bounds are in order: held at most least, least at most most, and most
/// within the limits. Of vectors with the same cost and the same lower end, the first in dictionary order is kept. The
/// curve begins at cost 0 if `low` equals `held`. Want of memory is the only error.
pub fn curve_within<S: Score>(
    alloc: Global,
    case: &Case,
    rates: &Rates,
    line: PartId,
    bounds: &Bounds,
    score: &S,
) -> Result<Curve, NoMemory>
    requires rates { AreRatesOf case.now rates.now }
    requires line { IsLine case.now line.0 }
    requires ordered { AreOrdered case.now line.0 bounds.now.held bounds.now.low bounds.now.high }
    requires few { tables_between case.now line.0 bounds.now.low bounds.now.high ≤ most_tables }
    ensures curve { IfOk result
        (IsCurve (points_within case.now line.0 S.ends bounds.now.held bounds.now.low bounds.now.high)) }
    ensures ranges { IfOk result (λ curve. (v : Point) → Among v curve → InRange v) }
    ensures begins { bounds.now.held ≡ bounds.now.low → IfOk result (λ curve. (point_at curve 0).cost ≡ 0) }
    ensures stocks { IfOk result (λ curve. (v : Point) → Among v curve
        → IsBetween bounds.now.low bounds.now.high v.stocks) }
{
    case.invariant();
    let family = Family::of(case, rates, line, bounds);
    let sources = Sources::of(alloc, &family)?;
    curve_from(alloc, &sources, score)
}

/// The curve of a line unit's family over all its vectors: [`curve_within`] with nothing held and the limits.
pub fn curve<S: Score>(
    alloc: Global,
    case: &Case,
    rates: &Rates,
    line: PartId,
    score: &S,
) -> Result<Curve, NoMemory>
    requires rates { AreRatesOf case.now rates.now }
    requires line { IsLine case.now line.0 }
    requires few { tables_of case.now line.0 ≤ most_tables }
    ensures curve { IfOk result (IsCurve (points_within case.now line.0 S.ends (zeros case.now line.0)
        (zeros case.now line.0) (limits case.now line.0))) }
    ensures ranges { IfOk result (λ curve. (v : Point) → Among v curve → InRange v) }
    ensures begins { IfOk result (λ curve. (point_at curve 0).cost ≡ 0) }
    ensures stocks { IfOk result (λ curve. (v : Point) → Among v curve
        → IsBetween (zeros case.now line.0) (limits case.now line.0) v.stocks) }
{
    case.invariant();
    let held = nothing_held(alloc, case)?;
    let bounds = Bounds::from_held(alloc, case, line, &held)?;
    curve_within(alloc, case, rates, line, &bounds, score)
}
