//! What makes the curves of families and their parts.

ghost use Rattle.std.specs.Prelude.{◌≡◌, ◌^◌, ◌<◌, ◌≤◌, IfOk};
ghost use Rattle.demand_rates.specs.Rates.{AreRatesOf};
ghost use Rattle.family_items.specs.Inputs.{IsLine};
ghost use Rattle.hull.specs.Curves.{point_at, Among, IsCurve};
ghost use Rattle.hull.specs.declared.point.Point.{Point};
ghost use Rattle.curve_parts.specs.Beyond.{IsKnownPart};
ghost use Rattle.curve_parts.specs.Cuts.{IsSmall, IsWindow};
ghost use Rattle.family_points.specs.Counts.{most_tables, tables_between};
ghost use Rattle.family_points.specs.Points.{points_within, AreOrdered};
ghost use Rattle.family_points.specs.Vectors.{IsBetween};
ghost use Rattle.family_points.specs.Inputs.{box_points};
ghost use Rattle.family_rows.specs.Sources.{AreSources};

use answers::NoMemory;
use demand_rates::kinds::Rates;
use family_points::Bounds;
use family_rows::sources::Sources;
use hull::{Curve, Price, Score};
use spares_input::{Case, PartId};
use std::alloc::Global;

/// Makes the curve of a family and its part between two prices, and estimates what a family costs at a price.
pub trait CurveMaker {
    /// The curve of a family over all its vectors, from the family's sources. The cost counts stocks above the held
    /// ones. The curve begins at cost 0 if the least stocks are the held ones. Want of memory is the only error.
    fn curve_from<S: Score>(
        &self,
        alloc: Global,
        sources: &Sources<'_>,
        score: &S,
    ) -> Result<Curve, NoMemory>
        requires sources { AreSources sources.now }
        requires few { let x = sources.now.family.now in tables_between x.case x.line x.low x.high ≤ most_tables }
        ensures curve { IfOk result (IsCurve (box_points S.ends sources.now.family.now)) }
        ensures begins { let x = sources.now.family.now in
            x.held ≡ x.low → IfOk result (λ curve. (point_at curve 0).cost ≡ 0) }
        ensures stocks { let x = sources.now.family.now in IfOk result (λ curve. (v : Point) → Among v curve
            → IsBetween x.low x.high v.stocks) };

    /// The part between two prices of the curve of a line unit's family, over the vectors from `low` to `high` of the
    /// bounds, and how high all vertices behind it lie at the low price. The cost counts stocks above `held`. The rates
    /// are those of the case, and the bounds are in order: held at most least, least at most most, and most within the
    /// limits. A price is at most 2^74 units of 2^-48 for at most 10^12 of money. The high price is at least the low
    /// one and above 0. Want of memory is the only error.
    fn part_within<S: Score>(
        &self,
        alloc: Global,
        case: &Case,
        rates: &Rates,
        line: PartId,
        bounds: &Bounds,
        low: Price,
        high: Price,
        score: &S,
    ) -> Result<(Curve, u128), NoMemory>
        requires rates { AreRatesOf case.now rates.now }
        requires line { IsLine case.now line.0 }
        requires ordered { AreOrdered case.now line.0 bounds.now.held bounds.now.low bounds.now.high }
        requires few { tables_between case.now line.0 bounds.now.low bounds.now.high ≤ most_tables }
        requires low { IsSmall low }
        requires high { IsSmall high }
        requires window { IsWindow low high }
        ensures part { IfOk result (λ made. IsKnownPart low high
            (points_within case.now line.0 S.ends bounds.now.held bounds.now.low bounds.now.high) made.0 made.1) };

    /// About what the vectors of a family cost that are best at the price, in whole money. The price is in units of
    /// 2^-48 for whole money. Want of memory is the only error.
    fn cost_near<S: Score>(
        &self,
        alloc: Global,
        sources: &Sources<'_>,
        score: &S,
        price: u128,
    ) -> Result<u128, NoMemory>
        requires sources { AreSources sources.now }
        requires price { price < 2 ^ 73 };
}
