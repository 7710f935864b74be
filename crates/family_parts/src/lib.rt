//! The part of a family's curve between two prices: the vertices that are best at some price from a low one to a high
//! one.
//!
//! Most stocks of the depot have no vertex there. They are passed over by lower bounds on backorders, which cost less
//! work than exact ones: if a vertex so far lies below all vectors with these stocks at both prices, none of them is
//! best at a price between.
#![tactic(auto)]

ghost use Rattle.std.specs.Prelude.{◌<◌, ◌≤◌, IfOk, length};
ghost use Rattle.demand_rates.specs.Rates.{AreRatesOf};
ghost use Rattle.family_items.specs.Inputs.{IsLine};
ghost use Rattle.hull.specs.declared.point.Point.{Point};
ghost use Rattle.hull.specs.Curves.{Among, InRange};
ghost use Rattle.curve_parts.specs.Cuts.{IsSmall, IsWindow};
ghost use Rattle.curve_parts.specs.Beyond.{IsKnownPart};
ghost use Rattle.family_points.specs.Vectors.{IsBetween};
ghost use Rattle.family_points.specs.Points.{points_within, AreOrdered};
ghost use Rattle.family_points.specs.Counts.{most_tables, tables_between};

use crate::joining::family_part;
use answers::NoMemory;
use demand_rates::kinds::Rates;
use family_points::bounds::Bounds;
use family_points::family::Family;
use hull::{Curve, Price, Score};
use spares_input::{Case, PartId};
use std::alloc::Global;

mod joining;

pub use depot_lows::near::cost_near;

/// The part between two prices of the curve of a line unit's family, over the vectors from `low` to `high` of the
/// bounds. The cost counts stocks above `held`. Also returns how high all vertices behind the part lie: no Lagrangian
/// of theirs at the low price is smaller.
///
/// A price is at most 2^74 units of 2^-48 for at most 10^12 of money. The high price is at least the low one and above
/// 0; some price lies between them. The rates are those of the case, and the bounds are in order: held at most least,
/// least at most most, and most within the limits. Of vectors with the same cost and the same lower end, the first in
/// dictionary order is kept. Want of memory is the only error.
pub fn part_within<S: Score>(
    alloc: Global,
    case: &Case,
    rates: &Rates,
    line: PartId,
    bounds: &Bounds,
    low: Price,
    high: Price,
    score: &S,
) -> Result<(Curve, u128), NoMemory>
    requires rates { AreRatesOf case.now rates.now }
    requires line { IsLine case.now line.0 }
    requires ordered { AreOrdered case.now line.0 bounds.now.held bounds.now.low bounds.now.high }
    requires few { tables_between case.now line.0 bounds.now.low bounds.now.high ≤ most_tables }
    requires low { IsSmall low }
    requires high { IsSmall high }
    requires window { IsWindow low high }
    ensures part { IfOk result (λ made. IsKnownPart low high
        (points_within case.now line.0 S.ends bounds.now.held bounds.now.low bounds.now.high) made.0 made.1) }
    ensures some { IfOk result (λ made. 0 < length made.0) }
    ensures ranges { IfOk result (λ made. (v : Point) → Among v made.0 → InRange v) }
    ensures stocks { IfOk result (λ made. (v : Point) → Among v made.0
        → IsBetween bounds.now.low bounds.now.high v.stocks) }
{
    case.invariant();
    let family = Family::of(case, rates, line, bounds);
    let (part, beyond) = family_part(alloc, &family, score, low, high)?;
    part.invariant();
    Ok((part, beyond))
}
