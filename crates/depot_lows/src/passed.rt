//! Whether all vectors with given stocks at the depot are passed over, by lower bounds at two prices.

ghost use Rattle.std.specs.Prelude.{◌≤◌, IfSome, drop};
ghost use Rattle.hull.specs.declared.point.Point.{Point};
ghost use Rattle.hull.specs.Curves.{lagrangian, Among, InRange};
ghost use Rattle.curve_parts.specs.Parts.{IsPassedOver};
ghost use Rattle.curve_parts.specs.Cuts.{IsSmall};
ghost use Rattle.family_points.specs.Inputs.{IsAt};
ghost use Rattle.family_points.specs.Separation.{depot_points};
ghost use Rattle.family_rows.specs.Sources.{AreSources};
ghost use Rattle.family_rows.specs.Tabled.{AreTables};
ghost use Rattle.depot_lows.specs.Rough.{AreRough};

use crate::rough::RoughLows;
use curve_parts::is_passed;
use family_bases::lows::lows_at_base;
use family_rows::depot::DepotTables;
use family_rows::sources::Sources;
use hull::{Point, Price, Score};
use spares_input::SiteId;

/// Bounds decide early if they do so without this part of the one at the low price.
const SPARE: u128 = 256;

/// Whether a vertex of `part` lies below all vectors with these stocks at the depot at both prices, by lower bounds:
/// returns that at the low price. The rough bounds of all bases come first; base by base a nearer one takes the place
/// of the rough one, until they decide. Before all are near they must do so with some to spare, so that what is passed
/// over is known to lie well above the vertex.
pub fn low_if_passed<S: Score>(
    part: &[Point],
    sources: &Sources<'_>,
    score: &S,
    tables: &DepotTables<'_>,
    rough: &RoughLows,
    depot: &[u8],
    low: Price,
    high: Price,
) -> Option<u128>
    requires ranges { (v : Point) → Among v part.now → InRange v }
    requires sources { AreSources sources.now }
    requires depot { IsAt sources.now.family.now 0 depot.now }
    requires tables { AreTables sources.now.family.now (drop 1 depot.now) tables.now }
    requires rough { AreRough S.ends sources.now.family.now (drop 1 depot.now) low high rough.now }
    requires low { IsSmall low }
    requires high { IsSmall high }
    ensures passed { IfSome result (λ _. (w : Point)
        → Among w (depot_points S.ends sources.now.family.now depot.now) → IsPassedOver low high part.now w) }
    ensures least { IfSome result (λ at_low. (w : Point)
        → Among w (depot_points S.ends sources.now.family.now depot.now) → at_low ≤ lagrangian low.p low.q w) }
{
    if part.is_empty() {
        return None;
    }
    sources.family.invariant();
    let cost = u128::from(sources.family.cost(SiteId(0), depot));
    let mut at_low = low.p * cost + rough.sum.at_low;
    let mut at_high = high.p * cost + rough.sum.at_high;
    for j in 1..sources.family.sites() {
        if is_passed(part, low, high, at_low - at_low / SPARE, at_high) {
            return Some(at_low);
        }
        let near = lows_at_base(sources, score, tables, depot, j, low, high);
        let known = rough.bases[usize::from(j) - 1];
        at_low += near.at_low.saturating_sub(known.at_low);
        at_high += near.at_high.saturating_sub(known.at_high);
    }
    if is_passed(part, low, high, at_low, at_high) {
        return Some(at_low);
    }
    None
}
