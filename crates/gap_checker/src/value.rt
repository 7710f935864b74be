//! The value of a leaf.

ghost use Rattle.std.specs.Prelude.{◌≡◌, ◌<◌, ◌≤◌, IfOk, map};
ghost use Rattle.family_items.specs.Inputs.{IsLine};
ghost use Rattle.hull.specs.Limits.{most_price_units, most_price_money};
ghost use Rattle.gap_rules.specs.Boxes.{IsOrdered};
ghost use Rattle.family_points.specs.Counts.{most_tables, tables_between};
ghost use Rattle.family_points.specs.Vectors.{places};
ghost use Rattle.gap_rules.specs.Covers.{box_of};
ghost use Rattle.gap_rules.specs.Values.{below, least_within, leaf_tables, value_of_leaf};

use answers::NoMemory;
use demand_rates::Rated;
use family_curve::curve_within;
use family_floors::is_at_least;
use family_points::Bounds;
use gap_rules::cost::added_cost;
use gap_rules::leaf::Leaf;
use hull::{Price, Score};
use spares_input::PartId;
use std::alloc::Global;

/// The least Lagrangian of the vectors of a box, at a price.
fn least_within<S: Score>(
    alloc: Global,
    rated: &Rated<'_>,
    line: PartId,
    price: Price,
    bounds: &Bounds,
    score: &S,
) -> Result<u128, NoMemory>
    requires line { IsLine rated.now.case line.0 }
    requires ordered { IsOrdered rated.now.case line.0 bounds.now }
    requires work { tables_between rated.now.case line.0 bounds.now.low bounds.now.high ≤ most_tables }
    requires money { 0 < price.q }
    requires most_money { price.q ≤ most_price_money }
    requires price { price.p ≤ most_price_units }
    ensures { IfOk result (λ least. least ≡ least_within rated.now.case line.0 S.ends price bounds.now) }
{
    rated.invariant();
    let curve = curve_within(alloc, rated.case(), rated.rates(), line, bounds, score)?;
    curve.invariant();
    let vertex = curve.point(curve.best_at(price.p, price.q));
    Ok(u128::from(price.q) * vertex.lo + price.p * u128::from(vertex.cost))
}

/// The least Lagrangian of the vectors of a box at a price, where it is below the floor. Whether it is takes no curve.
fn low_within<S: Score>(
    alloc: Global,
    rated: &Rated<'_>,
    line: PartId,
    price: Price,
    bounds: &Bounds,
    floor: u128,
    score: &S,
) -> Result<Option<u128>, NoMemory>
    requires line { IsLine rated.now.case line.0 }
    requires ordered { IsOrdered rated.now.case line.0 bounds.now }
    requires work { tables_between rated.now.case line.0 bounds.now.low bounds.now.high ≤ most_tables }
    requires money { 0 < price.q }
    requires most_money { price.q ≤ most_price_money }
    requires price { price.p ≤ most_price_units }
    ensures { IfOk result (λ low. low ≡ below floor (least_within rated.now.case line.0 S.ends price bounds.now)) }
{
    rated.invariant();
    let (case, rates) = (rated.case(), rated.rates());
    if is_at_least(alloc, case, rates, line, bounds, price, floor, score)? {
        return Ok(None);
    }
    let least = least_within(alloc, rated, line, price, bounds, score)?;
    Ok(Some(least))
}

/// A value, where it is below the floor.
fn below(floor: u128, value: u128) -> Option<u128>
    ensures { result ≡ below floor value }
{
    if value < floor { Some(value) } else { None }
}

/// The value of a leaf at a price, where it is below the floor. By cost alone the value is the price of the low corner,
/// or else the least Lagrangian of the vectors.
pub(crate) fn low_value<S: Score>(
    alloc: Global,
    rated: &Rated<'_>,
    line: PartId,
    parts: &[PartId],
    price: Price,
    leaf: Leaf,
    floor: u128,
    score: &S,
) -> Result<Option<u128>, NoMemory>
    requires line { IsLine rated.now.case line.0 }
    requires parts { map (λ p. p.0) parts.now ≡ map (λ x. x.part) (places rated.now.case line.0) }
    requires ordered { IsOrdered rated.now.case line.0 (box_of leaf) }
    requires work { leaf_tables rated.now.case line.0 leaf ≤ most_tables }
    requires money { 0 < price.q }
    requires most_money { price.q ≤ most_price_money }
    requires price { price.p ≤ most_price_units }
    ensures { IfOk result (λ low. low ≡ below floor (value_of_leaf rated.now.case line.0 S.ends price leaf)) }
{
    match leaf {
        Leaf::Cost(bounds) => {
            let cost = added_cost(
                rated.case(),
                line,
                parts,
                bounds.held.as_slice(),
                bounds.low.as_slice(),
            );
            Ok(below(floor, price.p * u128::from(cost)))
        }
        Leaf::Whole(bounds) => low_within(alloc, rated, line, price, &bounds, floor, score),
    }
}
