//! The part of the points so far and of the sums of several parts.

ghost use Rattle.std.specs.Prelude.{◌≡◌, ◌+◌, ◌<◌, ◌≤◌, [], ◌∷◌, ◌++◌, length, sum_by, IfOk, IsTrue, OnOk, OnErr};
ghost use Rattle.hull.specs.declared.point.Point.{Point};
ghost use Rattle.hull.specs.Curves.{lagrangian, Among, HaveOneWidth, InRange};
ghost use Rattle.hull.specs.Limits.{most_points, most_summed};
ghost use Rattle.sum_walk.specs.Sums.{sums_of_each};
ghost use Rattle.curve_parts.specs.Cuts.{IsSmall, IsWindow};
ghost use Rattle.curve_parts.specs.Beyond.{LieBeyond};
ghost use Rattle.curve_parts.specs.Joins.{Begins, Joins, PassesAbove};

use crate::window::cut;
use answers::NoMemory;
use hull::{Chain, Curve, Point, Price, Spot};
use std::alloc::Global;
use sum_walk::walk::{Walking, walk};

/// The part between two prices of all points for which the sums of `first` and a vertex of each of `parts` suffice.
/// There are 1 to 16 parts, between the same prices. Also returns how high all vertices of the sums behind it lie at
/// the low price. Want of memory is the only error.
pub fn part_of_sums<T: Spot>(
    alloc: Global,
    walking: &mut Walking,
    first: &Point,
    parts: &[Chain<T>],
    low: Price,
    high: Price,
) -> Result<(Curve, u128), NoMemory>
    requires some { 0 < length parts.now }
    requires few_parts { length parts.now ≤ most_summed }
    requires few { 1 + sum_by length parts.now ≤ most_points }
    requires first { InRange first.now }
    requires ranges { (v : Point) → Among v (sums_of_each (first.now ∷ []) parts.now) → InRange v }
    requires widths { HaveOneWidth (sums_of_each (first.now ∷ []) parts.now) }
    requires low { IsSmall low }
    requires high { IsSmall high }
    requires window { IsWindow low high }
    ensures part { IfOk result (λ made. Begins low high first.now parts.now made.0) }
    ensures beyond { IfOk result (λ made. LieBeyond low (sums_of_each (first.now ∷ []) parts.now) made.0 made.1) }
    ensures few { IfOk result (λ made. length made.0 ≤ 1 + sum_by length parts.now) }
{
    let below = [];
    let handed = walk(alloc, walking, first, parts, &below)?;
    let mut curve = Curve::of(alloc, handed)?;
    let beyond = cut(&mut curve, low, high);
    Ok((curve, beyond))
}

/// Whether the Lagrangian of one of the vertices is below `at_low` at the low price and below `at_high` at the high
/// price. Then no point whose Lagrangians reach both bounds is best at a price between.
pub fn is_passed(vertices: &[Point], low: Price, high: Price, at_low: u128, at_high: u128) -> bool
    requires ranges { (v : Point) → Among v vertices.now → InRange v }
    requires low { IsSmall low }
    requires high { IsSmall high }
    ensures { IsTrue result → PassesAbove low high at_low at_high vertices.now }
{
    for k in 0..vertices.len() {
        let vertex = &vertices[k];
        if value(vertex, low) < at_low && value(vertex, high) < at_high {
            return true;
        }
    }
    false
}

/// The Lagrangian of a point at a price: `q` times the lower end and `p` times the cost.
fn value(point: &Point, price: Price) -> u128
    requires range { InRange point.now }
    requires price { IsSmall price }
    ensures { result ≡ lagrangian price.p price.q point.now }
{
    u128::from(price.q) * point.lo + price.p * u128::from(point.cost)
}

/// Joins to `curve`, which suffices for the points so far between two prices, all points for which the sums of `first`
/// and a vertex of each of `parts` suffice there. `curve` is then the part of all these points. Returns how high all
/// vertices behind it lie at the low price, of those before and the sums. After `NoMemory` it is as before.
pub fn join_sums<T: Spot>(
    alloc: Global,
    walking: &mut Walking,
    first: &Point,
    parts: &[Chain<T>],
    curve: &mut Curve,
    low: Price,
    high: Price,
) -> Result<u128, NoMemory>
    requires some { 0 < length parts.now }
    requires few_parts { length parts.now ≤ most_summed }
    requires few { length curve.old + (1 + sum_by length parts.now) ≤ most_points }
    requires first { InRange first.now }
    requires ranges { (v : Point) → Among v (sums_of_each (first.now ∷ []) parts.now) → InRange v }
    requires widths { (v w : Point) → Among v curve.old → Among w (sums_of_each (first.now ∷ []) parts.now)
        → length v.stocks ≡ length w.stocks }
    requires low { IsSmall low }
    requires high { IsSmall high }
    requires window { IsWindow low high }
    ensures ok { OnOk result (Joins low high first.now parts.now curve.old curve.new) }
    ensures beyond { IfOk result
        (λ beyond. LieBeyond low (curve.old ++ sums_of_each (first.now ∷ []) parts.now) curve.new beyond) }
    ensures few { OnOk result (length curve.new ≤ length curve.old + (1 + sum_by length parts.now)) }
    ensures err { OnErr result (curve.new ≡ curve.old) }
{
    curve.invariant();
    let below = curve.vertices();
    let handed = walk(alloc, walking, first, parts, below)?;
    curve.add_points(handed)?;
    let beyond = cut(curve, low, high);
    Ok(beyond)
}
