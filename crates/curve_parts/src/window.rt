//! Cutting a curve at two prices.

ghost use Rattle.std.specs.Prelude.{◌≡◌, ◌+◌, ◌-◌, ◌*◌, ◌<◌, ◌≤◌, ℕ, List, IfOk, IsFalse, IsTrue, length, drop, take};
ghost use Rattle.hull.specs.declared.point.Point.{Point};
ghost use Rattle.hull.specs.declared.price.Price.{Price};
ghost use Rattle.hull.specs.Curves.{lagrangian, Among, HaveOneWidth, InRange, IsShape, point_at};
ghost use Rattle.hull.specs.Limits.{most_cost, end_limit, most_points};
ghost use Rattle.curve_parts.specs.Parts.{IsPartOf};
ghost use Rattle.curve_parts.specs.Cuts.{IsCutOf, IsWindow, Steeper, NoSteeper, Flatter, NoFlatter, StepAt, IsSmall};
ghost use Rattle.curve_parts.specs.Beyond.{LieBeyond};

use answers::NoMemory;
use hull::{Chain, Curve, Point, Price, Spot};
use std::alloc::Global;

/// The vertices of a curve or a chain, of which a stretch can be kept.
pub trait Vertices {
    /// The vertices by rising cost.
    ghost list: { Self → List Point };

    /// The shape of the vertices, for a proof.
    fn invariant(&self)
        ensures shape { IsShape (list self.now) };

    /// The number of vertices. The clauses also state their shape.
    fn count(&self) -> u32
        ensures count { result ≡ length (list self.now) }
        ensures shape { IsShape (list self.now) };

    /// The step from the vertex at `k` to the next: the fall of the lower end and the rise of the cost. `k + 1` is
    /// below the number of vertices.
    fn step(&self, k: u32) -> Price
        requires { k + 1 < length (list self.now) }
        ensures fall { result.p + (point_at (list self.now) (k + 1)).lo ≡ (point_at (list self.now) k).lo }
        ensures rise { result.q + (point_at (list self.now) k).cost ≡ (point_at (list self.now) (k + 1)).cost }
        ensures small { IsSmall result };

    /// The Lagrangian of the vertex at `k` at a price: `q` times the lower end and `p` times the cost.
    fn value(&self, k: u32, price: Price) -> u128
        requires place { k < length (list self.now) }
        requires price { IsSmall price }
        ensures { result ≡ lagrangian price.p price.q (point_at (list self.now) k) };

    /// Keeps only the vertices from the place `from` on and before the place `to`.
    fn keep(&mut self, from: u32, to: u32)
        requires order { from < to }
        requires within { to ≤ length (list self.old) }
        ensures { list self.new ≡ take (to - from) (drop from (list self.old)) };
}

impl<T: Spot> Vertices for Chain<T> {
    ghost list = { λ c. c };

    fn invariant(&self) {
        self.invariant();
    }

    fn count(&self) -> u32 {
        self.len()
    }

    fn step(&self, k: u32) -> Price {
        self.slope(k)
    }

    fn value(&self, k: u32, price: Price) -> u128 {
        self.invariant();
        let point = self.at(k);
        lagrangian_of(price, point.cost(), point.lo())
    }

    fn keep(&mut self, from: u32, to: u32) {
        self.keep(from, to);
    }
}

impl Vertices for Curve {
    ghost list = { λ c. c };

    fn invariant(&self) {
        self.invariant();
    }

    fn count(&self) -> u32 {
        self.len()
    }

    fn step(&self, k: u32) -> Price {
        self.slope(k)
    }

    fn value(&self, k: u32, price: Price) -> u128 {
        self.invariant();
        let point = self.point(k);
        lagrangian_of(price, point.cost, point.lo)
    }

    fn keep(&mut self, from: u32, to: u32) {
        self.keep(from, to);
    }
}

/// The Lagrangian of a cost and a lower end at a price.
fn lagrangian_of(price: Price, cost: u64, lo: u128) -> u128
    requires price { IsSmall price }
    requires cost { cost ≤ most_cost }
    requires lo { lo < end_limit }
    ensures { result ≡ price.q * lo + price.p * cost }
{
    u128::from(price.q) * lo + price.p * u128::from(cost)
}

/// Whether a step falls more per money than the price.
fn is_steeper(step: Price, price: Price) -> bool
    requires step { IsSmall step }
    requires price { IsSmall price }
    ensures steeper { IsTrue result → Steeper price step.p step.q }
    ensures no_steeper { IsFalse result → NoSteeper price step.p step.q }
{
    price.p * u128::from(step.q) < step.p * u128::from(price.q)
}

/// Whether a step falls less per money than the price.
fn is_flatter(step: Price, price: Price) -> bool
    requires step { IsSmall step }
    requires price { IsSmall price }
    ensures flatter { IsTrue result → Flatter price step.p step.q }
    ensures no_flatter { IsFalse result → NoFlatter price step.p step.q }
{
    step.p * u128::from(price.q) < price.p * u128::from(step.q)
}

/// The place of the first vertex whose next step is no steeper than the price.
fn first_from<V: Vertices>(chain: &V, high: Price) -> u32
    requires { IsSmall high }
    ensures below { result < length (V.list chain.now) }
    ensures steeper { (j : ℕ) → j < result → StepAt (Steeper high) (V.list chain.now) j }
    ensures ahead { result + 1 < length (V.list chain.now) → StepAt (NoSteeper high) (V.list chain.now) result }
{
    let count = chain.count();
    let mut at = 0;
    while at + 1 < count {
        let step = chain.step(at);
        if !is_steeper(step, high) {
            return at;
        }
        at += 1;
    }
    at
}

/// The place of the first vertex, from the place `from` on, whose next step is flatter than the price.
fn last_from<V: Vertices>(chain: &V, from: u32, low: Price) -> u32
    requires from { from < length (V.list chain.now) }
    requires low { IsSmall low }
    ensures order { from ≤ result }
    ensures below { result < length (V.list chain.now) }
    ensures steps { (j : ℕ) → from ≤ j → j < result → StepAt (NoFlatter low) (V.list chain.now) j }
    ensures flatter { result + 1 < length (V.list chain.now) → StepAt (Flatter low) (V.list chain.now) result }
{
    let count = chain.count();
    let mut at = from;
    while at + 1 < count {
        let step = chain.step(at);
        if is_flatter(step, low) {
            return at;
        }
        at += 1;
    }
    at
}

/// How high all vertices that are dearer than the one at the place `last` lie, where the next step is flatter than the
/// price: the Lagrangian of the next one.
fn next_value<V: Vertices>(chain: &V, last: u32, low: Price) -> u128
    requires last { last < length (V.list chain.now) }
    requires low { IsSmall low }
    requires flatter { last + 1 < length (V.list chain.now) → StepAt (Flatter low) (V.list chain.now) last }
    ensures { 0 < low.q → (w : Point) → Among w (V.list chain.now) → (point_at (V.list chain.now) last).cost < w.cost
        → result ≤ lagrangian low.p low.q w }
{
    let count = chain.count();
    if last + 1 < count {
        chain.value(last + 1, low)
    } else {
        u128::MAX
    }
}

/// Keeps only the part between two prices: the steps that fall as much per money as some price from `low` to `high`,
/// with their vertices, or the one vertex that is best at all these prices. Steps before it are steeper than `high`,
/// steps after it flatter than `low`. Returns how high all vertices behind it lie: the least of their Lagrangians at
/// the low price, the largest number if there is none.
pub fn cut<V: Vertices>(chain: &mut V, low: Price, high: Price) -> u128
    requires low { IsSmall low }
    requires high { IsSmall high }
    ensures cut { IsCutOf low high (V.list chain.old) (V.list chain.new) }
    ensures beyond { IsWindow low high → LieBeyond low (V.list chain.old) (V.list chain.new) result }
{
    chain.invariant();
    let from = first_from(chain, high);
    let last = last_from(chain, from, low);
    let beyond = next_value(chain, last, low);
    chain.keep(from, last + 1);
    beyond
}

/// A number that no point has a smaller Lagrangian than at the low price, by a part that has a vertex: that of its last
/// vertex, and 0 if the price is.
pub fn least_at_low<V: Vertices>(part: &V, low: Price) -> u128
    requires { IsSmall low }
    ensures { (high : Price) (points : List Point) → IsWindow low high → IsPartOf low high points (V.list part.now)
        → (w : Point) → Among w points → result ≤ lagrangian low.p low.q w }
{
    if low.p == 0 {
        return 0;
    }
    part.value(part.count() - 1, low)
}

/// The part between two prices of the curve of one or more points, whose stocks have one length. Of points with the
/// same cost and the same lower end, the one whose stocks come first in dictionary order is kept. Want of memory is the
/// only error.
pub fn part_of(
    alloc: Global,
    points: Vec<Point>,
    low: Price,
    high: Price,
) -> Result<Curve, NoMemory>
    requires some { 0 < length points.items }
    requires few { length points.items ≤ most_points }
    requires ranges { (v : Point) → Among v points.items → InRange v }
    requires widths { HaveOneWidth points.items }
    requires low { IsSmall low }
    requires high { IsSmall high }
    requires window { IsWindow low high }
    ensures { IfOk result (λ part. IsPartOf low high points.items part) }
{
    let mut curve = Curve::of(alloc, points)?;
    cut(&mut curve, low, high);
    Ok(curve)
}
