//! Curves, seen as their vertices in order of cost.

ghost use Rattle.std.specs.Prelude.{◌≡◌, ◌+◌, ◌-◌, ◌<◌, ◌≤◌, ◌∷◌, [], ◌++◌, List, drop, length, take, IfOk, OnOk, OnErr};
ghost use Rattle.hull.specs.declared.point.Point.{Point};
ghost use Rattle.hull.specs.Curves.{Among, InRange, HaveOneWidth, IsChain, IsCurve, IsShape, IsBestAt, IsLeastAt, point_at, plus, sums};
ghost use Rattle.hull.specs.Limits.{most_price_units, most_price_money, most_points};

use crate::chain::slope_of;
use crate::joins::{chain_of, chain_of_both};
use crate::scan::in_order;
use crate::walk::path;
use crate::{Point, Price};
use answers::NoMemory;
use std::alloc::Global;
use std::marker::Model;
use std::mem;

/// The strict lower vertices of a set of points, listed by rising cost.
///
/// It has 1 to 2^31 vertices, and their stocks have one length. Costs rise, lower ends fall, and each step falls less
/// per money than the one before.
#[derive(Debug, Drop)]
pub struct Curve {
    vertices: Vec<Point>,
}

impl Model for Curve {
    ghost use Rattle.std.specs.Prelude.{List};
    ghost use Rattle.hull.specs.declared.point.Point.{Point};
    ghost use Rattle.hull.specs.Curves.{IsShape};

    ghost Value = { List Point };

    ghost view = { λ c. c.vertices.items };

    ghost invariant = { λ c. IsShape c.vertices.items };
}

/// The number of vertices that cost less than `cost`.
fn cheaper(vertices: &[Point], cost: u64) -> usize
    requires chain { IsChain vertices.now }
    requires few { length vertices.now ≤ most_points }
    ensures within { result ≤ length vertices.now }
    ensures below { (v : Point) → Among v (take result vertices.now) → v.cost ≤ cost }
{
    let mut count = vertices.len();
    while count > 0 {
        if vertices[count - 1].cost < cost {
            return count;
        }
        count -= 1;
    }
    0
}

impl Curve {
    /// The curve of a single point. Want of memory is the only error. No command calls it.
    pub fn one(alloc: Global, first: Point) -> Result<Curve, NoMemory>
        requires { InRange first }
        ensures { IfOk result (λ curve. curve ≡ first ∷ []) }
    {
        let mut vertices = Vec::with_capacity(alloc, 1)?;
        vertices.push(first)?;
        Ok(Curve { vertices })
    }

    /// The curve of one or more points, whose stocks have one length. Of points with the same cost and the same lower
    /// end, the one whose stocks come first in dictionary order is kept. Want of memory is the only error.
    pub fn of(alloc: Global, points: Vec<Point>) -> Result<Curve, NoMemory>
        requires some { 0 < length points.items }
        requires few { length points.items ≤ most_points }
        requires ranges { (v : Point) → Among v points.items → InRange v }
        requires widths { HaveOneWidth points.items }
        ensures curve { IfOk result (λ curve. IsCurve points.items curve) }
        ensures few { IfOk result (λ curve. length curve ≤ length points.items) }
    {
        let count = points.len();
        let room = Vec::with_capacity(alloc, count)?;
        let vertices = chain_of(in_order(points), room);
        Ok(Curve { vertices })
    }

    /// Adds a point, whose stocks have the curve's length. Of points with the same cost and the same lower end, the one
    /// whose stocks come first in dictionary order is kept.
    ///
    /// After `NoMemory` the curve is as before. No command calls it.
    pub fn add_point(&mut self, point: Point) -> Result<(), NoMemory>
        requires few { length self.old + 1 ≤ most_points }
        requires range { InRange point }
        requires widths { (v : Point) → Among v self.old → length v.stocks ≡ length point.stocks }
        ensures ok { OnOk result (IsCurve (self.old ++ point ∷ []) self.new) }
        ensures few { OnOk result (length self.new ≤ length self.old + 1) }
        ensures err { OnErr result (self.new ≡ self.old) }
    {
        let alloc = *self.vertices.allocator();
        let mut points = Vec::with_capacity(alloc, 1)?;
        points.push(point)?;
        self.add_points(points)
    }

    /// Adds points, whose stocks have the curve's length. Ties are broken as in [`Curve::add_point`].
    ///
    /// After `NoMemory` the curve is as before.
    pub fn add_points(&mut self, points: Vec<Point>) -> Result<(), NoMemory>
        requires few { length self.old + length points.items ≤ most_points }
        requires ranges { (v : Point) → Among v points.items → InRange v }
        requires widths { (v w : Point) → Among v self.old → Among w points.items → length v.stocks ≡ length w.stocks }
        ensures ok { OnOk result (IsCurve (self.old ++ points.items) self.new) }
        ensures few { OnOk result (length self.new ≤ length self.old + length points.items) }
        ensures err { OnErr result (self.new ≡ self.old) }
    {
        let alloc = *self.vertices.allocator();
        if points.is_empty() {
            return Ok(());
        }
        self.vertices.reserve(points.len())?;
        let points = in_order(points);
        let front = cheaper(self.vertices.as_slice(), points[0].cost);
        let rest = self.vertices.split_off(front)?;
        let vertices = mem::replace(&mut self.vertices, Vec::new(alloc));
        self.vertices = chain_of_both(vertices, rest, points);
        Ok(())
    }

    /// Joins the points of both curves, whose stocks have one length. Ties are broken as in [`Curve::add_point`].
    ///
    /// After `NoMemory` the curve is as before. No command calls it.
    pub fn merge(&mut self, other: Curve) -> Result<(), NoMemory>
        requires few { length self.old + length other ≤ most_points }
        requires widths { (v w : Point) → Among v self.old → Among w other → length v.stocks ≡ length w.stocks }
        ensures ok { OnOk result (IsCurve (self.old ++ other) self.new) }
        ensures few { OnOk result (length self.new ≤ length self.old + length other) }
        ensures err { OnErr result (self.new ≡ self.old) }
    {
        self.add_points(other.vertices)
    }

    /// The curve of all sums of a point of `a` and a point of `b`. The stocks of a sum are those of `a`, then of `b`.
    /// Ties are broken as in [`Curve::add_point`]. Want of memory is the only error. No command calls it.
    pub fn sum(alloc: Global, a: &Curve, b: &Curve) -> Result<Curve, NoMemory>
        requires few { length a.now + length b.now ≤ most_points }
        requires ranges { (v w : Point) → Among v a.now → Among w b.now → InRange (plus v w) }
        ensures curve { IfOk result (λ curve. IsCurve (sums a.now b.now) curve) }
        ensures few { IfOk result (λ curve. length curve ≤ length a.now + length b.now) }
    {
        let points = path(alloc, a.vertices.as_slice(), b.vertices.as_slice())?;
        Curve::of(alloc, points)
    }

    /// Keeps only the vertices from the place `from` on and before the place `to`. Places count from 0; `from` is below
    /// `to`, and `to` at most the number of vertices.
    pub fn keep(&mut self, from: u32, to: u32)
        requires order { from < to }
        requires within { to ≤ length self.old }
        ensures { self.new ≡ take (to - from) (drop from self.old) }
    {
        self.vertices.truncate(to as usize);
        self.vertices.drain(..from as usize);
    }

    /// The shape of a curve, for a proof.
    pub fn invariant(&self)
        ensures shape { IsShape self.now }
    {
        let _opened = &self.vertices;
    }

    /// The number of vertices. The clauses also state the shape of a curve.
    pub fn len(&self) -> u32
        ensures len { result ≡ length self.now }
        ensures shape { IsShape self.now }
    {
        self.vertices.len() as u32
    }

    /// The vertices by rising cost. The clauses also state their shape.
    pub fn vertices(&self) -> &[Point]
        ensures vertices { result.now ≡ self.now }
        ensures shape { IsShape self.now }
    {
        self.vertices.as_slice()
    }

    /// The vertex at the place `k`, below the number of vertices.
    pub fn point(&self, k: u32) -> &Point
        requires { k < length self.now }
        ensures { result.now ≡ point_at self.now k }
    {
        &self.vertices[k as usize]
    }

    /// The place of the first vertex with the least Lagrangian `q * lo + p * cost`, with `p` at most 2^74 and `q` at
    /// most 10^12. If `q` is above 0, no point of the curve's set has a smaller one.
    pub fn best_at(&self, p: u128, q: u64) -> u32
        requires p_range { p ≤ most_price_units }
        requires q_range { q ≤ most_price_money }
        ensures first { IsBestAt p q self.now result }
        ensures reaches { (points : List Point) → IsCurve points self.now → 0 < q
            → IsLeastAt p q points (point_at self.now result) }
    {
        let mut best = 0;
        let mut least = self.vertices[0].lagrangian_at(p, q);
        for k in 1..self.vertices.len() {
            let value = self.vertices[k].lagrangian_at(p, q);
            if value < least {
                best = k;
                least = value;
            }
        }
        best as u32
    }

    /// The step from the vertex at `k` to the next: the fall of the lower end and the rise of the cost, both above 0.
    /// `k + 1` is below the number of vertices.
    pub fn slope(&self, k: u32) -> Price
        requires { k + 1 < length self.now }
        ensures fall { result.p + (point_at self.now (k + 1)).lo ≡ (point_at self.now k).lo }
        ensures rise { result.q + (point_at self.now k).cost ≡ (point_at self.now (k + 1)).cost }
        ensures positive { (0 < result.p) × (0 < result.q) }
        ensures small { (result.p < most_price_units) × (result.q ≤ most_price_money) }
    {
        slope_of(self.vertices.as_slice(), k)
    }
}
