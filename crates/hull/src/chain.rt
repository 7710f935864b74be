//! Chains: curves whose points arrive by rising cost, and need not store their stocks.

ghost use Rattle.std.specs.Prelude.{◌≡◌, ◌+◌, ◌-◌, ◌<◌, ◌≤◌, [], ◌∷◌, ◌++◌, List, drop, length, map, take, IfOk, OnOk, OnErr};
ghost use Rattle.hull.specs.declared.point.Point.{Point};
ghost use Rattle.hull.specs.Curves.{Among, InRange, IsShape, StandFor, point_at};
ghost use Rattle.hull.specs.Limits.{most_price_units, most_price_money, most_points};

use crate::scan::grow;
use crate::{Price, Spot};
use answers::NoMemory;
use std::alloc::Global;
use std::marker::Model;

/// The strict lower vertices of the points so far, at least one point, each of which costs no less than those before
/// it. The vertices are listed by rising cost.
///
/// A chain has the shape of a [`Curve`](crate::Curve).
#[derive(Drop)]
pub struct Chain<T: Spot> {
    vertices: Vec<T>,
}

impl<T: Spot> Model for Chain<T> {
    ghost use Rattle.std.specs.Prelude.{List, map};
    ghost use Rattle.hull.specs.declared.point.Point.{Point};
    ghost use Rattle.hull.specs.Curves.{IsShape};

    ghost Value = { List Point };

    ghost view = { λ c. map T.point c.vertices.items };

    ghost invariant = { λ c. IsShape (map T.point c.vertices.items) };
}

/// The step from the vertex at `k` to the next: the fall of the lower end and the rise of the cost.
pub(crate) fn slope_of<T: Spot>(vertices: &[T], k: u32) -> Price
    requires shape { IsShape (map T.point vertices.now) }
    requires within { k + 1 < length (map T.point vertices.now) }
    ensures fall { result.p + (point_at (map T.point vertices.now) (k + 1)).lo
        ≡ (point_at (map T.point vertices.now) k).lo }
    ensures rise { result.q + (point_at (map T.point vertices.now) k).cost
        ≡ (point_at (map T.point vertices.now) (k + 1)).cost }
    ensures positive { (0 < result.p) × (0 < result.q) }
    ensures small { (result.p < most_price_units) × (result.q ≤ most_price_money) }
{
    let start = &vertices[k as usize];
    let end = &vertices[k as usize + 1];
    Price {
        p: start.lo() - end.lo(),
        q: end.cost() - start.cost(),
    }
}

impl<T: Spot> Chain<T> {
    /// The chain of one point, with capacity for `room` points. Want of memory is the only error.
    pub fn one(alloc: Global, room: usize, point: T) -> Result<Chain<T>, NoMemory>
        requires { InRange (T.point point) }
        ensures { IfOk result (λ chain. chain ≡ T.point point ∷ []) }
    {
        let mut vertices = Vec::with_capacity(alloc, room)?;
        vertices.push(point)?;
        Ok(Chain { vertices })
    }

    /// Makes this the chain of one point, and keeps its capacity.
    pub fn begin_with(&mut self, point: T)
        requires { InRange (T.point point) }
        ensures { self.new ≡ T.point point ∷ [] }
    {
        self.vertices.truncate(1);
        self.vertices[0] = point;
    }

    /// Adds a point that costs no less than the vertices so far, and whose stocks have their length. Of points with the
    /// same cost and the same lower end, the one whose stocks come first in dictionary order is kept.
    ///
    /// After `NoMemory` the chain is as before.
    #[inline(always)]
    pub fn take(&mut self, point: T) -> Result<(), NoMemory>
        requires order { (v : Point) → Among v self.old → v.cost ≤ (T.point point).cost }
        requires range { InRange (T.point point) }
        requires width { (v : Point) → Among v self.old → length v.stocks ≡ length (T.point point).stocks }
        requires few { length self.old + 1 ≤ most_points }
        ensures stands { OnOk result (StandFor (self.old ++ T.point point ∷ []) self.new) }
        ensures few { OnOk result (length self.new ≤ length self.old + 1) }
        ensures err { OnErr result (self.new ≡ self.old) }
    {
        self.vertices.reserve(1)?;
        grow(&mut self.vertices, point);
        Ok(())
    }

    /// Keeps only the vertices from the place `from` on and before the place `to`. Places count from 0; `from` is below
    /// `to`, and `to` at most the number of vertices.
    pub fn keep(&mut self, from: u32, to: u32)
        requires order { from < to }
        requires within { to ≤ length self.old }
        ensures { self.new ≡ take (to - from) (drop from self.old) }
    {
        self.vertices.truncate(to as usize);
        self.vertices.drain(..from as usize);
    }

    /// The shape of a chain, for a proof.
    pub fn invariant(&self)
        ensures shape { IsShape self.now }
    {
        let _opened = &self.vertices;
    }

    /// The number of vertices. The clauses also state the shape of a chain.
    pub fn len(&self) -> u32
        ensures len { result ≡ length self.now }
        ensures shape { IsShape self.now }
    {
        self.vertices.len() as u32
    }

    /// The vertex at the place `k`, below the number of vertices.
    pub fn at(&self, k: u32) -> &T
        requires { k < length self.now }
        ensures { T.point result.now ≡ point_at self.now k }
    {
        &self.vertices[k as usize]
    }

    /// The step from the vertex at `k` to the next: the fall of the lower end and the rise of the cost, both above 0.
    /// `k + 1` is below the number of vertices.
    pub fn slope(&self, k: u32) -> Price
        requires { k + 1 < length self.now }
        ensures fall { result.p + (point_at self.now (k + 1)).lo ≡ (point_at self.now k).lo }
        ensures rise { result.q + (point_at self.now k).cost ≡ (point_at self.now (k + 1)).cost }
        ensures positive { (0 < result.p) × (0 < result.q) }
        ensures small { (result.p < most_price_units) × (result.q ≤ most_price_money) }
    {
        slope_of(self.vertices.as_slice(), k)
    }
}
