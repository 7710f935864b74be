//! The sum on which a walk stands: its place and its stocks.

ghost use Rattle.std.specs.Prelude.{◌≡◌, ◌+◌, ◌≤◌, IfOk, length, sum_by};
ghost use Rattle.std.specs.List.{AllZip};
ghost use Rattle.hull.specs.Limits.{most_summed};
ghost use Rattle.hull.specs.declared.point.Point.{Point};
ghost use Rattle.hull.specs.Curves.{InRange};
ghost use Rattle.sum_walk.specs.Lanes.{IsOn, lasts, stands, together};
ghost use Rattle.sum_walk.specs.Passed.{IsPlaceOf};

use crate::lanes::Lane;
use crate::passed::Place;
use answers::{List, NoMemory};
use hull::{Chain, Point, Spot};
use std::alloc::Global;

/// The place of `first` and the lanes' vertices together.
pub(crate) fn place_at<T: Spot>(first: &Point, curves: &[Chain<T>], lanes: &[Lane]) -> Place
    requires on { AllZip IsOn curves.now lanes.now }
    requires few { length curves.now ≤ most_summed }
    requires range { InRange first.now }
    ensures { IsPlaceOf (together first.now (stands curves.now lanes.now)) result }
{
    let mut cost = first.cost;
    let mut lo = first.lo;
    for j in 0..lanes.len() {
        let curve = &curves[j];
        curve.invariant();
        let vertex = curve.at(lanes[j].at);
        cost += vertex.cost();
        lo += vertex.lo();
    }
    Place { cost, lo }
}

/// The least lower end of a sum of `first` and a vertex of each curve.
pub(crate) fn lowest<T: Spot>(first: &Point, curves: &[Chain<T>]) -> u128
    requires few { length curves.now ≤ most_summed }
    requires range { InRange first.now }
    ensures { result ≡ first.now.lo + sum_by (λ v. v.lo) (lasts curves.now) }
{
    let mut lo = first.lo;
    for j in 0..curves.len() {
        let curve = &curves[j];
        let count = curve.len();
        let vertex = curve.at(count - 1);
        lo += vertex.lo();
    }
    lo
}

/// The upper end of `first` and the lanes' vertices together.
fn upper_end<T: Spot>(first: &Point, curves: &[Chain<T>], lanes: &[Lane]) -> u128
    requires on { AllZip IsOn curves.now lanes.now }
    requires few { length curves.now ≤ most_summed }
    requires range { InRange first.now }
    ensures { result ≡ (together first.now (stands curves.now lanes.now)).hi }
{
    let mut hi = first.hi;
    for j in 0..lanes.len() {
        let curve = &curves[j];
        curve.invariant();
        let vertex = curve.at(lanes[j].at);
        hi += vertex.hi();
    }
    hi
}

/// The stocks of `first` and of each lane's vertex. There is room for as many at each vertex as `first` has.
fn stocks_of<T: Spot>(
    alloc: Global,
    first: &Point,
    curves: &[Chain<T>],
    lanes: &[Lane],
) -> Result<Vec<u8>, NoMemory>
    requires few { length curves.now ≤ most_summed }
    requires on { AllZip IsOn curves.now lanes.now }
    ensures { IfOk result (λ stocks. stocks.items ≡ (together first.now (stands curves.now lanes.now)).stocks) }
{
    let own = first.stocks.as_slice();
    let room = own.len().saturating_mul(curves.len() + 1);
    let mut stocks = Vec::with_capacity(alloc, room)?;
    stocks.extend_from_slice(own)?;
    for j in 0..lanes.len() {
        let curve = &curves[j];
        let vertex = curve.at(lanes[j].at);
        vertex.put_stocks(&mut stocks)?;
    }
    Ok(stocks)
}

/// The sum of `first` and the lanes' vertices, which is at `place`.
pub(crate) fn sum_at<T: Spot>(
    alloc: Global,
    first: &Point,
    curves: &[Chain<T>],
    lanes: &[Lane],
    place: Place,
) -> Result<Point, NoMemory>
    requires on { AllZip IsOn curves.now lanes.now }
    requires few { length curves.now ≤ most_summed }
    requires range { InRange first.now }
    requires place { IsPlaceOf (together first.now (stands curves.now lanes.now)) place }
    ensures { IfOk result (λ sum. sum ≡ together first.now (stands curves.now lanes.now)) }
{
    let stocks = stocks_of(alloc, first, curves, lanes)?;
    Ok(Point {
        cost: place.cost,
        lo: place.lo,
        hi: upper_end(first, curves, lanes),
        stocks: List::of(stocks),
    })
}
