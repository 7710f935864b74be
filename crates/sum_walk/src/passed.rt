//! The tests whether a sum, or all sums that are still to come, can be no vertex beside the points so far.

ghost use Rattle.std.specs.Prelude.{◌+◌, ◌<◌, ◌≤◌, IsTrue, length};
ghost use Rattle.hull.specs.declared.point.Point.{Point};
ghost use Rattle.hull.specs.Curves.{Among, InRange, point_at};
ghost use Rattle.hull.specs.Limits.{most_points};
ghost use Rattle.sum_walk.specs.Lanes.{IsStep};
ghost use Rattle.sum_walk.specs.Passed.{IsBehind, IsBetter, IsOver, IsPassed, IsPast, IsUnder, most_sum};

use crate::lanes::Lane;
use hull::Point;

/// The cost and the lower end of a sum.
#[derive(Clone, Copy, Drop)]
pub(crate) struct Place {
    /// The cost, in whole money.
    pub(crate) cost: u64,
    /// The lower end, in units of 2^-48.
    pub(crate) lo: u128,
}

/// Whether `point` costs no more than `place` and is no higher, and differs from it.
fn is_better(point: &Point, place: Place) -> bool
    ensures { IsTrue result → IsBetter point.now place }
{
    point.cost <= place.cost
        && point.lo <= place.lo
        && (point.cost < place.cost || point.lo < place.lo)
}

/// Whether `place` lies between `u` and `v` by cost and by lower end, on the line through them or above it.
fn lies_over(u: &Point, v: &Point, place: Place) -> bool
    requires u_range { InRange u.now }
    requires v_range { InRange v.now }
    ensures { IsTrue result → IsOver u.now v.now place }
{
    if place.cost <= u.cost || v.cost <= place.cost || u.lo <= place.lo || place.lo <= v.lo {
        return false;
    }
    let fall = (u.lo - place.lo) * u128::from(v.cost - u.cost);
    fall <= (u.lo - v.lo) * u128::from(place.cost - u.cost)
}

/// The place of the first point from `k` on whose next one costs more than this, or that has none. If it isn't `k`, its
/// point costs no more than this.
pub(crate) fn last_within(points: &[Point], k: usize, cost: u64) -> usize
    requires within { k ≤ length points.now }
    requires few { length points.now ≤ most_points }
    ensures first { k ≤ result }
    ensures within { result ≤ length points.now }
    ensures there { k < length points.now → result < length points.now }
    ensures reached { k < result → (point_at points.now result).cost ≤ cost }
    ensures last { result + 1 < length points.now → cost < (point_at points.now (result + 1)).cost }
{
    let mut last = k;
    for next in k + 1..points.len() {
        if cost < points[next].cost {
            return last;
        }
        last = next;
    }
    last
}

/// Whether `place` is known to be no vertex: `is_past` shows it, or the step from the point at `k` to the next one.
pub(crate) fn is_passed(below: &[Point], k: usize, place: Place, is_past: bool) -> bool
    requires few { length below.now ≤ most_points }
    requires ranges { (v : Point) → Among v below.now → InRange v }
    requires past { IsTrue is_past → IsPast below.now place }
    ensures { IsTrue result → IsPassed below.now place }
{
    if is_past {
        return true;
    }
    if k >= below.len() {
        return false;
    }
    let u = &below[k];
    if k + 1 >= below.len() {
        return false;
    }
    lies_over(u, &below[k + 1], place)
}

/// Whether the point at `k` costs no more than `place` and is no higher, and differs from it.
pub(crate) fn is_past(below: &[Point], k: usize, place: Place) -> bool
    ensures { IsTrue result → IsPast below.now place }
{
    k < below.len() && is_better(&below[k], place)
}

/// The place of the first point that is no higher than `lo`, where the points lie lower and lower.
pub(crate) fn first_down_to(points: &[Point], lo: u128) -> usize {
    points.partition_point(|v| lo < v.lo)
}

/// Whether the point at `k` is no higher than `lo`, and costs less than a step like that of `lane` from `place` down to
/// `lo` would.
fn is_under(below: &[Point], k: usize, place: Place, lane: Lane, lo: u128) -> bool
    requires ranges { (v : Point) → Among v below.now → InRange v }
    requires step { IsStep lane }
    requires lo { lo ≤ place.lo }
    requires small { place.lo < most_sum }
    ensures { IsTrue result → IsUnder below.now place lane lo }
{
    if k >= below.len() {
        return false;
    }
    let point = &below[k];
    if lo < point.lo {
        return false;
    }
    let dearer = u128::from(point.cost.saturating_sub(place.cost));
    dearer * lane.fall < (place.lo - lo) * u128::from(lane.rise)
}

/// Whether no later step from `place` can reach a new vertex, because `below` already lies under every such step:
/// `is_past` and its point at `end` show it. The steps are no steeper than that of `lane`, and they lead to no lower
/// end below `lo`.
pub(crate) fn is_behind(
    below: &[Point],
    is_past: bool,
    end: usize,
    place: Place,
    lane: Lane,
    lo: u128,
) -> bool
    requires ranges { (v : Point) → Among v below.now → InRange v }
    requires step { IsStep lane }
    requires lo { lo ≤ place.lo }
    requires small { place.lo < most_sum }
    requires past { IsTrue is_past → IsPast below.now place }
    ensures { IsTrue result → IsBehind below.now place lane lo }
{
    is_past && is_under(below, end, place, lane, lo)
}
