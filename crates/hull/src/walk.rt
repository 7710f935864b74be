//! The walk through two curves that passes the vertices of their sums.

ghost use Rattle.std.specs.Prelude.{◌+◌, ◌-◌, ◌*◌, ◌<◌, ◌≤◌, ◌↔◌, length, IsTrue, IfOk, vec_len};
ghost use Rattle.hull.specs.Curves.{Among, StandFor, Steps, IsChain, InRange, plus, sums};
ghost use Rattle.hull.specs.Limits.{most_points};
ghost use Rattle.hull.specs.Verdicts.{LeadsTo};

use crate::Point;
use answers::NoMemory;
use std::alloc::Global;

/// The chain on which a walk through the sums of two chains steps next.
enum Turn {
    Left,
    Right,
    End,
}

/// Whether the step from `v` to `x` falls at least as much per money as the step from `u` to `y`.
fn is_steeper(v: &Point, x: &Point, u: &Point, y: &Point) -> bool
    requires first { Steps v.now x.now }
    requires second { Steps u.now y.now }
    requires v_range { InRange v.now }
    requires x_range { InRange x.now }
    requires u_range { InRange u.now }
    requires y_range { InRange y.now }
    ensures { IsTrue result ↔ ((u.now.lo - y.now.lo) * (x.now.cost - v.now.cost) ≤ (v.now.lo - x.now.lo)
        * (y.now.cost - u.now.cost)) }
{
    (u.lo - y.lo) * u128::from(x.cost - v.cost) <= (v.lo - x.lo) * u128::from(y.cost - u.cost)
}

/// Chooses the chain with the steeper next step.
fn next_turn(left: &[Point], right: &[Point]) -> Turn
    requires left_chain { IsChain left.now }
    requires right_chain { IsChain right.now }
    requires left_some { 0 < length left.now }
    requires right_some { 0 < length right.now }
    requires left_ranges { (v : Point) → Among v left.now → InRange v }
    requires right_ranges { (v : Point) → Among v right.now → InRange v }
    ensures { LeadsTo left.now right.now result }
{
    if left.len() < 2 {
        if right.len() < 2 {
            return Turn::End;
        }
        return Turn::Right;
    }
    if right.len() < 2 {
        return Turn::Left;
    }
    if is_steeper(&left[0], &left[1], &right[0], &right[1]) {
        Turn::Left
    } else {
        Turn::Right
    }
}

/// The sums that a walk through two chains by falling steps passes.
pub(crate) fn path(alloc: Global, a: &[Point], b: &[Point]) -> Result<Vec<Point>, NoMemory>
    requires a_chain { IsChain a.now }
    requires b_chain { IsChain b.now }
    requires a_some { 0 < length a.now }
    requires b_some { 0 < length b.now }
    requires a_ranges { (v : Point) → Among v a.now → InRange v }
    requires b_ranges { (v : Point) → Among v b.now → InRange v }
    requires ranges { (v w : Point) → Among v a.now → Among w b.now → InRange (plus v w) }
    requires few { length a.now + length b.now ≤ most_points }
    ensures stands { IfOk result (λ path. StandFor (sums a.now b.now) path.items) }
    ensures some { IfOk result (λ path. 0 < vec_len path) }
    ensures few { IfOk result (λ path. vec_len path ≤ length a.now + length b.now) }
{
    let mut path = Vec::new(alloc);
    let mut left = a;
    let mut right = b;
    'walk: loop {
        let sum = Point::plus(alloc, &left[0], &right[0])?;
        path.push(sum)?;
        match next_turn(left, right) {
            Turn::Left => left = &left[1..],
            Turn::Right => right = &right[1..],
            Turn::End => return Ok(path),
        }
    }
}
