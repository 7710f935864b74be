//! The scan that makes the chain of points in order of cost.

ghost use Rattle.std.specs.Prelude.{◌≡◌, ◌+◌, ◌<◌, ◌≤◌, ◌↔◌, [], ◌∷◌, ◌++◌, map, IsTrue, vec_len, vec_capacity};
ghost use Rattle.std.specs.List.Sorted.{IsNonDecreasingBy, IsPermutation};
ghost use Rattle.hull.specs.declared.point.Point.{Point};
ghost use Rattle.hull.specs.Curves.{Among, StandFor, Steps, Turns, IsChain, InRange};
ghost use Rattle.hull.specs.Verdicts.{IsLastOf, Tells};

use crate::Spot;

/// Whether the step from `v` to `w` falls less per money than the step from `u` to `v`.
fn turns<T: Spot>(u: &T, v: &T, w: &T) -> bool
    requires first { Steps (T.point u.now) (T.point v.now) }
    requires second { Steps (T.point v.now) (T.point w.now) }
    requires u_range { InRange (T.point u.now) }
    requires w_range { InRange (T.point w.now) }
    ensures { IsTrue result ↔ Turns (T.point u.now) (T.point v.now) (T.point w.now) }
{
    let (lo, cost) = (v.lo(), v.cost());
    (lo - w.lo()) * u128::from(cost - u.cost()) < (u.lo() - lo) * u128::from(w.cost() - cost)
}

/// The verdict on the last of a chain's points when a new point comes.
enum Verdict {
    /// It stays, and the new point follows it.
    Keep,
    /// It is dropped.
    Drop,
    /// The new point is no vertex.
    Refuse,
}

/// Judges the last point of a chain against a new point that costs no less.
fn judge<T: Spot>(stack: &[T], point: &T) -> Verdict
    requires chain { IsChain (map T.point stack.now) }
    requires order { (v : Point) → Among v (map T.point stack.now) → v.cost ≤ (T.point point.now).cost }
    requires ranges { (v : Point) → Among v (map T.point stack.now) → InRange v }
    requires range { InRange (T.point point.now) }
    ensures { Tells (map T.point stack.now) (T.point point.now) result }
{
    let Some((top, rest)) = stack.split_last() else {
        return Verdict::Keep;
    };
    let (top_lo, lo) = (top.lo(), point.lo());
    let is_dearer = top.cost() < point.cost();
    if top_lo <= lo {
        if top_lo < lo || is_dearer {
            return Verdict::Refuse;
        }
        if top.is_first(point) {
            return Verdict::Refuse;
        }
        return Verdict::Drop;
    }
    if !is_dearer {
        return Verdict::Drop;
    }
    let Some((below, _front)) = rest.split_last() else {
        return Verdict::Keep;
    };
    if turns(below, top, point) {
        Verdict::Keep
    } else {
        Verdict::Drop
    }
}

/// Whether `point`, which costs no less, can be appended and the chain stays convex.
pub(crate) fn goes_on<T: Spot>(stack: &[T], point: &T) -> bool
    requires chain { IsChain (map T.point stack.now) }
    requires order { (v : Point) → Among v (map T.point stack.now) → v.cost ≤ (T.point point.now).cost }
    requires ranges { (v : Point) → Among v (map T.point stack.now) → InRange v }
    requires range { InRange (T.point point.now) }
    ensures { IsTrue result → IsChain (map T.point stack.now ++ T.point point.now ∷ []) }
{
    match judge(stack, point) {
        Verdict::Keep => true,
        Verdict::Drop | Verdict::Refuse => false,
    }
}

/// Adds a point that costs no less than the last of a chain. Returns whether it is the last one now.
#[inline(always)]
pub(crate) fn grow<T: Spot>(stack: &mut Vec<T>, point: T) -> bool
    requires room { vec_len stack.old < vec_capacity stack.old }
    requires chain { IsChain (map T.point stack.old.items) }
    requires order { (v : Point) → Among v (map T.point stack.old.items) → v.cost ≤ (T.point point).cost }
    requires ranges { (v : Point) → Among v (map T.point stack.old.items) → InRange v }
    requires range { InRange (T.point point) }
    ensures chain { IsChain (map T.point stack.new.items) }
    ensures stands { StandFor (map T.point stack.old.items ++ T.point point ∷ []) (map T.point stack.new.items) }
    ensures some { 0 < vec_len stack.new }
    ensures len { vec_len stack.new ≤ vec_len stack.old + 1 }
    ensures capacity { vec_capacity stack.old ≤ vec_capacity stack.new }
    ensures last { IsTrue result → IsLastOf (T.point point) (map T.point stack.new.items) }
{
    'pops: loop {
        match judge(stack.as_slice(), &point) {
            Verdict::Keep => {
                let _ = stack.push(point);
                return true;
            }
            Verdict::Drop => {
                stack.pop();
            }
            Verdict::Refuse => return false,
        }
    }
}

/// The chain of points in order of cost, built in the allocation of the empty list `stack`.
pub(crate) fn scan<T: Spot>(points: Vec<T>, mut stack: Vec<T>) -> Vec<T>
    requires some { 0 < vec_len points }
    requires sorted { IsNonDecreasingBy (λ v. (T.point v).cost) points.items }
    requires ranges { (v : Point) → Among v (map T.point points.items) → InRange v }
    requires empty { stack.items ≡ [] }
    requires room { vec_len points ≤ vec_capacity stack }
    ensures chain { IsChain (map T.point result.items) }
    ensures stands { StandFor (map T.point points.items) (map T.point result.items) }
    ensures some { 0 < vec_len result }
    ensures len { vec_len result ≤ vec_len points }
{
    for point in points {
        grow(&mut stack, point);
    }
    stack
}

/// Sorts points by cost.
pub(crate) fn in_order<T: Spot>(mut points: Vec<T>) -> Vec<T>
    ensures permutation { IsPermutation points.items result.items }
    ensures sorted { IsNonDecreasingBy (λ v. (T.point v).cost) result.items }
    ensures len { vec_len result ≡ vec_len points }
{
    points.sort_unstable_by_key(|v| v.cost());
    points
}
