//! The chain of a curve joined with further points.

ghost use Rattle.std.specs.Prelude.{◌≡◌, ◌+◌, ◌<◌, ◌≤◌, [], ◌∷◌, ◌++◌, map, IsTrue, MatchOption, vec_len, vec_capacity};
ghost use Rattle.std.specs.List.Sorted.{IsNonDecreasingBy};
ghost use Rattle.std.specs.VecDeque.{deque_len};
ghost use Rattle.hull.specs.declared.point.Point.{Point};
ghost use Rattle.hull.specs.Curves.{Among, StandFor, IsChain, InRange};
ghost use Rattle.hull.specs.Verdicts.{IsLastOf, TakesCheaper};

use crate::scan::{goes_on, grow, scan};
use crate::{Point, Spot};
use std::collections::VecDeque;

/// Takes the cheaper of the two first points, as long as `right` has any.
fn take_cheaper<T: Spot>(left: &mut VecDeque<T>, right: &mut VecDeque<T>) -> Option<T>
    ensures { MatchOption result ((left.new.items ≡ left.old.items) × (right.old.items ≡ []))
        (λ v. TakesCheaper (λ x. (T.point x).cost) v left.old.items right.old.items left.new.items right.new.items) }
{
    let Some(second) = right.front() else {
        return None;
    };
    let Some(first) = left.front() else {
        return right.pop_front();
    };
    if first.cost() <= second.cost() {
        left.pop_front()
    } else {
        right.pop_front()
    }
}

/// Adds a point that costs no less than the last of a chain, as [`grow`] does. It stands apart, so that its
/// instructions, which all that joins chains runs through, come once.
#[inline(never)]
fn grow_apart<T: Spot>(stack: &mut Vec<T>, point: T) -> bool
    requires room { vec_len stack.old < vec_capacity stack.old }
    requires chain { IsChain (map T.point stack.old.items) }
    requires order { (v : Point) → Among v (map T.point stack.old.items) → v.cost ≤ (T.point point).cost }
    requires ranges { (v : Point) → Among v (map T.point stack.old.items) → InRange v }
    requires range { InRange (T.point point) }
    ensures chain { IsChain (map T.point stack.new.items) }
    ensures stands { StandFor (map T.point stack.old.items ++ T.point point ∷ []) (map T.point stack.new.items) }
    ensures some { 0 < vec_len stack.new }
    ensures len { vec_len stack.new ≤ vec_len stack.old + 1 }
    ensures capacity { vec_capacity stack.old ≤ vec_capacity stack.new }
    ensures last { IsTrue result → IsLastOf (T.point point) (map T.point stack.new.items) }
{
    grow(stack, point)
}

/// Appends all points of `left` to `stack`.
fn with_all<T: Spot>(mut stack: Vec<T>, mut left: VecDeque<T>) -> Vec<T>
    requires { vec_len stack + deque_len left ≤ vec_capacity stack }
    ensures { result.items ≡ stack.items ++ left.items }
{
    while let Some(point) = left.pop_front() {
        let _ = stack.push(point);
    }
    stack
}

/// Appends the points of the chain `left` to the chain `stack`. As soon as two in turn can be appended, so can all
/// after them.
fn with_rest<T: Spot>(mut stack: Vec<T>, mut left: VecDeque<T>) -> Vec<T>
    requires some { 0 < vec_len stack }
    requires chain { IsChain (map T.point stack.items) }
    requires left_chain { IsChain (map T.point left.items) }
    requires order { (v w : Point) → Among v (map T.point stack.items) → Among w (map T.point left.items)
        → v.cost ≤ w.cost }
    requires ranges { (v : Point) → Among v (map T.point stack.items ++ map T.point left.items) → InRange v }
    requires room { vec_len stack + deque_len left ≤ vec_capacity stack }
    ensures chain { IsChain (map T.point result.items) }
    ensures stands { StandFor (map T.point stack.items ++ map T.point left.items) (map T.point result.items) }
    ensures some { 0 < vec_len result }
    ensures len { vec_len result ≤ vec_len stack + deque_len left }
{
    let mut follows = false;
    while let Some(point) = left.pop_front() {
        if follows && goes_on(stack.as_slice(), &point) {
            let _ = stack.push(point);
            return with_all(stack, left);
        }
        follows = grow_apart(&mut stack, point);
    }
    stack
}

/// The chain of two sorts of points: those of a chain, given as `stack` and `left`, and the points `right` in order of
/// cost, none cheaper than `stack`.
fn scan_both<T: Spot>(mut stack: Vec<T>, left: Vec<T>, right: Vec<T>) -> Vec<T>
    requires some { 0 < vec_len right }
    requires chain { IsChain (map T.point stack.items ++ map T.point left.items) }
    requires order { (v w : Point) → Among v (map T.point stack.items) → Among w (map T.point right.items)
        → v.cost ≤ w.cost }
    requires sorted { IsNonDecreasingBy (λ v. (T.point v).cost) right.items }
    requires ranges { (v : Point) → Among v (map T.point stack.items ++ (map T.point left.items
        ++ map T.point right.items)) → InRange v }
    requires room { vec_len stack + (vec_len left + vec_len right) ≤ vec_capacity stack }
    ensures chain { IsChain (map T.point result.items) }
    ensures stands { StandFor (map T.point stack.items ++ (map T.point left.items ++ map T.point right.items))
        (map T.point result.items) }
    ensures some { 0 < vec_len result }
    ensures len { vec_len result ≤ vec_len stack + (vec_len left + vec_len right) }
{
    let mut left = VecDeque::from_vec(left);
    let mut right = VecDeque::from_vec(right);
    while let Some(point) = take_cheaper(&mut left, &mut right) {
        grow_apart(&mut stack, point);
    }
    with_rest(stack, left)
}

/// The chain of points in order of cost, built in the allocation of the empty list `room`.
pub(crate) fn chain_of(points: Vec<Point>, room: Vec<Point>) -> Vec<Point>
    requires some { 0 < vec_len points }
    requires sorted { IsNonDecreasingBy (λ v. v.cost) points.items }
    requires ranges { (v : Point) → Among v points.items → InRange v }
    requires empty { room.items ≡ [] }
    requires room { vec_len points ≤ vec_capacity room }
    ensures chain { IsChain result.items }
    ensures stands { StandFor points.items result.items }
    ensures some { 0 < vec_len result }
    ensures len { vec_len result ≤ vec_len points }
{
    scan(points, room)
}

/// The chain of two sorts of points: those of a chain, given as `front` and `rest`, and `points` in order of cost, none
/// cheaper than `front`. It is built in the allocation of `front`.
pub(crate) fn chain_of_both(front: Vec<Point>, rest: Vec<Point>, points: Vec<Point>) -> Vec<Point>
    requires some { 0 < vec_len points }
    requires chain { IsChain (front.items ++ rest.items) }
    requires order { (v w : Point) → Among v front.items → Among w points.items → v.cost ≤ w.cost }
    requires sorted { IsNonDecreasingBy (λ v. v.cost) points.items }
    requires ranges { (v : Point) → Among v (front.items ++ (rest.items ++ points.items)) → InRange v }
    requires room { vec_len front + (vec_len rest + vec_len points) ≤ vec_capacity front }
    ensures chain { IsChain result.items }
    ensures stands { StandFor (front.items ++ (rest.items ++ points.items)) result.items }
    ensures some { 0 < vec_len result }
    ensures len { vec_len result ≤ vec_len front + (vec_len rest + vec_len points) }
{
    scan_both(front, rest, points)
}
