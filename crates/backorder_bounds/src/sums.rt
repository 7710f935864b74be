//! 1 over the sum of the weights, from below.

ghost use Rattle.std.specs.Prelude.{◌≡◌, ◌+◌, ◌-◌, ◌*◌, ◌/◌, ◌^◌, ◌<◌, ◌≤◌, ℕ, IfSome};
ghost use Rattle.fixed_interval.specs.Ends.{Ends};
ghost use Rattle.series_bounds.specs.Profile.{pivot_at};
ghost use Rattle.backorder_bounds.specs.declared.sums.Rising.{Rising};
ghost use Rattle.backorder_bounds.specs.Lead.{AreOver, IsOverSum, IsReached, IsStart};

use crate::scale::{MOST, UNIT, product, share};
use quotients::few_quotient;

/// A number that rises by the same step from index to index.
#[derive(Clone, Copy, Drop)]
pub(crate) struct Rising {
    pub(crate) first: u64,
    pub(crate) step: u64,
}

/// The pivot, and numbers between which the weight at the stock 0 is.
#[derive(Clone, Copy, Drop)]
pub(crate) struct Start {
    pub(crate) pivot: u8,
    pub(crate) low: u64,
    pub(crate) high: u64,
}

/// Upper bounds on the sum of the weights before an index, on the weight there, and on the next ratio times the next
/// index.
#[derive(Clone, Copy, Drop)]
pub(crate) struct Reached {
    sum: u64,
    last: u64,
    above: u64,
}

impl Reached {
    /// The values at the index after `k`.
    #[inline(always)]
    fn next(self, k: u8, step: u64) -> Reached
        requires index { k ≤ 20 }
        requires sum { self.sum ≤ k * 2 ^ 40 }
        requires last { self.last ≤ 8 * 2 ^ 36 }
        requires above { self.above ≤ (8 + k) * 2 ^ 36 }
        requires step { step ≤ 2 ^ 36 }
        ensures sum { result.sum ≡ self.sum + self.last }
        ensures last { result.last ≡ self.last * (self.above / (k + 1) + 1) / 2 ^ 36 + 1 }
        ensures above { result.above ≡ self.above + step }
    {
        let ratio = few_quotient(self.above, k + 1) + 1;
        Reached {
            sum: self.sum + self.last,
            last: product(self.last, ratio) + 1,
            above: self.above + step,
        }
    }

    /// A lower bound on 1 over the sum of all weights, by a geometric series from the index `k` on. None if its ratio
    /// isn't below 1.
    #[inline(always)]
    fn closed(self, k: u8, step: u64) -> Option<u64>
        requires index { k ≤ 12 }
        requires sum { self.sum ≤ k * 2 ^ 40 }
        requires last { self.last ≤ 8 * 2 ^ 36 }
        requires above { self.above ≤ (8 + k) * 2 ^ 36 }
        ensures inverse { (f : ℕ) (m d : Ends) (over : Rising) → over.step ≡ step
            → self.above ≡ over.first + over.step * k → pivot_at f m d ≤ k → AreOver f m d over
            → IsReached f m d k self.sum self.last → IfSome result (IsOverSum f m d) }
        ensures most { IfSome result (λ inverse. inverse ≤ 2 ^ 36) }
    {
        let bound = (few_quotient(self.above, k + 1) + 1).max(step);
        if bound >= UNIT {
            return None;
        }
        let gap = UNIT - bound;
        Some(share(gap, product(self.sum, gap) + self.last + 3))
    }
}

/// The index up to which weights are added one by one at most.
const LAST: u8 = 12;

/// Weights of at most this are left to a geometric series, whose sum is near if the ratios fall by much, so if their
/// step is small.
#[inline(always)]
fn few_of(step: u64) -> u64
    requires { step < 2 ^ 36 }
{
    (UNIT / 16_384) >> (step / 4_294_967_296)
}

/// The weights up to the pivot, after which each exceeds the one before by rounding at most. None if a weight may pass
/// 8, or a later ratio may exceed 1 by more than rounding.
#[inline(always)]
fn risen(over: Rising, start: Start) -> Option<Reached>
    requires pivot { start.pivot ≤ 8 }
    requires high { start.high ≤ 8 * 2 ^ 36 }
    requires first { over.first ≤ 8 * 2 ^ 36 }
    requires step { over.step ≤ 2 ^ 36 }
    ensures above { IfSome result (λ reached. reached.above ≡ over.first + over.step * start.pivot) }
    ensures ratio { IfSome result (λ reached. reached.above < (2 ^ 36 + 255) * (start.pivot + 1)) }
    ensures last { IfSome result (λ reached. reached.last + 2 ^ 16 ≤ 8 * 2 ^ 36) }
    ensures sum { IfSome result (λ reached. reached.sum ≤ start.pivot * 2 ^ 40) }
    ensures reached { (f : ℕ) (m d : Ends) → AreOver f m d over → IsStart f m d start
        → IfSome result (λ reached. IsReached f m d start.pivot reached.sum reached.last) }
{
    let mut reached = Reached {
        sum: 0,
        last: start.high,
        above: over.first,
    };
    for k in 0..start.pivot {
        reached = reached.next(k, over.step);
        if reached.last > MOST {
            return None;
        }
    }
    if reached.last > MOST - 65_536 {
        return None;
    }
    if reached.above >= (UNIT + 255) * (u64::from(start.pivot) + 1) {
        return None;
    }
    Some(reached)
}

/// A lower bound on 1 over the sum of all weights. None if the weights may be wide.
#[inline(always)]
pub(crate) fn inverse_of_sum(over: Rising, start: Start) -> Option<u64>
    requires pivot { start.pivot ≤ 8 }
    requires high { start.high ≤ 8 * 2 ^ 36 }
    ensures inverse { (f : ℕ) (m d : Ends) → AreOver f m d over → IsStart f m d start
        → IfSome result (IsOverSum f m d) }
    ensures most { IfSome result (λ inverse. inverse ≤ 2 ^ 36) }
{
    if over.first > MOST || over.step >= UNIT {
        return None;
    }
    let few = few_of(over.step);
    let mut reached = risen(over, start)?;
    for k in start.pivot..LAST {
        if reached.last <= few {
            return reached.closed(k, over.step);
        }
        reached = reached.next(k, over.step);
    }
    reached.closed(LAST, over.step)
}
