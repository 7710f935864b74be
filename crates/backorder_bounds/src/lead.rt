//! Lower bounds on weights that begin with the stock 0, on their ratios, and on 1 over their sum.

ghost use Rattle.std.specs.Prelude.{◌≡◌, true, ◌+◌, ◌-◌, ◌*◌, ◌/◌, ◌^◌, ◌<◌, ◌≤◌, ℕ, IfSome};
ghost use Rattle.fixed_interval.specs.Ends.{Ends, IsWithinLimit};
ghost use Rattle.backorder_bounds.specs.Coarse.{IsCoarse};
ghost use Rattle.backorder_bounds.specs.Lead.{AreOver, AreUnder, IsInverse, IsLead, IsSmallLead, IsStart};
ghost use Rattle.series_bounds.specs.Profile.{pivot_at};
ghost use Rattle.moment_table.specs.Profile.{excess_ends};

use crate::scale::{Coarse, MOST, UNIT, product, share};
use crate::sums::{Rising, Start, inverse_of_sum};
use fixed_interval::Iv;
use series_bounds::shares::quotient;

/// The weight at the stock 0 is at least `start`; the ratio at an index is at least the number there over the index; 1
/// over the sum of all weights is at least `inverse`.
#[derive(Clone, Copy, Drop)]
pub(crate) struct Lead {
    pub(crate) start: u64,
    pub(crate) under: Rising,
    pub(crate) inverse: u64,
}

/// 1 / (1 + excess), from below and from above.
#[derive(Clone, Copy, Drop)]
pub(crate) struct Inverse {
    low: u64,
    high: u64,
}

/// 1 / (1 + excess), which is the mean over the variance if that is at most 1. None if it may be below an eighth.
#[inline(always)]
fn inverse_of_excess(mean: Coarse, variance: Coarse) -> Option<Inverse>
    requires positive { 0 < mean.lo }
    requires most { mean.hi ≤ 8 * 2 ^ 36 }
    requires ordered { mean.lo ≤ mean.hi }
    ensures inverse { (f : ℕ) (m v : Ends) → 46 ≤ f → 0 < m.lo → m.lo ≤ m.hi → v.lo ≤ v.hi → IsCoarse f m mean
        → IsCoarse f v variance → IfSome result (λ found. IsInverse f (excess_ends f m v) found.low found.high) }
    ensures least { IfSome result (λ found. found.low ≤ found.high) }
    ensures most { IfSome result (λ found. found.high ≤ 2 ^ 36) }
{
    let least = variance.lo.max(mean.lo);
    let most = variance.hi.max(mean.hi);
    let low = share(mean.lo, most).saturating_sub(1);
    let high = (share(mean.hi, least) + 2).min(UNIT);
    if low <= UNIT / 8 || high < low {
        return None;
    }
    Some(Inverse { low, high })
}

/// The pivot and the weight at the stock 0, from the ratios. None if no pivot is found.
#[inline(always)]
fn start_of<const F: u32>(
    mean: Iv<F>,
    variance: Iv<F>,
    over: Rising,
    under: Rising,
) -> Option<Start>
    requires mean_top { IsWithinLimit F mean }
    requires variance_top { IsWithinLimit F variance }
    requires over { AreOver F mean (excess_ends F mean variance) over }
    requires under { AreUnder F mean (excess_ends F mean variance) under }
    ensures start { IfSome result (IsStart F mean.entry (excess_ends F mean.entry variance.entry)) }
    ensures few { IfSome result (λ start. start.pivot ≤ 8) }
    ensures low { IfSome result (λ start. start.low ≤ 8 * 2 ^ 36) }
    ensures high { IfSome result (λ start. start.high ≤ 8 * 2 ^ 36) }
{
    if over.first < UNIT {
        return Some(Start {
            pivot: 0,
            low: UNIT,
            high: UNIT,
        });
    }
    let excess = quotient(variance, mean).less(Iv::exact(1));
    let pivot = mean.less(excess).lo() >> F;
    if pivot > 8 {
        return None;
    }
    walked_down(over, under, pivot as u8)
}

/// Whether the parts of ratios are at most 8 and 1.
fn is_small(parts: Rising) -> bool
    ensures first { result ≡ true → parts.first ≤ 8 * 2 ^ 36 }
    ensures step { result ≡ true → parts.step ≤ 2 ^ 36 }
{
    parts.first <= MOST && parts.step <= UNIT
}

/// The number at an index from 1 to 8.
fn number_at(parts: Rising, x: u8) -> u64
    requires few { x ≤ 8 }
    requires positive { 0 < x }
    requires first { parts.first ≤ 8 * 2 ^ 36 }
    requires step { parts.step ≤ 2 ^ 36 }
    ensures number { result ≡ parts.first + parts.step * (x - 1) }
    ensures most { result ≤ 16 * 2 ^ 36 }
{
    parts.first + parts.step * u64::from(x - 1)
}

/// `x` over a number, rounded down.
fn squares_over(x: u8, den: u64) -> u64
    requires few { x ≤ 8 }
    requires least { 2 ^ 36 ≤ den * 2 }
    ensures ratio { result ≡ x * 2 ^ 72 / den }
    ensures most { result ≤ 16 * 2 ^ 36 }
{
    quotients::quotient(u128::from(x) << 72, u128::from(den)) as u64
}

/// The weight at the stock 0, from the pivot down. None if the weight may pass 8 or the ratios are too small.
fn walked_down(over: Rising, under: Rising, pivot: u8) -> Option<Start>
    requires few { pivot ≤ 8 }
    ensures start { (f : ℕ) (m d : Ends) → pivot_at f m d ≡ pivot → AreOver f m d over → AreUnder f m d under
        → IfSome result (IsStart f m d) }
    ensures few { IfSome result (λ start. start.pivot ≤ 8) }
    ensures low { IfSome result (λ start. start.low ≤ 8 * 2 ^ 36) }
    ensures high { IfSome result (λ start. start.high ≤ 8 * 2 ^ 36) }
{
    if !is_small(over) {
        return None;
    }
    if !is_small(under) {
        return None;
    }
    let mut low = UNIT;
    let mut high = UNIT;
    for k in 0..pivot {
        let x = pivot - k;
        let above = number_at(over, x);
        let below = number_at(under, x);
        if above * 2 < UNIT || below * 2 < UNIT {
            return None;
        }
        low = product(low, squares_over(x, above));
        high = product(high, squares_over(x, below) + 1) + 1;
        if high > MOST || low > MOST {
            return None;
        }
    }
    Some(Start { pivot, low, high })
}

/// The bounds on the weights of this mean and variance. None if the mean is above 8 or nearly 0, if the weights may be
/// wide, or if the ends have few places.
#[inline(always)]
pub(crate) fn lead_of<const F: u32>(mean: Iv<F>, variance: Iv<F>) -> Option<Lead>
    requires mean_top { IsWithinLimit F mean }
    requires variance_top { IsWithinLimit F variance }
    ensures places { IfSome result (λ _. 46 ≤ F) }
    ensures lead { IfSome result (IsLead F mean.entry (excess_ends F mean.entry variance.entry)) }
    ensures small { IfSome result IsSmallLead }
{
    if F < 46 {
        return None;
    }
    let near = Coarse::of(mean);
    if near.lo == 0 || near.hi > MOST {
        return None;
    }
    let inverse = inverse_of_excess(near, Coarse::of(variance))?;
    let more = 8 * (inverse.high - inverse.low);
    let over = Rising {
        first: product(near.hi, inverse.high) + 1,
        step: UNIT - inverse.low + more,
    };
    let under = Rising {
        first: product(near.lo, inverse.low),
        step: (UNIT - inverse.high).saturating_sub(more),
    };
    let start = start_of(mean, variance, over, under)?;
    let share = inverse_of_sum(over, start)?;
    Some(Lead {
        start: start.low,
        under,
        inverse: share,
    })
}
