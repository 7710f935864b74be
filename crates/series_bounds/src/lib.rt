//! The weights of a pipeline's distribution, relative to the weight at the pivot, near the mode.
//!
//! The number of units in a pipeline is Poisson if its variance is its mean, and negative binomial if the variance is
//! larger (Sherbrooke, *Optimal Inventory Modeling of Systems*, 2nd ed., the chapters on METRIC and VARI-METRIC). With
//! the mean `m` and the excess `d`, the variance over the mean less 1, the weights have `w(0) = 1` and
//! `w(x) = w(x - 1) (m + (x - 1) d) / (x (1 + d))`; a probability is a weight over the sum of all.
//!
//! The list of weights ends at the first index from 63 on, past the pivot, at which all later weights together are at
//! most 256 units of `2^-F`, or at 1024 if there is none. A geometric series bounds the later weights: a later ratio is
//! never above the larger of the next one and `d / (1 + d)`. If that isn't below 1 at the last index, or if a weight
//! exceeds 8, as may happen with wide intervals, the result is `Wide`, without any weights.
#![tactic(auto)]

ghost use Rattle.std.specs.Prelude.{◌≡◌, ◌+◌, ◌-◌, ◌*◌, ◌^◌, ◌<◌, ◌≤◌, true, false, max, ℕ, ◌⊎◌, IfOk, IfSome, IfNone};
ghost use Rattle.std.specs.Int.{div_ceil};
ghost use Rattle.fixed_interval.specs.Ends.{Ends, InScale, IsWithinLimit, ends_exact, ends_mul};
ghost use Rattle.series_bounds.specs.Profile.{
  ratio_ends,
  back_ends,
  pivot_at,
  weight_ends,
  may_end,
  last_index,
  weights_of,
};
ghost use Rattle.series_bounds.specs.Answer.{Weighs, SizedAnswer};

use crate::kinds::Weights;
use crate::walk::weigh;
use answers::{List, NoMemory};
use fixed_interval::Iv;
use std::alloc::Global;

pub mod heads;
pub mod kinds;
pub mod plain;
mod ratios;
pub mod shares;
pub mod short;
mod walk;

/// The definition of the weights by index: 1 at the pivot, and from there down and up by the ratios.
pub fn weights_by_index()
    ensures pivot { (f : ℕ) (m d : Ends) → weight_ends f m d (pivot_at f m d) ≡ ends_exact f 1 }
    ensures downwards { (f : ℕ) (m d : Ends) (x : ℕ) → 0 < x → x ≤ pivot_at f m d
        → weight_ends f m d (x - 1) ≡ ends_mul f (weight_ends f m d x) (back_ends f m d x) }
    ensures upwards { (f : ℕ) (m d : Ends) (x : ℕ) → pivot_at f m d < x
        → weight_ends f m d x ≡ ends_mul f (weight_ends f m d (x - 1)) (ratio_ends f m d x) }
{}

/// The last index is the first at which the list may end, from 63 or the index after the pivot on, whichever is larger,
/// or 1024 if there is none.
pub fn last_index_is_first()
    ensures from { (f : ℕ) (m d : Ends) → max (pivot_at f m d + 1) 63 ≤ last_index f m d }
    ensures to { (f : ℕ) (m d : Ends) → pivot_at f m d ≤ 256 → last_index f m d ≤ 1024 }
    ensures passed { (f : ℕ) (m d : Ends) (y : ℕ) → max (pivot_at f m d + 1) 63 ≤ y → y < last_index f m d
        → may_end f m d y ≡ false }
    ensures here { (f : ℕ) (m d : Ends) → pivot_at f m d ≤ 256 → (may_end f m d (last_index f m d) ≡ true)
        ⊎ (last_index f m d ≡ 1024) }
{}

/// The first index at which a list may end, if the pivot is below it.
const FIRST_END: u32 = 63;

/// The last index of the longest list.
const LAST_END: u32 = 1024;

/// The largest remainder with which a list may end before that, in units of `2^-F`.
const MOST_REMAINDER: u128 = 256;

/// A weight above this makes the result wide.
const MOST_WEIGHT: u32 = 8;

/// A weight of 1.
fn unit<const F: u32>() -> u128
    requires { InScale F }
    ensures { result ≡ 2 ^ F }
{
    Iv::<F>::exact(1).hi()
}

/// The largest weight.
fn most_weight<const F: u32>() -> u128
    requires { InScale F }
    ensures { result ≡ 8 * 2 ^ F }
{
    Iv::<F>::exact(MOST_WEIGHT).hi()
}

/// `num / den`, rounded up, without a division if that is at most 1.
fn quotient_few(num: u128, den: u128) -> u128
    requires { 0 < den }
    ensures { result ≡ div_ceil num den }
{
    if num == 0 {
        0
    } else if num <= den {
        1
    } else {
        num.div_ceil(den)
    }
}

/// An upper bound of the weights past `x`, if the list ends there: `top` is the weight at `x`, and `bound` bounds the
/// ratios past it.
fn rest_at<const F: u32>(top: u128, bound: u128, x: u32) -> Option<u128>
    requires scale { InScale F }
    requires top { top ≤ 8 * 2 ^ F }
    ensures goes_on { IfNone result ((2 ^ F ≤ bound) ⊎ ((x < 1024) × (256 < div_ceil (top * bound) (2 ^ F - bound)))) }
    ensures bounded { IfSome result (λ rest. bound < 2 ^ F) }
    ensures rest { IfSome result (λ rest. rest ≡ div_ceil (top * bound) (2 ^ F - bound)) }
    ensures small { IfSome result (λ rest. x < 1024 → rest ≤ 256) }
{
    let unit = unit::<F>();
    if bound >= unit {
        return None;
    }
    let gap = unit - bound;
    let product = top * bound;
    if product > MOST_REMAINDER * gap && x < LAST_END {
        return None;
    }
    Some(quotient_few(product, gap))
}

/// The mode, rounded down.
fn pivot_of<const F: u32>(mean: Iv<F>, excess: Iv<F>) -> u16
    requires mean_top { IsWithinLimit F mean }
    ensures place { result ≡ pivot_at F mean.entry excess.entry }
    ensures most { result ≤ 256 }
    ensures above { 0 < result → 2 ^ F + excess.entry.hi ≤ mean.entry.lo }
{
    let unit = unit::<F>();
    (mean.less(excess).lo() / unit) as u16
}

/// The weights of a pipeline's distribution with this mean and excess (the variance over the mean, less 1), both in
/// units of `2^-F`: the mean is above 0 and at most 256, the excess at most 2048.
///
/// Each weight encloses the model's, and the sum encloses the sum of the weights from 0 to `n` at each depth `n` from
/// 1024 on, for every mean and every excess in the two intervals. Want of memory is the only error.
pub fn weights<const F: u32>(
    alloc: Global,
    mean: Iv<F>,
    excess: Iv<F>,
) -> Result<Weights<F>, NoMemory>
    requires positive { 0 < mean.lo }
    requires mean_top { IsWithinLimit F mean }
    requires excess_top { excess.hi ≤ 2048 * 2 ^ F }
    ensures ends { IfOk result (λ found. found ≡ weights_of F mean.entry excess.entry) }
    ensures encloses { IfOk result (λ found. Weighs found mean.entry excess.entry) }
    ensures sized { IfOk result (λ found. SizedAnswer found) }
{
    let pivot = pivot_of(mean, excess);
    let mut list = Vec::with_capacity(alloc, usize::from(pivot) + FIRST_END as usize + 1)?;
    let Some(sum) = weigh(&mut list, mean, excess, LAST_END as usize + 1)? else {
        return Ok(Weights::Wide);
    };
    Ok(Weights::Known {
        pivot,
        list: List::of(list),
        sum,
    })
}
