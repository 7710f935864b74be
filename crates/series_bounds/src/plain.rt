//! The walk by the divisions of the definitions; the sum and each weight alone, without memory.
//!
//! A single weight is computed anew from the pivot, so this is slow. It serves callers without memory and excesses
//! whose ends are far apart, and it is the plain form against which the fast one can be read and tested.

ghost use Rattle.std.specs.Prelude.{ℕ, ◌≡◌, ◌+◌, ◌-◌, ◌*◌, ◌^◌, ◌<◌, ◌≤◌, true, IfOk, IfSome, IfNone};
ghost use Rattle.fixed_interval.specs.Ends.{IsWithinLimit, ends_mul};
ghost use Rattle.series_bounds.specs.Profile.{ratio_ends, back_ends, far_ratio, pivot_at, weight_ends, is_wide, listed};
ghost use Rattle.series_bounds.specs.Walk.{AreWeighed, EndsAt, GoesOn, SumsTo};
ghost use Rattle.series_bounds.specs.Answer.{IsSum};

use crate::short::Iv64;
use crate::{FIRST_END, LAST_END, most_weight, pivot_of, rest_at, unit};
use answers::NoMemory;
use fixed_interval::Iv;

/// A weight times a ratio.
#[inline(always)]
fn times<const F: u32>(weight: Iv<F>, ratio: Iv<F>) -> Iv<F>
    requires top { weight.hi ≤ 8 * 2 ^ F }
    requires ratio_top { ratio.hi ≤ 2048 * 2 ^ F }
    ensures { result ≡ ends_mul F weight.entry ratio.entry }
{
    weight.mul(ratio)
}

/// The ratio of the weight at `x` to the weight before it.
fn ratio<const F: u32>(mean: Iv<F>, excess: Iv<F>, x: u32) -> Iv<F>
    requires mean_top { IsWithinLimit F mean }
    requires excess_top { excess.hi ≤ 2048 * 2 ^ F }
    requires from { 0 < x }
    requires depth { x ≤ 1025 }
    ensures ends { result ≡ ratio_ends F mean.entry excess.entry x }
    ensures top { result.hi ≤ 2048 * 2 ^ F }
{
    let above = mean.add(excess.times(x - 1));
    let below = Iv::exact(1).add(excess).times(x);
    above.div(below)
}

/// The ratio of the weight before `x` to the weight at `x`, if the mean is at least 1 above the excess.
fn back<const F: u32>(mean: Iv<F>, excess: Iv<F>, x: u32) -> Iv<F>
    requires mean_top { IsWithinLimit F mean }
    requires above { 2 ^ F + excess.hi ≤ mean.lo }
    requires from { 0 < x }
    requires depth { x ≤ 256 }
    ensures ends { result ≡ back_ends F mean.entry excess.entry x }
    ensures top { result.hi ≤ 256 * 2 ^ F }
{
    let above = Iv::exact(1).add(excess).times(x);
    let below = mean.add(excess.times(x - 1));
    above.div(below)
}

/// The bound of all ratios far out: the excess over 1 more than it.
fn far<const F: u32>(excess: Iv<F>) -> u128
    requires excess_top { excess.hi ≤ 2048 * 2 ^ F }
    ensures { result ≡ far_ratio F excess.entry }
{
    let unit = unit::<F>();
    let spread = excess.hi();
    (spread * unit).div_ceil(unit + spread)
}

/// The weight `places` below the pivot, or None if one on the way exceeds 8.
fn weight_below<const F: u32>(mean: Iv<F>, excess: Iv<F>, pivot: u16, places: u32) -> Option<Iv<F>>
    requires mean_top { IsWithinLimit F mean }
    requires depth { pivot ≤ 256 }
    requires above { 0 < pivot → 2 ^ F + excess.hi ≤ mean.lo }
    requires place { pivot ≡ pivot_at F mean excess }
    requires places { places ≤ pivot }
    ensures wide { IfNone result (is_wide F mean.entry excess.entry ≡ true) }
    ensures known { IfSome result (λ w. w ≡ weight_ends F mean.entry excess.entry (pivot - places)) }
    ensures top { IfSome result (λ w. w.hi ≤ 8 * 2 ^ F) }
{
    let most = most_weight::<F>();
    let mut term = Iv::exact(1);
    for step in 0..places {
        term = times(term, back(mean, excess, u32::from(pivot) - step));
        if term.hi() > most {
            return None;
        }
    }
    Some(term)
}

/// The weight at `x`, which is above the pivot and at most 63, or None if one on the way exceeds 8.
fn weight_above<const F: u32>(mean: Iv<F>, excess: Iv<F>, pivot: u16, x: u32) -> Option<Iv<F>>
    requires mean_top { IsWithinLimit F mean }
    requires excess_top { excess.hi ≤ 2048 * 2 ^ F }
    requires place { pivot ≡ pivot_at F mean excess }
    requires past { pivot < x }
    requires depth { x ≤ 63 }
    ensures wide { IfNone result (is_wide F mean.entry excess.entry ≡ true) }
    ensures known { IfSome result (λ w. w ≡ weight_ends F mean.entry excess.entry x) }
    ensures top { IfSome result (λ w. w.hi ≤ 8 * 2 ^ F) }
{
    let most = most_weight::<F>();
    let mut term = Iv::exact(1);
    for y in u32::from(pivot) + 1..x + 1 {
        term = times(term, ratio(mean, excess, y));
        if term.hi() > most {
            return None;
        }
    }
    Some(term)
}

/// The sum of the weights from 0 to the pivot, or None if one exceeds 8.
fn sum_to_pivot<const F: u32>(mean: Iv<F>, excess: Iv<F>, pivot: u16) -> Option<Iv<F>>
    requires mean_top { IsWithinLimit F mean }
    requires depth { pivot ≤ 256 }
    requires above { 0 < pivot → 2 ^ F + excess.hi ≤ mean.lo }
    requires place { pivot ≡ pivot_at F mean excess }
    ensures wide { IfNone result (is_wide F mean.entry excess.entry ≡ true) }
    ensures known { IfSome result (λ sum. SumsTo F mean.entry excess.entry sum (pivot + 1)) }
{
    let mut sum = Iv::exact(0);
    for x in 0..u32::from(pivot) + 1 {
        sum = sum.add(weight_below(mean, excess, pivot, u32::from(pivot) - x)?);
    }
    Some(sum)
}

/// An upper bound of the weights past `x` if the list ends there, or None if it goes on; `top` is the weight at `x`.
fn rest_past<const F: u32>(mean: Iv<F>, excess: Iv<F>, top: u128, x: u32) -> Option<u128>
    requires mean_top { IsWithinLimit F mean }
    requires excess_top { excess.hi ≤ 2048 * 2 ^ F }
    requires depth { x ≤ 1024 }
    requires top { top ≡ (weight_ends F mean excess x).hi }
    requires small { top ≤ 8 * 2 ^ F }
    ensures goes_on { IfNone result (GoesOn F mean.entry excess.entry x) }
    ensures ended { IfSome result (EndsAt F mean.entry excess.entry x) }
{
    if x < FIRST_END {
        return None;
    }
    let bound = ratio(mean, excess, x + 1).hi().max(far(excess));
    let rest = rest_at::<F>(top, bound, x)?;
    Some(rest)
}

/// The sum of all weights with the bound of those past the list, from the sum `low` up to the pivot, or None if the
/// result is wide.
fn sum_past<const F: u32>(mean: Iv<F>, excess: Iv<F>, pivot: u16, low: Iv<F>) -> Option<Iv<F>>
    requires mean_top { IsWithinLimit F mean }
    requires excess_top { excess.hi ≤ 2048 * 2 ^ F }
    requires depth { pivot ≤ 256 }
    requires place { pivot ≡ pivot_at F mean excess }
    requires low { SumsTo F mean excess low (pivot + 1) }
    ensures wide { IfNone result (is_wide F mean.entry excess.entry ≡ true) }
    ensures known { IfSome result (IsSum F mean.entry excess.entry) }
{
    let most = most_weight::<F>();
    let mut sum = low;
    let mut last = Iv::exact(1);
    for x in u32::from(pivot) + 1..LAST_END + 1 {
        last = times(last, ratio(mean, excess, x));
        if last.hi() > most {
            return None;
        }
        sum = sum.add(last);
        if let Some(rest) = rest_past(mean, excess, last.hi(), x) {
            return Some(Iv::of_ends(sum.lo(), sum.hi() + rest));
        }
    }
    None
}

/// Appends all weights past the pivot, and returns the sum of all with the bound of those past the list. It uses the
/// divisions of the definitions, for an excess whose ends are far apart. `low` is the sum up to the pivot. None if a
/// weight exceeds 8 or the rest need not fall.
pub(crate) fn risen_plain<const F: u32>(
    list: &mut Vec<Iv64<F>>,
    mean: Iv<F>,
    excess: Iv<F>,
    pivot: u16,
    low: Iv<F>,
) -> Result<Option<Iv<F>>, NoMemory>
    requires mean_top { IsWithinLimit F mean }
    requires excess_top { excess.hi ≤ 2048 * 2 ^ F }
    requires depth { pivot ≤ 256 }
    requires place { pivot ≡ pivot_at F mean excess }
    requires begun { list.old.items ≡ listed (weight_ends F mean excess) (pivot + 1) }
    requires low { SumsTo F mean excess low (pivot + 1) }
    ensures wide { IfOk result (λ found. IfNone found (is_wide F mean.entry excess.entry ≡ true)) }
    ensures known { IfOk result (λ found. IfSome found
        (λ sum. (wanted : ℕ) → AreWeighed F mean.entry excess.entry wanted list.new.items sum)) }
{
    let most = most_weight::<F>();
    let mut sum = low;
    let mut last = Iv::exact(1);
    for x in u32::from(pivot) + 1..LAST_END + 1 {
        last = times(last, ratio(mean, excess, x));
        if last.hi() > most {
            return Ok(None);
        }
        sum = sum.add(last);
        list.push(Iv64::of(last))?;
        if let Some(rest) = rest_past(mean, excess, last.hi(), x) {
            return Ok(Some(Iv::of_ends(sum.lo(), sum.hi() + rest)));
        }
    }
    Ok(None)
}

/// The sum in the result of `weights`, without memory, or None if that is `Wide`.
pub fn sum_of_weights<const F: u32>(mean: Iv<F>, excess: Iv<F>) -> Option<Iv<F>>
    requires positive { 0 < mean.lo }
    requires mean_top { IsWithinLimit F mean }
    requires excess_top { excess.hi ≤ 2048 * 2 ^ F }
    ensures wide { IfNone result (is_wide F mean.entry excess.entry ≡ true) }
    ensures known { IfSome result (IsSum F mean.entry excess.entry) }
    ensures least { IfSome result (λ sum. 2 ^ F ≤ sum.lo) }
{
    let pivot = pivot_of(mean, excess);
    let low = sum_to_pivot(mean, excess, pivot)?;
    let sum = sum_past(mean, excess, pivot, low)?;
    Some(sum)
}

/// The weight at `x`, at most 63, without memory. None only if the result of `weights` is `Wide`.
pub fn weight_at<const F: u32>(mean: Iv<F>, excess: Iv<F>, x: u32) -> Option<Iv<F>>
    requires mean_top { IsWithinLimit F mean }
    requires excess_top { excess.hi ≤ 2048 * 2 ^ F }
    requires depth { x ≤ 63 }
    ensures wide { IfNone result (is_wide F mean.entry excess.entry ≡ true) }
    ensures known { IfSome result (λ w. w ≡ weight_ends F mean.entry excess.entry x) }
    ensures top { IfSome result (λ w. w.hi ≤ 8 * 2 ^ F) }
{
    let pivot = pivot_of(mean, excess);
    if x <= u32::from(pivot) {
        weight_below(mean, excess, pivot, u32::from(pivot) - x)
    } else {
        weight_above(mean, excess, pivot, x)
    }
}
