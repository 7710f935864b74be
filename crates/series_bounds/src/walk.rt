//! The walk down from the pivot and up again, which finds the first weights, as many as are wanted, and the sum of all.

ghost use Rattle.std.specs.Prelude.{◌≡◌, ◌+◌, ◌*◌, ◌^◌, ◌<◌, ◌≤◌, true, false, ℕ, [], IfOk, OnOk, IfSome, IfNone, length};
ghost use Rattle.std.specs.List.{All};
ghost use Rattle.fixed_interval.specs.Ends.{Ends, InScale, IsWithinLimit};
ghost use Rattle.series_bounds.specs.Profile.{back_ends, pivot_at, least_end, weight_ends, is_wide, ends_sum};
ghost use Rattle.series_bounds.specs.Ratios.{AreRatios, IsNear};
ghost use Rattle.series_bounds.specs.Walk.{AreWeighed, AtIndex, AtLeastEnd, Begins, Midway, StaysFrom, SumsTo, ToPivot};
ghost use Rattle.series_bounds.specs.Answer.{IsSum};

use crate::plain::risen_plain;
use crate::ratios::Ratios;
use crate::shares::div_near;
use crate::short::Iv64;
use crate::{FIRST_END, LAST_END, most_weight, pivot_of, rest_at, unit};
use answers::NoMemory;
use fixed_interval::Iv;
use quotients::Divisor;

/// Weights of fewer units are checked for staying the same.
const FEW: u64 = 3;

/// The state of the walk up, below an index.
#[derive(Drop)]
struct Walked<const F: u32> {
    /// The sum of all weights below the index.
    sum: Iv64<F>,
    /// The last weight below it.
    last: Iv64<F>,
    /// The index.
    next: u32,
}

/// The ratio of the weight before `x` to the weight at `x`, if the mean is at least 1 above the excess. `near` is a
/// divisor near the upper end of the ratio's divisor, and is set to it.
fn back_at<const F: u32>(mean: Iv<F>, excess: Iv<F>, x: u32, near: &mut Divisor<F>) -> Iv<F>
    requires mean_top { IsWithinLimit F mean }
    requires above { 2 ^ F + excess.hi ≤ mean.lo }
    requires from { 0 < x }
    requires depth { x ≤ 256 }
    ensures ends { result ≡ back_ends F mean.entry excess.entry x }
    ensures top { IsWithinLimit F result }
{
    let above = Iv::exact(1).add(excess).times(x);
    let below = mean.add(excess.times(x - 1));
    div_near(above, below, near)
}

/// Appends the weights from 0 to the pivot to an empty list, and returns whether none exceeds 8.
fn down<const F: u32>(
    list: &mut Vec<Iv64<F>>,
    mean: Iv<F>,
    excess: Iv<F>,
    pivot: u16,
) -> Result<bool, NoMemory>
    requires empty { list.old.items ≡ [] }
    requires mean_top { IsWithinLimit F mean }
    requires depth { pivot ≤ 256 }
    requires above { 0 < pivot → 2 ^ F + excess.hi ≤ mean.lo }
    requires place { pivot ≡ pivot_at F mean excess }
    ensures wide { IfOk result (λ narrow. narrow ≡ false → is_wide F mean.entry excess.entry ≡ true) }
    ensures known { IfOk result (λ narrow. narrow ≡ true → ToPivot F mean.entry excess.entry list.new.items) }
{
    let most = most_weight::<F>();
    let mut term = Iv64::one();
    list.push(term)?;
    let mut near = Divisor::one();
    for step in 0..u32::from(pivot) {
        let x = u32::from(pivot) - step;
        let back = Iv64::of(back_at(mean, excess, x, &mut near));
        term = term.times(back);
        if term.hi() > most {
            return Ok(false);
        }
        list.push(term)?;
    }
    list.reverse();
    Ok(true)
}

/// The sum of a list.
fn sum_of<const F: u32>(list: &[Iv64<F>]) -> Iv<F>
    requires scale { InScale F }
    requires long { length list.now ≤ 1025 }
    requires tops { All (λ v. v.hi ≤ 8 * 2 ^ F) list.now }
    ensures ends { result ≡ ends_sum list.now }
    ensures most { result.hi ≤ length list.now * (8 * 2 ^ F) }
{
    let mut sum = Iv::exact(0);
    for v in list {
        sum = sum.add(v.open());
    }
    sum
}

/// Appends the weights from 0 to the pivot to an empty list, and returns their sum; None if one exceeds 8. Mostly the
/// pivot is 0.
#[inline(always)]
fn lows<const F: u32>(
    list: &mut Vec<Iv64<F>>,
    mean: Iv<F>,
    excess: Iv<F>,
    pivot: u16,
) -> Result<Option<Iv64<F>>, NoMemory>
    requires empty { list.old.items ≡ [] }
    requires mean_top { IsWithinLimit F mean }
    requires depth { pivot ≤ 256 }
    requires above { 0 < pivot → 2 ^ F + excess.hi ≤ mean.lo }
    requires place { pivot ≡ pivot_at F mean excess }
    ensures wide { IfOk result (λ found. IfNone found (is_wide F mean.entry excess.entry ≡ true)) }
    ensures known { IfOk result (λ found. IfSome found (λ _. ToPivot F mean.entry excess.entry list.new.items)) }
    ensures sums { IfOk result (λ found. IfSome found (λ low. SumsTo F mean.entry excess.entry low (pivot + 1))) }
{
    if pivot == 0 {
        let one = Iv64::one();
        list.push(one)?;
        return Ok(Some(one));
    }
    let narrow = down(list, mean, excess, pivot)?;
    if !narrow {
        return Ok(None);
    }
    Ok(Some(Iv64::of(sum_of(list.as_slice()))))
}

/// Whether a weight is from 0 to 1 unit.
#[inline(always)]
fn is_least<const F: u32>(weight: Iv64<F>) -> bool
    ensures least { result ≡ true → weight.entry.lo ≡ 0 }
    ensures most { result ≡ true → weight.entry.hi ≡ 1 }
{
    weight.lo() == 0 && weight.hi() == 1
}

/// Whether a weight before the index `x` is from 0 to 1 unit, and all ratios from there on are at most 1. Then all
/// weights from there on are the same.
#[inline(always)]
fn stays<const F: u32>(mean: &Iv<F>, excess: &Iv<F>, before: Iv64<F>, x: u32) -> bool
    requires mean_top { IsWithinLimit F mean.now }
    requires excess_top { excess.now.hi ≤ 2048 * 2 ^ F }
    requires from { 0 < x }
    requires depth { x ≤ 1025 }
    requires top { before.hi ≤ 8 * 2 ^ F }
    ensures { result ≡ true → StaysFrom F mean.now excess.now before.entry x }
{
    (before.hi() as u64) < FEW && settles(mean, excess, before, x)
}

/// The same for any weight.
#[inline(never)]
fn settles<const F: u32>(mean: &Iv<F>, excess: &Iv<F>, before: Iv64<F>, x: u32) -> bool
    requires mean_top { IsWithinLimit F mean.now }
    requires excess_top { excess.now.hi ≤ 2048 * 2 ^ F }
    requires from { 0 < x }
    requires depth { x ≤ 1025 }
    ensures { result ≡ true → StaysFrom F mean.now excess.now before.entry x }
{
    if !is_least(before) {
        return false;
    }
    let above = mean.add(excess.times(x - 1));
    let step = Iv::exact(1).add(*excess);
    let below = step.times(x);
    above.hi() <= below.lo() && excess.hi() <= step.lo()
}

/// Appends a weight if the list has fewer than wanted.
#[inline(always)]
fn hold<const F: u32>(
    list: &mut Vec<Iv64<F>>,
    weight: Iv64<F>,
    wanted: usize,
) -> Result<(), NoMemory>
    ensures { OnOk result ((u : ℕ → Ends) (x : ℕ) → Begins u wanted x list.old.items → weight.entry ≡ u x
        → Begins u wanted (x + 1) list.new.items) }
{
    if list.len() < wanted {
        list.push(weight)?;
    }
    Ok(())
}

/// The walk with the weight at its index, which isn't listed, and the ratios at the next index; None if it exceeds 8.
#[inline(always)]
fn one_on<const F: u32>(
    mean: Iv<F>,
    excess: Iv<F>,
    from: Walked<F>,
    ratios: &mut Ratios<F>,
) -> Option<Walked<F>>
    requires mean_top { IsWithinLimit F mean }
    requires excess_top { excess.hi ≤ 2048 * 2 ^ F }
    requires near { IsNear F excess }
    requires depth { pivot_at F mean excess ≤ 256 }
    requires within { from.next < 63 }
    requires begun { AtIndex F mean excess from.sum from.last from.next }
    requires ratios { AreRatios F mean excess from.next ratios.old }
    ensures wide { IfNone result (is_wide F mean.entry excess.entry ≡ true) }
    ensures known { IfSome result (λ b. AtIndex F mean.entry excess.entry b.sum b.last b.next) }
    ensures onward { IfSome result (λ b. b.next ≡ from.entry.next + 1) }
    ensures ratios { AreRatios F mean.entry excess.entry (from.entry.next + 1) ratios.new }
{
    let Walked { sum, last, next } = from;
    let last = last.times(ratios.take(mean, excess, next));
    if last.passes_8() {
        return None;
    }
    Some(Walked {
        sum: sum.add(last),
        last,
        next: next + 1,
    })
}

/// The sum, from an index past the pivot up to the first index at which the list may end, or until the weights stay the
/// same; None if one exceeds 8. No weight is listed. `from` is the walk below the index, and `ratios` are those there.
/// Whether the weights stay the same is asked at each second weight, which is quicker.
#[inline(always)]
fn rise_on<const F: u32>(
    mean: Iv<F>,
    excess: Iv<F>,
    from: Walked<F>,
    ratios: Ratios<F>,
) -> Option<Walked<F>>
    requires positive { 0 < mean.lo }
    requires mean_top { IsWithinLimit F mean }
    requires excess_top { excess.hi ≤ 2048 * 2 ^ F }
    requires near { IsNear F excess }
    requires depth { pivot_at F mean excess ≤ 256 }
    requires within { from.next ≤ 63 }
    requires begun { AtIndex F mean excess from.sum from.last from.next }
    requires ratios { AreRatios F mean excess from.next ratios }
    ensures wide { IfNone result (is_wide F mean.entry excess.entry ≡ true) }
    ensures known { IfSome result (λ b. Midway F mean.entry excess.entry b.sum b.last b.next) }
    ensures onward { IfSome result (λ b. from.entry.next ≤ b.next) }
{
    let mut walked = from;
    let mut ratios = ratios;
    while walked.next < FIRST_END - 1 {
        let once = one_on(mean, excess, walked, &mut ratios)?;
        walked = one_on(mean, excess, once, &mut ratios)?;
        if stays(&mean, &excess, walked.last, walked.next) {
            return Some(walked);
        }
    }
    if walked.next < FIRST_END {
        let end = one_on(mean, excess, walked, &mut ratios)?;
        return Some(end);
    }
    Some(walked)
}

/// The first weights and the sum, from the pivot up to the first index at which the list may end, or until the weights
/// stay the same; None if one exceeds 8. `list` has the weights to the pivot, and `low` is their sum.
#[inline(always)]
fn rise<const F: u32>(
    list: &mut Vec<Iv64<F>>,
    mean: Iv<F>,
    excess: Iv<F>,
    pivot: u16,
    low: Iv64<F>,
    wanted: usize,
) -> Result<Option<Walked<F>>, NoMemory>
    requires positive { 0 < mean.lo }
    requires mean_top { IsWithinLimit F mean }
    requires excess_top { excess.hi ≤ 2048 * 2 ^ F }
    requires near { IsNear F excess }
    requires depth { pivot ≤ 256 }
    requires place { pivot ≡ pivot_at F mean excess }
    requires begun { Begins (weight_ends F mean excess) wanted (pivot + 1) list.old.items }
    requires low { SumsTo F mean excess low (pivot + 1) }
    ensures wide { IfOk result (λ found. IfNone found (is_wide F mean.entry excess.entry ≡ true)) }
    ensures known { IfOk result (λ found. IfSome found
        (λ b. Midway F mean.entry excess.entry b.sum b.last b.next)) }
    ensures first { IfOk result (λ found. IfSome found
        (λ b. Begins (weight_ends F mean.entry excess.entry) wanted b.next list.new.items)) }
{
    let first = u32::from(pivot) + 1;
    let mut sum = low;
    let mut last = Iv64::one();
    let mut ratios = Ratios::at(mean, excess, first);
    for x in first..FIRST_END {
        if list.len() >= wanted {
            let from = Walked { sum, last, next: x };
            return Ok(rise_on(mean, excess, from, ratios));
        }
        last = last.times(ratios.take(mean, excess, x));
        if last.passes_8() {
            return Ok(None);
        }
        sum = sum.add(last);
        hold(list, last, wanted)?;
        if stays(&mean, &excess, last, x + 1) {
            return Ok(Some(Walked {
                sum,
                last,
                next: x + 1,
            }));
        }
    }
    let next = first.max(FIRST_END);
    Ok(Some(Walked { sum, last, next }))
}

/// Appends the wanted weights below the first index at which the list may end, from the index where they stay the same.
fn fill<const F: u32>(
    list: &mut Vec<Iv64<F>>,
    mean: Iv<F>,
    excess: Iv<F>,
    start: u32,
    last: Iv64<F>,
    next: u32,
    wanted: usize,
) -> Result<(), NoMemory>
    requires start { start ≡ least_end F mean excess }
    requires next { next ≤ start }
    requires begun { Begins (weight_ends F mean excess) wanted next list.old.items }
    requires same { (x : ℕ) → next ≤ x → x < start → weight_ends F mean excess x ≡ last }
    ensures { OnOk result (Begins (weight_ends F mean.entry excess.entry) wanted start list.new.items) }
{
    for _x in list.len()..wanted.min(start as usize) {
        list.push(last)?;
    }
    Ok(())
}

/// The sum of the weights below the first index at which the list may end, from the index where they stay the same.
fn level_sum<const F: u32>(
    mean: Iv<F>,
    excess: Iv<F>,
    start: u32,
    sum: Iv64<F>,
    last: Iv64<F>,
    next: u32,
) -> Iv<F>
    requires start { start ≡ least_end F mean excess }
    requires depth { start ≤ 1025 }
    requires next { next ≤ start }
    requires top { last.hi ≤ 8 * 2 ^ F }
    requires sums { SumsTo F mean excess sum next }
    requires same { (x : ℕ) → next ≤ x → x < start → weight_ends F mean excess x ≡ last }
    ensures { SumsTo F mean.entry excess.entry result start }
{
    sum.open().add(last.open().times(start - next))
}

/// The first weights and the sum of all with the bound of those past the list, continued from the first index at which
/// the list may end: `low` is the sum of the weights below it, and `before` the last of them. None if a weight exceeds
/// 8 or the rest need not fall. Each ratio is used twice: in the remainder before its index, and in the weight there.
fn close<const F: u32>(
    list: &mut Vec<Iv64<F>>,
    mean: Iv<F>,
    excess: Iv<F>,
    start: u32,
    low: Iv<F>,
    before: Iv64<F>,
    wanted: usize,
) -> Result<Option<Iv<F>>, NoMemory>
    requires mean_top { IsWithinLimit F mean }
    requires excess_top { excess.hi ≤ 2048 * 2 ^ F }
    requires near { IsNear F excess }
    requires depth { pivot_at F mean excess ≤ 256 }
    requires start { start ≡ least_end F mean excess }
    requires begun { AtLeastEnd F mean excess low before }
    requires first { Begins (weight_ends F mean excess) wanted start list.old.items }
    ensures wide { IfOk result (λ found. IfNone found (is_wide F mean.entry excess.entry ≡ true)) }
    ensures known { IfOk result (λ found. IfSome found (AreWeighed F mean.entry excess.entry wanted list.new.items)) }
{
    let most = most_weight::<F>();
    let mut ratios = Ratios::at(mean, excess, start);
    let far = ratios.far(excess);
    let mut sum = low;
    let mut last = before;
    let mut ratio = ratios.take(mean, excess, start);
    for x in start..LAST_END + 1 {
        last = last.times(ratio);
        let top = last.hi();
        if top > most {
            return Ok(None);
        }
        sum = sum.add(last.open());
        hold(list, last, wanted)?;
        ratio = ratios.take(mean, excess, x + 1);
        let bound = ratio.hi().max(far);
        if let Some(rest) = rest_at::<F>(top, bound, x) {
            return Ok(Some(Iv::of_ends(sum.lo(), sum.hi() + rest)));
        }
    }
    Ok(None)
}

/// The sum of all weights if the list ends at the first possible index, with a weight of at most 1 unit and a rest of
/// 1. This is the usual case, and needs no ratio. None if it isn't recognised. The arguments are as for [`close`].
fn closed_at_once<const F: u32>(
    mean: Iv<F>,
    excess: Iv<F>,
    start: u32,
    low: Iv<F>,
    before: Iv64<F>,
) -> Option<Iv<F>>
    requires positive { 0 < mean.lo }
    requires mean_top { IsWithinLimit F mean }
    requires excess_top { excess.hi ≤ 2048 * 2 ^ F }
    requires depth { pivot_at F mean excess ≤ 256 }
    requires start { start ≡ least_end F mean excess }
    requires begun { AtLeastEnd F mean excess low before }
    ensures { IfSome result (IsSum F mean.entry excess.entry) }
{
    if !is_least(before) {
        return None;
    }
    let above = mean.add(excess.times(start));
    let step = Iv::exact(1).add(excess);
    let below = step.times(start + 1);
    if above.hi() * 2 > below.lo() || excess.hi() > unit::<F>() {
        return None;
    }
    Some(Iv::of_ends(low.lo(), low.hi() + 2))
}

/// The first weights and the sum of all, continued from the pivot; None if a weight exceeds 8 or the rest need not
/// fall. `list` has the weights to the pivot, and `low` is their sum.
fn risen<const F: u32>(
    list: &mut Vec<Iv64<F>>,
    mean: Iv<F>,
    excess: Iv<F>,
    pivot: u16,
    low: Iv64<F>,
    wanted: usize,
) -> Result<Option<Iv<F>>, NoMemory>
    requires positive { 0 < mean.lo }
    requires mean_top { IsWithinLimit F mean }
    requires excess_top { excess.hi ≤ 2048 * 2 ^ F }
    requires near { IsNear F excess }
    requires depth { pivot ≤ 256 }
    requires place { pivot ≡ pivot_at F mean excess }
    requires begun { Begins (weight_ends F mean excess) wanted (pivot + 1) list.old.items }
    requires low { SumsTo F mean excess low (pivot + 1) }
    ensures wide { IfOk result (λ found. IfNone found (is_wide F mean.entry excess.entry ≡ true)) }
    ensures known { IfOk result (λ found. IfSome found (AreWeighed F mean.entry excess.entry wanted list.new.items)) }
{
    let Some(walked) = rise(list, mean, excess, pivot, low, wanted)? else {
        return Ok(None);
    };
    let start = (u32::from(pivot) + 1).max(FIRST_END);
    let Walked { sum, last, next } = walked;
    fill(list, mean, excess, start, last, next, wanted)?;
    let low = level_sum(mean, excess, start, sum, last, next);
    if list.len() >= wanted {
        if let Some(sum) = closed_at_once(mean, excess, start, low, last) {
            return Ok(Some(sum));
        }
    }
    close(list, mean, excess, start, low, last, wanted)
}

/// Whether the ends of the excess are at most 1 apart, as in all but very wide intervals, and have 62 bits.
#[inline(always)]
fn is_near<const F: u32>(excess: Iv<F>) -> bool
    ensures { result ≡ true → IsNear F excess.entry }
{
    excess.hi() < 1 << 62 && excess.width() <= unit::<F>()
}

/// Appends the first weights to an empty list, at least `wanted` of them or all if there are fewer, and returns the sum
/// of all with the bound of those past the last index. None if a weight exceeds 8 or the rest need not fall.
pub(crate) fn weigh<const F: u32>(
    list: &mut Vec<Iv64<F>>,
    mean: Iv<F>,
    excess: Iv<F>,
    wanted: usize,
) -> Result<Option<Iv<F>>, NoMemory>
    requires empty { list.old.items ≡ [] }
    requires positive { 0 < mean.lo }
    requires mean_top { IsWithinLimit F mean }
    requires excess_top { excess.hi ≤ 2048 * 2 ^ F }
    ensures wide { IfOk result (λ found. IfNone found (is_wide F mean.entry excess.entry ≡ true)) }
    ensures known { IfOk result (λ found. IfSome found (AreWeighed F mean.entry excess.entry wanted list.new.items)) }
    ensures least { IfOk result (λ found. IfSome found (λ sum. 2 ^ F ≤ sum.lo)) }
{
    let pivot = pivot_of(mean, excess);
    let Some(low) = lows(list, mean, excess, pivot)? else {
        return Ok(None);
    };
    if is_near(excess) {
        risen(list, mean, excess, pivot, low, wanted)
    } else {
        risen_plain(list, mean, excess, pivot, low.open())
    }
}
