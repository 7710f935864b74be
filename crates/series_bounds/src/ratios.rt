//! The ratios of the weights from index to index, each computed from the previous one by additions.

ghost use Rattle.std.specs.Prelude.{◌≡◌, ◌+◌, ◌*◌, ◌/◌, ◌^◌, ◌<◌, ◌≤◌};
ghost use Rattle.series_bounds.specs.Profile.{ratio_ends, far_ratio};
ghost use Rattle.quotients.specs.Parts.{AreParts};
ghost use Rattle.series_bounds.specs.Ratios.{AreRatios, IsNear};
ghost use Rattle.fixed_interval.specs.Ends.{InScale, IsWithinLimit};

use crate::short::Iv64;
use crate::unit;
use fixed_interval::Iv;
use quotients::{Divisor, Parts, few_quotient, short_quotient};

/// A ratio of weights before its division by the index, and the increments to the next index. The parts have 64 bits if
/// the ends of the excess are at most 1 apart. The upper end is raised so that rounding it down suffices.
#[derive(Drop)]
pub(crate) struct Ratios<const F: u32> {
    low: Parts,
    high: Parts,
    low_step: Parts,
    high_step: Parts,
    /// The divisor of the lower ends, beside the index.
    by_low: Divisor<F>,
    /// The divisor of the upper ends, beside the index.
    by_high: Divisor<F>,
}

/// The parts of `num` units of `2^-F`, by a divisor.
#[inline(always)]
fn parts_of<const F: u32>(num: u128, by: Divisor<F>) -> Parts
    requires scale { InScale F }
    requires room { num ≤ 1281 * by }
    ensures { AreParts (num * 2 ^ F) by.entry result }
{
    if num <= 1 << 62 {
        by.parts(num as u64)
    } else {
        let den = by.number();
        Parts::of(num * unit::<F>(), den)
    }
}

/// 1 more than an end of the excess.
#[inline(always)]
fn one_more<const F: u32>(end: u64) -> u64
    requires scale { InScale F }
    requires short { end < 2 ^ 62 }
    ensures more { result ≡ 1 * 2 ^ F + end }
    ensures short { result < 2 ^ 63 }
{
    (1 << F) + end
}

/// The numbers from `lower` to `upper` over an index, both ends rounded down.
#[inline(always)]
fn over<const F: u32>(lower: u64, upper: u64, x: u32) -> Iv64<F>
    requires scale { InScale F }
    requires ordered { lower ≤ upper }
    requires from { 0 < x }
    ensures { result ≡ record { lo = lower / x; hi = upper / x } }
{
    if upper < 1 << 55 && x < 256 {
        Iv64::of_ends(few_quotient(lower, x as u8), few_quotient(upper, x as u8))
    } else {
        Iv64::of_ends(long_over(lower, x), long_over(upper, x))
    }
}

/// A number of any length over an index, rounded down.
#[inline(never)]
fn long_over(num: u64, x: u32) -> u64
    requires { 0 < x }
    ensures { result ≡ num / x }
{
    if x < 256 {
        short_quotient(num, x as u8)
    } else {
        num / u64::from(x)
    }
}

impl<const F: u32> Ratios<F> {
    /// The ratios at the index `x`.
    #[inline(always)]
    pub(crate) fn at(mean: Iv<F>, excess: Iv<F>, x: u32) -> Ratios<F>
        requires mean_top { IsWithinLimit F mean }
        requires excess_top { excess.hi ≤ 2048 * 2 ^ F }
        requires near { IsNear F excess }
        requires from { 0 < x }
        requires depth { x ≤ 1025 }
        ensures { AreRatios F mean.entry excess.entry x result }
    {
        let by_low = Divisor::of(one_more::<F>(excess.hi() as u64));
        let by_high = by_low.beside(one_more::<F>(excess.lo() as u64));
        Ratios::with_divisors(mean, excess, x, by_low, by_high)
    }

    /// The ratios at the index `x`, by 1 more than the excess.
    #[inline(always)]
    fn with_divisors(
        mean: Iv<F>,
        excess: Iv<F>,
        x: u32,
        by_low: Divisor<F>,
        by_high: Divisor<F>,
    ) -> Ratios<F>
        requires mean_top { IsWithinLimit F mean }
        requires excess_top { excess.hi ≤ 2048 * 2 ^ F }
        requires near { IsNear F excess }
        requires from { 0 < x }
        requires depth { x ≤ 1025 }
        requires low { by_low ≡ 1 * 2 ^ F + excess.hi }
        requires high { by_high ≡ 1 * 2 ^ F + excess.lo }
        ensures { AreRatios F mean.entry excess.entry x result }
    {
        let above = mean.add(excess.times(x - 1));
        Ratios {
            low: parts_of(above.lo(), by_low),
            high: parts_of(above.hi(), by_high).raised(x, by_high.number()),
            low_step: by_low.parts(excess.lo() as u64),
            high_step: by_high.parts(excess.hi() as u64).once_more(),
            by_low,
            by_high,
        }
    }

    /// The bound of all ratios far out: the excess over 1 more than it.
    pub(crate) fn far(&self, excess: Iv<F>) -> u128
        requires near { IsNear F excess }
        requires by_low { self.now.by_low ≡ 1 * 2 ^ F + excess.hi }
        ensures { result ≡ far_ratio F excess.entry }
    {
        u128::from(self.by_low.ceil(excess.hi() as u64))
    }

    /// The ratio of the weight at `x`, the current index, to the weight before it. Moves on to the next index.
    #[inline(always)]
    pub(crate) fn take(&mut self, mean: Iv<F>, excess: Iv<F>, x: u32) -> Iv64<F>
        requires mean_top { IsWithinLimit F mean }
        requires excess_top { excess.hi ≤ 2048 * 2 ^ F }
        requires near { IsNear F excess }
        requires from { 0 < x }
        requires depth { x ≤ 1025 }
        requires at { AreRatios F mean excess x self.old }
        ensures next { AreRatios F mean.entry excess.entry (x + 1) self.new }
        ensures ends { result ≡ ratio_ends F mean.entry excess.entry x }
        ensures top { result.hi ≤ 257 * 2 ^ F }
    {
        let ratio = over(self.low.whole, self.high.whole, x);
        self.low = self.low.plus(self.low_step, self.by_low.number());
        self.high = self.high.plus(self.high_step, self.by_high.number());
        ratio
    }
}
