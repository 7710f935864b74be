//! Intervals whose ends have 64 bits.

ghost use Rattle.std.specs.Prelude.{◌≡◌, true, false, ◌+◌, ◌*◌, ◌/◌, ◌^◌, ◌<◌, ◌≤◌};
ghost use Rattle.std.specs.Int.{div_ceil};
ghost use Rattle.fixed_interval.specs.Ends.{
  InScale,
  IsInterval,
  ends_add,
  ends_capped,
  ends_div,
  ends_exact,
  ends_less,
  ends_mul,
  ends_times,
};

use crate::{most_weight, unit};
use fixed_interval::Iv;
use quotients::Divisor;
use std::marker::Model;

/// The numbers from a lower to an upper end, both in units of `2^-F` and of 64 bits. Contracts see it like an [`Iv`],
/// and it takes half the memory.
#[derive(Clone, Copy, Drop)]
pub struct Iv64<const F: u32> {
    lo: u64,
    hi: u64,
}

impl<const F: u32> Model for Iv64<F> {
    ghost use Rattle.fixed_interval.specs.Ends.{Ends, IsInterval};

    ghost Value = { Ends };

    ghost view = { λ a. record { lo = a.lo; hi = a.hi } };

    ghost invariant = { λ a. IsInterval F (record { lo = a.lo; hi = a.hi }) };

    ghost inverse = { λ d. record { lo = d.lo; hi = d.hi } };
}

impl<const F: u32> Iv64<F> {
    /// The same interval, whose upper end has 64 bits.
    #[inline(always)]
    pub fn of(a: Iv<F>) -> Iv64<F>
        requires { a.hi < 2 ^ 64 }
        ensures { result ≡ a.entry }
    {
        Iv64 {
            lo: a.lo() as u64,
            hi: a.hi() as u64,
        }
    }

    /// The number 1.
    #[inline(always)]
    pub(crate) fn one() -> Iv64<F>
        requires { InScale F }
        ensures { result ≡ ends_exact F 1 }
    {
        Iv64::of(Iv::exact(1))
    }

    /// The numbers from `lo` to `hi`.
    #[inline(always)]
    pub(crate) fn of_ends(lo: u64, hi: u64) -> Iv64<F>
        requires scale { InScale F }
        requires ordered { lo ≤ hi }
        ensures { result ≡ record { lo = lo; hi = hi } }
    {
        Iv64 { lo, hi }
    }

    /// The same interval.
    #[inline(always)]
    pub fn open(self) -> Iv<F>
        ensures { result ≡ self.entry }
    {
        Iv::of_ends(u128::from(self.lo), u128::from(self.hi))
    }

    /// The lower end.
    #[inline(always)]
    pub fn lo(&self) -> u128
        ensures end { result ≡ self.now.lo }
        ensures valid { IsInterval F self.now }
    {
        u128::from(self.lo)
    }

    /// The upper end.
    #[inline(always)]
    pub fn hi(&self) -> u128
        ensures end { result ≡ self.now.hi }
        ensures valid { IsInterval F self.now }
    {
        u128::from(self.hi)
    }

    /// Whether the upper end exceeds 8.
    #[inline(always)]
    pub(crate) fn passes_8(self) -> bool
        ensures passes { result ≡ true → 8 * 2 ^ F < self.entry.hi }
        ensures below { result ≡ false → self.entry.hi ≤ 8 * 2 ^ F }
    {
        self.hi > most_short::<F>()
    }

    /// The sum, exactly.
    #[inline(always)]
    pub fn add(self, b: Iv64<F>) -> Iv64<F>
        requires { self.hi + b.hi < 2 ^ 64 }
        ensures ends { result ≡ ends_add self.entry b.entry }
    {
        Iv64 {
            lo: self.lo + b.lo,
            hi: self.hi + b.hi,
        }
    }

    /// The difference, exactly if it is above 0, otherwise 0.
    #[inline(always)]
    pub fn less(self, b: Iv64<F>) -> Iv64<F>
        ensures { result ≡ ends_less self.entry b.entry }
    {
        Iv64 {
            lo: self.lo.saturating_sub(b.hi),
            hi: self.hi.saturating_sub(b.lo),
        }
    }

    /// The same number, known to be at most 1.
    #[inline(always)]
    pub fn up_to_one(self) -> Iv64<F>
        ensures ends { result ≡ ends_capped self.entry (2 ^ F) }
        ensures most { result.hi ≤ 2 ^ F }
    {
        let one = unit::<F>() as u64;
        Iv64 {
            lo: self.lo.min(one),
            hi: self.hi.min(one),
        }
    }

    /// 1 less the number, which is at most 1, exactly.
    #[inline(always)]
    pub fn left_of_one(self) -> Iv64<F>
        requires { self.hi ≤ 2 ^ F }
        ensures { result ≡ ends_less (ends_exact F 1) self.entry }
    {
        let one = unit::<F>() as u64;
        Iv64 {
            lo: one - self.hi,
            hi: one - self.lo,
        }
    }

    /// Twice the number, exactly.
    #[inline(always)]
    pub fn twice(self) -> Iv64<F>
        requires { self.hi < 2 ^ 63 }
        ensures { result ≡ ends_times self.entry 2 }
    {
        Iv64 {
            lo: self.lo * 2,
            hi: self.hi * 2,
        }
    }

    /// The quotient by an interval between two divisors: the lower end rounded down, the upper end up.
    #[inline(always)]
    pub fn over(self, lower: Divisor<F>, upper: Divisor<F>) -> Iv64<F>
        requires short { self.hi ≤ 2 ^ 62 }
        requires least { 0 < lower }
        requires ordered { lower ≤ upper }
        ensures { result ≡ ends_div F self.entry (record { lo = lower.entry; hi = upper.entry }) }
    {
        let least = upper.floor(self.lo);
        let most = lower.ceil(self.hi);
        Iv64::of_ends(least, most)
    }

    /// The product with a number of at most 1: the lower end rounded down, the upper end up.
    #[inline(always)]
    pub fn times_part(self, part: Iv64<F>) -> Iv64<F>
        requires { part.hi ≤ 2 ^ F }
        ensures { result ≡ ends_mul F self.entry part.entry }
    {
        let lower = product_down::<F>(self.lo, part.lo);
        let upper = product_up::<F>(self.hi, part.hi);
        Iv64::of_ends(lower, upper)
    }

    /// A weight times a ratio.
    #[inline(always)]
    pub(crate) fn times(self, ratio: Iv64<F>) -> Iv64<F>
        requires top { self.hi ≤ 8 * 2 ^ F }
        requires ratio_top { ratio.hi ≤ 257 * 2 ^ F }
        ensures { result ≡ ends_mul F self.entry ratio.entry }
    {
        let lower = product_down::<F>(self.lo, ratio.lo);
        let upper = product_up::<F>(self.hi, ratio.hi);
        Iv64::of_ends(lower, upper)
    }
}

/// The number 8 in units of `2^-F`.
#[inline(always)]
fn most_short<const F: u32>() -> u64
    requires { InScale F }
    ensures { result ≡ 8 * 2 ^ F }
{
    most_weight::<F>() as u64
}

/// The product of two numbers in units of `2^-F`, rounded down.
#[inline(always)]
fn product_down<const F: u32>(a: u64, b: u64) -> u64
    requires scale { InScale F }
    requires room { a * b / 2 ^ F < 2 ^ 64 }
    ensures { result ≡ a * b / 2 ^ F }
{
    ((u128::from(a) * u128::from(b)) >> F) as u64
}

/// The product of two numbers in units of `2^-F`, rounded up.
#[inline(always)]
fn product_up<const F: u32>(a: u64, b: u64) -> u64
    requires scale { InScale F }
    requires room { div_ceil (a * b) (2 ^ F) < 2 ^ 64 }
    ensures { result ≡ div_ceil (a * b) (2 ^ F) }
{
    let product = u128::from(a) * u128::from(b);
    ((product + (unit::<F>() - 1)) >> F) as u64
}
