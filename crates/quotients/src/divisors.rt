//! Divisors: quotients found without a division and without a trial.

ghost use Rattle.std.specs.Prelude.{◌≡◌, ◌+◌, ◌*◌, ◌/◌, ◌^◌, ◌<◌, ◌≤◌};
ghost use Rattle.std.specs.Int.{div_ceil};
ghost use Rattle.quotients.specs.Divisors.{IsDivisor};
ghost use Rattle.quotients.specs.Parts.{AreParts};

use crate::{Parts, inverse_near, inverse_of, quotient_near};
use std::marker::Model;

/// A divisor with its inverse. It is a number in units of `2^-F`, at least 1 and below `2^63` units; `F` is at most 52.
#[derive(Clone, Copy, Drop)]
pub struct Divisor<const F: u32> {
    den: u64,
    inverse: u64,
}

impl<const F: u32> Model for Divisor<F> {
    ghost use Rattle.std.specs.Prelude.{ℕ, ◌+◌, ◌/◌, ◌^◌};
    ghost use Rattle.quotients.specs.Divisors.{IsDivisor};

    ghost Value = { ℕ };

    ghost view = { λ d. d.den };

    ghost invariant = { λ d. IsDivisor F d.den d.inverse };

    ghost inverse = { λ n. record { den = n; inverse = 2 ^ (F + 62) / n } };
}

/// A quotient rounded down or one less, and the remainder.
#[derive(Clone, Copy, Drop)]
struct Rough {
    whole: u64,
    left: u64,
}

impl<const F: u32> Divisor<F> {
    /// The divisor `den`, in units.
    #[inline(always)]
    pub fn of(den: u64) -> Divisor<F>
        requires scale { F ≤ 52 }
        requires least { 2 ^ F ≤ den }
        requires most { den < 2 ^ 63 }
        ensures { result ≡ den }
    {
        Divisor::by_guess(den, inverse_of::<F>(den))
    }

    /// The divisor 1.
    pub fn one() -> Divisor<F>
        requires { F ≤ 52 }
        ensures { result ≡ 2 ^ F }
    {
        Divisor {
            den: 1 << F,
            inverse: 1 << 62,
        }
    }

    /// The number, in units.
    #[inline(always)]
    pub fn number(self) -> u64
        ensures number { result ≡ self.entry }
        ensures valid { (2 ^ F ≤ self.entry) × (self.entry < 2 ^ 63) }
    {
        self.den
    }

    /// Another divisor. If it is equal or slightly less, this takes two products and a trial.
    #[inline(always)]
    pub fn beside(self, den: u64) -> Divisor<F>
        requires scale { F ≤ 52 }
        requires least { 2 ^ F ≤ den }
        requires most { den < 2 ^ 63 }
        ensures { result ≡ den }
    {
        Divisor::by_guess(den, inverse_near::<F>(self.inverse, self.den, den))
    }

    /// The divisor `den`, in units, with a guess of its inverse. If the guess is the inverse or one less, no division
    /// is made.
    #[inline(always)]
    fn by_guess(den: u64, guess: u64) -> Divisor<F>
        requires scale { F ≤ 52 }
        requires least { 2 ^ F ≤ den }
        requires most { den < 2 ^ 63 }
        ensures { result ≡ den }
    {
        let inverse = quotient_near(1 << (F + 62), den, guess) as u64;
        Divisor { den, inverse }
    }

    /// The rough quotient of `num` whole ones, given in units.
    #[inline(always)]
    fn rough(self, num: u64) -> Rough
        requires { num ≤ 2 ^ 62 }
        ensures sum { result.whole * self.entry + result.left ≡ num * 2 ^ F }
        ensures left { result.left < 2 * self.entry }
        ensures room { result.whole ≤ 2 ^ 62 }
        ensures valid { (2 ^ F ≤ self.entry) × (self.entry < 2 ^ 63) }
    {
        let whole = ((u128::from(num) * u128::from(self.inverse)) >> 62) as u64;
        let left = ((u128::from(num) << F) - u128::from(whole) * u128::from(self.den)) as u64;
        Rough { whole, left }
    }

    /// `num` over the divisor, both in units: in units, rounded down.
    #[inline(always)]
    pub fn floor(self, num: u64) -> u64
        requires { num ≤ 2 ^ 62 }
        ensures { result ≡ num * 2 ^ F / self.entry }
    {
        let rough = self.rough(num);
        if rough.left < self.den {
            rough.whole
        } else {
            rough.whole + 1
        }
    }

    /// `num` over the divisor, both in units: in units, rounded up.
    #[inline(always)]
    pub fn ceil(self, num: u64) -> u64
        requires { num ≤ 2 ^ 62 }
        ensures { result ≡ div_ceil (num * 2 ^ F) self.entry }
    {
        let rough = self.rough(num);
        let more = if rough.left == 0 { 0 } else { 1 };
        let second = if rough.left <= self.den { 0 } else { 1 };
        rough.whole + more + second
    }

    /// `num`, in units, in parts by the divisor.
    #[inline(always)]
    pub fn parts(self, num: u64) -> Parts
        requires { num ≤ 2 ^ 62 }
        ensures { AreParts (num * 2 ^ F) self.entry result }
    {
        let rough = self.rough(num);
        if rough.left < self.den {
            Parts {
                whole: rough.whole,
                rest: rough.left,
            }
        } else {
            Parts {
                whole: rough.whole + 1,
                rest: rough.left - self.den,
            }
        }
    }
}
