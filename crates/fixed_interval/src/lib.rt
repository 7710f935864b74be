//! Intervals of fixed-point numbers, rounded outwards, and their printing in decimals.
//!
//! An [`Iv<F>`] is a range for a number: a lower and an upper end, both whole numbers in units of `2^-F`. Each
//! operation returns an interval that contains its exact result for all numbers in its arguments: a lower end is
//! rounded down and an upper end up, and a difference is cut at 0. No call refuses, and none allocates memory.
#![tactic(auto)]

ghost use Rattle.std.specs.Prelude.{◌≡◌, ℕ, ◌+◌, ◌-◌, ◌*◌, ◌^◌, ◌≤◌, ◌<◌};
ghost use Rattle.exact_model.specs.Fraction.{Fraction, whole};
ghost use Rattle.fixed_interval.specs.Ends.{
  Ends,
  InScale,
  IsInterval,
  In,
  ends_exact,
  ends_ratio,
};

mod arithmetic;
mod digits;
mod rounding;
mod texts;

pub use digits::{Digits, ratio_down, texts_read};
use rounding::{quotient_up, scaled};
use std::marker::Model;

/// The numbers from a lower to an upper end, both in units of `2^-F`.
///
/// `F` is from 24 to 52, and the lower end is at most the upper end, which is below `2^127`.
#[derive(Clone, Copy, Debug, Drop, PartialEq, Eq)]
pub struct Iv<const F: u32> {
    lo: u128,
    hi: u128,
}

impl<const F: u32> Model for Iv<F> {
    ghost use Rattle.std.specs.Prelude.{◌^◌, ◌≤◌, ◌<◌};
    ghost use Rattle.fixed_interval.specs.Ends.{Ends, IsInterval};

    ghost Value = { Ends };

    ghost view = { λ a. record { lo = a.lo; hi = a.hi } };

    ghost invariant = { λ a. IsInterval F (record { lo = a.lo; hi = a.hi }) };

    ghost inverse = { λ d. record { lo = d.lo; hi = d.hi } };
}

/// An interval contains each fraction between its ends.
pub fn holds_between_ends()
    ensures { (f : ℕ) (ends : Ends) (x : Fraction)
        → ends.lo * x.den ≤ x.num * 2 ^ f → x.num * 2 ^ f ≤ ends.hi * x.den → In f ends x }
{}

impl<const F: u32> Iv<F> {
    /// The whole number `k`, exactly.
    pub fn exact(k: u32) -> Self
        requires { InScale F }
        ensures ends { result ≡ ends_exact F k }
        ensures encloses { In F result (whole k) }
    {
        let end = u128::from(k) * scaled(1, F);
        Iv { lo: end, hi: end }
    }

    /// The numbers from `lo` to `hi`, both in units of `2^-F`. It contains each fraction between them, by
    /// [`holds_between_ends`].
    pub fn of_ends(lo: u128, hi: u128) -> Iv<F>
        requires scale { InScale F }
        requires ordered { lo ≤ hi }
        requires room { hi < 2 ^ 127 }
        ensures { result ≡ record { lo = lo; hi = hi } }
    {
        Iv { lo, hi }
    }

    /// The fraction `num / den`, at most 4096, rounded to both sides.
    pub fn of_ratio(num: u128, den: u128) -> Iv<F>
        requires scale { InScale F }
        requires divisor { 0 < den }
        requires small_divisor { den ≤ 2 ^ 75 }
        requires small { num ≤ 4096 * den }
        ensures ends { result ≡ ends_ratio F num den }
        ensures encloses { (positive : 0 < den)
            → In F result (record { num = num; den = den; positive = positive }) }
    {
        // The product `num * 2^F` may exceed 128 bits, so the whole part goes first.
        let whole = scaled(num / den, F);
        let rest = scaled(num % den, F);
        let below = rest / den;
        let above = quotient_up(rest, den, below);
        Iv {
            lo: whole + below,
            hi: whole + above,
        }
    }

    /// The lower end, in units of `2^-F`.
    pub fn lo(&self) -> u128
        ensures end { result ≡ self.now.lo }
        ensures valid { IsInterval F self.now }
    {
        self.lo
    }

    /// The upper end, in units of `2^-F`.
    pub fn hi(&self) -> u128
        ensures end { result ≡ self.now.hi }
        ensures valid { IsInterval F self.now }
    {
        self.hi
    }

    /// The upper end less the lower, in units of `2^-F`.
    pub fn width(&self) -> u128
        ensures width { result ≡ self.now.hi - self.now.lo }
        ensures valid { IsInterval F self.now }
    {
        self.hi - self.lo
    }
}
