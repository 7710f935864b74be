//! The operations on intervals.

ghost use Rattle.std.specs.Prelude.{◌≡◌, ◌+◌, ◌-◌, ◌*◌, ◌^◌, ◌≤◌, ◌<◌};
ghost use Rattle.exact_model.specs.Fraction.{
  Fraction,
  whole,
  larger,
  ◌+ℚ◌,
  ◌-ℚ◌,
  ◌*ℚ◌,
  ◌/ℚ◌,
};
ghost use Rattle.fixed_interval.specs.Ends.{
  In,
  ends_add,
  ends_less,
  ends_times,
  ends_over,
  ends_mul,
  ends_div,
  ends_max,
  ends_capped,
};

use crate::Iv;
use crate::rounding::{quotient_up, rounded_up, scaled};

impl<const F: u32> Iv<F> {
    /// The sum, exactly.
    pub fn add(self, b: Iv<F>) -> Iv<F>
        requires { self.hi + b.hi < 2 ^ 127 }
        ensures ends { result ≡ ends_add self.entry b.entry }
        ensures encloses { (x y : Fraction) → In F self.entry x → In F b.entry y → In F result (x +ℚ y) }
    {
        Iv {
            lo: self.lo + b.lo,
            hi: self.hi + b.hi,
        }
    }

    /// The difference, exactly if it is above 0, otherwise 0.
    pub fn less(self, b: Iv<F>) -> Iv<F>
        ensures ends { result ≡ ends_less self.entry b.entry }
        ensures encloses { (x y : Fraction) → In F self.entry x → In F b.entry y → In F result (x -ℚ y) }
    {
        Iv {
            lo: self.lo.saturating_sub(b.hi),
            hi: self.hi.saturating_sub(b.lo),
        }
    }

    /// `k` times the number, exactly.
    pub fn times(self, k: u32) -> Iv<F>
        requires { self.hi * k < 2 ^ 127 }
        ensures ends { result ≡ ends_times self.entry k }
        ensures encloses { (x : Fraction) → In F self.entry x → In F result (whole k *ℚ x) }
    {
        let k = k as u128;
        Iv {
            lo: self.lo * k,
            hi: self.hi * k,
        }
    }

    /// The number over `k`: the lower end rounded down, the upper end up.
    pub fn over(self, k: u32) -> Iv<F>
        requires { 0 < k }
        ensures ends { result ≡ ends_over self.entry k }
        ensures encloses { (x : Fraction) → In F self.entry x → In F result (x /ℚ whole k) }
    {
        let k = k as u128;
        let lo = self.lo / k;
        let hi = quotient_up(self.hi, k, lo);
        Iv { lo, hi }
    }

    /// The product: the lower end rounded down, the upper end up.
    pub fn mul(self, b: Iv<F>) -> Iv<F>
        requires { self.hi * b.hi < 2 ^ 127 }
        ensures ends { result ≡ ends_mul F self.entry b.entry }
        ensures encloses { (x y : Fraction) → In F self.entry x → In F b.entry y → In F result (x *ℚ y) }
    {
        Iv {
            lo: (self.lo * b.lo) >> F,
            hi: rounded_up(self.hi * b.hi, F),
        }
    }

    /// The quotient by an interval above 0: the lower end rounded down, the upper end up.
    pub fn div(self, b: Iv<F>) -> Iv<F>
        requires divisor { 0 < b.lo }
        requires room { self.hi < 2 ^ (127 - F) }
        ensures ends { result ≡ ends_div F self.entry b.entry }
        ensures encloses { (x y : Fraction) → In F self.entry x → In F b.entry y → In F result (x /ℚ y) }
    {
        let low = scaled(self.lo, F);
        let high = scaled(self.hi, F);
        let lo = low / b.hi;
        let hi = quotient_up(high, b.lo, lo);
        Iv { lo, hi }
    }

    /// The larger of two, exactly.
    pub fn max_of(self, b: Iv<F>) -> Iv<F>
        ensures ends { result ≡ ends_max self.entry b.entry }
        ensures encloses { (x y : Fraction) → In F self.entry x → In F b.entry y → In F result (larger x y) }
    {
        Iv {
            lo: self.lo.max(b.lo),
            hi: self.hi.max(b.hi),
        }
    }

    /// The same number, known to be at most `c` units of `2^-F`.
    pub fn capped(self, c: u128) -> Iv<F>
        ensures ends { result ≡ ends_capped self.entry c }
        ensures encloses { (x : Fraction) → x.num * 2 ^ F ≤ c * x.den → In F self.entry x → In F result x }
    {
        Iv {
            lo: self.lo.min(c),
            hi: self.hi.min(c),
        }
    }
}
