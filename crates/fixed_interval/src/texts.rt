//! The ends of an interval in decimals.

ghost use Rattle.std.specs.Prelude.{◌≡◌, ◌*◌, ◌^◌, ◌<◌, ◌/◌, ◌⊎◌};
ghost use Rattle.std.specs.Int.{div_ceil};
ghost use Rattle.exact_model.specs.Fraction.{Fraction, ◌≤ℚ◌};
ghost use Rattle.fixed_interval.specs.Ends.{In};
ghost use Rattle.fixed_interval.specs.Text.{fixed_text, IsFixedText, text_value};

use crate::Iv;
use crate::digits::{Digits, text_of, units};
use crate::rounding::rounded_up;

impl<const F: u32> Iv<F> {
    /// The lower end in decimals, rounded down: no number of the interval is below it.
    pub fn down_text(&self, places: u8) -> Digits
        requires places { (places ≡ 6) ⊎ (places ≡ 12) }
        requires room { self.now.hi < 2 ^ 86 }
        ensures text { result ≡ fixed_text places (self.now.lo * 10 ^ places / 2 ^ F) }
        ensures reads { IsFixedText places (self.now.lo * 10 ^ places / 2 ^ F) result }
        ensures below { (x : Fraction)
            → In F self.now x → text_value places (self.now.lo * 10 ^ places / 2 ^ F) ≤ℚ x }
    {
        text_of((self.lo * units(places)) >> F, places)
    }

    /// The upper end in decimals, rounded up: no number of the interval is above it.
    pub fn up_text(&self, places: u8) -> Digits
        requires places { (places ≡ 6) ⊎ (places ≡ 12) }
        requires room { self.now.hi < 2 ^ 86 }
        ensures text { result ≡ fixed_text places (div_ceil (self.now.hi * 10 ^ places) (2 ^ F)) }
        ensures reads { IsFixedText places (div_ceil (self.now.hi * 10 ^ places) (2 ^ F)) result }
        ensures above { (x : Fraction)
            → In F self.now x → x ≤ℚ text_value places (div_ceil (self.now.hi * 10 ^ places) (2 ^ F)) }
    {
        let hi = self.hi * units(places);
        text_of(rounded_up(hi, F), places)
    }
}
