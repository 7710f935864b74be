//! The laws that justify the arithmetic of fractions beyond plain cross products.

ghost use Rattle.std.specs.Prelude.{◌<◌, ◌⊎◌};
ghost use Rattle.exact_model.specs.Fraction.{
  Fraction,
  larger,
  ◌≈◌,
  ◌≤ℚ◌,
  ◌+ℚ◌,
  ◌-ℚ◌,
  ◌*ℚ◌,
  ◌/ℚ◌,
};

/// Cutting a difference at 0 at each step is the same as cutting it once:
/// `max(0, max(0, q - r) - s) = max(0, q - (r + s))`.
pub fn cuts_join()
    ensures { (q r s : Fraction) → q -ℚ r -ℚ s ≈ q -ℚ (r +ℚ s) }
{}

/// A quotient times its divisor is the dividend, for a divisor above 0.
pub fn quotients_divide()
    ensures { (q r : Fraction) → 0 < r.num → (q /ℚ r) *ℚ r ≈ q }
{}

/// The larger of two fractions is one of them, and the other is at most that.
pub fn larger_is_one()
    ensures { (q r : Fraction)
        → ((larger q r ≈ q) × (r ≤ℚ q)) ⊎ ((larger q r ≈ r) × (q ≤ℚ r)) }
{}
