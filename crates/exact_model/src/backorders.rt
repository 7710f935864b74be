//! The laws of the expected backorders EBO, of their variance VBO and of the tail, at a stock of `s` units.

ghost use Rattle.std.specs.Prelude.{ℕ, ◌-◌, ◌≤◌, ◌<◌, suc};
ghost use Rattle.exact_model.specs.Fraction.{
  Fraction,
  whole,
  sum_below,
  larger,
  ◌≈◌,
  ◌≤ℚ◌,
  ◌+ℚ◌,
  ◌-ℚ◌,
  ◌*ℚ◌,
};
ghost use Rattle.exact_model.specs.Series.{
  chance,
  ebo,
  tail,
  vbo,
  unless_zero,
  raised,
  lowered,
};

/// The cuts at 0 in the definitions change nothing.
pub fn cuts_lose_nothing()
    // The mean plus the expected shortfall below s is at least s, so `EBO(s) >= 0` without its cut.
    ensures backorders { (n : ℕ) (u v : Fraction) (s : ℕ)
        → s ≤ suc n → whole s ≤ℚ u +ℚ sum_below (λ x. whole (s - x) *ℚ chance n u v x) s }

    // The probabilities of 0 to s units sum to at most 1.
    ensures tail { (n : ℕ) (u v : Fraction) (s : ℕ)
        → s ≤ n → sum_below (chance n u v) (suc s) ≤ℚ whole 1 }

    // The variance is `max(0, E2 - EBO^2)` with that one cut: the cuts inside E2 change nothing.
    ensures variance { (n : ℕ) (u v : Fraction) (s : ℕ)
        → vbo n u v s ≈ unless_zero u.num (raised u v s -ℚ lowered n u v s) }
{}

/// The expected backorders fall by the tail from each stock to the next: `EBO(s) = EBO(s + 1) + G(s)`.
pub fn backorders_fall()
    ensures { (n : ℕ) (u v : Fraction) (s : ℕ)
        → s ≤ n → ebo n u v s ≈ ebo n u v (suc s) +ℚ tail n u v s }
{}

/// Before its cut at 0, the variance of backorders falls by `(2 EBO(s + 1) + G(s)) (1 - G(s))` from each stock to the
/// next.
pub fn variance_falls()
    // Without any cut difference: the terms added at s, less those subtracted there, are those at s + 1 and the fall.
    ensures uncut { (n : ℕ) (u v : Fraction) (s : ℕ)
        → 0 < u.num → s ≤ n
        → raised u v s +ℚ lowered n u v (suc s)
        ≈ raised u v (suc s) +ℚ lowered n u v s
        +ℚ (whole 2 *ℚ ebo n u v (suc s) +ℚ tail n u v s) *ℚ (whole 1 -ℚ tail n u v s) }

    ensures cut { (n : ℕ) (u v : Fraction) (s : ℕ)
        → s ≤ n
        → vbo n u v (suc s)
        ≈ vbo n u v s -ℚ (whole 2 *ℚ ebo n u v (suc s) +ℚ tail n u v s) *ℚ (whole 1 -ℚ tail n u v s) }
{}

/// The expected backorders are at most the mean, and their variance is at most the larger of the variance and the mean.
pub fn within_caps()
    ensures backorders { (n : ℕ) (u v : Fraction) (s : ℕ) → s ≤ suc n → ebo n u v s ≤ℚ u }
    ensures variance { (n : ℕ) (u v : Fraction) (s : ℕ) → s ≤ suc n → vbo n u v s ≤ℚ larger v u }
{}

/// EBO, the tail and VBO depend only on the values of the mean and the variance, not on how these are written.
pub fn values_alone()
    ensures backorders { (n : ℕ) (u v u' v' : Fraction) (s : ℕ)
        → u ≈ u' → v ≈ v' → ebo n u v s ≈ ebo n u' v' s }
    ensures tail { (n : ℕ) (u v u' v' : Fraction) (s : ℕ)
        → u ≈ u' → v ≈ v' → tail n u v s ≈ tail n u' v' s }
    ensures variance { (n : ℕ) (u v u' v' : Fraction) (s : ℕ)
        → u ≈ u' → v ≈ v' → vbo n u v s ≈ vbo n u' v' s }
{}
