//! The laws of the weights `w(0), w(1), ..` of a pipeline with mean `u` and excess `d`, and of their probabilities.

ghost use Rattle.std.specs.Prelude.{ℕ, ◌≤◌, ◌<◌, suc};
ghost use Rattle.exact_model.specs.Fraction.{
  Fraction,
  whole,
  sum_below,
  larger,
  ◌≈◌,
  ◌≤ℚ◌,
  ◌+ℚ◌,
  ◌-ℚ◌,
  ◌*ℚ◌,
  ◌/ℚ◌,
};
ghost use Rattle.exact_model.specs.Series.{chance, ratio, weight, weight_sum};

/// Each weight is the previous one times their ratio: `w(k + 1) = w(k) (u + k d) / ((k + 1) (1 + d))`.
pub fn weights_by_ratios()
    ensures { (u d : Fraction) (k : ℕ) → weight u d (suc k) ≈ weight u d k *ℚ ratio u d k }
{}

/// The mean of the cut series is at most `u`: the sum of `k w(k)` over `k <= n` is at most `u W_n`.
pub fn mean_within()
    ensures { (u d : Fraction) (n : ℕ)
        → sum_below (λ k. whole k *ℚ weight u d k) (suc n) ≤ℚ u *ℚ weight_sum u d n }
{}

/// From an index on, each ratio of neighbouring weights is at most the larger of the ratio there and `d / (1 + d)`.
pub fn ratios_bounded()
    ensures { (u d : Fraction) (K k : ℕ)
        → K ≤ k → ratio u d k ≤ℚ larger (ratio u d K) (d /ℚ (whole 1 +ℚ d)) }
{}

/// At every depth the weights past an index K sum to at most a geometric remainder. If `r < 1` is at least the ratio at
/// K and `d / (1 + d)`, then `W_n <= W_K + w(K) r / (1 - r)` for every `n >= K`.
pub fn remainder_bounded()
    ensures { (u d r : Fraction) (K n : ℕ)
        → K ≤ n → r.num < r.den → ratio u d K ≤ℚ r → d /ℚ (whole 1 +ℚ d) ≤ℚ r
        → weight_sum u d n ≤ℚ weight_sum u d K +ℚ weight u d K *ℚ r /ℚ (whole 1 -ℚ r) }
{}

/// The probabilities of 0 to n units sum to 1.
pub fn chances_add_up()
    ensures { (n : ℕ) (u v : Fraction) → sum_below (chance n u v) (suc n) ≈ whole 1 }
{}
