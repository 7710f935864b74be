//! The mean and the variance of a depot's pipelines, for a shop unit and for a line unit.
//!
//! A pipeline contains the units that are in repair or on their way. Its direct part D comes from the depot's own work,
//! and is both its mean and its variance. A line unit's repair also waits for shop units of which the depot is short:
//! with a share f of a shop unit's backorders at the depot, which have the mean E and the variance V,
//!
//! ```text
//! mean     = D + sum of f E
//! variance = D + sum of (f (1 - f) E + f^2 V)
//! ```
//!
//! These are the formulas of VARI-METRIC: C. C. Sherbrooke, *Optimal Inventory Modeling of Systems*, 2nd edition, and
//! *Operations Research* 34 (1986). All numbers are intervals. No call refuses, and none allocates memory.
#![tactic(auto)]

ghost use Rattle.std.specs.Prelude.{◌≡◌, ℕ, ◌+◌, ◌*◌, ◌^◌, ◌<◌, ◌≤◌, length};
ghost use Rattle.std.specs.List.{All};
ghost use Rattle.exact_model.specs.Fraction.{Fraction, sum_below, ◌+ℚ◌, ◌*ℚ◌};
ghost use Rattle.exact_model.specs.Shares.{shared};
ghost use Rattle.fixed_interval.specs.Ends.{In, InScale, IsWithinLimit, ends_mul};
ghost use Rattle.depot_pipeline.specs.Profile.{mean_part, variance_part, depot_shop_ends, depot_line_ends};
ghost use Rattle.depot_pipeline.specs.Exact.{IsAtMost, FeedsIn, IsSmallFeed};

use fixed_interval::Iv;

/// A pipeline's mean and variance, in units.
#[derive(Clone, Copy, Drop)]
pub struct Moments<const F: u32> {
    pub mean: Iv<F>,
    pub variance: Iv<F>,
}

/// The feed of one pipeline into another: a share, from 0 to 1, of its backorders, their mean, and their variance.
#[derive(Clone, Copy, Drop)]
pub struct Feed<const F: u32> {
    pub share: Iv<F>,
    pub backorders: Iv<F>,
    pub spread: Iv<F>,
}

/// The share, at most 1, of a number that is at most 256.
fn part_of<const F: u32>(share: Iv<F>, number: Iv<F>) -> Iv<F>
    requires share { share.hi ≤ 2 ^ F }
    requires small { IsWithinLimit F number }
    ensures ends { result ≡ ends_mul F share.entry number.entry }
    ensures most { result.hi ≤ number.entry.hi }
{
    share.mul(number)
}

/// The addition of a feed to a mean: `f E`.
pub fn mean_of<const F: u32>(feed: &Feed<F>) -> Iv<F>
    requires scale { InScale F }
    requires small { IsSmallFeed F feed.now }
    ensures ends { result ≡ mean_part F feed.now }
    ensures most { IsWithinLimit F result }
{
    part_of(feed.share, feed.backorders)
}

/// The addition of a feed to a variance: `f (1 - f) E + f^2 V`.
pub fn variance_of<const F: u32>(feed: &Feed<F>) -> Iv<F>
    requires scale { InScale F }
    requires small { IsSmallFeed F feed.now }
    ensures ends { result ≡ variance_part F feed.now }
    ensures most { result.hi ≤ 512 * 2 ^ F }
{
    let share = feed.share;
    let rest = Iv::exact(1).less(share);
    let once = part_of(part_of(share, rest), feed.backorders);
    let twice = part_of(part_of(share, share), feed.spread);
    once.add(twice)
}

/// The pipeline of a shop unit at the depot: only its direct part, at most 256 units.
///
/// `cap` is the caller's upper bound of the mean and the variance, in units of `2^-F`: each is capped there, and
/// encloses the exact value if that is at most the cap.
pub fn depot_shop<const F: u32>(direct: Iv<F>, cap: u128) -> Moments<F>
    requires direct { IsWithinLimit F direct }
    ensures ends { result ≡ depot_shop_ends F direct.entry cap }
    ensures mean { (d : Fraction) → In F direct.entry d → IsAtMost F cap d → In F result.mean d }
    ensures variance { (d : Fraction) → In F direct.entry d → IsAtMost F cap d → In F result.variance d }
{
    Moments {
        mean: direct.capped(cap),
        variance: direct.capped(cap),
    }
}

/// The pipeline of a line unit at the depot: its direct part, at most 256 units, and the feeds of its shop units there,
/// at most 8 of them.
///
/// `cap` is as in [`depot_shop`].
pub fn depot_line<const F: u32>(direct: Iv<F>, cap: u128, feeds: &[Feed<F>]) -> Moments<F>
    requires direct { IsWithinLimit F direct }
    requires few { length feeds.now ≤ 8 }
    requires small { All (IsSmallFeed F) feeds.now }
    ensures ends { result ≡ depot_line_ends F direct.entry cap feeds.now }
    ensures mean { (d : Fraction) (f e v : ℕ → Fraction) → In F direct.entry d → FeedsIn F feeds.now f e v
        → IsAtMost F cap (d +ℚ sum_below (λ k. f k *ℚ e k) (length feeds.now))
        → In F result.mean (d +ℚ sum_below (λ k. f k *ℚ e k) (length feeds.now)) }
    ensures variance { (d : Fraction) (f e v : ℕ → Fraction) → In F direct.entry d → FeedsIn F feeds.now f e v
        → IsAtMost F cap (d +ℚ sum_below (λ k. shared (f k) (e k) (v k)) (length feeds.now))
        → In F result.variance (d +ℚ sum_below (λ k. shared (f k) (e k) (v k)) (length feeds.now)) }
{
    let mut mean = direct;
    let mut variance = direct;
    for feed in feeds {
        mean = mean.add(mean_of(feed));
        variance = variance.add(variance_of(feed));
    }
    Moments {
        mean: mean.capped(cap),
        variance: variance.capped(cap),
    }
}
