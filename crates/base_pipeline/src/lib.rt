//! The mean and the variance of a base's pipelines, for a shop unit and for a line unit.
//!
//! A base's pipeline contains the units that are in repair there or on their way from the depot. Its direct part D is
//! the pipeline as if the depot were never short. The depot's backorders have the mean E and the variance V, and the
//! share f of them is this base's; a line unit's repair at the base also waits for each shop unit i of which the base
//! is short:
//!
//! ```text
//! a shop unit   mean     = D + f E
//!               variance = D + f (1 - f) E + f^2 V
//! a line unit   mean     = D + f E + sum of E_i
//!               variance = D + f (1 - f) E + f^2 V + sum of V_i
//! ```
//!
//! These are the formulas of VARI-METRIC: C. C. Sherbrooke, *Optimal Inventory Modeling of Systems*, 2nd edition, and
//! *Operations Research* 34 (1986). All numbers are intervals. No call refuses, and none allocates memory.
#![tactic(auto)]

ghost use Rattle.std.specs.Prelude.{◌≡◌, ℕ, ◌+◌, ◌*◌, ◌^◌, ◌<◌, ◌≤◌, length};
ghost use Rattle.std.specs.List.{All};
ghost use Rattle.exact_model.specs.Fraction.{Fraction, sum_below, ◌+ℚ◌, ◌*ℚ◌};
ghost use Rattle.exact_model.specs.Shares.{shared};
ghost use Rattle.fixed_interval.specs.Ends.{In, IsWithinLimit};
ghost use Rattle.depot_pipeline.specs.Exact.{IsAtMost, FeedIn, IsSmallFeed};
ghost use Rattle.base_pipeline.specs.Profile.{base_shop_ends, base_own_ends, base_line_ends};
ghost use Rattle.base_pipeline.specs.Exact.{AllDelaysIn, IsSmallDelay};

use depot_pipeline::{Feed, Moments, mean_of, variance_of};
use fixed_interval::Iv;

/// The backorders of a shop unit at the same base, which delay a line unit's repair there: their mean and their
/// variance.
#[derive(Clone, Copy, Drop)]
pub struct Held<const F: u32> {
    pub backorders: Iv<F>,
    pub spread: Iv<F>,
}

/// The pipeline of a shop unit at a base: its direct part, at most 256 units, and the depot's feed.
///
/// `cap` is the caller's upper bound of the mean and the variance, in units of `2^-F`: each is capped there, and
/// encloses the exact value if that is at most the cap.
pub fn base_shop<const F: u32>(direct: Iv<F>, cap: u128, depot: Feed<F>) -> Moments<F>
    requires direct { IsWithinLimit F direct }
    requires small { IsSmallFeed F depot }
    ensures ends { result ≡ base_shop_ends F direct.entry cap depot.entry }
    ensures mean { (d f e v : Fraction) → In F direct.entry d → FeedIn F depot.entry f e v
        → IsAtMost F cap (d +ℚ f *ℚ e) → In F result.mean (d +ℚ f *ℚ e) }
    ensures variance { (d f e v : Fraction) → In F direct.entry d → FeedIn F depot.entry f e v
        → IsAtMost F cap (d +ℚ shared f e v) → In F result.variance (d +ℚ shared f e v) }
{
    Moments {
        mean: direct.add(mean_of(&depot)).capped(cap),
        variance: direct.add(variance_of(&depot)).capped(cap),
    }
}

/// The own part of a line unit's pipeline at a base, without its shop units there: its direct part, at most 256 units,
/// and the depot's feed. With the backorders of the shop units added, and capped, it is [`base_line`].
pub fn base_own<const F: u32>(direct: Iv<F>, depot: &Feed<F>) -> Moments<F>
    requires direct { IsWithinLimit F direct }
    requires small { IsSmallFeed F depot.now }
    ensures ends { result ≡ base_own_ends F direct.entry depot.now }
    ensures mean_most { result.mean.hi ≤ 768 * 2 ^ F }
    ensures variance_most { result.variance.hi ≤ 768 * 2 ^ F }
{
    Moments {
        mean: direct.add(mean_of(depot)),
        variance: direct.add(variance_of(depot)),
    }
}

/// The pipeline of a line unit at a base: its direct part, at most 256 units, the depot's feed, and the backorders of
/// its shop units at this base, at most 8 of them.
///
/// `cap` is as in [`base_shop`].
pub fn base_line<const F: u32>(
    direct: Iv<F>,
    cap: u128,
    depot: Feed<F>,
    shops: &[Held<F>],
) -> Moments<F>
    requires direct { IsWithinLimit F direct }
    requires small { IsSmallFeed F depot }
    requires few { length shops.now ≤ 8 }
    requires small_delays { All (IsSmallDelay F) shops.now }
    ensures ends { result ≡ base_line_ends F direct.entry cap depot.entry shops.now }
    ensures mean { (d f e v : Fraction) (b s : ℕ → Fraction) → In F direct.entry d → FeedIn F depot.entry f e v
        → AllDelaysIn F shops.now b s
        → IsAtMost F cap (d +ℚ f *ℚ e +ℚ sum_below b (length shops.now))
        → In F result.mean (d +ℚ f *ℚ e +ℚ sum_below b (length shops.now)) }
    ensures variance { (d f e v : Fraction) (b s : ℕ → Fraction) → In F direct.entry d → FeedIn F depot.entry f e v
        → AllDelaysIn F shops.now b s
        → IsAtMost F cap (d +ℚ shared f e v +ℚ sum_below s (length shops.now))
        → In F result.variance (d +ℚ shared f e v +ℚ sum_below s (length shops.now)) }
{
    let Moments {
        mut mean,
        mut variance,
    } = base_own(direct, &depot);
    for shop in shops {
        mean = mean.add(shop.backorders);
        variance = variance.add(shop.spread);
    }
    Moments {
        mean: mean.capped(cap),
        variance: variance.capped(cap),
    }
}
