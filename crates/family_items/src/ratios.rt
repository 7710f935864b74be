//! Ratios as intervals, by one division each.

ghost use Rattle.std.specs.Prelude.{◌≡◌, ◌*◌, ◌/◌, ◌^◌, ◌<◌, ◌≤◌};
ghost use Rattle.std.specs.Int.{div_ceil};
ghost use Rattle.fixed_interval.specs.Ends.{InScale, ends_ratio};
ghost use Rattle.fleet_model.specs.Units.{pipeline_scale};

use demand_rates::kinds::PIPELINE_SCALE;
use fixed_interval::Iv;
use quotients::quotient;

/// The binary places that a pipeline's numerator and its denominator lose, so that the denominator has 64 bits.
const LOST: u32 = 18;

/// `num / den`, rounded down and up.
#[inline(always)]
fn quotient_ends<const F: u32>(num: u128, den: u128) -> Iv<F>
    requires scale { InScale F }
    requires divisor { 0 < den }
    requires room { div_ceil num den < 2 ^ 127 }
    ensures { result ≡ record { lo = num / den; hi = div_ceil num den } }
{
    let below = quotient(num, den);
    let above = if below * den == num { below } else { below + 1 };
    Iv::of_ends(below, above)
}

/// A pipeline, a numerator over [`PIPELINE_SCALE`], of at most 4096 units.
pub fn pipeline_ends<const F: u32>(num: u128) -> Iv<F>
    requires scale { InScale F }
    requires small { num ≤ 4096 * pipeline_scale }
    ensures ends { result ≡ ends_ratio F num pipeline_scale }
{
    quotient_ends(num << (F - LOST), PIPELINE_SCALE >> LOST)
}

/// The share `num / den`, at most 1.
pub fn share_ends<const F: u32>(num: u128, den: u128) -> Iv<F>
    requires scale { InScale F }
    requires divisor { 0 < den }
    requires small_divisor { den ≤ 2 ^ 75 }
    requires part { num ≤ den }
    ensures ends { result ≡ ends_ratio F num den }
{
    quotient_ends(num << F, den)
}
