//! The rules that a pair's pipeline may break.

ghost use Rattle.std.specs.Prelude.{◌≡◌, ◌≤◌};
ghost use Rattle.demand_rates.specs.Limits.{in_days, pipeline_rule};

use crate::fault::{Place, RateFault};
use crate::kinds::{PIPELINE_SCALE, PairRates};
use exact_ratio::Ratio;

/// A pipeline as a ratio, from its numerator.
fn in_days(num: u128) -> Ratio
    ensures { result ≡ in_days num }
{
    Ratio {
        num,
        den: PIPELINE_SCALE,
    }
}

/// The first rule that a pair's pipeline breaks.
pub(crate) fn pipeline_fault(place: Place, rates: &PairRates) -> Option<RateFault>
    requires { rates.now.direct ≤ 30000000000000000000000000000 }
    ensures { result ≡ pipeline_rule place rates.now.demand.num rates.now.direct rates.now.zero_stock }
{
    let PairRates {
        demand,
        direct,
        zero_stock: mean,
        ..
    } = *rates;
    if 0 < demand.num && direct * 10_000_000 < PIPELINE_SCALE {
        return Some(RateFault::ThinPipeline {
            place,
            direct: in_days(direct),
        });
    }
    if 256 * PIPELINE_SCALE < mean {
        return Some(RateFault::PipelineTooLarge {
            place,
            mean: in_days(mean),
        });
    }
    if 1024 * direct < mean {
        return Some(RateFault::PipelineRatio {
            place,
            mean: in_days(mean),
            direct: in_days(direct),
        });
    }
    None
}
