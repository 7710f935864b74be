//! The limits of a single pipeline.
ghost use Rattle.std.specs.Prelude.{◌≡◌, OnOk};
ghost use Rattle.std.specs.Result.{result_err};
ghost use Rattle.demand_rates.specs.Single.{WithinLimits, limit_fault_of, single_fault_of, of_ten_thousand};

use crate::{Place, RateFault};
use exact_ratio::{Decimal, Ratio};

/// The largest mean or variance: 256 units, in ten-thousandths.
const LIMIT: u64 = 256 * 10_000;

/// The largest ratio of the variance to the mean.
const MOST_TIMES: u64 = 1024;

/// `units` ten-thousandths as a ratio.
fn of_ten_thousand(units: u64) -> Ratio
    ensures { result ≡ of_ten_thousand units }
{
    Ratio {
        num: units as u128,
        den: 10_000,
    }
}

/// Refuses a mean or a variance above the limit.
fn check_limit(units: u64) -> Result<(), RateFault>
    ensures { result_err result ≡ limit_fault_of units }
{
    if units > LIMIT {
        return Err(RateFault::PipelineTooLarge {
            place: Place::Single,
            mean: of_ten_thousand(units),
        });
    }
    Ok(())
}

/// Refuses a single pipeline outside the model's limits. Both numbers are units with 4 places.
///
/// The first of these that holds: `PipelineTooLarge` with the mean if it is above 256; `PipelineTooLarge` with the
/// variance if it is above 256; `PipelineRatio` if the variance is above 1024 times the mean.
pub fn check_single(mean: Decimal, variance: Decimal) -> Result<(), RateFault>
    requires mean_places { mean.places ≡ 4 }
    requires variance_places { variance.places ≡ 4 }
    ensures fault { result_err result ≡ single_fault_of mean.units variance.units }
    ensures accepted { OnOk result (WithinLimits mean.units variance.units) }
{
    check_limit(mean.units)?;
    check_limit(variance.units)?;
    if variance.units > MOST_TIMES * mean.units {
        return Err(RateFault::PipelineRatio {
            place: Place::Single,
            mean: of_ten_thousand(variance.units),
            direct: of_ten_thousand(mean.units),
        });
    }
    Ok(())
}
