//! The limits of a single pipeline.

ghost use Rattle.std.specs.Prelude.{◌≡◌};

use demand_rates::{Place, RateFault, check_single};
use exact_ratio::{Decimal, Ratio};
use std::process::Abort;

/// A number of ten-thousandths.
fn decimal(units: u64) -> Decimal
    ensures { result.places ≡ 4 }
{
    Decimal { units, places: 4 }
}

/// A pipeline of this many ten-thousandths is too large.
macro_rules! too_large {
    ($units:expr) => {
        Err(RateFault::PipelineTooLarge {
            place: Place::Single,
            mean: Ratio {
                num: $units,
                den: 10_000,
            },
        })
    };
}

/// A variance is too many times its mean.
macro_rules! wide {
    ($variance:expr, $mean:expr) => {
        Err(RateFault::PipelineRatio {
            place: Place::Single,
            mean: Ratio {
                num: $variance,
                den: 10_000,
            },
            direct: Ratio {
                num: $mean,
                den: 10_000,
            },
        })
    };
}

/// Means and variances in ten-thousandths, each pair with its answer.
const LIMITS: [(u64, u64, Result<(), RateFault>); 10] = [
    (0, 0, Ok(())),
    (2_560_000, 2_560_000, Ok(())),
    (2_560_001, 0, too_large!(2_560_001)),
    (2_560_001, 2_560_002, too_large!(2_560_001)),
    (0, 2_560_001, too_large!(2_560_001)),
    (2_500, 2_560_000, Ok(())),
    (2_499, 2_560_000, wide!(2_560_000, 2_499)),
    (0, 10_000, wide!(10_000, 0)),
    (1, 1_024, Ok(())),
    (1, 1_025, wide!(1_025, 1)),
];

fn answers(rt: &impl Abort, rows: &[(u64, u64, Result<(), RateFault>)]) {
    for (mean, variance, want) in rows {
        assert!(rt;
            check_single(decimal(*mean), decimal(*variance)) == *want,
            "at {mean} and {variance}"
        );
    }
}

#[test]
fn refuses_pipelines_past_the_limits(rt: HostRuntime) {
    answers(&rt, LIMITS.as_slice());
}
