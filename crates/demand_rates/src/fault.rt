//! Why a pipeline is refused.

use exact_ratio::Ratio;
use spares_input::{PartId, SiteId};

/// The place of a refused pipeline.
#[derive(Clone, Copy, PartialEq, Eq)]
pub enum Place {
    /// The single pipeline of the command line.
    Single,
    /// The pipeline of a part at a site.
    Pair(PartId, SiteId),
}

/// Why a pipeline is refused. No ratio is reduced: for a pair the denominator is 365 * 10^18, for a single pipeline
/// 10,000.
#[derive(Clone, Copy, PartialEq, Eq)]
pub enum RateFault {
    /// There is demand, and the direct pipeline is below 1/10,000,000. Only for a pair.
    ThinPipeline {
        place: Place,
        direct: Ratio,
    },
    /// The mean is above 256: for a pair the mean without any stock, for a single pipeline its mean or its variance.
    PipelineTooLarge {
        place: Place,
        mean: Ratio,
    },
    /// `mean` is above 1024 times `direct`: for a pair the mean without any stock and the direct pipeline, for a single
    /// pipeline its variance and its mean.
    PipelineRatio {
        place: Place,
        mean: Ratio,
        direct: Ratio,
    },
}
