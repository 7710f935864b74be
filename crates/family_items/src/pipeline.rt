//! A pair's own numbers of its pipeline.

use fixed_interval::Iv;
use spares_input::{PartId, SiteId};

/// A pair's own numbers of its pipeline, in units of `2^-F`.
#[derive(Clone, Copy, Drop)]
pub struct Pipeline<const F: u32> {
    pub part: PartId,
    pub site: SiteId,
    /// The pair's stock, 0 to 63.
    pub stock: u8,
    /// The direct part: the pipeline without any backorders of other pairs.
    pub direct: Iv<F>,
    /// The largest possible mean and variance: its mean without any stock anywhere.
    pub cap: u128,
}
