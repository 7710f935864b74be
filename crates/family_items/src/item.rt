//! The results of an evaluation.

use answers::List;
use fixed_interval::Iv;
use spares_input::{PartId, SiteId};

/// The figures of a part at a site, in units of `2^-F`.
#[derive(Clone, Copy, Drop)]
pub struct Item<const F: u32> {
    pub part: PartId,
    pub site: SiteId,
    /// The pair's stock.
    pub stock: u8,
    /// The mean of the pair's pipeline, at most 256.
    pub mean: Iv<F>,
    /// The variance of the pair's pipeline, at most 256. It may be below the mean.
    pub variance: Iv<F>,
    /// The expected backorders at the stock.
    pub backorders: Iv<F>,
    /// The variance of the backorders at the stock.
    pub spread: Iv<F>,
}

/// A line unit's family: its items and its total.
#[derive(Drop)]
pub struct FamilyResult<const F: u32> {
    /// One item for each pair: the line unit first and then its shop units in part order, each by site.
    pub items: List<Item<F>>,
    /// The sum over the bases of the line unit's weight times its backorders there.
    pub total: Iv<F>,
}
