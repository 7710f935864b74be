//! The result of `weights`.

use crate::short::Iv64;
use answers::List;
use fixed_interval::Iv;

/// The weights of a pipeline's distribution relative to the weight at the pivot, with a sum that covers every depth.
///
/// All ends are whole numbers in units of `2^-F`; `F` is from 24 to 52.
#[derive(Drop)]
pub enum Weights<const F: u32> {
    /// The weights fall soon enough.
    Known {
        /// The index of the weight 1, near the mode: 0 to 256.
        pivot: u16,
        /// The weights from index 0 on: 64 to 1025 of them, each at most 8.
        list: List<Iv64<F>>,
        /// Their sum, whose upper end also covers all weights past the list.
        sum: Iv<F>,
    },
    /// A weight exceeds 8, or the weights need not fall.
    Wide,
}
