//! The faults of a case's rows and of its stocks.

use crate::rows::{PartId, SiteId};
use thiserror::Error;

/// The first rule that the rows of a case break. A number is a row of its file, whose header is row 1.
#[derive(Clone, Copy, Debug, Drop, PartialEq, Eq, Error)]
pub enum CaseFault {
    /// The row of a second site of one name.
    #[error("row {0}: two sites have one name")]
    DoubleSite(u32),
    /// The row of a second depot.
    #[error("row {0}: there are two depots")]
    TwoDepots(u32),
    /// No site is a depot.
    #[error("there is no depot")]
    NoDepot,
    /// No site is a base.
    #[error("there is no base")]
    NoBase,
    /// The row of a second part of one name.
    #[error("row {0}: two parts have one name")]
    DoublePart(u32),
    /// The row of a shop unit whose parent is no part.
    #[error("row {0}: the parent is not a part")]
    UnknownParent(u32),
    /// The row of a shop unit whose parent is a shop unit.
    #[error("row {0}: the parent is not a line unit")]
    ParentNotLine(u32),
    /// The row of the ninth shop unit of a line unit.
    #[error("row {0}: the line unit has more than 8 shop units")]
    TooManyShopUnits(u32),
    /// The row of a pair that has a row already.
    #[error("row {0}: the pair has two rows of rates")]
    DoubleRate(u32),
    /// The first pair without a row, by part and then by site.
    #[error("a pair has no row of rates")]
    MissingRate(PartId, SiteId),
}

/// The first rule that rows of stocks break. A number is a row of the file, whose header is row 1.
#[derive(Clone, Copy, Debug, Drop, PartialEq, Eq, Error)]
pub enum StockFault {
    /// The row of a stock above the limit of its part at its site.
    #[error("row {0}: the stock is over the limit")]
    OverLimit(u32),
    /// The row of a pair that has a row already.
    #[error("row {0}: the pair has two rows of stocks")]
    Double(u32),
    /// The first pair without a row, by part and then by site.
    #[error("a pair has no row of stocks")]
    Missing(PartId, SiteId),
}
