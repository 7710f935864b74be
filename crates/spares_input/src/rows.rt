//! The rows of sites, parts, rates and stocks. A field that must be empty holds 0.

use crate::name::Name;

/// A site by its number: 0 is the depot, and the bases follow in file order.
#[derive(Clone, Copy, Debug, PartialEq, Eq)]
pub struct SiteId(pub u8);

/// A part by its number, in file order.
#[derive(Clone, Copy, Debug, PartialEq, Eq)]
pub struct PartId(pub u16);

/// A site.
#[derive(Clone, Copy)]
pub struct SiteRow {
    pub name: Name,
    /// Whether this is the depot; otherwise it is a base.
    pub depot: bool,
    /// Systems at a base, 1 to 10,000.
    pub systems: u32,
    /// Mean time of order and shipment from the depot to a base, in hundredths of days, 0 to 999,999.
    pub ship: u32,
}

/// A part: a line unit, which is taken from a system, or a shop unit of the line unit that `parent` names.
#[derive(Clone, Copy)]
pub struct PartRow {
    pub name: Name,
    /// The line unit of a shop unit.
    pub parent: Option<Name>,
    /// Unit cost, 1 to 100,000,000.
    pub cost: u32,
    /// Line units of this kind in a system, 1 to 100.
    pub per_system: u32,
    /// The largest stock at the depot, 0 to 63.
    pub max_depot: u8,
    /// The largest stock at a base, 0 to 63.
    pub max_base: u8,
    /// The weight of a backorder of a line unit, 1 to 100.
    pub weight: u8,
}

/// The demand and repair of a part at a site.
#[derive(Clone, Copy)]
pub struct RateRow {
    pub part: PartId,
    pub site: SiteId,
    /// Demands a year for a line unit at a base, in ten-thousandths, 0 to 1,000,000,000.
    pub demand: u32,
    /// Probability that the part is repaired at a base, in ten-thousandths, 0 to 10,000.
    pub repair_here: u16,
    /// Probability that a repair of the line unit at the site needs this shop unit, in ten-thousandths, 0 to 10,000.
    pub share: u16,
    /// Mean time of a repair at the site, in hundredths of days, 0 to 999,999.
    pub repair_days: u32,
}

/// The stock of a part at a site.
#[derive(Clone, Copy)]
pub struct StockRow {
    pub part: PartId,
    pub site: SiteId,
    pub stock: u8,
}
