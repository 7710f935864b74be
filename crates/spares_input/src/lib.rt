//! The input of the planner: names, rows, and cases that are valid by their type.
#![tactic(auto)]

mod case;
mod families;
mod fault;
mod frame;
mod laws;
mod name;
mod pairs;
mod rows;
mod stocks;

pub use case::Case;
pub use fault::{CaseFault, StockFault};
pub use frame::Frame;
pub use laws::cases_break_no_rule;
pub use name::Name;
pub use pairs::{pair_at, pair_place};
pub use rows::{PartId, PartRow, RateRow, SiteId, SiteRow, StockRow};
pub use stocks::{Stocks, nothing_held, stocks_from};

/// The largest budget, in whole money.
pub const MOST_BUDGET: u64 = 1_000_000_000_000_000;

/// The most sites of a fleet: the depot and 1 to 15 bases.
pub const MOST_SITES: u32 = 16;

/// The most parts of a fleet.
pub const MOST_PARTS: u32 = 2_000;

/// The most shop units of a line unit.
pub const MOST_SHOP_UNITS: usize = 8;

/// The most stock of a part at a site.
pub const MOST_STOCK: u32 = 63;

/// The most pairs of a part and a site.
pub const MOST_PAIRS: u32 = 32_000;

/// The most cost of a part, in whole money.
pub const MOST_PART_COST: u32 = 100_000_000;

/// The longest repair or shipment, in hundredths of days.
pub const MOST_DAYS: u32 = 999_999;
