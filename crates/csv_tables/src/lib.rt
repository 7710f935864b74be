//! The tables of a case: bytes of CSV in, rows or the first fault out.
#![tactic(auto)]

mod fault;
mod fields;
mod lines;
mod parts;
mod rates;
mod reader;
mod sites;
mod stocks;
mod table;

pub use fault::TableFault;
pub use lines::rate_line;
pub use parts::read_parts;
pub use rates::read_rates;
pub use sites::read_sites;
pub use stocks::read_stocks;

/// The largest table, in bytes.
pub const TABLE_LIMIT: usize = 4_194_304;
