//! A session plans a case again and again while its rates and the budget change, and keeps each result that a change
//! doesn't touch.
//!
//! For an edits file a session keeps the part of each family's curve that the last plan used. The part serves while the
//! prices of plans lie between its prices. It depends only on the sites and parts of the case and on the rates of the
//! family's own parts, so a change of one row costs the part of one family. Where parts don't serve, and for a caller's
//! plan, a session makes the whole curve of each family, and keeps and lends these likewise.
//!
//! A session also keeps the evaluation of each family at the stocks of the last plan. It depends also on the stocks of
//! the family's parts, so a plan costs the evaluations of the changed family and of each family whose stocks change.
//! Every answer equals a plan from nothing.
#![tactic(auto)]

mod edits;
mod evaluated;
mod kept;
mod session;
mod values;

pub use case_edits::EditFault;
pub use edits::run_edits_by;
pub use session::Session;
pub use session_report::SessionReport;
