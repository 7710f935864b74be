//! The certificate of a plan, which the checker accepts.
//!
//! A plan's certificate carries the case, the budget, the price of the hull choice with each family's exact floor at
//! this price, the stocks, their upper end and the bound. In format 2 each family has a trimmed cover. The laws say
//! that the certificate is well formed, that no rule of the checker refuses it, and that its text is short enough to be
//! read: for both objectives, and for plans that begin with stocks on hand. One more law says that each certificate
//! that the checker accepts is true of its case, whoever made it.
#![tactic(auto)]

mod certifying;
mod laws;
mod writing;

pub use certifying::{Certified, certificate};
pub use laws::{
    accepted_are_true, plans_are_accepted, plans_are_well_formed, plans_come_nearest,
    scores_are_sound, texts_are_short,
};
pub use writing::certificate_text;
