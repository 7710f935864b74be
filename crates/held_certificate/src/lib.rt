//! Certificates of plans that begin with stocks on hand.
//!
//! Such a certificate embeds all lines of a certificate of format 2, its own `end` included. Its further lines are the
//! held stocks.
#![tactic(auto)]

mod exactness;
mod held;
mod reading;
mod writing;

pub use exactness::{forms_are_told_apart, held_certificates_are_exact, is_held_form};
pub use held::HeldCertificate;
pub use reading::read;
pub use writing::text;
