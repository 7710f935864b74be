//! Plans that begin with stocks on hand: the curves from the held stocks to the limits, and the plan of a case by them
//! or by their parts near the price at which the budget is spent. `family_curve` makes the curves, and `family_parts`
//! the parts.
#![tactic(auto)]

mod curves;
mod maker;
mod plan;

pub use curves::held_curves;
pub use held_certificate::{HeldCertificate, is_held_form, read, text};
pub use held_work::{held_work, nothing_held_is_all};
pub use maker::FamilyCurves;
pub use plan::plan_case;
