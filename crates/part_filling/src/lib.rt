//! The filling of picks when only parts of the curves are known, between two prices.
//!
//! The best change of what is known is that of the whole curves, if no vertex that isn't known could be as good. If one
//! could, a wider part of its family's curve is made.
#![tactic(auto)]

mod filling;
mod known;
mod outside;
mod settling;
mod window;

pub use filling::fill_parts;
pub use known::{Families, Known};
pub use window::Window;
