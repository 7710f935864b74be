//! The rates of a case, exact: the demand, the share, the direct pipeline and the zero-stock mean of each pair of a
//! part and a site, or the first pipeline outside the model's limits; and the limits of a single pipeline.
//!
//! Demands are whole numbers of their unit, 10^-4, 10^-8, 10^-12 or 10^-16 a year by the level of the pair, and
//! pipelines are numerators over 365 * 10^18. All sums are exact, and fit 128 bits for every case.
#![tactic(auto)]

mod case_rates;
mod depot;
mod fault;
pub mod kinds;
mod limits;
mod pairs;
mod rated;
mod rows;
mod single;
mod waits;

pub use case_rates::rates;
pub use fault::{Place, RateFault};
pub use rated::Rated;
pub use single::check_single;
