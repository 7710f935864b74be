//! The outcome of a plan.

use answers::List;
use hull::Price;
use plan_report::PlanReport;
use spares_input::Stocks;

/// A report with the claims of its certificate.
#[derive(Drop)]
pub struct Outcome {
    pub report: PlanReport,
    /// A stock for each pair.
    pub stocks: Stocks,
    /// The price of the hull choice.
    pub price: Price,
    /// For each line unit in order, the least Lagrangian at the price over all vectors of its family.
    pub floors: List<u128>,
    /// The upper end of the aim at the stocks, in units of 2^-48.
    pub upper: u128,
}
