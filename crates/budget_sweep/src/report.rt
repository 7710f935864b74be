//! The reports of a sweep and of a target.

use answers::List;
use exact_ratio::Decimal;
use hull::Price;

/// The state after a number of steps.
#[derive(Clone, Copy, Drop)]
pub struct SweepPoint {
    /// The cost of the families' vertices together, in whole money.
    pub cost: u64,
    /// The lower end of the vertices' sum, in units of 2^-48.
    pub lo: u128,
    /// The upper end of the vertices' sum, in units of 2^-48.
    pub hi: u128,
    /// The price of the next step, its fall of the lower end per rise of cost; None after the last step.
    pub price: Option<Price>,
}

/// The states after 0 steps, after 1, and so on to all steps.
#[derive(Drop)]
pub struct SweepReport {
    pub points: List<SweepPoint>,
}

/// The report of a target of the sum.
#[derive(Clone, Copy, Drop)]
pub struct TargetReport {
    /// The target, with 4 decimals.
    pub target: Decimal,
    /// The first state with an upper end of at most the target; None if there is none.
    pub reach: Option<SweepPoint>,
    /// A lower bound of the cost of each choice that reaches the target, in whole money; None if no choice does.
    pub at_least: Option<u64>,
}
