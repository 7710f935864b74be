//! The request for a plan.

/// The request: what a plan may cost, and what its report says besides.
#[derive(Clone, Copy, Drop)]
pub struct Request {
    /// The budget, in whole money.
    pub budget: u64,
    /// Whether the report has the ends of the aim as a loss, beside the total of backorders.
    pub loss: bool,
    /// The cost of the stocks on hand, in whole money, if there is a table of them.
    pub on_hand: Option<u64>,
}
