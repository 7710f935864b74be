//! The reasons why an edits file is refused.

use demand_rates::RateFault;

/// The first fault of an edits file. Line numbers count from 1 and include empty lines.
#[derive(Clone, Copy, Drop)]
pub enum EditFault {
    /// There is a line 4,001.
    TooManyLines,
    /// The line isn't empty and isn't a change of the budget, a plan or a change of a rate.
    BadLine(u32),
    /// The line is the 65th plan.
    TooManyPlans(u32),
    /// The line is a plan, and the rates of the case at this line are refused.
    Rate(u32, RateFault),
}
