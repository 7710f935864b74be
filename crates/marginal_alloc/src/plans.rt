//! The promises of plans, as contracts of functions that do nothing.
//!
//! A plan is the filled hull choice of the curves of all families.
ghost use Rattle.marginal_alloc.specs.Promises.{PlansKeepTheirPromises, PlansAreAcceptable, PlansAreOne};
ghost use Rattle.marginal_alloc.specs.Soundness.{PlansAreSound};

use hull::Price;

/// The numbers of a plan. Costs are in whole money; the upper end, the bound, the rounding and the gap are in units
/// of 2^-48.
#[derive(Clone, Copy, Debug, Drop, PartialEq, Eq)]
pub struct PlanNumbers {
    /// The cost of the hull choice.
    pub hull_cost: u64,
    /// The price at which the hull choice is least.
    pub price: Price,
    /// The cost of the filled choice.
    pub cost: u64,
    /// The sum of the upper ends of the filled choice.
    pub upper: u128,
    /// The bound at the price: no choice within the budget has a smaller sum of lower ends.
    pub bound: u128,
    /// The most by which another price's bound can be higher.
    pub rounding: u128,
    /// The upper end less the bound.
    pub gap: u128,
    /// The family of the critical step of the hull choice.
    pub critical: Option<u32>,
}

/// The promises of a plan, for all values within the points' ends: its choice is within its families and its budget, no
/// choice has fewer backorders than the bound, no price has a bound higher by more than the rounding, no acceptable
/// certificate claims one, and the gap is small.
pub fn plans_keep_their_promises()
    ensures { PlansKeepTheirPromises }
{}

/// The certificate of a plan is acceptable.
pub fn plans_are_acceptable()
    ensures { PlansAreAcceptable }
{}

/// The promises of a plan about all allocations of stocks and the model's backorders, at each depth from 1024 on.
pub fn plans_are_sound()
    ensures { PlansAreSound }
{}

/// If points of one family with the same stocks are equal, there is only one plan under a budget: a function of both.
pub fn plans_are_one()
    ensures { PlansAreOne }
{}
