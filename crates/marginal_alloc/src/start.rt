//! The start of the walk of a hull choice: after all steps above a price, many of which fit the budget at once.
ghost use Rattle.std.specs.Prelude.{◌≡◌, ◌≤◌, length, IfOk};
ghost use Rattle.hull.specs.Limits.{most_price_units, most_curves};
ghost use Rattle.price_bounds.specs.Sums.{cost_of};
ghost use Rattle.step_walk.specs.Prefix.{picked};
ghost use Rattle.marginal_alloc.specs.Choice.{firsts};

use crate::filling::cost_at;
use answers::NoMemory;
use hull::{Curve, MOST_PRICE_UNITS};
use std::alloc::Global;
use step_walk::{Walk, all_after_steep};

/// The cost after the steps above a price. No clause says so.
fn cost_after(alloc: Global, curves: &[Curve], price: u128) -> Result<u64, NoMemory>
    requires few { length curves.now ≤ most_curves }
    requires price { price ≤ most_price_units }
{
    let picks = all_after_steep(alloc, curves, price)?;
    Ok(cost_at(curves, picks.as_slice()))
}

/// The lower price if the steps above it fit the budget, otherwise the other.
fn lower_within(
    alloc: Global,
    curves: &[Curve],
    budget: u64,
    price: u128,
    lower: u128,
) -> Result<u128, NoMemory>
    requires few { length curves.now ≤ most_curves }
    requires price { price ≤ most_price_units }
    requires lower { lower ≤ most_price_units }
    ensures { IfOk result (λ p. p ≤ most_price_units) }
{
    if cost_after(alloc, curves, lower)? <= budget {
        return Ok(lower);
    }
    Ok(price)
}

/// A price at which the steps above it fit the budget; at a price about a fifth lower they don't.
fn price_found(alloc: Global, curves: &[Curve], budget: u64) -> Result<u128, NoMemory>
    requires few { length curves.now ≤ most_curves }
    ensures { IfOk result (λ p. p ≤ most_price_units) }
{
    let mut price = MOST_PRICE_UNITS;
    let mut halves: u32 = 32;
    'halves: while halves > 0 {
        price = lower_within(alloc, curves, budget, price, price >> halves)?;
        halves /= 2;
    }
    price = lower_within(alloc, curves, budget, price, price - price / 4)?;
    price = lower_within(alloc, curves, budget, price, price - price / 6)?;
    lower_within(alloc, curves, budget, price, price - price / 11)
}

/// The guessed price if the steps above it fit the budget, otherwise one that is searched.
fn price_within(alloc: Global, curves: &[Curve], budget: u64, near: u128) -> Result<u128, NoMemory>
    requires few { length curves.now ≤ most_curves }
    ensures { IfOk result (λ p. p ≤ most_price_units) }
{
    if near <= MOST_PRICE_UNITS && cost_after(alloc, curves, near)? <= budget {
        return Ok(near);
    }
    price_found(alloc, curves, budget)
}

/// The cost of the first vertices of at most 2,000 curves. Want of memory is the only error.
pub fn first_cost(alloc: Global, curves: &[Curve]) -> Result<u64, NoMemory>
    requires few { length curves.now ≤ most_curves }
    ensures { IfOk result (λ cost. cost ≡ cost_of (firsts curves.now)) }
{
    let walk = Walk::begin(alloc, curves)?;
    Ok(cost_at(curves, walk.picks()))
}

/// A walk within the budget, and the cost of its picks. `near` is a guess of the price; it changes no result.
pub(crate) fn start<'a>(
    alloc: Global,
    curves: &'a [Curve],
    budget: u64,
    near: u128,
) -> Result<(Walk<'a>, u64), NoMemory>
    requires few { length curves.now ≤ most_curves }
    requires firsts { cost_of (firsts curves.now) ≤ budget }
    ensures same { IfOk result (λ s. s.0.curves ≡ curves.now) }
    ensures cost { IfOk result (λ s. s.1 ≡ cost_of (picked curves.now s.0.picks)) }
    ensures fits { IfOk result (λ s. s.1 ≤ budget) }
{
    let price = price_within(alloc, curves, budget, near)?;
    let walk = Walk::begin_after(alloc, curves, price)?;
    let cost = cost_at(curves, walk.picks());
    if cost <= budget {
        return Ok((walk, cost));
    }
    let walk = Walk::begin(alloc, curves)?;
    let cost = cost_at(curves, walk.picks());
    Ok((walk, cost))
}
