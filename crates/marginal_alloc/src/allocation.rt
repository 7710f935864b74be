//! The hull choice: the steps of all curves by falling slope, within the budget.
ghost use Rattle.std.specs.Prelude.{◌≡◌, ℕ, ◌<◌, ◌≤◌, length, IfOk, OnOk};
ghost use Rattle.hull.specs.Limits.{most_price_units, most_price_money, most_curves};
ghost use Rattle.step_walk.specs.Prefix.{vertex_at, HaveShapes};
ghost use Rattle.price_bounds.specs.Sums.{cost_of};
ghost use Rattle.marginal_alloc.specs.Choice.{IsHullChoice, firsts};

use crate::start::start;
use answers::{List, NoMemory};
use hull::{Curve, Price};
use std::alloc::Global;

/// The first step that doesn't fit the budget: its family, and the vertex that it would reach.
#[derive(Clone, Copy, Debug, Drop, PartialEq, Eq)]
pub struct Critical {
    pub family: u32,
    pub vertex: u32,
}

/// A hull choice: a vertex of each curve, their total cost, and a price at which each has its curve's least Lagrangian.
///
/// The price is the slope of the critical step: its fall of the lower end in units of 2^-48, for its rise of cost in
/// whole money. If every step was taken, there is no critical step, and the price is 0/1.
#[derive(Drop)]
pub struct Chosen {
    pub picks: List<u32>,
    pub cost: u64,
    pub price: Price,
    pub critical: Option<Critical>,
}

/// The hull choice of the curves under a budget in whole money.
///
/// The steps of all curves are taken by falling slope, of equal slopes by family and then by place, until one would
/// exceed the budget. There are at most 2,000 curves, and each begins at cost 0. Want of memory is the only error. No
/// command calls it: they have a guess of the price.
pub fn allocate(alloc: Global, curves: &[Curve], budget: u64) -> Result<Chosen, NoMemory>
    requires few { length curves.now ≤ most_curves }
    requires free { (f : ℕ) → f < length curves.now → (vertex_at curves.now f 0).cost ≡ 0 }
    ensures choice { IfOk result (λ chosen. IsHullChoice curves.now budget chosen) }
    ensures shapes { OnOk result (HaveShapes curves.now) }
    ensures price { IfOk result (λ chosen. (chosen.price.p < most_price_units) × (0 < chosen.price.q)
        × (chosen.price.q ≤ most_price_money)) }
{
    allocate_near(alloc, curves, budget, 0)
}

/// The same hull choice as [`allocate`], found with a guess of its price in units of 2^-48 for whole money.
///
/// The guess changes no result. A guess slightly above the price is the fastest. Want of memory is the only error.
pub fn allocate_near(
    alloc: Global,
    curves: &[Curve],
    budget: u64,
    near: u128,
) -> Result<Chosen, NoMemory>
    requires few { length curves.now ≤ most_curves }
    requires free { (f : ℕ) → f < length curves.now → (vertex_at curves.now f 0).cost ≡ 0 }
    ensures choice { IfOk result (λ chosen. IsHullChoice curves.now budget chosen) }
    ensures shapes { OnOk result (HaveShapes curves.now) }
    ensures price { IfOk result (λ chosen. (chosen.price.p < most_price_units) × (0 < chosen.price.q)
        × (chosen.price.q ≤ most_price_money)) }
{
    allocate_within(alloc, curves, budget, near)
}

/// The same hull choice as [`allocate_near`], of curves that needn't begin at cost 0: their first vertices together are
/// within the budget.
pub fn allocate_within(
    alloc: Global,
    curves: &[Curve],
    budget: u64,
    near: u128,
) -> Result<Chosen, NoMemory>
    requires few { length curves.now ≤ most_curves }
    requires firsts { cost_of (firsts curves.now) ≤ budget }
    ensures choice { IfOk result (λ chosen. IsHullChoice curves.now budget chosen) }
    ensures shapes { OnOk result (HaveShapes curves.now) }
    ensures price { IfOk result (λ chosen. (chosen.price.p < most_price_units) × (0 < chosen.price.q)
        × (chosen.price.q ≤ most_price_money)) }
{
    let (mut walk, mut cost) = start(alloc, curves, budget, near)?;
    'steps: while let Some(next) = walk.next() {
        if next.price.q > budget - cost {
            return Ok(Chosen {
                picks: List::of(walk.into_picks()),
                cost,
                price: next.price,
                critical: Some(Critical {
                    family: next.family,
                    vertex: next.vertex,
                }),
            });
        }
        cost += next.price.q;
        walk = walk.take()?;
    }
    Ok(Chosen {
        picks: List::of(walk.into_picks()),
        cost,
        price: Price { p: 0, q: 1 },
        critical: None,
    })
}
