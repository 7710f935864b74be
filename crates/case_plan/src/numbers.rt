//! The numbers of a hull choice, and sums over picks.

ghost use Rattle.std.specs.Prelude.{◌≡◌, ◌+◌, ◌-◌, ◌*◌, ◌/◌, ◌^◌, ◌<◌, ◌≤◌, length, map, option_map, slice_index, IfOk};
ghost use Rattle.spares_input.specs.Money.{most_budget};
ghost use Rattle.hull.specs.Curves.{lagrangian, InRange};
ghost use Rattle.hull.specs.Limits.{end_limit, most_floor, most_curves};
ghost use Rattle.price_bounds.specs.Sums.{total, cost_of, hi_of, lo_of, width_of};
ghost use Rattle.step_walk.specs.Prefix.{vertex_at, picked, AreVertices};
ghost use Rattle.case_plan.specs.Parts.{slack, IsPlace, IsSmallPrice};

use answers::NoMemory;
use hull::{Curve, Point, Price};
use marginal_alloc::Critical;
use std::alloc::Global;

/// Sums over the picks of a hull choice.
#[derive(Clone, Copy, Drop)]
struct HullTotals {
    lagrangian: u128,
    width: u128,
}

/// Sums over the picks of a filled choice.
#[derive(Clone, Copy, Drop)]
pub(crate) struct Totals {
    pub cost: u64,
    pub lo: u128,
    pub hi: u128,
}

/// The Lagrangian of a point at a price.
fn lagrangian_of(point: &Point, price: Price) -> u128
    requires price { IsSmallPrice price }
    requires range { InRange point.now }
    ensures is { result ≡ lagrangian price.p price.q point.now }
    ensures small { result < most_floor }
{
    u128::from(price.q) * point.lo + price.p * u128::from(point.cost)
}

/// The picked vertex of a family.
pub(crate) fn pick_of<'a>(curves: &'a [Curve], picks: &[u32], f: usize) -> &'a Point
    requires vertices { AreVertices curves.now picks.now }
    requires family { f < length curves.now }
    ensures is { result.now ≡ vertex_at curves.now f (slice_index picks.now f) }
    ensures range { InRange result.now }
{
    let curve = &curves[f];
    let pick = picks[f];
    let within = pick < curve.len();
    prove!(within);
    curve.point(pick)
}

/// The sums over the picks of a hull choice, at its price.
fn hull_totals(curves: &[Curve], picks: &[u32], price: Price) -> HullTotals
    requires vertices { AreVertices curves.now picks.now }
    requires few { length curves.now ≤ most_curves }
    requires price { IsSmallPrice price }
    ensures lagrangian { result.lagrangian ≡ total (lagrangian price.p price.q) (picked curves.now picks.now) }
    ensures width { result.width ≡ width_of (picked curves.now picks.now) }
    ensures small { (result.lagrangian < 2 ^ 126) × (result.width < 2 ^ 86) }
{
    let mut lagrangian = 0;
    let mut width = 0;
    for f in 0..curves.len() {
        let point = pick_of(curves, picks, f);
        lagrangian += lagrangian_of(point, price);
        width += point.hi - point.lo;
    }
    HullTotals { lagrangian, width }
}

/// The sums over the picks of a filled choice.
pub(crate) fn totals_of(curves: &[Curve], picks: &[u32]) -> Totals
    requires vertices { AreVertices curves.now picks.now }
    requires few { length curves.now ≤ most_curves }
    ensures cost { result.cost ≡ cost_of (picked curves.now picks.now) }
    ensures lo { result.lo ≡ lo_of (picked curves.now picks.now) }
    ensures hi { result.hi ≡ hi_of (picked curves.now picks.now) }
    ensures ordered { result.lo ≤ result.hi }
    ensures small { result.hi < 2 ^ 86 }
{
    let mut cost = 0;
    let mut lo = 0;
    let mut hi = 0;
    for f in 0..curves.len() {
        let point = pick_of(curves, picks, f);
        cost += point.cost;
        lo += point.lo;
        hi += point.hi;
    }
    Totals { cost, lo, hi }
}

/// The Lagrangian of each pick.
pub(crate) fn floors_at(
    alloc: Global,
    curves: &[Curve],
    picks: &[u32],
    price: Price,
) -> Result<Vec<u128>, NoMemory>
    requires vertices { AreVertices curves.now picks.now }
    requires price { IsSmallPrice price }
    ensures { IfOk result (λ floors. floors.items ≡ map (lagrangian price.p price.q) (picked curves.now picks.now)) }
{
    let mut floors = Vec::new(alloc);
    for f in 0..curves.len() {
        let point = pick_of(curves, picks, f);
        floors.push(lagrangian_of(point, price))?;
    }
    Ok(floors)
}

/// The width of the critical vertex, or 0 if there is none.
fn slack_of(curves: &[Curve], critical: Option<Critical>) -> u128
    requires { IsPlace curves.now critical }
    ensures slack { result ≡ slack curves.now critical }
    ensures small { result < end_limit }
{
    let Some(step) = critical else {
        return 0;
    };
    let curve = &curves[step.family as usize];
    let vertex = step.vertex;
    let within = vertex < curve.len();
    prove!(within);
    let point = curve.point(vertex);
    point.hi - point.lo
}

/// The family of a critical step, if there is one.
fn family_of(critical: Option<Critical>) -> Option<u32>
    ensures { result ≡ option_map (λ c. c.family) critical }
{
    match critical {
        Some(step) => Some(step.family),
        None => None,
    }
}

/// The numbers of a hull choice.
#[derive(Clone, Copy, Drop)]
pub(crate) struct HullNumbers {
    pub cost: u64,
    pub price: Price,
    pub bound: u128,
    pub rounding: u128,
    pub critical: Option<u32>,
}

/// The numbers of the hull choice with these picks, this cost and price and this critical step.
pub(crate) fn hull_numbers(
    curves: &[Curve],
    picks: &[u32],
    cost: u64,
    price: Price,
    critical: Option<Critical>,
    budget: u64,
) -> HullNumbers
    requires vertices { AreVertices curves.now picks.now }
    requires few { length curves.now ≤ most_curves }
    requires price { IsSmallPrice price }
    requires critical { IsPlace curves.now critical }
    requires budget { budget ≤ most_budget }
    ensures cost { result.cost ≡ cost }
    ensures price { result.price ≡ price }
    ensures bound { result.bound ≡ (total (lagrangian price.p price.q) (picked curves.now picks.now) - price.p * budget)
        / price.q }
    ensures rounding { result.rounding ≡ width_of (picked curves.now picks.now) + slack curves.now critical + 1 }
    ensures critical { result.critical ≡ option_map (λ c. c.family) critical }
{
    let hull = hull_totals(curves, picks, price);
    let slack = slack_of(curves, critical);
    let paid = price.p * u128::from(budget);
    HullNumbers {
        cost,
        price,
        bound: hull.lagrangian.saturating_sub(paid) / u128::from(price.q),
        rounding: hull.width + slack + 1,
        critical: family_of(critical),
    }
}
