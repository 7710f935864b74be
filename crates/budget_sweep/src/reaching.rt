//! The report of a target, read off a sweep.
ghost use Rattle.std.specs.Prelude.{◌≡◌, ℕ, ◌+◌, ◌^◌, ◌<◌, ◌≤◌, List, length, All, IfOk, IfSome};
ghost use Rattle.spares_input.specs.Cases.{CaseRows};
ghost use Rattle.hull.specs.Limits.{most_curves};
ghost use Rattle.family_points.specs.Points.{ScoreEnds};
ghost use Rattle.marginal_alloc.specs.Choice.{AreCurves};
ghost use Rattle.fleet_plan.specs.Families.{case_points};
ghost use Rattle.budget_sweep.specs.Sweep.{last_state};
ghost use Rattle.budget_sweep.specs.Target.{IsReach, IsLeastCost, floor_at, least_cost};
ghost use Rattle.budget_sweep.specs.Cases.{IsTargetOf, IsCaseTarget};
ghost use Rattle.budget_sweep.specs.Fits.{IsSmallPoint, IsSmallTarget, TargetFits};

use crate::report::{SweepPoint, TargetReport};
use crate::states::sweep;
use answers::NoMemory;
use exact_ratio::Decimal;
use hull::Curve;
use std::alloc::Global;

/// Target units per backorder (10,000).
const PER_ONE: u128 = 10_000;

/// The first state with an upper end of at most `most`, in units of 2^-48.
fn first_within(points: &[SweepPoint], most: u128) -> Option<SweepPoint>
    requires { All IsSmallPoint points.now }
    ensures first { IsReach points.now most result }
    ensures small { IfSome result IsSmallPoint }
{
    for point in points {
        if point.hi <= most {
            return Some(*point);
        }
    }
    None
}

/// A lower bound of the cost to reach the limit, by the price of a state.
fn floor_of(point: &SweepPoint, limit: u128) -> u128
    requires small { IsSmallPoint point.now }
    requires limit { limit ≤ 2 ^ 78 }
    ensures { result ≡ floor_at limit point.now }
{
    let Some(price) = point.price else {
        return 0;
    };
    let own = u128::from(price.q) * point.lo + price.p * u128::from(point.cost);
    own.saturating_sub(u128::from(price.q) * limit)
        .div_ceil(price.p)
}

/// The largest such bound over all states.
fn largest_floor(points: &[SweepPoint], limit: u128) -> u128
    requires small { All IsSmallPoint points.now }
    requires limit { limit ≤ 2 ^ 78 }
    ensures { result ≡ least_cost limit points.now }
{
    let mut largest = 0;
    for point in points {
        largest = floor_of(point, limit).max(largest);
    }
    largest
}

/// A lower bound of the cost to reach the limit; None if no choice does.
fn least_of(points: &[SweepPoint], limit: u128) -> Option<u64>
    requires some { 0 < length points.now }
    requires small { All IsSmallPoint points.now }
    requires limit { limit ≤ 2 ^ 78 }
    requires room { (last_state points.now).lo ≤ limit → least_cost limit points.now < 2 ^ 64 }
    ensures { IsLeastCost points.now limit result }
{
    if points[points.len() - 1].lo > limit {
        return None;
    }
    Some(largest_floor(points, limit) as u64)
}

/// The report of a target, which has 4 decimals and is at most 10^9, from at most 2,000 curves.
///
/// If these are the curves of all families of a case, one for each line unit in order, it is the report of this case.
/// Want of memory is the only error.
pub fn target(alloc: Global, curves: &[Curve], target: Decimal) -> Result<TargetReport, NoMemory>
    requires few { length curves.now ≤ most_curves }
    requires places { target.places ≡ 4 }
    requires most { target.units ≤ 10000000000000 }
    ensures told { IfOk result (IsTargetOf curves.now target) }
    ensures case { (ends : ScoreEnds) (c : CaseRows) (held : List ℕ) → AreCurves (case_points ends c held) curves.now
        → IfOk result (IsCaseTarget ends c held target) }
    ensures small { IfOk result IsSmallTarget }
    ensures fits { IfOk result TargetFits }
{
    let swept = sweep(alloc, curves)?;
    let points = swept.points.as_slice();
    let units = u128::from(target.units) << 48;
    let reach = first_within(points, units / PER_ONE);
    let at_least = least_of(points, units.div_ceil(PER_ONE));
    Ok(TargetReport {
        target,
        reach,
        at_least,
    })
}
