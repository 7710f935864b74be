//! Parts of families' curves, beside the whole curves cut at the same prices: at a step's price alone, between prices
//! about it, and past the ends.
ghost use Rattle.std.specs.Prelude.{◌<◌, ◌≤◌, ◌^◌};
ghost use Rattle.demand_rates.specs.Rates.{AreRatesOf};
ghost use Rattle.family_items.specs.Inputs.{IsLine};
ghost use Rattle.hull.specs.Limits.{most_price_units, most_price_money};
ghost use Rattle.family_points.specs.Counts.{most_tables, tables_of};
ghost use Rattle.curve_parts.specs.Cuts.{IsSmall, IsWindow};

use answers::NoMemory;
use curve_parts::cut;
use demand_rates::kinds::Rates;
use family_curve::curve;
use family_parts::part_within;
use family_points::{Bounds, tables};
use hull::{Curve, Plain, Price};
use spares_input::{Case, PartId, nothing_held};
use std::alloc::Global;
use std::test::*;
use test_inputs::{family_of, rates_of};

/// A line unit with a shop unit, 64 vectors.
const ONE: [&str; 3] = [
    "site,kind,systems,ship_days\nD,depot,,\na,base,10,5\nb,base,10,5\n",
    "part,parent,cost,per_system,max_depot,max_base,weight\nL,,1,1,1,1,7\nS,L,1,,1,1,\n",
    "part,site,demand,repair_here,share,repair_days\nL,D,,,,10\nL,a,36.5,0.5,,5\nL,b,18.25,0.5,,5\nS,D,,,0.4,20\nS,a,,0.25,0.4,5\nS,b,,0.25,0.4,5\n",
];

/// A line unit with two shop units, 1,152 vectors.
const TWO: [&str; 3] = [
    "site,kind,systems,ship_days\nD,depot,,\na,base,10,5\nb,base,10,5\n",
    "part,parent,cost,per_system,max_depot,max_base,weight\nL,,10,1,1,2,7\nS,L,3,,1,1,\nR,L,2,,1,1,\n",
    "part,site,demand,repair_here,share,repair_days\nL,D,,,,10\nL,a,36.5,0.5,,5\nL,b,18.25,0.5,,5\nS,D,,,0.4,20\nS,a,,0.25,0.4,5\nS,b,,0.25,0.4,5\nR,D,,,0.4,20\nR,a,,0.25,0.4,5\nR,b,,0.25,0.4,5\n",
];

/// The part of the curve of a case's first family between two prices, and how high all vertices behind it lie.
fn part(
    alloc: Global,
    case: &Case,
    rates: &Rates,
    low: Price,
    high: Price,
) -> Result<(Curve, u128), NoMemory>
    requires rates { AreRatesOf case.now rates.now }
    requires line { IsLine case.now 0 }
    requires few { tables_of case.now 0 ≤ most_tables }
    requires low { IsSmall low }
    requires high { IsSmall high }
    requires window { IsWindow low high }
{
    case.invariant();
    let line = PartId(0);
    let held = nothing_held(alloc, case)?;
    let bounds = Bounds::from_held(alloc, case, line, &held)?;
    part_within(alloc, case, rates, line, &bounds, low, high, &Plain)
}

/// Whether the part of the first family from `low` to `high` for this money is the whole curve cut there, and no vertex
/// behind it lies lower than the part says.
fn is_cut(
    alloc: Global,
    case: &Case,
    rates: &Rates,
    low: u128,
    high: u128,
    money: u64,
) -> Result<bool, NoMemory>
    requires rates { AreRatesOf case.now rates.now }
    requires line { IsLine case.now 0 }
    requires few { tables_of case.now 0 ≤ most_tables }
    requires order { low ≤ high }
    requires some { 0 < high }
    requires most { high ≤ most_price_units }
    requires some_money { 0 < money }
    requires most_money { money ≤ most_price_money }
{
    let (low, high) = (Price { p: low, q: money }, Price { p: high, q: money });
    let (part, beyond) = part(alloc, case, rates, low, high)?;
    let mut whole = curve(alloc, case, rates, PartId(0), &Plain)?;
    let behind = cut(&mut whole, low, high);
    Ok(part.vertices() == whole.vertices() && beyond <= behind)
}

/// Whether the part is the curve cut at windows about a step's price: the price alone, a little above and below it,
/// each side of it, and far from it.
fn agrees(alloc: Global, case: &Case, rates: &Rates, step: Price) -> Result<bool, NoMemory>
    requires rates { AreRatesOf case.now rates.now }
    requires line { IsLine case.now 0 }
    requires few { tables_of case.now 0 ≤ most_tables }
    requires fall { step.p < 2 ^ 70 }
    requires some_fall { 0 < step.p }
    requires some_rise { 0 < step.q }
    requires rise { step.q ≤ most_price_money }
{
    let (p, q) = (step.p, step.q);
    let at = is_cut(alloc, case, rates, p, p, q)?;
    let around = is_cut(alloc, case, rates, p - 1, p + 1, q)?;
    let above = is_cut(alloc, case, rates, p + 1, p + 1, q)?;
    let from = is_cut(alloc, case, rates, p, 2 * p, q)?;
    let to = is_cut(alloc, case, rates, p / 3, p, q)?;
    let far_above = is_cut(alloc, case, rates, 7 * p, 9 * p, q)?;
    let far_below = is_cut(alloc, case, rates, p / 10, p / 9 + 1, q)?;
    Ok(at && around && above && from && to && far_above && far_below)
}

/// How many steps the curve of a case's first family has, if its parts about each are the curve cut there.
fn agreeing(alloc: Global, files: [&str; 3]) -> Option<u32> {
    let case = family_of(alloc, files)?;
    if tables(&case, PartId(0)) > 1_000_000 {
        return None;
    }
    let rates = rates_of(alloc, &case)?;
    let whole = curve(alloc, &case, &rates, PartId(0), &Plain).ok()?;
    let steps = whole.len() - 1;
    for k in 0..steps {
        let step = whole.slope(k);
        if step.p >= 1 << 70 || !agrees(alloc, &case, &rates, step).ok()? {
            return None;
        }
    }
    Some(steps)
}

#[test]
fn parts_are_curves_cut(rt: HostRuntime) {
    let alloc = rt.alloc();
    let rows = [(ONE, 6), (TWO, 16)];
    for (files, steps) in rows {
        assert!(&rt; agreeing(alloc, files) == Some(steps), "{steps} steps");
    }
}
