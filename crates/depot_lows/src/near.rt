//! About what a family costs at a price, by lower bounds on backorders. It serves to guess a price; no clause says how
//! near it is.

ghost use Rattle.std.specs.Prelude.{◌^◌, ◌<◌, ◌≤◌, IfOk, drop, length};
ghost use Rattle.hull.specs.Limits.{most_cost};
ghost use Rattle.curve_parts.specs.Cuts.{IsSmall};
ghost use Rattle.family_points.specs.Inputs.{AreShopsAt, IsAt, shop_vectors};
ghost use Rattle.family_rows.specs.Sources.{AreSources};
ghost use Rattle.family_rows.specs.Tabled.{AreTables};
ghost use Rattle.depot_lows.specs.Rough.{AreRough};

use crate::rough::RoughLows;
use answers::NoMemory;
use family_bases::lows::{Lows, lows_at_base};
use family_bases::stocks::stocks_at;
use family_points::family::shops_of;
use family_rows::depot::{DepotTables, ShopParts, depot_tables};
use family_rows::sources::Sources;
use hull::{MOST_COST, Price, Score};
use spares_input::SiteId;
use std::alloc::Global;

/// The lower, at each of two prices, of `least` and of the bounds of the vectors with these stocks at the depot. Base
/// by base a nearer bound takes the place of the rough one, as long as the sums are below `least` at one of the prices.
pub(crate) fn lower_at_depot<S: Score>(
    least: Lows,
    sources: &Sources<'_>,
    score: &S,
    tables: &DepotTables<'_>,
    rough: &RoughLows,
    depot: &[u8],
    low: Price,
    high: Price,
) -> Lows
    requires sources { AreSources sources.now }
    requires depot { IsAt sources.now.family.now 0 depot.now }
    requires tables { AreTables sources.now.family.now (drop 1 depot.now) tables.now }
    requires rough { AreRough S.ends sources.now.family.now (drop 1 depot.now) low high rough.now }
    requires low { IsSmall low }
    requires high { IsSmall high }
{
    sources.family.invariant();
    let cost = u128::from(sources.family.cost(SiteId(0), depot));
    let mut sums = Lows {
        at_low: low.p * cost + rough.sum.at_low,
        at_high: high.p * cost + rough.sum.at_high,
    };
    for j in 1..sources.family.sites() {
        if least.at_low <= sums.at_low && least.at_high <= sums.at_high {
            return least;
        }
        let near = lows_at_base(sources, score, tables, depot, j, low, high);
        let known = rough.bases[usize::from(j) - 1];
        sums.at_low += near.at_low.saturating_sub(known.at_low);
        sums.at_high += near.at_high.saturating_sub(known.at_high);
    }
    Lows {
        at_low: least.at_low.min(sums.at_low),
        at_high: least.at_high.min(sums.at_high),
    }
}

/// The lower of `least` and of the bounds of all vectors with the shop units' stocks of `stocks` at the depot. The line
/// unit's stock, the first of `stocks`, is overwritten.
fn lower_at_lines<S: Score>(
    mut least: Lows,
    sources: &Sources<'_>,
    score: &S,
    tables: &DepotTables<'_>,
    rough: &RoughLows,
    stocks: &mut [u8],
    low: Price,
    high: Price,
) -> Lows
    requires sources { AreSources sources.now }
    requires some { 0 < length stocks.old }
    requires shops { AreShopsAt sources.now.family.now 0 (drop 1 stocks.old) }
    requires tables { AreTables sources.now.family.now (drop 1 stocks.old) tables.now }
    requires rough { AreRough S.ends sources.now.family.now (drop 1 stocks.old) low high rough.now }
    requires low { IsSmall low }
    requires high { IsSmall high }
{
    sources.family.invariant();
    let first = sources.family.line_low(SiteId(0));
    let last = sources.family.line_high(SiteId(0));
    for s in first..last + 1 {
        stocks[0] = s;
        least = lower_at_depot(least, sources, score, tables, rough, stocks, low, high);
    }
    least
}

/// The lower of `least` and of the bounds of all vectors with the `number`-th vector of the shop units' stocks at the
/// depot.
fn lower_at_shops<S: Score>(
    alloc: Global,
    least: Lows,
    parts: &mut ShopParts,
    rough: &mut RoughLows,
    sources: &Sources<'_>,
    score: &S,
    number: u64,
    low: Price,
    high: Price,
) -> Result<Lows, NoMemory>
    requires sources { AreSources sources.now }
    requires number { number < length (shop_vectors sources.now.family.now 0) }
    requires low { IsSmall low }
    requires high { IsSmall high }
{
    let mut stocks = stocks_at(alloc, sources.family, number)?;
    let shops = shops_of(stocks.as_slice());
    parts.put(sources, shops)?;
    let tables = depot_tables(alloc, sources, shops, parts)?;
    rough.put(sources, score, &tables, stocks.as_slice(), low, high)?;
    let at_depot = stocks.as_mut_slice();
    Ok(lower_at_lines(least, sources, score, &tables, rough, at_depot, low, high))
}

/// The least bounds of all vectors of the family, at each of two prices.
fn lowest<S: Score>(
    alloc: Global,
    sources: &Sources<'_>,
    score: &S,
    low: Price,
    high: Price,
) -> Result<Lows, NoMemory>
    requires sources { AreSources sources.now }
    requires low { IsSmall low }
    requires high { IsSmall high }
{
    sources.family.invariant();
    let mut least = Lows {
        at_low: 1 << 119,
        at_high: 1 << 119,
    };
    let mut parts = ShopParts::new(alloc);
    let mut rough = RoughLows::new(alloc);
    for n in 0..sources.family.shop_count(SiteId(0)) {
        least = lower_at_shops(
            alloc, least, &mut parts, &mut rough, sources, score, n, low, high,
        )?;
    }
    Ok(least)
}

/// About what the vectors of a family cost that are best at the price, in whole money: by how much the least lower
/// bound rises from the price to a slightly higher one. The price is in units of 2^-48 for whole money. Want of memory
/// is the only error.
pub fn cost_near<S: Score>(
    alloc: Global,
    sources: &Sources<'_>,
    score: &S,
    price: u128,
) -> Result<u128, NoMemory>
    requires sources { AreSources sources.now }
    requires price { price < 2 ^ 73 }
    ensures { IfOk result (λ cost. cost ≤ most_cost) }
{
    let low = Price { p: price, q: 1 };
    let high = Price {
        p: price + price / 64 + 1,
        q: 1,
    };
    let least = lowest(alloc, sources, score, low, high)?;
    let cost = least.at_high.saturating_sub(least.at_low) / (high.p - low.p);
    Ok(cost.min(MOST_COST))
}
