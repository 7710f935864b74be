//! The line unit's stock at the depot that comes first, for which lower bounds are low. No promise rests on which it
//! is: the nearer it is to a vertex, the more of the other stocks are passed over.

ghost use Rattle.std.specs.Prelude.{◌≡◌, ◌<◌, ◌≤◌, drop, length};
ghost use Rattle.curve_parts.specs.Cuts.{IsSmall};
ghost use Rattle.family_points.specs.Inputs.{AreShopsAt, line_high, line_low};
ghost use Rattle.family_rows.specs.Sources.{AreSources};
ghost use Rattle.family_rows.specs.Tabled.{AreTables};
ghost use Rattle.depot_lows.specs.Rough.{AreRough};

use crate::near::lower_at_depot;
use crate::rough::RoughLows;
use answers::NoMemory;
use family_bases::lows::Lows;
use family_rows::depot::DepotTables;
use family_rows::sources::Sources;
use hull::{Price, Score};
use spares_input::SiteId;
use std::alloc::Global;

/// The sum of the lower bounds at two prices of the vectors with the line unit's stock `line` and the shop units'
/// stocks of `stocks` at the depot. The first of `stocks` is overwritten.
fn bounds_at<S: Score>(
    sources: &Sources<'_>,
    score: &S,
    tables: &DepotTables<'_>,
    rough: &RoughLows,
    stocks: &mut [u8],
    line: u8,
    low: Price,
    high: Price,
) -> u128
    requires sources { AreSources sources.now }
    requires some { 0 < length stocks.old }
    requires shops { AreShopsAt sources.now.family.now 0 (drop 1 stocks.old) }
    requires tables { AreTables sources.now.family.now (drop 1 stocks.old) tables.now }
    requires rough { AreRough S.ends sources.now.family.now (drop 1 stocks.old) low high rough.now }
    requires least { line_low sources.now.family.now 0 ≤ line }
    requires most { line ≤ line_high sources.now.family.now 0 }
    requires low { IsSmall low }
    requires high { IsSmall high }
    ensures some { 0 < length stocks.new }
    ensures shops { drop 1 stocks.new ≡ drop 1 stocks.old }
{
    sources.family.invariant();
    stocks[0] = line;
    let any = Lows {
        at_low: 1 << 119,
        at_high: 1 << 119,
    };
    let lows = lower_at_depot(any, sources, score, tables, rough, stocks, low, high);
    lows.at_low.saturating_add(lows.at_high)
}

/// The stock beside `line` between `first` and `last`, one up or one down; `line` itself at their end.
fn beside(line: u8, first: u8, last: u8, is_up: bool) -> u8
    requires least { first ≤ line }
    requires most { line ≤ last }
    ensures least { first ≤ result }
    ensures most { result ≤ last }
{
    if is_up {
        if line < last { line + 1 } else { line }
    } else if first < line {
        line - 1
    } else {
        line
    }
}

/// The line unit's stock that is reached from `from` by steps of one, up or down, while the bounds fall.
fn reached<S: Score>(
    sources: &Sources<'_>,
    score: &S,
    tables: &DepotTables<'_>,
    rough: &RoughLows,
    stocks: &mut [u8],
    from: u8,
    is_up: bool,
    low: Price,
    high: Price,
) -> u8
    requires sources { AreSources sources.now }
    requires some { 0 < length stocks.old }
    requires shops { AreShopsAt sources.now.family.now 0 (drop 1 stocks.old) }
    requires tables { AreTables sources.now.family.now (drop 1 stocks.old) tables.now }
    requires rough { AreRough S.ends sources.now.family.now (drop 1 stocks.old) low high rough.now }
    requires least { line_low sources.now.family.now 0 ≤ from }
    requires most { from ≤ line_high sources.now.family.now 0 }
    requires low { IsSmall low }
    requires high { IsSmall high }
    ensures some { 0 < length stocks.new }
    ensures shops { drop 1 stocks.new ≡ drop 1 stocks.old }
{
    sources.family.invariant();
    let first = sources.family.line_low(SiteId(0));
    let last = sources.family.line_high(SiteId(0));
    let mut line = from;
    let mut least = bounds_at(sources, score, tables, rough, stocks, from, low, high);
    for _step in first..last {
        let next = beside(line, first, last, is_up);
        let bounds = bounds_at(sources, score, tables, rough, stocks, next, low, high);
        if least <= bounds {
            return line;
        }
        line = next;
        least = bounds;
    }
    line
}

/// The line unit's stock at the depot that is reached from a third of the way up, if the shop units there have the
/// stocks of `depot`. Want of memory is the only error.
pub fn likely_line<S: Score>(
    alloc: Global,
    sources: &Sources<'_>,
    score: &S,
    tables: &DepotTables<'_>,
    rough: &RoughLows,
    depot: &[u8],
    low: Price,
    high: Price,
) -> Result<u8, NoMemory>
    requires sources { AreSources sources.now }
    requires some { 0 < length depot.now }
    requires shops { AreShopsAt sources.now.family.now 0 (drop 1 depot.now) }
    requires tables { AreTables sources.now.family.now (drop 1 depot.now) tables.now }
    requires rough { AreRough S.ends sources.now.family.now (drop 1 depot.now) low high rough.now }
    requires low { IsSmall low }
    requires high { IsSmall high }
{
    sources.family.invariant();
    let first = sources.family.line_low(SiteId(0));
    let last = sources.family.line_high(SiteId(0));
    let third = first + (last - first) / 3;
    let mut copy = depot.to_vec(alloc)?;
    let stocks = copy.as_mut_slice();
    let up = reached(
        sources, score, tables, rough, stocks, third, true, low, high,
    );
    if third < up {
        return Ok(up);
    }
    Ok(reached(
        sources, score, tables, rough, stocks, third, false, low, high,
    ))
}
