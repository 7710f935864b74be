//! Whether lower bounds alone show that stocks at the depot add nothing to a curve so far. They cost a part of what
//! exact backorders do.

ghost use Rattle.std.specs.Prelude.{◌≡◌, ◌+◌, ◌≤◌, [], ◌∷◌, ◌++◌, IfOk, IsTrue, drop, length};
ghost use Rattle.hull.specs.declared.point.Point.{Point};
ghost use Rattle.hull.specs.Curves.{Among, InRange, StandFor};
ghost use Rattle.family_points.specs.Counts.{most_vertices};
ghost use Rattle.family_points.specs.Separation.{depot_point, depot_points};
ghost use Rattle.family_points.specs.Inputs.{IsAt, vertex_count};
ghost use Rattle.family_rows.specs.Sources.{AreSources};
ghost use Rattle.family_rows.specs.Tabled.{AreTables};
ghost use Rattle.family_bases.specs.Joining.{IsDepotPoint};
ghost use Rattle.family_curve.specs.Under.{LieBelow};
ghost use Rattle.sum_walk.specs.Sums.{sums_of_each};

use crate::low_curve::{LowSpot, low_chains_of, put_low_curve};
use answers::NoMemory;
use family_points::order::Base;
use family_rows::base_at::BaseAt;
use family_rows::depot::DepotTables;
use family_rows::sources::Sources;
use hull::{Chain, Point, Score};
use spares_input::SiteId;
use std::alloc::Global;
use sum_walk::walk::{Walking, walk};

/// Scratch lists for lower bounds; contents are not kept between calls.
#[derive(Drop)]
pub(crate) struct Lows {
    /// The lower bounds of the bases, the first base first.
    pub(crate) chains: Vec<Chain<LowSpot>>,
    /// The lower bounds of the backorders at a base.
    rows: Vec<Vec<u64>>,
    /// The lists of a walk over the lower bounds.
    walking: Walking,
    /// Whether the next stocks likely add nothing.
    pub(crate) is_high: bool,
    /// Whether the line unit's first stock added nothing with the last stocks of the shop units.
    begins_high: bool,
    /// How often the bounds have failed, less how often they have sufficed.
    failures: u32,
    /// The number of stocks so far, those at which bounds sufficed as several.
    seen: u32,
    /// The line unit's stocks at which bounds failed and that have added something each time since, each as a bit; and
    /// the stock 0 until it adds nothing.
    failed_at: u64,
}

/// With more failures than this, and one for each 64 stocks so far, bounds aren't tried.
const MOST_FAILURES: u32 = 1;

/// The number of stocks for which one more failure is allowed.
const FOR_A_FAILURE: u32 = 64;

/// Stocks at which bounds suffice count as so many more.
const FOR_A_SUCCESS: u32 = 8;

/// The bit of the line unit's stock 0: without line units the depot is so cheap that its points mostly add something.
const WITHOUT_LINE_UNITS: u64 = 1;

/// The scratch lists for these bases.
pub(crate) fn lows_of(alloc: Global, bases: &[Base]) -> Result<Lows, NoMemory>
    ensures { IfOk result (λ lows. length lows.chains.items ≡ length bases.now) }
{
    let chains = low_chains_of(alloc, bases)?;
    Ok(Lows {
        chains,
        rows: Vec::new(alloc),
        walking: Walking::new(alloc),
        is_high: false,
        begins_high: false,
        failures: 0,
        seen: 0,
        failed_at: WITHOUT_LINE_UNITS,
    })
}

impl Lows {
    /// Expects of the line unit's first stock with other stocks of the shop units what came of the first one before.
    pub(crate) fn begin(&mut self)
        ensures { self.new.chains.items ≡ self.old.chains.items }
    {
        self.is_high = self.begins_high;
    }

    /// Keeps whether the exact points of these stocks added nothing. If so, bounds may be tried again at this stock of
    /// the line unit.
    pub(crate) fn has_tried(&mut self, first: &Point, is_empty: bool)
        ensures { self.new.chains.items ≡ self.old.chains.items }
    {
        self.is_high = is_empty;
        if is_empty {
            self.failed_at &= !line_bit(first);
        }
    }

    /// Keeps what came of the line unit's first stock with these stocks of the shop units.
    pub(crate) fn has_begun(&mut self)
        ensures { self.new.chains.items ≡ self.old.chains.items }
    {
        self.begins_high = self.is_high;
    }
}

/// The bit of the line unit's stock; 0 if there is none.
fn line_bit(first: &Point) -> u64 {
    match first.stocks.as_slice().first() {
        Some(line) => 1u64.wrapping_shl(u32::from(*line)),
        None => 0,
    }
}

/// Sets the chains of `lows` to lower bounds of all bases with these stocks at the depot. Returns whether their sums
/// are known to lie strictly below the family's points.
fn put_low_curves<S: Score>(
    lows: &mut Lows,
    sources: &Sources<'_>,
    score: &S,
    tables: &DepotTables<'_>,
    depot: &[u8],
) -> Result<bool, NoMemory>
    requires sources { AreSources sources.now }
    requires depot { IsAt sources.now.family.now 0 depot.now }
    requires tables { AreTables sources.now.family.now (drop 1 depot.now) tables.now }
    requires room { vertex_count sources.now.family.now ≤ most_vertices }
    requires chains { length lows.old.chains.items ≡ length sources.now.bases.items }
    ensures below { IfOk result (λ strict. IsTrue strict → let x = sources.now.family.now in LieBelow
        (sums_of_each (depot_point x depot.now ∷ []) lows.new.chains.items) (depot_points S.ends x depot.now)) }
    ensures chains { IfOk result (λ _. length lows.new.chains.items ≡ length sources.now.bases.items) }
{
    sources.family.invariant();
    let mut strict = false;
    for j in 1..sources.family.sites() {
        let place = usize::from(j) - 1;
        let base = &sources.bases[place];
        let here = BaseAt::of(sources.family, depot, SiteId(j), base);
        let strict_here = put_low_curve(
            &mut lows.chains[place],
            &mut lows.rows,
            &here,
            score,
            &sources.numbers,
            tables,
        )?;
        strict = strict || strict_here;
    }
    Ok(strict)
}

/// Whether lower bounds show that no vector with these stocks at the depot is a vertex beside the points of `below`. If
/// not, some may still be none. Want of memory is the only error.
fn lie_above<S: Score>(
    alloc: Global,
    lows: &mut Lows,
    sources: &Sources<'_>,
    score: &S,
    tables: &DepotTables<'_>,
    first: &Point,
    below: &[Point],
) -> Result<bool, NoMemory>
    requires sources { AreSources sources.now }
    requires first { IsDepotPoint sources.now.family.now first.now }
    requires tables { AreTables sources.now.family.now (drop 1 first.now.stocks) tables.now }
    requires room { length below.now + vertex_count sources.now.family.now ≤ most_vertices }
    requires ranges { (v : Point) → Among v below.now → InRange v }
    requires chains { length lows.old.chains.items ≡ length sources.now.bases.items }
    ensures passed { IfOk result (λ passed. IsTrue passed → StandFor
        (below.now ++ depot_points S.ends sources.now.family.now first.now.stocks) below.now) }
    ensures chains { IfOk result (λ _. length lows.new.chains.items ≡ length sources.now.bases.items) }
{
    sources.family.invariant();
    let depot = first.stocks.as_slice();
    let strict = put_low_curves(lows, sources, score, tables, depot)?;
    if !strict {
        return Ok(false);
    }
    let chains = lows.chains.as_slice();
    let handed = walk(alloc, &mut lows.walking, first, chains, below)?;
    Ok(handed.is_empty())
}

/// The same where the bounds are likely worth their work: if the stocks before added nothing, bounds haven't failed at
/// this stock of the line unit since it last added nothing, and they have mostly sufficed. Otherwise false.
pub(crate) fn are_passed<S: Score>(
    alloc: Global,
    lows: &mut Lows,
    sources: &Sources<'_>,
    score: &S,
    tables: &DepotTables<'_>,
    first: &Point,
    below: &[Point],
) -> Result<bool, NoMemory>
    requires sources { AreSources sources.now }
    requires first { IsDepotPoint sources.now.family.now first.now }
    requires tables { AreTables sources.now.family.now (drop 1 first.now.stocks) tables.now }
    requires room { length below.now + vertex_count sources.now.family.now ≤ most_vertices }
    requires ranges { (v : Point) → Among v below.now → InRange v }
    requires chains { length lows.old.chains.items ≡ length sources.now.bases.items }
    ensures passed { IfOk result (λ passed. IsTrue passed → StandFor
        (below.now ++ depot_points S.ends sources.now.family.now first.now.stocks) below.now) }
    ensures chains { IfOk result (λ _. length lows.new.chains.items ≡ length sources.now.bases.items) }
{
    let bit = line_bit(first);
    lows.seen = lows.seen.saturating_add(1);
    if !lows.is_high || lows.failed_at & bit != 0 {
        return Ok(false);
    }
    if lows.failures > MOST_FAILURES + lows.seen / FOR_A_FAILURE {
        return Ok(false);
    }
    let passed = lie_above(alloc, lows, sources, score, tables, first, below)?;
    if passed {
        lows.failures = lows.failures.saturating_sub(1);
        lows.seen = lows.seen.saturating_add(FOR_A_SUCCESS);
    } else {
        lows.failures = lows.failures.saturating_add(1);
        lows.failed_at |= bit;
    }
    Ok(passed)
}
