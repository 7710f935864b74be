//! Rough lower bounds on the Lagrangians of bases, for all stocks of the line unit at the depot at once. Without stock
//! at a base all of the line unit's pipeline there is backordered, and any stock costs at least one unit: so they need
//! no table.

ghost use Rattle.std.specs.Prelude.{◌≡◌, ◌-◌, ◌*◌, ◌^◌, ◌<◌, ◌≤◌, IfOk, drop};
ghost use Rattle.fleet_model.specs.Laws.{IsBase};
ghost use Rattle.hull.specs.Limits.{most_floor};
ghost use Rattle.family_points.specs.Inputs.{IsAt};
ghost use Rattle.family_points.specs.Choices.{IsShopVector};
ghost use Rattle.family_rows.specs.Sources.{AreSources};
ghost use Rattle.family_rows.specs.Spots.{IsBaseAt};
ghost use Rattle.family_rows.specs.Tabled.{AreTables};
ghost use Rattle.family_bases.specs.Lows.{AreNoHigher, IsSmallPrice};
ghost use Rattle.depot_lows.specs.Rough.{AreFewest, AreFewestWithout, AreRough, AreUnderBase, AreUnderLines};

use answers::NoMemory;
use family_bases::bases::base_of;
use family_bases::lows::{Lows, lagrangian};
use family_points::family::Family;
use family_points::order::ShopVector;
use family_rows::base_at::BaseAt;
use family_rows::depot::{DepotTables, shops_at};
use family_rows::sources::Sources;
use hull::{MOST_FLOOR, Price, Score};
use spares_input::SiteId;
use std::alloc::Global;

/// One unit, of 2^-48.
const UNIT: u128 = 1 << 48;

/// No pipeline has more units.
const MOST_UNITS: u128 = 256 * UNIT;

/// Rough lower bounds on the Lagrangians of each base at two prices, for given stocks of the shop units at the depot
/// and all of the line unit. One vector of these stocks after the other has its bounds here, so that the list is made
/// once.
#[derive(Drop)]
pub struct RoughLows {
    /// By base, the first base first.
    pub bases: Vec<Lows>,
    /// The sum over all bases.
    pub sum: Lows,
}

/// The least of the line unit's backorders at the depot by its stock there.
fn fewest_at_depot(family: &Family<'_>, tables: &DepotTables<'_>) -> u128
    ensures fewest { AreFewest family.now tables.now.line result }
    ensures most { result ≤ 256 * 2 ^ 48 }
{
    family.invariant();
    let first = family.line_low(SiteId(0));
    let last = family.line_high(SiteId(0));
    let mut fewest = MOST_UNITS;
    for s in first..last + 1 {
        fewest = fewest.min(tables.line.ebo(s).lo());
    }
    fewest
}

/// The line unit's backorders, or fewer, at its least stock at a base, `first`: `fewest` if that is none.
#[inline(always)]
fn fewest_at(first: u8, fewest: u64) -> u64
    ensures none { first ≡ 0 → result ≡ fewest }
    ensures some { 0 < first → result ≡ 0 }
{
    if first == 0 { fewest } else { 0 }
}

/// The lower of `least` and of rough lower bounds on the Lagrangians of a base whose shop units have these stocks.
/// Without stock there, the line unit has `fewest` backorders or more.
fn lower_at_shops<S: Score>(
    least: Lows,
    here: &BaseAt<'_, '_>,
    score: &S,
    shops: &ShopVector,
    fewest: u64,
    low: Price,
    high: Price,
) -> Lows
    requires here { IsBaseAt here.now }
    requires shops { IsShopVector here.now.family.now here.now.site.0 shops.now }
    requires fewest { AreFewestWithout here.now.family.now (drop 1 here.now.depot.now) here.now.site.0
        shops.now.stocks fewest }
    requires low { IsSmallPrice low }
    requires high { IsSmallPrice high }
    ensures lower { AreNoHigher result least }
    ensures under { AreUnderLines S.ends here.now.family.now (drop 1 here.now.depot.now) here.now.site.0 low high
        shops.now.stocks result }
{
    if least.is_reached(low, high, shops.cost) {
        return least;
    }
    let family = here.family;
    family.invariant();
    let first = family.line_low(here.site);
    let scored = here.low(score, fewest_at(first, fewest));
    let found = least.lower(Lows {
        at_low: lagrangian(low, shops.cost, scored),
        at_high: lagrangian(high, shops.cost, scored),
    });
    if family.line_high(here.site) <= first {
        return found;
    }
    let cost = shops.cost + family.line_cost();
    found.lower(Lows {
        at_low: lagrangian(low, cost, 0),
        at_high: lagrangian(high, cost, 0),
    })
}

/// Rough lower bounds on the Lagrangians of the base at site `j`. The line unit has `fewest` backorders or more at the
/// depot.
fn rough_at_base<S: Score>(
    sources: &Sources<'_>,
    score: &S,
    tables: &DepotTables<'_>,
    depot: &[u8],
    j: u8,
    fewest: u128,
    low: Price,
    high: Price,
) -> Lows
    requires sources { AreSources sources.now }
    requires depot { IsAt sources.now.family.now 0 depot.now }
    requires tables { AreTables sources.now.family.now (drop 1 depot.now) tables.now }
    requires base { IsBase sources.now.family.now.case j }
    requires fewest { AreFewest sources.now.family.now tables.now.line fewest }
    requires few { fewest ≤ 256 * 2 ^ 48 }
    requires low { IsSmallPrice low }
    requires high { IsSmallPrice high }
    ensures under { AreUnderBase S.ends sources.now.family.now (drop 1 depot.now) j low high result }
    ensures most { (result.at_low ≤ most_floor) × (result.at_high ≤ most_floor) }
{
    let here = base_of(sources, depot, j);
    sources.numbers.invariant();
    let pair = sources.numbers.pair(0, j);
    let own = pair.direct.lo() + pair.share.lo() * fewest / UNIT;
    let parts = shops_at(tables, &here);
    let mut least = Lows {
        at_low: MOST_FLOOR,
        at_high: MOST_FLOOR,
    };
    for n in 0..here.base.shops.len() {
        let shops = &here.base.shops[n];
        let mean = (own + parts[n].mean.lo()).min(pair.cap) as u64;
        least = lower_at_shops(least, &here, score, shops, mean, low, high);
    }
    least
}

impl RoughLows {
    /// No bounds.
    pub fn new(alloc: Global) -> RoughLows {
        RoughLows {
            bases: Vec::new(alloc),
            sum: Lows {
                at_low: 0,
                at_high: 0,
            },
        }
    }

    /// Sets these to the bounds for the shop units' stocks of `depot`, whose tables are given. Want of memory is the
    /// only error; some bounds may then be others.
    pub fn put<S: Score>(
        &mut self,
        sources: &Sources<'_>,
        score: &S,
        tables: &DepotTables<'_>,
        depot: &[u8],
        low: Price,
        high: Price,
    ) -> Result<(), NoMemory>
        requires sources { AreSources sources.now }
        requires depot { IsAt sources.now.family.now 0 depot.now }
        requires tables { AreTables sources.now.family.now (drop 1 depot.now) tables.now }
        requires low { IsSmallPrice low }
        requires high { IsSmallPrice high }
        ensures { IfOk result
            (λ _. AreRough S.ends sources.now.family.now (drop 1 depot.now) low high self.new) }
    {
        let fewest = fewest_at_depot(sources.family, tables);
        self.bases.clear();
        self.bases.reserve(usize::from(sources.family.sites()))?;
        self.sum = Lows {
            at_low: 0,
            at_high: 0,
        };
        for j in 1..sources.family.sites() {
            let lows = rough_at_base(sources, score, tables, depot, j, fewest, low, high);
            self.bases.push(lows)?;
            self.sum.at_low += lows.at_low;
            self.sum.at_high += lows.at_high;
        }
        Ok(())
    }
}
