//! Lower bounds on Lagrangians, of a base and of the depot's stocks, from lower bounds on backorders. They cost less
//! work than exact backorders.

ghost use Rattle.std.specs.Prelude.{◌≡◌, ℕ, List, ◌+◌, ◌-◌, ◌*◌, ◌<◌, ◌≤◌, ◌∷◌, IfOk, IsTrue, drop};
ghost use Rattle.fleet_model.specs.Fleet.{family};
ghost use Rattle.fleet_model.specs.Laws.{IsBase};
ghost use Rattle.hull.specs.Curves.{lagrangian};
ghost use Rattle.hull.specs.Limits.{most_cost, end_limit, most_price_units, most_price_money, most_floor};
ghost use Rattle.family_numbers.specs.Numbers.{shop_part};
ghost use Rattle.family_points.specs.Inputs.{AreShopsAt, IsAt, held_at, line_high, line_low};
ghost use Rattle.family_rows.specs.Sources.{AreSources};
ghost use Rattle.family_points.specs.Least.{AreAtLeast};
ghost use Rattle.family_points.specs.Points.{cost_above};
ghost use Rattle.family_points.specs.Separation.{base_points, depot_points};
ghost use Rattle.family_points.specs.Choices.{IsShopVector};
ghost use Rattle.family_rows.specs.Spots.{IsBaseAt};
ghost use Rattle.family_rows.specs.Tabled.{AreTables, box_numbers, own_at, parts_at};
ghost use Rattle.family_bases.specs.Lows.{AreLowsOf, AreNoHigher, AreUnder, IsReached, IsSmallPrice, line_place, lower_of};

use crate::bases::base_of;
use answers::NoMemory;
use backorder_bounds::Walk;
use depot_pipeline::Moments;
use family_numbers::Numbers;
use family_numbers::own_part::{OwnPart, line_walk};
use family_points::family::shops_of;
use family_points::order::ShopVector;
use family_rows::base_at::BaseAt;
use family_rows::depot::{DepotTables, own_at, shops_at};
use family_rows::sources::Sources;
use hull::{MOST_FLOOR, Price, Score};
use spares_input::SiteId;

/// Lower bounds on Lagrangians at two prices.
#[derive(Clone, Copy, Drop)]
pub struct Lows {
    /// At the low price.
    pub at_low: u128,
    /// At the high price.
    pub at_high: u128,
}

impl Lows {
    /// The lower one at each price.
    #[inline(always)]
    pub fn lower(self, other: Lows) -> Lows
        ensures { result ≡ lower_of self other }
    {
        Lows {
            at_low: self.at_low.min(other.at_low),
            at_high: self.at_high.min(other.at_high),
        }
    }

    /// Whether a cost alone comes to no less at both prices.
    #[inline(always)]
    pub fn is_reached(self, low: Price, high: Price, cost: u64) -> bool
        requires low { IsSmallPrice low }
        requires high { IsSmallPrice high }
        requires cost { cost ≤ most_cost }
        ensures { IsTrue result → IsReached self low high cost }
    {
        self.at_low <= low.p * u128::from(cost) && self.at_high <= high.p * u128::from(cost)
    }
}

/// The Lagrangian of a cost and a score at a price.
#[inline(always)]
pub fn lagrangian(price: Price, cost: u64, scored: u128) -> u128
    requires price { IsSmallPrice price }
    requires cost { cost ≤ most_cost }
    requires scored { scored ≤ end_limit }
    ensures { result ≡ price.q * scored + price.p * cost }
{
    u128::from(price.q) * scored + price.p * u128::from(cost)
}

/// A walk with lower bounds on the line unit's backorders at a base, at the stock 0.
#[inline(always)]
pub fn walk_at(
    here: &BaseAt<'_, '_>,
    numbers: &Numbers<48>,
    own: &OwnPart<48>,
    part: &Moments<48>,
    shops: &[u8],
) -> Walk<48>
    requires here { IsBaseAt here.now }
    requires numbers { numbers.now ≡ box_numbers here.now.family.now }
    requires own { own.now ≡ own_at numbers.now here.now.depot.now here.now.site.0 }
    requires part { part.now ≡ shop_part 48 numbers.now here.now.site.0 (drop 1 here.now.depot.now) shops.now }
    requires shops { AreShopsAt here.now.family.now here.now.site.0 shops.now }
    ensures { result ≡ line_place here.now.family.now here.now.depot.now here.now.site.0 shops.now 0 }
{
    let (site, depot) = (here.site, here.depot);
    line_walk(numbers, own, depot[0], shops_of(depot), site, part, shops)
}

/// Takes a walk from the stock 0 to the line unit's least stock at its base. The walk stays in its place, because it
/// costs as much to copy as a bound.
#[inline(always)]
pub fn reach_least(walk: &mut Walk<48>, here: &BaseAt<'_, '_>)
    requires here { IsBaseAt here.now }
    requires start { walk.old.stock ≡ 0 }
    ensures { (shops : List ℕ) → let x = here.now.family.now in let j = here.now.site.0 in
        walk.old ≡ line_place x here.now.depot.now j shops 0
        → walk.new ≡ line_place x here.now.depot.now j shops (line_low x j) }
{
    here.family.invariant_at(here.site);
    for _k in 0..here.family.line_low(here.site) {
        walk.advance();
    }
}

/// Lower bounds on the Lagrangian of a base at the stock of a walk and these of the shop units, which cost `cost`.
#[inline(always)]
fn lows_at_stocks<S: Score>(
    here: &BaseAt<'_, '_>,
    score: &S,
    walk: &Walk<48>,
    shops: &ShopVector,
    cost: u64,
    low: Price,
    high: Price,
) -> Lows
    requires here { IsBaseAt here.now }
    requires shops { IsShopVector here.now.family.now here.now.site.0 shops.now }
    requires walk { let x = here.now.family.now in let j = here.now.site.0 in
        walk.now ≡ line_place x here.now.depot.now j shops.now.stocks walk.now.stock }
    requires least { line_low here.now.family.now here.now.site.0 ≤ walk.now.stock }
    requires most { walk.now.stock ≤ line_high here.now.family.now here.now.site.0 }
    requires cost { let x = here.now.family.now in
        cost ≡ cost_above x.case (family x.case x.line) (held_at x here.now.site.0)
        (walk.now.stock ∷ shops.now.stocks) }
    requires small { cost ≤ 56700000000 }
    requires low { IsSmallPrice low }
    requires high { IsSmallPrice high }
    ensures { AreUnder S.ends here.now.family.now here.now.depot.now here.now.site.0 low high shops.now.stocks
        walk.now.stock result }
{
    let scored = here.low(score, walk.low());
    Lows {
        at_low: lagrangian(low, cost, scored),
        at_high: lagrangian(high, cost, scored),
    }
}

/// The lower of `least` and of lower bounds on the Lagrangians of a base whose shop units have these stocks. Bounds are
/// made only as long as the cost alone comes to less at one of the prices.
fn lower_at_shops<S: Score>(
    least: Lows,
    here: &BaseAt<'_, '_>,
    score: &S,
    numbers: &Numbers<48>,
    own: &OwnPart<48>,
    part: &Moments<48>,
    shops: &ShopVector,
    low: Price,
    high: Price,
) -> Lows
    requires here { IsBaseAt here.now }
    requires numbers { numbers.now ≡ box_numbers here.now.family.now }
    requires own { own.now ≡ own_at numbers.now here.now.depot.now here.now.site.0 }
    requires part { part.now
        ≡ shop_part 48 numbers.now here.now.site.0 (drop 1 here.now.depot.now) shops.now.stocks }
    requires shops { IsShopVector here.now.family.now here.now.site.0 shops.now }
    requires low { IsSmallPrice low }
    requires high { IsSmallPrice high }
    ensures lower { AreNoHigher result least }
    ensures under { let x = here.now.family.now in let j = here.now.site.0 in
        (s : ℕ) → line_low x j ≤ s → s ≤ line_high x j
        → AreUnder S.ends x here.now.depot.now j low high shops.now.stocks s result }
{
    let family = here.family;
    family.invariant();
    let first = family.line_low(here.site);
    let last = family.line_high(here.site);
    let each = family.line_cost();
    if least.is_reached(low, high, shops.cost) {
        return least;
    }
    let mut walk = walk_at(here, numbers, own, part, shops.stocks.as_slice());
    reach_least(&mut walk, here);
    let mut found = least.lower(lows_at_stocks(here, score, &walk, shops, shops.cost, low, high));
    for s in first..last {
        let cost = shops.cost + u64::from(s + 1 - first) * each;
        if found.is_reached(low, high, cost) {
            return found;
        }
        walk.advance();
        found = found.lower(lows_at_stocks(here, score, &walk, shops, cost, low, high));
    }
    found
}

/// Sets `lows` to lower bounds on the Lagrangians of a base, one pair for each choice of the shop units' stocks there.
/// Want of memory is the only error.
pub fn put_lows<S: Score>(
    lows: &mut Vec<Lows>,
    here: &BaseAt<'_, '_>,
    score: &S,
    numbers: &Numbers<48>,
    own: &OwnPart<48>,
    parts: &[Moments<48>],
    low: Price,
    high: Price,
) -> Result<(), NoMemory>
    requires here { IsBaseAt here.now }
    requires numbers { numbers.now ≡ box_numbers here.now.family.now }
    requires own { own.now ≡ own_at numbers.now here.now.depot.now here.now.site.0 }
    requires parts { parts.now ≡ parts_at here.now.family.now (drop 1 here.now.depot.now) here.now.site.0 }
    requires low { IsSmallPrice low }
    requires high { IsSmallPrice high }
    ensures { IfOk result (λ _. AreLowsOf S.ends here.now low high lows.new.items) }
{
    let most = Lows {
        at_low: MOST_FLOOR,
        at_high: MOST_FLOOR,
    };
    let count = here.base.shops.len();
    lows.clear();
    for n in 0..count {
        let shops = &here.base.shops[n];
        let found = lower_at_shops(most, here, score, numbers, own, &parts[n], shops, low, high);
        lows.push(found)?;
    }
    Ok(())
}

/// Lower bounds on the Lagrangians of the base at site `j` with these stocks at the depot.
pub fn lows_at_base<S: Score>(
    sources: &Sources<'_>,
    score: &S,
    tables: &DepotTables<'_>,
    depot: &[u8],
    j: u8,
    low: Price,
    high: Price,
) -> Lows
    requires sources { AreSources sources.now }
    requires depot { IsAt sources.now.family.now 0 depot.now }
    requires tables { AreTables sources.now.family.now (drop 1 depot.now) tables.now }
    requires base { IsBase sources.now.family.now.case j }
    requires low { IsSmallPrice low }
    requires high { IsSmallPrice high }
    ensures at_low { AreAtLeast low.p low.q result.at_low (base_points S.ends sources.now.family.now depot.now j) }
    ensures at_high { AreAtLeast high.p high.q result.at_high
        (base_points S.ends sources.now.family.now depot.now j) }
    ensures most { (result.at_low ≤ most_floor) × (result.at_high ≤ most_floor) }
{
    let here = base_of(sources, depot, j);
    let numbers = &sources.numbers;
    let own = own_at(&here, numbers, tables);
    let parts = shops_at(tables, &here);
    let mut least = Lows {
        at_low: MOST_FLOOR,
        at_high: MOST_FLOOR,
    };
    for n in 0..here.base.shops.len() {
        let shops = &here.base.shops[n];
        least = lower_at_shops(
            least, &here, score, numbers, &own, &parts[n], shops, low, high,
        );
    }
    least
}

/// A lower bound on the Lagrangians of the vectors with these stocks at the depot.
pub fn low_at_depot<S: Score>(
    sources: &Sources<'_>,
    score: &S,
    tables: &DepotTables<'_>,
    depot: &[u8],
    price: Price,
) -> u128
    requires sources { AreSources sources.now }
    requires depot { IsAt sources.now.family.now 0 depot.now }
    requires tables { AreTables sources.now.family.now (drop 1 depot.now) tables.now }
    requires most_money { price.q ≤ most_price_money }
    requires price { price.p ≤ most_price_units }
    ensures { AreAtLeast price.p price.q result (depot_points S.ends sources.now.family.now depot.now) }
{
    sources.family.invariant();
    let mut low = price.p * u128::from(sources.family.cost(SiteId(0), depot));
    for j in 1..sources.family.sites() {
        low += lows_at_base(sources, score, tables, depot, j, price, price).at_low;
    }
    low
}
