//! Whether the Lagrangian of each vector of a family reaches a floor at one price, without a curve: for given stocks at
//! the depot, the least Lagrangian is their cost at the price plus the least of each base.

ghost use Rattle.std.specs.Prelude.{◌≡◌, ◌+◌, ◌-◌, ◌*◌, ◌<◌, ◌≤◌, [], IfOk, drop, get_or, length, map, nat_le};
ghost use Rattle.demand_rates.specs.Rates.{AreRatesOf};
ghost use Rattle.family_items.specs.Inputs.{IsLine};
ghost use Rattle.hull.specs.Curves.{lagrangian};
ghost use Rattle.hull.specs.Limits.{most_price_units, most_price_money, most_floor};
ghost use Rattle.family_points.specs.Inputs.{AreShopsAt, IsAt, box_points, shop_vectors};
ghost use Rattle.family_rows.specs.Sources.{AreSources};
ghost use Rattle.family_points.specs.Least.{IsLeast, Decides, least};
ghost use Rattle.family_points.specs.Points.{AreOrdered, points_within};
ghost use Rattle.family_points.specs.Separation.{base_points, depot_points, shop_points};
ghost use Rattle.family_points.specs.Choices.{IsChoice, choice_point};
ghost use Rattle.family_rows.specs.Spots.{AreRows, IsBaseAt};
ghost use Rattle.family_rows.specs.Tabled.{AreTables, box_numbers};

use answers::NoMemory;
use demand_rates::kinds::Rates;
use family_bases::bases::base_of;
use family_bases::lows::low_at_depot;
use family_bases::stocks::stocks_at;
use family_numbers::Numbers;
use family_points::bounds::Bounds;
use family_points::family::{Family, shops_of};
use family_points::order::Choice;
use family_rows::base::{put_rows, spot_at};
use family_rows::base_at::BaseAt;
use family_rows::depot::{DepotTables, ShopParts, depot_tables};
use family_rows::sources::Sources;
use hull::{Price, Score, Spot};
use series_bounds::short::Iv64;
use spares_input::{Case, PartId, SiteId};
use std::alloc::Global;

/// The Lagrangian of a choice at a base, by the base's rows.
fn value_at<S: Score>(
    here: &BaseAt<'_, '_>,
    score: &S,
    rows: &[Vec<Iv64<48>>],
    choice: &Choice,
    price: Price,
) -> u128
    requires here { IsBaseAt here.now }
    requires rows { AreRows here.now (map (λ r. r.items) rows.now) }
    requires choice { IsChoice here.now.family.now here.now.site.0 choice.now }
    requires most_money { price.q ≤ most_price_money }
    requires price { price.p ≤ most_price_units }
    ensures value { result ≡ lagrangian price.p price.q
        (choice_point S.ends here.now.family.now here.now.depot.now here.now.site.0 choice.now) }
    ensures most { result ≤ most_floor }
{
    let spot = spot_at(here, score, rows, choice);
    u128::from(price.q) * spot.lo() + price.p * u128::from(spot.cost())
}

/// The least Lagrangian of a base's choices, by its rows.
fn least_of_choices<S: Score>(
    here: &BaseAt<'_, '_>,
    score: &S,
    rows: &[Vec<Iv64<48>>],
    price: Price,
) -> u128
    requires here { IsBaseAt here.now }
    requires rows { AreRows here.now (map (λ r. r.items) rows.now) }
    requires some { 0 < length here.now.base.now.order.items }
    requires most_money { price.q ≤ most_price_money }
    requires price { price.p ≤ most_price_units }
    ensures least { IsLeast price.p price.q (map
        (choice_point S.ends here.now.family.now here.now.depot.now here.now.site.0)
        here.now.base.now.order.items) result }
    ensures most { result ≤ most_floor }
{
    let first = &here.base.order[0];
    let mut least = value_at(here, score, rows, first, price);
    for n in 1..here.base.order.len() {
        let choice = &here.base.order[n];
        let value = value_at(here, score, rows, choice, price);
        least = least.min(value);
    }
    least
}

/// The least Lagrangian of a base's vectors; sets `rows` to its backorders.
fn least_at_base<S: Score>(
    rows: &mut Vec<Vec<Iv64<48>>>,
    here: &BaseAt<'_, '_>,
    score: &S,
    numbers: &Numbers<48>,
    tables: &DepotTables<'_>,
    price: Price,
) -> Result<u128, NoMemory>
    requires here { IsBaseAt here.now }
    requires numbers { numbers.now ≡ box_numbers here.now.family.now }
    requires tables { AreTables here.now.family.now (drop 1 here.now.depot.now) tables.now }
    requires most_money { price.q ≤ most_price_money }
    requires price { price.p ≤ most_price_units }
    ensures least { IfOk result (IsLeast price.p price.q
        (base_points S.ends here.now.family.now here.now.depot.now here.now.site.0)) }
    ensures most { IfOk result (λ least. least ≤ most_floor) }
{
    put_rows(rows, here, numbers, tables)?;
    let count = here.base.shops.len();
    Ok(least_of_choices(here, score, &rows.as_slice()[..count], price))
}

/// The least Lagrangian of the vectors with these stocks at the depot.
fn least_at_depot<S: Score>(
    rows: &mut Vec<Vec<Iv64<48>>>,
    sources: &Sources<'_>,
    score: &S,
    tables: &DepotTables<'_>,
    depot: &[u8],
    price: Price,
) -> Result<u128, NoMemory>
    requires sources { AreSources sources.now }
    requires depot { IsAt sources.now.family.now 0 depot.now }
    requires tables { AreTables sources.now.family.now (drop 1 depot.now) tables.now }
    requires most_money { price.q ≤ most_price_money }
    requires price { price.p ≤ most_price_units }
    ensures { IfOk result (IsLeast price.p price.q (depot_points S.ends sources.now.family.now depot.now)) }
{
    sources.family.invariant();
    let mut least = price.p * u128::from(sources.family.cost(SiteId(0), depot));
    for j in 1..sources.family.sites() {
        let here = base_of(sources, depot, j);
        least += least_at_base(rows, &here, score, &sources.numbers, tables, price)?;
    }
    Ok(least)
}

/// Whether the Lagrangian of each vector with these stocks at the depot reaches the floor. If the lower bounds do, no
/// backorders are computed.
fn depot_is_at_least<S: Score>(
    rows: &mut Vec<Vec<Iv64<48>>>,
    sources: &Sources<'_>,
    score: &S,
    tables: &DepotTables<'_>,
    depot: &[u8],
    price: Price,
    floor: u128,
) -> Result<bool, NoMemory>
    requires sources { AreSources sources.now }
    requires depot { IsAt sources.now.family.now 0 depot.now }
    requires tables { AreTables sources.now.family.now (drop 1 depot.now) tables.now }
    requires most_money { price.q ≤ most_price_money }
    requires price { price.p ≤ most_price_units }
    ensures { IfOk result
        (Decides price.p price.q floor (depot_points S.ends sources.now.family.now depot.now)) }
{
    let low = low_at_depot(sources, score, tables, depot, price);
    if floor <= low {
        return Ok(true);
    }
    let least = least_at_depot(rows, sources, score, tables, depot, price)?;
    Ok(floor <= least)
}

/// Whether the Lagrangian of each vector with the shop units' stocks of `stocks` at the depot reaches the floor. The
/// line unit's stock, the first of `stocks`, is overwritten.
fn are_at_least<S: Score>(
    rows: &mut Vec<Vec<Iv64<48>>>,
    sources: &Sources<'_>,
    score: &S,
    tables: &DepotTables<'_>,
    stocks: &mut [u8],
    price: Price,
    floor: u128,
) -> Result<bool, NoMemory>
    requires sources { AreSources sources.now }
    requires some { 0 < length stocks.old }
    requires shops { AreShopsAt sources.now.family.now 0 (drop 1 stocks.old) }
    requires tables { AreTables sources.now.family.now (drop 1 stocks.old) tables.now }
    requires most_money { price.q ≤ most_price_money }
    requires price { price.p ≤ most_price_units }
    ensures { IfOk result
        (Decides price.p price.q floor (shop_points S.ends sources.now.family.now (drop 1 stocks.old))) }
{
    sources.family.invariant();
    let low = sources.family.line_low(SiteId(0));
    let high = sources.family.line_high(SiteId(0));
    for s in low..high + 1 {
        stocks[0] = s;
        if !depot_is_at_least(rows, sources, score, tables, stocks, price, floor)? {
            return Ok(false);
        }
    }
    Ok(true)
}

/// Whether the Lagrangian of each vector with the `number`-th vector of the shop units' stocks at the depot reaches the
/// floor.
fn shops_are_at_least<S: Score>(
    alloc: Global,
    rows: &mut Vec<Vec<Iv64<48>>>,
    parts: &mut ShopParts,
    sources: &Sources<'_>,
    score: &S,
    number: u64,
    price: Price,
    floor: u128,
) -> Result<bool, NoMemory>
    requires sources { AreSources sources.now }
    requires number { number < length (shop_vectors sources.now.family.now 0) }
    requires most_money { price.q ≤ most_price_money }
    requires price { price.p ≤ most_price_units }
    ensures { IfOk result (let x = sources.now.family.now in
        Decides price.p price.q floor (shop_points S.ends x (get_or (shop_vectors x 0) number []))) }
{
    let mut stocks = stocks_at(alloc, sources.family, number)?;
    let shops = shops_of(stocks.as_slice());
    parts.put(sources, shops)?;
    let tables = depot_tables(alloc, sources, shops, parts)?;
    let at_depot = stocks.as_mut_slice();
    are_at_least(rows, sources, score, &tables, at_depot, price, floor)
}

/// Whether the Lagrangian of each vector of a family within its bounds reaches the floor.
fn all_are_at_least<S: Score>(
    alloc: Global,
    rows: &mut Vec<Vec<Iv64<48>>>,
    sources: &Sources<'_>,
    score: &S,
    price: Price,
    floor: u128,
) -> Result<bool, NoMemory>
    requires sources { AreSources sources.now }
    requires most_money { price.q ≤ most_price_money }
    requires price { price.p ≤ most_price_units }
    ensures { IfOk result (Decides price.p price.q floor (box_points S.ends sources.now.family.now)) }
{
    sources.family.invariant();
    let mut parts = ShopParts::new(alloc);
    for n in 0..sources.family.shop_count(SiteId(0)) {
        if !shops_are_at_least(alloc, rows, &mut parts, sources, score, n, price, floor)? {
            return Ok(false);
        }
    }
    Ok(true)
}

/// Whether the Lagrangian of each vector of a box reaches a floor at a price, for the family of a line unit: whether
/// the floor is at most the least of them. The floor is in units of 2^-48 times the price's `q`. Want of memory is the
/// only error.
pub fn is_at_least<S: Score>(
    alloc: Global,
    case: &Case,
    rates: &Rates,
    line: PartId,
    bounds: &Bounds,
    price: Price,
    floor: u128,
    score: &S,
) -> Result<bool, NoMemory>
    requires rates { AreRatesOf case.now rates.now }
    requires line { IsLine case.now line.0 }
    requires ordered { AreOrdered case.now line.0 bounds.now.held bounds.now.low bounds.now.high }
    requires most_money { price.q ≤ most_price_money }
    requires price { price.p ≤ most_price_units }
    ensures { IfOk result (λ answer. answer ≡ nat_le floor (least (lagrangian price.p price.q)
        (points_within case.now line.0 S.ends bounds.now.held bounds.now.low bounds.now.high))) }
{
    case.invariant();
    let family = Family::of(case, rates, line, bounds);
    let sources = Sources::of(alloc, &family)?;
    let mut rows = Vec::new(alloc);
    all_are_at_least(alloc, &mut rows, &sources, score, price, floor)
}
