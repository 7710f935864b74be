//! The rates of a pair, by the four levels.

ghost use Rattle.std.specs.Prelude.{◌≡◌, ◌≤◌, ◌<◌, ◌+◌, ◌*◌, true, [], get_or, length, map, Some, None};
ghost use Rattle.spares_input.specs.Limits.{most_days};
ghost use Rattle.spares_input.specs.Rows.{is_line};
ghost use Rattle.spares_input.specs.Frames.{line_of, part_at};
ghost use Rattle.fleet_model.specs.Units.{demand_00, demand_i0};
ghost use Rattle.demand_rates.specs.Depot.{AreDepotDemands};
ghost use Rattle.demand_rates.specs.Rates.{pair_rates, rates_of_pair, share_ratio};
ghost use Rattle.demand_rates.specs.Waits.{wait_sum, AreAllWaits};

use crate::kinds::PairRates;
use crate::rows::{
    days_at, depot_row, in_repair, line_sent, rate_row, ship_days, shop_demand, shop_needed,
    shop_sent,
};
use crate::waits::shop_mean;
use exact_ratio::Ratio;
use spares_input::{Case, PartId, SiteId};

/// `top / bottom`, 0/1 if `bottom` is 0.
fn share_of(top: u128, bottom: u128) -> Ratio
    ensures { result ≡ share_ratio top bottom }
{
    if bottom == 0 {
        return Ratio { num: 0, den: 1 };
    }
    Ratio {
        num: top,
        den: bottom,
    }
}

/// A line unit at the depot, from its demand there and the wait for its shop units.
fn depot_line(case: &Case, line: PartId, demand: u128, wait: u128) -> PairRates
    requires line { line.0 < length case.now.parts }
    requires demand { demand ≡ demand_00 case.now line.0 }
    requires small_demand { demand ≤ 150000000000000 }
    requires wait { wait ≡ wait_sum case.now line.0 0 }
    requires small_wait { wait ≤ 20000000000000 }
    ensures rates { result ≡ rates_of_pair case.now None line.0 0 }
    ensures small { result.direct ≤ 30000000000000000000000000000 }
{
    let direct = in_repair(demand, depot_row(case, line)) * 100_000_000;
    PairRates {
        demand: Ratio {
            num: demand,
            den: 100_000_000,
        },
        share: Ratio { num: 1, den: 1 },
        direct,
        zero_stock: direct + demand * wait * 10_000,
    }
}

/// The part of a line unit's zero-stock mean at a base that waits for the depot's repairs, in 10^-18 / 365.
fn base_line_wait(sent: u128, days: u32, wait: u128) -> u128
    requires sent { sent ≤ 10000000000000 }
    requires days { days ≤ most_days }
    requires wait { wait ≤ 20000000000000 }
    ensures value { result ≡ sent * (days * 10000 + wait) * 10000 }
    ensures small { result ≤ 3000000000000000000000000000000 }
{
    sent * (u128::from(days) * 10_000 + wait) * 10_000
}

/// A line unit at a base, from its demand at the depot and the waits for its shop units at the depot and at the base.
fn base_line(
    case: &Case,
    line: PartId,
    base: SiteId,
    depot: u128,
    depot_wait: u128,
    wait: u128,
) -> PairRates
    requires line { line.0 < length case.now.parts }
    requires base { base.0 < length case.now.sites }
    requires not_depot { 0 < base.0 }
    requires depot { depot ≡ demand_00 case.now line.0 }
    requires depot_wait { depot_wait ≡ wait_sum case.now line.0 0 }
    requires small_depot_wait { depot_wait ≤ 20000000000000 }
    requires wait { wait ≡ wait_sum case.now line.0 base.0 }
    requires small_wait { wait ≤ 6000000000000000000000000000000 }
    ensures rates { result ≡ rates_of_pair case.now None line.0 base.0 }
    ensures small { result.direct ≤ 30000000000000000000000000000 }
{
    let row = rate_row(case, line, base);
    let sent = line_sent(row);
    let direct = u128::from(row.demand) * days_at(row, ship_days(case, base)) * 100_000_000;
    let days = depot_row(case, line).repair_days;
    PairRates {
        demand: Ratio {
            num: u128::from(row.demand),
            den: 10_000,
        },
        share: share_of(sent, depot),
        direct,
        zero_stock: direct + base_line_wait(sent, days, depot_wait) + wait,
    }
}

/// A shop unit at the depot, from the demands there for its line unit and for itself.
fn depot_shop(case: &Case, shop: PartId, line: PartId, line_depot: u128, depot: u128) -> PairRates
    requires shop { shop.0 < length case.now.parts }
    requires line_depot { line_depot ≡ demand_00 case.now line.0 }
    requires small_line { line_depot ≤ 150000000000000 }
    requires depot { depot ≡ demand_i0 case.now line.0 shop.0 }
    requires small_depot { depot ≤ 30000000000000000000000 }
    ensures rates { result ≡ rates_of_pair case.now (Some line.0) shop.0 0 }
    ensures small { result.direct ≤ 30000000000000000000000000000 }
{
    let row = depot_row(case, shop);
    let direct = in_repair(depot, row);
    PairRates {
        demand: Ratio {
            num: depot,
            den: 10_000_000_000_000_000,
        },
        share: share_of(shop_needed(line_depot, row) * 10_000, depot),
        direct,
        zero_stock: direct,
    }
}

/// A shop unit at a base, from the demand for it at the depot.
fn base_shop(case: &Case, shop: PartId, line: PartId, base: SiteId, depot: u128) -> PairRates
    requires shop { shop.0 < length case.now.parts }
    requires line { line.0 < length case.now.parts }
    requires base { base.0 < length case.now.sites }
    requires not_depot { 0 < base.0 }
    requires depot { depot ≡ demand_i0 case.now line.0 shop.0 }
    ensures rates { result ≡ rates_of_pair case.now (Some line.0) shop.0 base.0 }
    ensures small { result.direct ≤ 30000000000000000000000000000 }
{
    let line_row = rate_row(case, line, base);
    let row = rate_row(case, shop, base);
    let demand = shop_demand(line_row, row);
    PairRates {
        demand: Ratio {
            num: demand,
            den: 1_000_000_000_000,
        },
        share: share_of(shop_sent(line_row, row), depot),
        direct: demand * days_at(row, ship_days(case, base)),
        zero_stock: shop_mean(case, line, shop, base),
    }
}

/// A shop unit at a site, from the demands at the depot.
fn shop_rates(case: &Case, shop: PartId, line: PartId, site: SiteId, demands: &[u128]) -> PairRates
    requires shop { shop.0 < length case.now.parts }
    requires line { line.0 < length case.now.parts }
    requires line_unit { is_line (part_at case.now.parts line.0) ≡ true }
    requires own { line_of case.now.parts shop.0 ≡ Some line.0 }
    requires site { site.0 < length case.now.sites }
    requires demands { AreDepotDemands case.now demands.now }
    ensures rates { result ≡ rates_of_pair case.now (Some line.0) shop.0 site.0 }
    ensures small { result.direct ≤ 30000000000000000000000000000 }
{
    let depot = demands[shop.0 as usize];
    if site.0 == 0 {
        depot_shop(case, shop, line, demands[line.0 as usize], depot)
    } else {
        base_shop(case, shop, line, site, depot)
    }
}

/// The wait for the shop units of a part at a site.
fn wait_at(waits: &[Vec<u128>], part: PartId, site: SiteId) -> u128
    requires site { site.0 < length waits.now }
    requires part { part.0 < length (get_or (map (λ w. w.items) waits.now) site.0 []) }
    ensures { result ≡ get_or (get_or (map (λ w. w.items) waits.now) site.0 []) part.0 0 }
{
    waits[site.0 as usize][part.0 as usize]
}

/// A line unit at a site, from the demands at the depot and the waits for shop units.
fn line_rates(
    case: &Case,
    line: PartId,
    site: SiteId,
    demands: &[u128],
    waits: &[Vec<u128>],
) -> PairRates
    requires line { line.0 < length case.now.parts }
    requires line_unit { is_line (part_at case.now.parts line.0) ≡ true }
    requires site { site.0 < length case.now.sites }
    requires demands { AreDepotDemands case.now demands.now }
    requires waits { AreAllWaits case.now (map (λ w. w.items) waits.now) }
    ensures rates { result ≡ rates_of_pair case.now None line.0 site.0 }
    ensures small { result.direct ≤ 30000000000000000000000000000 }
{
    let depot = demands[line.0 as usize];
    let depot_wait = wait_at(waits, line, SiteId(0));
    if site.0 == 0 {
        depot_line(case, line, depot, depot_wait)
    } else {
        base_line(
            case,
            line,
            site,
            depot,
            depot_wait,
            wait_at(waits, line, site),
        )
    }
}

/// The rates of a pair, from the demands at the depot and the waits for shop units.
pub(crate) fn pair_rates(
    case: &Case,
    part: PartId,
    site: SiteId,
    demands: &[u128],
    waits: &[Vec<u128>],
) -> PairRates
    requires part { part.0 < length case.now.parts }
    requires site { site.0 < length case.now.sites }
    requires demands { AreDepotDemands case.now demands.now }
    requires waits { AreAllWaits case.now (map (λ w. w.items) waits.now) }
    ensures rates { result ≡ pair_rates case.now part.0 site.0 }
    ensures small { result.direct ≤ 30000000000000000000000000000 }
{
    match case.parent(part) {
        Some(line) => shop_rates(case, part, line, site, demands),
        None => line_rates(case, part, site, demands, waits),
    }
}
