//! The waits for shop units that add to the zero-stock means of their line units.

ghost use Rattle.std.specs.Prelude.{◌≡◌, ◌≤◌, ◌<◌, ◌+◌, ◌*◌, length, map, IfOk};
ghost use Rattle.fleet_model.specs.Units.{zero_stock_units_ij};
ghost use Rattle.demand_rates.specs.Limits.{IsRate};
ghost use Rattle.demand_rates.specs.Waits.{wait, wait_most, AreWaits, AreAllWaits};

use crate::rows::{days_at, depot_row, in_repair, rate_row, ship_days, shop_demand, shop_sent};
use answers::NoMemory;
use spares_input::{Case, PartId, RateRow, SiteId};
use std::alloc::Global;

/// q_i0 T_i0 of a shop unit, in 10^-6 days.
fn depot_wait(row: RateRow) -> u128
    requires { IsRate row }
    ensures value { result ≡ row.share * row.repair_days }
    ensures small { result ≤ 10000000000 }
{
    u128::from(row.share) * u128::from(row.repair_days)
}

/// M of a shop unit at a base.
pub(crate) fn shop_mean(case: &Case, line: PartId, shop: PartId, base: SiteId) -> u128
    requires line { line.0 < length case.now.parts }
    requires shop { shop.0 < length case.now.parts }
    requires base { base.0 < length case.now.sites }
    ensures value { result ≡ zero_stock_units_ij case.now line.0 shop.0 base.0 }
    ensures small { result ≤ 3000000000000000000000000000 }
{
    let line_row = rate_row(case, line, base);
    let row = rate_row(case, shop, base);
    let direct = shop_demand(line_row, row) * days_at(row, ship_days(case, base));
    direct + in_repair(shop_sent(line_row, row), depot_row(case, shop))
}

/// The wait for a shop unit at a site.
fn wait_of(case: &Case, line: PartId, shop: PartId, site: SiteId) -> u128
    requires line { line.0 < length case.now.parts }
    requires shop { shop.0 < length case.now.parts }
    requires site { site.0 < length case.now.sites }
    ensures value { result ≡ wait case.now line.0 site.0 shop.0 }
    ensures small { result ≤ wait_most site.0 }
{
    if site.0 == 0 {
        depot_wait(depot_row(case, shop))
    } else {
        shop_mean(case, line, shop, site)
    }
}

/// The sum of the waits for the shop units of each part at a site.
fn waits_at(alloc: Global, case: &Case, site: SiteId) -> Result<Vec<u128>, NoMemory>
    requires { site.0 < length case.now.sites }
    ensures { IfOk result (λ v. AreWaits case.now site.0 v.items) }
{
    let parts = case.part_count();
    let mut waits = vec![in alloc; 0u128; parts as usize]?;
    for p in 0..parts {
        let shop = PartId(p);
        if let Some(line) = case.parent(shop) {
            let wait = wait_of(case, line, shop, site);
            waits[line.0 as usize] += wait;
        }
    }
    Ok(waits)
}

/// The sum of the waits for the shop units of each part, by site.
pub(crate) fn all_waits(alloc: Global, case: &Case) -> Result<Vec<Vec<u128>>, NoMemory>
    ensures { IfOk result (λ v. AreAllWaits case.now (map (λ w. w.items) v.items)) }
{
    let sites = case.site_count();
    let mut waits = Vec::new(alloc);
    for k in 0..sites {
        let at_site = waits_at(alloc, case, SiteId(k))?;
        waits.push(at_site)?;
    }
    Ok(waits)
}
