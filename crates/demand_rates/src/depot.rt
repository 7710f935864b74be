//! Demands at the depot.

ghost use Rattle.std.specs.Prelude.{◌≡◌, ◌≤◌, ◌<◌, length, sum_by, IfOk};
ghost use Rattle.fleet_model.specs.Rows.{bases};
ghost use Rattle.fleet_model.specs.Units.{demand_00, demand_i0, demand_units, sent_ij};
ghost use Rattle.demand_rates.specs.Depot.{AreDepotDemands};

use crate::rows::{depot_row, line_sent, rate_row, shop_needed, shop_sent};
use answers::NoMemory;
use spares_input::{Case, PartId, SiteId};
use std::alloc::Global;

/// m_00 of a line unit, in 10^-8 a year.
fn line_demand(case: &Case, line: PartId) -> u128
    requires { line.0 < length case.now.parts }
    ensures value { result ≡ demand_00 case.now line.0 }
    ensures small { result ≤ 150000000000000 }
{
    let sites = case.site_count();
    let mut sum = 0u128;
    for k in 1..sites {
        sum += line_sent(rate_row(case, line, SiteId(k)));
    }
    sum
}

/// The demand for a shop unit that the bases send on, in 10^-16 a year.
fn bases_sent(case: &Case, line: PartId, shop: PartId) -> u128
    requires line { line.0 < length case.now.parts }
    requires shop { shop.0 < length case.now.parts }
    ensures value { result ≡ sum_by (sent_ij case.now line.0 shop.0) (bases case.now) }
    ensures small { result ≤ 15000000000000000000000 }
{
    let sites = case.site_count();
    let mut sum = 0u128;
    for k in 1..sites {
        let base = SiteId(k);
        sum += shop_sent(rate_row(case, line, base), rate_row(case, shop, base));
    }
    sum
}

/// m_i0 of a shop unit, in 10^-16 a year.
fn depot_shop_demand(case: &Case, line: PartId, shop: PartId) -> u128
    requires line { line.0 < length case.now.parts }
    requires shop { shop.0 < length case.now.parts }
    ensures value { result ≡ demand_i0 case.now line.0 shop.0 }
    ensures small { result ≤ 30000000000000000000000 }
{
    let needed = shop_needed(line_demand(case, line), depot_row(case, shop));
    bases_sent(case, line, shop) + needed * 10_000
}

/// The demand for a part at the depot, in the unit of its level.
fn part_demand(case: &Case, part: PartId) -> u128
    requires { part.0 < length case.now.parts }
    ensures { result ≡ demand_units case.now part.0 0 }
{
    match case.parent(part) {
        Some(line) => depot_shop_demand(case, line, part),
        None => line_demand(case, part),
    }
}

/// The demands for all parts at the depot.
pub(crate) fn depot_demands(alloc: Global, case: &Case) -> Result<Vec<u128>, NoMemory>
    ensures { IfOk result (λ v. AreDepotDemands case.now v.items) }
{
    let parts = case.part_count();
    let mut demands = Vec::new(alloc);
    for p in 0..parts {
        demands.push(part_demand(case, PartId(p)))?;
    }
    Ok(demands)
}
