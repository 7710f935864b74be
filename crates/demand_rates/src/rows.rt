//! Numbers of one row of rates, or of a line unit's and its shop unit's rows, in whole units.

ghost use Rattle.std.specs.Prelude.{◌≡◌, ◌+◌, ◌-◌, ◌*◌, ◌≤◌, ◌<◌, length};
ghost use Rattle.spares_input.specs.Limits.{most_days};
ghost use Rattle.spares_input.specs.Frames.{site_at};
ghost use Rattle.spares_input.specs.Cases.{rate_at};
ghost use Rattle.demand_rates.specs.Limits.{IsRate};

use spares_input::{Case, PartId, RateRow, SiteId};

/// The row of a pair.
pub(crate) fn rate_row(case: &Case, part: PartId, site: SiteId) -> RateRow
    requires part { part.0 < length case.now.parts }
    requires site { site.0 < length case.now.sites }
    ensures row { result ≡ rate_at case.now part.0 site.0 }
    ensures within { IsRate result }
{
    *case.rate(part, site)
}

/// The row of a part at the depot.
pub(crate) fn depot_row(case: &Case, part: PartId) -> RateRow
    requires { part.0 < length case.now.parts }
    ensures row { result ≡ rate_at case.now part.0 0 }
    ensures within { IsRate result }
{
    case.invariant();
    rate_row(case, part, SiteId(0))
}

/// The time of order and shipment to a site, in hundredths of days, 0 at the depot.
pub(crate) fn ship_days(case: &Case, site: SiteId) -> u32
    requires { site.0 < length case.now.sites }
    ensures row { result ≡ (site_at case.now.sites site.0).ship }
    ensures small { result ≤ most_days }
{
    case.site(site).ship
}

/// (1 - r) O + r T, in 10^-6 days.
pub(crate) fn days_at(row: RateRow, ship: u32) -> u128
    requires row { IsRate row }
    requires ship { ship ≤ most_days }
    ensures value { result ≡ (10000 - row.repair_here) * ship + row.repair_here * row.repair_days }
    ensures small { result ≤ 20000000000 }
{
    let sent = u128::from(10_000 - row.repair_here) * u128::from(ship);
    sent + u128::from(row.repair_here) * u128::from(row.repair_days)
}

/// m_0j (1 - r_0j), in 10^-8 a year: the demand for a line unit that a base sends on.
pub(crate) fn line_sent(row: RateRow) -> u128
    requires { IsRate row }
    ensures value { result ≡ row.demand * (10000 - row.repair_here) }
    ensures small { result ≤ 10000000000000 }
{
    u128::from(row.demand) * u128::from(10_000 - row.repair_here)
}

/// m_ij, in 10^-12 a year: the demand for a shop unit at a base.
pub(crate) fn shop_demand(line: RateRow, shop: RateRow) -> u128
    requires line { IsRate line }
    requires shop { IsRate shop }
    ensures value { result ≡ line.demand * line.repair_here * shop.share }
    ensures small { result ≤ 100000000000000000 }
{
    u128::from(line.demand) * u128::from(line.repair_here) * u128::from(shop.share)
}

/// m_ij (1 - r_ij), in 10^-16 a year: the demand for a shop unit that a base sends on.
pub(crate) fn shop_sent(line: RateRow, shop: RateRow) -> u128
    requires line { IsRate line }
    requires shop { IsRate shop }
    ensures value { result ≡ line.demand * line.repair_here * shop.share * (10000 - shop.repair_here) }
    ensures small { result ≤ 1000000000000000000000 }
{
    shop_demand(line, shop) * u128::from(10_000 - shop.repair_here)
}

/// m_00 q_i0, in 10^-12 a year: the demand for a shop unit by the depot's repairs of its line unit.
pub(crate) fn shop_needed(line_demand: u128, shop: RateRow) -> u128
    requires line { line_demand ≤ 150000000000000 }
    requires shop { IsRate shop }
    ensures value { result ≡ line_demand * shop.share }
    ensures small { result ≤ 1500000000000000000 }
{
    line_demand * u128::from(shop.share)
}

/// A demand at the depot times the days of a repair there.
pub(crate) fn in_repair(demand: u128, row: RateRow) -> u128
    requires demand { demand ≤ 30000000000000000000000 }
    requires row { IsRate row }
    ensures value { result ≡ demand * row.repair_days }
    ensures small { result ≤ demand * most_days }
{
    demand * u128::from(row.repair_days)
}
