//! The upper end of a vector's score, without a curve: the sum of its bases' upper ends.

ghost use Rattle.std.specs.Prelude.{◌≡◌, ◌*◌, ◌≤◌, IfOk, drop};
ghost use Rattle.demand_rates.specs.Rates.{AreRatesOf};
ghost use Rattle.family_items.specs.Inputs.{IsLine};
ghost use Rattle.hull.specs.Limits.{end_limit};
ghost use Rattle.family_points.specs.Inputs.{IsAt, box_points};
ghost use Rattle.family_rows.specs.Sources.{AreSources};
ghost use Rattle.family_points.specs.Points.{AreOrdered, HasUpper, points_within};
ghost use Rattle.family_points.specs.Separation.{base_points, depot_points};
ghost use Rattle.family_rows.specs.Spots.{IsBaseAt};
ghost use Rattle.family_rows.specs.Tabled.{AreTables, box_numbers};

use answers::NoMemory;
use demand_rates::kinds::Rates;
use family_bases::bases::base_of;
use family_numbers::Numbers;
use family_points::bounds::Bounds;
use family_points::family::{Family, shops_of};
use family_rows::base::{put_rows, spot_at};
use family_rows::base_at::BaseAt;
use family_rows::depot::{DepotTables, ShopParts, depot_tables};
use family_rows::sources::Sources;
use hull::{Score, Spot};
use series_bounds::short::Iv64;
use spares_input::{Case, PartId, SiteId};
use std::alloc::Global;

/// The upper end of the first choice at a base.
fn upper_at_base<S: Score>(
    rows: &mut Vec<Vec<Iv64<48>>>,
    here: &BaseAt<'_, '_>,
    score: &S,
    numbers: &Numbers<48>,
    tables: &DepotTables<'_>,
) -> Result<u128, NoMemory>
    requires here { IsBaseAt here.now }
    requires numbers { numbers.now ≡ box_numbers here.now.family.now }
    requires tables { AreTables here.now.family.now (drop 1 here.now.depot.now) tables.now }
    ensures upper { IfOk result
        (HasUpper (base_points S.ends here.now.family.now here.now.depot.now here.now.site.0)) }
    ensures most { IfOk result (λ hi. hi ≤ end_limit) }
{
    put_rows(rows, here, numbers, tables)?;
    let count = here.base.shops.len();
    let first = &here.base.order[0];
    let spot = spot_at(here, score, &rows.as_slice()[..count], first);
    Ok(spot.hi())
}

/// The upper end of one of the vectors that have these stocks at the depot.
fn upper_at_depot<S: Score>(
    rows: &mut Vec<Vec<Iv64<48>>>,
    sources: &Sources<'_>,
    score: &S,
    tables: &DepotTables<'_>,
    depot: &[u8],
) -> Result<u128, NoMemory>
    requires sources { AreSources sources.now }
    requires depot { IsAt sources.now.family.now 0 depot.now }
    requires tables { AreTables sources.now.family.now (drop 1 depot.now) tables.now }
    ensures upper { IfOk result (HasUpper (depot_points S.ends sources.now.family.now depot.now)) }
    ensures most { IfOk result (λ hi. hi ≤ 16 * end_limit) }
{
    sources.family.invariant();
    let mut upper = 0;
    for j in 1..sources.family.sites() {
        let here = base_of(sources, depot, j);
        upper += upper_at_base(rows, &here, score, &sources.numbers, tables)?;
    }
    Ok(upper)
}

/// The upper end of one of the vectors that have the least stocks at the depot.
fn upper_at_least<S: Score>(
    alloc: Global,
    sources: &Sources<'_>,
    score: &S,
) -> Result<u128, NoMemory>
    requires sources { AreSources sources.now }
    ensures upper { IfOk result (HasUpper (box_points S.ends sources.now.family.now)) }
    ensures most { IfOk result (λ hi. hi ≤ 16 * end_limit) }
{
    sources.family.invariant();
    let depot = sources.family.low(SiteId(0));
    let mut parts = ShopParts::new(alloc);
    let shops = shops_of(depot);
    parts.put(sources, shops)?;
    let tables = depot_tables(alloc, sources, shops, &parts)?;
    let mut rows = Vec::new(alloc);
    upper_at_depot(&mut rows, sources, score, &tables, depot)
}

/// The upper end of one of the vectors of a box of the family of a line unit, in units of 2^-48. If the box has one
/// vector alone, the upper end is that vector's. Want of memory is the only error.
pub fn upper_within<S: Score>(
    alloc: Global,
    case: &Case,
    rates: &Rates,
    line: PartId,
    bounds: &Bounds,
    score: &S,
) -> Result<u128, NoMemory>
    requires rates { AreRatesOf case.now rates.now }
    requires line { IsLine case.now line.0 }
    requires ordered { AreOrdered case.now line.0 bounds.now.held bounds.now.low bounds.now.high }
    ensures upper { IfOk result (HasUpper
        (points_within case.now line.0 S.ends bounds.now.held bounds.now.low bounds.now.high)) }
    ensures most { IfOk result (λ hi. hi ≤ 16 * end_limit) }
{
    let family = Family::of(case, rates, line, bounds);
    let sources = Sources::of(alloc, &family)?;
    upper_at_least(alloc, &sources, score)
}
