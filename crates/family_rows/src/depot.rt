//! The tables from which the points of a family are made, and the backorders computed by them.

ghost use Rattle.std.specs.Prelude.{◌≡◌, ◌≤◌, IfOk, drop, length, map};
ghost use Rattle.spares_input.specs.Limits.{most_stock};
ghost use Rattle.fleet_model.specs.Laws.{IsBase};
ghost use Rattle.fleet_model.specs.Rows.{bases};
ghost use Rattle.family_numbers.specs.Numbers.{shop_part};
ghost use Rattle.family_points.specs.Boxes.{IsBox};
ghost use Rattle.family_points.specs.Inputs.{AreShopsAt};
ghost use Rattle.family_rows.specs.Sources.{AreSources};
ghost use Rattle.family_rows.specs.Spots.{IsBaseAt, IsRow};
ghost use Rattle.family_rows.specs.Tabled.{AreParts, AreTables, box_numbers, own_at, parts_at};

use crate::base_at::BaseAt;
use crate::sources::Sources;
use answers::NoMemory;
use depot_pipeline::Moments;
use family_numbers::own_part::{OwnPart, own_part, put_line_backorders};
use family_numbers::shop_part::shop_part;
use family_numbers::{Numbers, depot_line};
use family_points::family::shops_of;
use moment_table::kinds::Table;
use series_bounds::short::Iv64;
use spares_input::SiteId;
use std::alloc::Global;

/// The shop units' part of the line unit's pipeline at each base. One vector of their stocks at the depot after the
/// other has its parts here, so that the lists are made once.
#[derive(Drop)]
pub struct ShopParts {
    /// By base, and by the vector of the shop units' stocks there.
    by_base: Vec<Vec<Moments<48>>>,
}

/// The tables shared by all vectors with the same stocks of the shop units at the depot, and the sums made with them.
#[derive(Drop)]
pub struct DepotTables<'a> {
    /// The line unit's table at the depot.
    pub line: Table<48>,
    /// The shop units' part of the line unit's pipeline at each base.
    pub shops: &'a ShopParts,
}

/// Sets `parts` to the shop units' part of the line unit's pipeline at a base, for each vector of their stocks there.
fn put_parts(
    parts: &mut Vec<Moments<48>>,
    sources: &Sources<'_>,
    depot: &[u8],
    site: SiteId,
) -> Result<(), NoMemory>
    requires sources { AreSources sources.now }
    requires depot { AreShopsAt sources.now.family.now 0 depot.now }
    requires site { IsBase sources.now.family.now.case site.0 }
    ensures { IfOk result (λ _. parts.new.items ≡ parts_at sources.now.family.now depot.now site.0) }
{
    sources.family.invariant();
    let base = &sources.bases[usize::from(site.0) - 1];
    parts.clear();
    parts.reserve(base.shops.len())?;
    for n in 0..base.shops.len() {
        let stocks = base.shops[n].stocks.as_slice();
        let part = shop_part(&sources.numbers, &sources.base_shops, depot, site, stocks);
        parts.push(part)?;
    }
    Ok(())
}

/// Makes the lists as many as `count`.
fn make_lists(lists: &mut Vec<Vec<Moments<48>>>, count: usize) -> Result<(), NoMemory>
    ensures { IfOk result (λ _. length lists.new.items ≡ count) }
{
    let alloc = *lists.allocator();
    lists.truncate(count);
    lists.reserve(count)?;
    for _place in lists.len()..count {
        lists.push(Vec::new(alloc))?;
    }
    Ok(())
}

/// Sets `parts` to the shop units' parts at all bases, the first base first.
fn put_all_parts(
    parts: &mut Vec<Vec<Moments<48>>>,
    sources: &Sources<'_>,
    depot: &[u8],
) -> Result<(), NoMemory>
    requires sources { AreSources sources.now }
    requires depot { AreShopsAt sources.now.family.now 0 depot.now }
    ensures { IfOk result (λ _. let x = sources.now.family.now in
        map (λ r. r.items) parts.new.items ≡ map (parts_at x depot.now) (bases x.case)) }
{
    make_lists(parts, sources.bases.len())?;
    for j in 1..sources.family.sites() {
        let place = usize::from(j) - 1;
        put_parts(&mut parts[place], sources, depot, SiteId(j))?;
    }
    Ok(())
}

impl ShopParts {
    /// No parts.
    pub fn new(alloc: Global) -> ShopParts {
        ShopParts {
            by_base: Vec::new(alloc),
        }
    }

    /// Sets these to the parts for the shop units' stocks `depot` at the depot. Want of memory is the only error; some
    /// parts may then be others.
    pub fn put(&mut self, sources: &Sources<'_>, depot: &[u8]) -> Result<(), NoMemory>
        requires sources { AreSources sources.now }
        requires depot { AreShopsAt sources.now.family.now 0 depot.now }
        ensures { IfOk result (λ _. AreParts sources.now.family.now depot.now self.new) }
    {
        put_all_parts(&mut self.by_base, sources, depot)
    }
}

/// The tables for the shop units' stocks `depot` at the depot, with their parts at the bases.
pub fn depot_tables<'a>(
    alloc: Global,
    sources: &Sources<'_>,
    depot: &[u8],
    shops: &'a ShopParts,
) -> Result<DepotTables<'a>, NoMemory>
    requires sources { AreSources sources.now }
    requires depot { AreShopsAt sources.now.family.now 0 depot.now }
    requires shops { AreParts sources.now.family.now depot.now shops.now }
    ensures { IfOk result (AreTables sources.now.family.now depot.now) }
{
    sources.family.invariant();
    let at_depot = sources.depot_shops.as_slice();
    let line = depot_line(alloc, &sources.numbers, at_depot, depot)?;
    Ok(DepotTables { line, shops })
}

/// The first stock of a table, from `low` on, that leaves at most `1 / 2^halvings` of its pipeline as backorders, or
/// `high` if none below does.
fn likely_stock(table: &Table<48>, low: u8, high: u8, halvings: u32) -> u8
    requires order { low ≤ high }
    requires most { high ≤ most_stock }
    requires halvings { halvings ≤ 4 }
    ensures least { low ≤ result }
    ensures most { result ≤ high }
{
    let few = table.ebo(0).hi() >> halvings;
    for stock in low..high {
        if table.ebo(stock).hi() <= few {
            return stock;
        }
    }
    high
}

/// The line unit's first stock at the depot, from `low` on, that leaves at most a quarter of its pipeline there as
/// backorders, or `high` if none below does. A guess at the depot's stock of most vertices; no promise rests on it.
pub fn likely_line(tables: &DepotTables<'_>, low: u8, high: u8) -> u8
    requires order { low ≤ high }
    requires most { high ≤ most_stock }
    ensures least { low ≤ result }
    ensures most { result ≤ high }
{
    likely_stock(&tables.line, low, high, 2)
}

/// The number of a vector between `low` and `high`, in dictionary order, with a likely stock of each table.
fn likely_number(tables: &[Table<48>], low: &[u8], high: &[u8]) -> u64
    requires bounds { IsBox low.now high.now }
{
    let mut number: u64 = 0;
    for k in 0..low.len().min(tables.len()) {
        let stock = likely_stock(&tables[k], low[k], high[k], 4);
        let width = u64::from(high[k] - low[k]) + 1;
        number = number
            .saturating_mul(width)
            .saturating_add(u64::from(stock - low[k]));
    }
    number
}

/// The number of the shop units' vector at the depot that leaves at most a sixteenth of each one's pipeline there as
/// backorders. A guess at the vector of most vertices; no promise rests on it.
pub fn likely_shops(sources: &Sources<'_>) -> u64 {
    let family = sources.family;
    family.invariant();
    let low = shops_of(family.low(SiteId(0)));
    let high = shops_of(family.high(SiteId(0)));
    likely_number(sources.depot_shops.as_slice(), low, high)
}

/// The shop units' parts at a base.
pub fn shops_at<'a>(tables: &DepotTables<'a>, here: &BaseAt<'_, '_>) -> &'a [Moments<48>]
    requires here { IsBaseAt here.now }
    requires tables { AreTables here.now.family.now (drop 1 here.now.depot.now) tables.now }
    ensures { result.now ≡ parts_at here.now.family.now (drop 1 here.now.depot.now) here.now.site.0 }
{
    let bases = tables.shops.by_base.as_slice();
    bases[usize::from(here.site.0) - 1].as_slice()
}

/// The own part of the line unit's pipeline at a base, shared by all stocks of the shop units there.
pub fn own_at(here: &BaseAt<'_, '_>, numbers: &Numbers<48>, tables: &DepotTables<'_>) -> OwnPart<48>
    requires here { IsBaseAt here.now }
    requires numbers { numbers.now ≡ box_numbers here.now.family.now }
    requires tables { AreTables here.now.family.now (drop 1 here.now.depot.now) tables.now }
    ensures { result ≡ own_at numbers.now here.now.depot.now here.now.site.0 }
{
    let depot = here.depot;
    own_part(numbers, &tables.line, depot[0], shops_of(depot), here.site)
}

/// Overwrites `found` with the line unit's backorders at a base by its stock there. The shop units have the stocks
/// `shops` at the base; `own` is the line unit's own part, and `part` the shop units'.
pub fn put_backorders(
    found: &mut Vec<Iv64<48>>,
    here: &BaseAt<'_, '_>,
    numbers: &Numbers<48>,
    own: &OwnPart<48>,
    part: &Moments<48>,
    shops: &[u8],
) -> Result<(), NoMemory>
    requires here { IsBaseAt here.now }
    requires numbers { numbers.now ≡ box_numbers here.now.family.now }
    requires own { own.now ≡ own_at numbers.now here.now.depot.now here.now.site.0 }
    requires part { part.now ≡ shop_part 48 numbers.now here.now.site.0 (drop 1 here.now.depot.now) shops.now }
    requires shops { AreShopsAt here.now.family.now here.now.site.0 shops.now }
    ensures { IfOk result
        (λ _. IsRow here.now.family.now here.now.depot.now here.now.site.0 shops.now found.new.items) }
{
    let (site, depot) = (here.site, here.depot);
    put_line_backorders(
        found,
        numbers,
        own,
        depot[0],
        shops_of(depot),
        site,
        part,
        shops,
    )?;
    Ok(())
}
