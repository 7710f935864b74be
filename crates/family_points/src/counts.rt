//! The work that a family's curve takes, counted in tables.

ghost use Rattle.std.specs.Prelude.{◌≡◌, ◌^◌, ◌<◌, ◌≤◌, length, get_or, sum, drop};
ghost use Rattle.answers.specs.Counts.{count64};
ghost use Rattle.spares_input.specs.Stocks.{AreStocksOf};
ghost use Rattle.fleet_model.specs.Fleet.{family};
ghost use Rattle.family_items.specs.Inputs.{IsLine};
ghost use Rattle.family_points.specs.Counts.{product, choices_of, tables_of, tables_between, work_of};
ghost use Rattle.family_points.specs.Rooms.{AreRooms, widths_at, bounds_of};
ghost use Rattle.family_points.specs.Vectors.{limits, vector_of};
ghost use Rattle.family_points.specs.Points.{AreOrdered};

use crate::bounds::Bounds;
use crate::family::part_of;
use spares_input::{Case, PartId, SiteId, Stocks};

/// The most tables of all families together.
pub const MOST_TABLES: u64 = 1_000_000;

/// The stocks that the parts of a family can have.
#[derive(Clone, Copy)]
enum Rooms<'a> {
    /// From none to the limits.
    Whole,
    /// From the held stocks to the limits.
    Held(&'a Stocks),
    /// Within bounds.
    Within(&'a Bounds),
}

/// The number of stocks that the part at `place` in the family can have at a site.
fn room(case: &Case, line: PartId, rooms: Rooms<'_>, place: usize, site: SiteId) -> u64
    requires line { IsLine case.now line.0 }
    requires rooms { AreRooms case.now line.0 rooms }
    requires place { place < length (family case.now line.0) }
    requires site { site.0 < length case.now.sites }
    ensures room { result ≡ get_or (widths_at case.now line.0 rooms.entry site.0) place 0 }
    ensures most { result ≤ 64 }
{
    case.invariant();
    let members = case.family(line);
    match rooms {
        Rooms::Whole => u64::from(case.limit(members[place], site)) + 1,
        Rooms::Held(held) => {
            let part = members[place];
            u64::from(case.limit(part, site) - held.get(part, site)) + 1
        }
        Rooms::Within(bounds) => {
            let low = part_of(bounds.low.as_slice(), site, members.len());
            let high = part_of(bounds.high.as_slice(), site, members.len());
            u64::from(high[place] - low[place]) + 1
        }
    }
}

/// The numbers of stocks that the parts of a family can have at a site.
#[derive(Clone, Copy)]
struct SiteRooms {
    /// The line unit's number.
    line: u64,
    /// The sum over its shop units.
    sum: u64,
    /// The product over its shop units.
    shops: u64,
}

/// The numbers of stocks that the parts of a family can have at a site.
fn site_rooms(case: &Case, line: PartId, rooms: Rooms<'_>, site: SiteId) -> SiteRooms
    requires line { IsLine case.now line.0 }
    requires rooms { AreRooms case.now line.0 rooms }
    requires site { site.0 < length case.now.sites }
    ensures line { result.line ≡ get_or (widths_at case.now line.0 rooms.entry site.0) 0 0 }
    ensures sum { result.sum ≡ sum (drop 1 (widths_at case.now line.0 rooms.entry site.0)) }
    ensures shops { result.shops ≡ product (drop 1 (widths_at case.now line.0 rooms.entry site.0)) }
    ensures few { (result.line ≤ 64) × ((result.sum ≤ 576) × (result.shops ≤ 64 ^ 9)) }
{
    case.invariant();
    let mut sum = 0;
    let mut shops = 1;
    for i in 1..case.family(line).len() {
        let room = room(case, line, rooms, i, site);
        sum += room;
        shops *= room;
    }
    SiteRooms {
        line: room(case, line, rooms, 0, site),
        sum,
        shops,
    }
}

/// The number of tables that a family's curve takes over the vectors with these stocks, or 2^64 - 1 if it takes more.
fn count_tables(case: &Case, line: PartId, rooms: Rooms<'_>) -> u64
    requires line { IsLine case.now line.0 }
    requires rooms { AreRooms case.now line.0 rooms }
    ensures { let x = bounds_of case.now line.0 rooms.entry in
        result ≡ count64 (tables_between case.now line.0 x.low x.high) }
{
    let bases = u64::from(case.site_count()) - 1;
    let units = case.family(line).len() as u64 - 1;
    let depot = site_rooms(case, line, rooms, SiteId(0));
    let mut shops: u64 = 0;
    for j in 1..case.site_count() {
        shops += site_rooms(case, line, rooms, SiteId(j)).shops;
    }
    (units + depot.shops + bases * depot.sum).saturating_add(
        (depot.line * depot.shops).saturating_mul(shops),
    )
}

/// The number of vectors of a line unit's family, or 2^64 - 1 if there are more. No command calls it.
pub fn choices(case: &Case, line: PartId) -> u64
    requires { IsLine case.now line.0 }
    ensures { result ≡ count64 (choices_of case.now line.0) }
{
    let mut choices: u64 = 1;
    for k in 0..case.site_count() {
        let rooms = site_rooms(case, line, Rooms::Whole, SiteId(k));
        choices = choices.saturating_mul(rooms.line * rooms.shops);
    }
    choices
}

/// The number of tables that a family's curve over all its vectors takes, or 2^64 - 1 if it takes more.
pub fn tables(case: &Case, line: PartId) -> u64
    requires { IsLine case.now line.0 }
    ensures { result ≡ count64 (tables_of case.now line.0) }
{
    case.invariant();
    count_tables(case, line, Rooms::Whole)
}

/// The number of tables that a family's curve takes from the held stocks to the limits, or 2^64 - 1 if it takes more.
/// The held stocks are a list for the case, within its limits.
pub fn held_tables(case: &Case, line: PartId, held: &Stocks) -> u64
    requires line { IsLine case.now line.0 }
    requires held { AreStocksOf case.now held.now }
    ensures { result ≡ count64 (tables_between case.now line.0
        (vector_of case.now line.0 held.now.list) (limits case.now line.0)) }
{
    count_tables(case, line, Rooms::Held(held))
}

/// The number of tables that a family's curve takes within the bounds, or 2^64 - 1 if it takes more.
pub fn tables_within(case: &Case, line: PartId, bounds: &Bounds) -> u64
    requires line { IsLine case.now line.0 }
    requires ordered { AreOrdered case.now line.0 bounds.now.held bounds.now.low bounds.now.high }
    ensures { result ≡ count64 (tables_between case.now line.0 bounds.now.low bounds.now.high) }
{
    count_tables(case, line, Rooms::Within(bounds))
}

/// The number of tables of all families together. A number above 1,000,000 is the error, capped at 2^64 - 1.
pub fn work(case: &Case) -> Result<u64, u64>
    ensures { result ≡ work_of case.now }
{
    let mut work: u64 = 0;
    let lines = case.line_units();
    for line in lines {
        work = work.saturating_add(tables(case, *line));
    }
    if work <= MOST_TABLES {
        Ok(work)
    } else {
        Err(work)
    }
}
