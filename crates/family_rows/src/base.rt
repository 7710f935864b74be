//! The rows of backorders at a base, and the points of its choices.

ghost use Rattle.std.specs.Prelude.{◌≡◌, ◌+◌, ◌^◌, ◌<◌, ◌≤◌, ◌++◌, [], IfOk, drop, length, map, take, vec_len};
ghost use Rattle.fixed_interval.specs.Ends.{IsWithinLimit};
ghost use Rattle.family_items.specs.Profile.{item_of};
ghost use Rattle.family_points.specs.Separation.{base_stocks};
ghost use Rattle.family_points.specs.Inputs.{shop_vectors};
ghost use Rattle.family_points.specs.Choices.{IsChoice, choice_point, choice_stocks};
ghost use Rattle.family_rows.specs.Spots.{AreRows, IsBaseAt, IsRowOf, spot_point};
ghost use Rattle.family_rows.specs.Tabled.{AreTables, box_numbers, own_at, parts_at};

use crate::base_at::BaseAt;
use crate::depot::{DepotTables, own_at, put_backorders, shops_at};
use answers::NoMemory;
use depot_pipeline::Moments;
use family_numbers::Numbers;
use family_numbers::own_part::OwnPart;
use family_points::order::Choice;
use fixed_interval::Iv;
use hull::{Score, Spot, is_first};
use series_bounds::short::Iv64;
use std::alloc::Global;

/// Stocks at a base, with their cost and the ends of their score.
#[derive(Drop)]
pub struct BaseSpot<'a> {
    /// The lower end of the score, in units of 2^-48.
    pub lo: u128,
    /// The upper end.
    pub hi: u128,
    /// The stocks of the shop units, in part order.
    pub shops: &'a [u8],
    /// The cost, as far as the stocks exceed those held.
    pub cost: u64,
    /// The stock of the line unit.
    pub line: u8,
}

impl<'a> Spot for BaseSpot<'a> {
    ghost point = { spot_point };

    fn cost(&self) -> u64 {
        self.cost
    }

    fn lo(&self) -> u128 {
        self.lo
    }

    fn hi(&self) -> u128 {
        self.hi
    }

    fn is_first(&self, other: &BaseSpot<'a>) -> bool {
        self.line < other.line || (self.line == other.line && is_first(self.shops, other.shops))
    }

    fn put_stocks(&self, to: &mut Vec<u8>) -> Result<(), NoMemory> {
        to.push(self.line)?;
        for n in 0..self.shops.len() {
            to.push(self.shops[n])?;
        }
        Ok(())
    }
}

/// Makes sure that there are at least `count` rows.
fn make_rows(rows: &mut Vec<Vec<Iv64<48>>>, count: usize) -> Result<(), NoMemory>
    ensures { IfOk result (λ _. count ≤ vec_len rows.new) }
{
    let alloc = *rows.allocator();
    for _place in rows.len()..count {
        rows.push(Vec::new(alloc))?;
    }
    Ok(())
}

/// Sets `row` to the line unit's backorders at a base for the `n`-th choice of the shop units' stocks, listed by the
/// line unit's stock. `own` is the line unit's own part of its pipeline there, and `parts` are the shop units'.
pub fn put_row(
    row: &mut Vec<Iv64<48>>,
    here: &BaseAt<'_, '_>,
    numbers: &Numbers<48>,
    own: &OwnPart<48>,
    parts: &[Moments<48>],
    n: usize,
) -> Result<(), NoMemory>
    requires here { IsBaseAt here.now }
    requires numbers { numbers.now ≡ box_numbers here.now.family.now }
    requires own { own.now ≡ own_at numbers.now here.now.depot.now here.now.site.0 }
    requires parts { parts.now ≡ parts_at here.now.family.now (drop 1 here.now.depot.now) here.now.site.0 }
    requires place { n < length (shop_vectors here.now.family.now here.now.site.0) }
    ensures { IfOk result (λ _. IsRowOf here.now n row.new.items) }
{
    let stocks = here.base.shops[n].stocks.as_slice();
    put_backorders(row, here, numbers, own, &parts[n], stocks)
}

/// Sets `rows` to the line unit's backorders at a base: one row for each choice of the shop units' stocks, listed by
/// the line unit's stock.
pub fn put_rows(
    rows: &mut Vec<Vec<Iv64<48>>>,
    here: &BaseAt<'_, '_>,
    numbers: &Numbers<48>,
    tables: &DepotTables<'_>,
) -> Result<(), NoMemory>
    requires here { IsBaseAt here.now }
    requires numbers { numbers.now ≡ box_numbers here.now.family.now }
    requires tables { AreTables here.now.family.now (drop 1 here.now.depot.now) tables.now }
    ensures long { IfOk result
        (λ _. length (shop_vectors here.now.family.now here.now.site.0) ≤ length rows.new.items) }
    ensures rows { IfOk result (λ _. AreRows here.now (map (λ r. r.items)
        (take (length (shop_vectors here.now.family.now here.now.site.0)) rows.new.items))) }
{
    let count = here.base.shops.len();
    make_rows(rows, count)?;
    let own = own_at(here, numbers, tables);
    let parts = shops_at(tables, here);
    for n in 0..count {
        put_row(&mut rows[n], here, numbers, &own, parts, n)?;
    }
    Ok(())
}

/// The line unit's backorders for a choice, read from the row of its shop units' stocks.
#[inline(always)]
fn backorders_of(here: &BaseAt<'_, '_>, row: &[Iv64<48>], choice: &Choice) -> Iv<48>
    requires here { IsBaseAt here.now }
    requires choice { IsChoice here.now.family.now here.now.site.0 choice.now }
    requires row { IsRowOf here.now choice.now.shops row.now }
    ensures small { IsWithinLimit 48 result }
    ensures ends { let x = here.now.family.now in let j = here.now.site.0 in result ≡ (item_of 48 x.case
        (base_stocks x here.now.depot.now j (choice_stocks x j choice.now)) x.line j).backorders }
{
    row[usize::from(choice.line)].open()
}

/// The point of a choice, scored by the row of its shop units' stocks.
#[inline(always)]
pub fn spot_by_row<'b, S: Score>(
    here: &BaseAt<'_, 'b>,
    score: &S,
    row: &[Iv64<48>],
    choice: &Choice,
) -> BaseSpot<'b>
    requires here { IsBaseAt here.now }
    requires choice { IsChoice here.now.family.now here.now.site.0 choice.now }
    requires row { IsRowOf here.now choice.now.shops row.now }
    ensures { spot_point result
        ≡ choice_point S.ends here.now.family.now here.now.depot.now here.now.site.0 choice.now }
{
    let backorders = backorders_of(here, row, choice);
    let scored = here.score(score, backorders);
    BaseSpot {
        cost: choice.cost,
        lo: scored.lo(),
        hi: scored.hi(),
        line: choice.line,
        shops: here.base.shops[choice.shops].stocks.as_slice(),
    }
}

/// The row of a choice's shop units' stocks.
#[inline(always)]
pub fn row_at<'r>(
    here: &BaseAt<'_, '_>,
    rows: &'r [Vec<Iv64<48>>],
    choice: &Choice,
) -> &'r [Iv64<48>]
    requires rows { AreRows here.now (map (λ r. r.items) rows.now) }
    requires choice { IsChoice here.now.family.now here.now.site.0 choice.now }
    ensures { IsRowOf here.now choice.now.shops result.now }
{
    let count = rows.len();
    prove!(choice.shops < count);
    rows[choice.shops].as_slice()
}

/// The point of a choice, scored by the base's rows.
pub fn spot_at<'b, S: Score>(
    here: &BaseAt<'_, 'b>,
    score: &S,
    rows: &[Vec<Iv64<48>>],
    choice: &Choice,
) -> BaseSpot<'b>
    requires here { IsBaseAt here.now }
    requires rows { AreRows here.now (map (λ r. r.items) rows.now) }
    requires choice { IsChoice here.now.family.now here.now.site.0 choice.now }
    ensures { spot_point result
        ≡ choice_point S.ends here.now.family.now here.now.depot.now here.now.site.0 choice.now }
{
    spot_by_row(here, score, row_at(here, rows, choice), choice)
}
