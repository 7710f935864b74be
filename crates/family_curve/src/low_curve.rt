//! The curve of lower bounds on the points of a base. At each price it is no higher than the points themselves, and it
//! costs less work than their curve.

ghost use Rattle.std.specs.Prelude.{
  ◌≡◌,
  ◌+◌,
  ◌-◌,
  ◌<◌,
  ◌≤◌,
  ◌⊎◌,
  [],
  IfOk,
  IsTrue,
  drop,
  get_or,
  length,
  map,
  take,
  vec_len,
};
ghost use Rattle.hull.specs.declared.point.Point.{Point};
ghost use Rattle.hull.specs.Curves.{Among};
ghost use Rattle.hull.specs.Limits.{most_points};
ghost use Rattle.family_numbers.specs.Numbers.{shop_part};
ghost use Rattle.family_points.specs.Counts.{most_vertices};
ghost use Rattle.family_points.specs.Separation.{base_points};
ghost use Rattle.family_points.specs.Inputs.{AreShopsAt, line_low, shop_vectors, vector_count};
ghost use Rattle.family_points.specs.Choices.{IsChoice, choice_point};
ghost use Rattle.family_rows.specs.Spots.{IsBaseAt};
ghost use Rattle.family_rows.specs.Tabled.{AreTables, box_numbers, own_at};
ghost use Rattle.family_curve.specs.LowCurves.{AreLowRows, IsLowRow, IsLowSpot, IsLowTo, TakesLow, low_point};
ghost use Rattle.family_curve.specs.Under.{LieBelow, LieUnder};

use answers::NoMemory;
use depot_pipeline::Moments;
use family_bases::lows::{reach_least, walk_at};
use family_numbers::Numbers;
use family_numbers::own_part::OwnPart;
use family_points::order::{Base, Choice};
use family_rows::base_at::BaseAt;
use family_rows::depot::{DepotTables, own_at, shops_at};
use hull::{Chain, Score, Spot};
use std::alloc::Global;

/// A lower bound on the score of a choice at a base, with the choice's cost; without its stocks.
#[derive(Clone, Copy, Drop)]
pub(crate) struct LowSpot {
    /// The cost, as far as the stocks exceed those held.
    pub cost: u64,
    /// The bound, in units of 2^-48.
    pub lo: u128,
}

impl Spot for LowSpot {
    ghost point = { low_point };

    fn cost(&self) -> u64 {
        self.cost
    }

    fn lo(&self) -> u128 {
        self.lo
    }

    fn hi(&self) -> u128 {
        self.lo
    }

    fn is_first(&self, _other: &LowSpot) -> bool {
        true
    }

    fn put_stocks(&self, _to: &mut Vec<u8>) -> Result<(), NoMemory> {
        Ok(())
    }
}

impl LowSpot {
    /// The same at one unit of money less, so that it lies below the choice's point, not at its place. At cost 0 the
    /// bound is one unit lower instead, if it is above 0.
    #[inline(always)]
    fn lowered(self) -> LowSpot
        ensures cost { result.cost ≡ self.cost - 1 }
        ensures lo { result.lo ≤ self.lo }
        ensures lower { (0 < self.cost) ⊎ (0 < self.lo) → (result.cost < self.cost) ⊎ (result.lo < self.lo) }
    {
        if self.cost > 0 {
            LowSpot {
                cost: self.cost - 1,
                lo: self.lo,
            }
        } else {
            LowSpot {
                cost: self.cost,
                lo: self.lo.saturating_sub(1),
            }
        }
    }

    /// Whether the cost or the bound is above 0: then the lowered bound lies below the choice's point.
    #[inline(always)]
    fn is_above_zero(&self) -> bool
        ensures { IsTrue result → (0 < self.now.cost) ⊎ (0 < self.now.lo) }
    {
        self.cost > 0 || self.lo > 0
    }
}

/// A chain has room for no more points at first.
const FIRST_ROOM: usize = 16;

/// A placeholder chain for each base: one point of cost and score 0. Want of memory is the only error.
pub(crate) fn low_chains_of(alloc: Global, bases: &[Base]) -> Result<Vec<Chain<LowSpot>>, NoMemory>
    ensures { IfOk result (λ c. length c.items ≡ length bases.now) }
{
    let count = bases.len();
    let mut chains = Vec::with_capacity(alloc, count)?;
    for place in 0..count {
        let nothing = LowSpot { cost: 0, lo: 0 };
        let room = bases[place].order.len().min(FIRST_ROOM);
        let chain = Chain::one(alloc, room, nothing)?;
        chains.push(chain)?;
    }
    Ok(chains)
}

/// Makes sure that there are at least `count` rows.
fn make_rows(rows: &mut Vec<Vec<u64>>, count: usize) -> Result<(), NoMemory>
    ensures { IfOk result (λ _. count ≤ vec_len rows.new) }
{
    let alloc = *rows.allocator();
    for _place in rows.len()..count {
        rows.push(Vec::new(alloc))?;
    }
    Ok(())
}

/// Sets `row` to lower bounds on the line unit's backorders at a base, by its stock there, from the least on. The shop
/// units have the stocks `shops` at the base; `own` is the line unit's own part, and `part` the shop units'.
fn put_low_row(
    row: &mut Vec<u64>,
    here: &BaseAt<'_, '_>,
    numbers: &Numbers<48>,
    own: &OwnPart<48>,
    part: &Moments<48>,
    shops: &[u8],
) -> Result<(), NoMemory>
    requires here { IsBaseAt here.now }
    requires numbers { numbers.now ≡ box_numbers here.now.family.now }
    requires own { own.now ≡ own_at numbers.now here.now.depot.now here.now.site.0 }
    requires part { part.now ≡ shop_part 48 numbers.now here.now.site.0 (drop 1 here.now.depot.now) shops.now }
    requires shops { AreShopsAt here.now.family.now here.now.site.0 shops.now }
    ensures { IfOk result
        (λ _. IsLowRow here.now.family.now here.now.depot.now here.now.site.0 shops.now row.new.items) }
{
    let first = here.family.line_low(here.site);
    let last = here.family.line_high(here.site);
    let mut walk = walk_at(here, numbers, own, part, shops);
    reach_least(&mut walk, here);
    row.clear();
    row.push(walk.low())?;
    for _s in first..last {
        walk.advance();
        row.push(walk.low())?;
    }
    Ok(())
}

/// Sets `rows` to such bounds: one row for each choice of the shop units' stocks at a base.
fn put_low_rows(
    rows: &mut Vec<Vec<u64>>,
    here: &BaseAt<'_, '_>,
    numbers: &Numbers<48>,
    tables: &DepotTables<'_>,
) -> Result<(), NoMemory>
    requires here { IsBaseAt here.now }
    requires numbers { numbers.now ≡ box_numbers here.now.family.now }
    requires tables { AreTables here.now.family.now (drop 1 here.now.depot.now) tables.now }
    ensures long { IfOk result
        (λ _. length (shop_vectors here.now.family.now here.now.site.0) ≤ length rows.new.items) }
    ensures rows { IfOk result (λ _. AreLowRows here.now (map (λ r. r.items)
        (take (length (shop_vectors here.now.family.now here.now.site.0)) rows.new.items))) }
{
    let count = here.base.shops.len();
    make_rows(rows, count)?;
    let own = own_at(here, numbers, tables);
    let parts = shops_at(tables, here);
    for n in 0..count {
        let shops = here.base.shops[n].stocks.as_slice();
        put_low_row(&mut rows[n], here, numbers, &own, &parts[n], shops)?;
    }
    Ok(())
}

/// The row of a choice's shop units' stocks.
#[inline(always)]
fn low_row_at<'r>(here: &BaseAt<'_, '_>, rows: &'r [Vec<u64>], choice: &Choice) -> &'r [u64]
    requires rows { AreLowRows here.now (map (λ r. r.items) rows.now) }
    requires choice { IsChoice here.now.family.now here.now.site.0 choice.now }
    ensures { IsLowRow here.now.family.now here.now.depot.now here.now.site.0
        (get_or (shop_vectors here.now.family.now here.now.site.0) choice.now.shops []) result.now }
{
    let count = rows.len();
    prove!(choice.shops < count);
    rows[choice.shops].as_slice()
}

/// A lower bound on the score of a choice, by the row of its shop units' stocks. `least` is the line unit's least stock
/// at the base.
#[inline(always)]
fn low_spot<S: Score>(
    here: &BaseAt<'_, '_>,
    score: &S,
    row: &[u64],
    choice: &Choice,
    least: u8,
) -> LowSpot
    requires here { IsBaseAt here.now }
    requires choice { IsChoice here.now.family.now here.now.site.0 choice.now }
    requires row { IsLowRow here.now.family.now here.now.depot.now here.now.site.0
        (get_or (shop_vectors here.now.family.now here.now.site.0) choice.now.shops []) row.now }
    requires least { least ≡ line_low here.now.family.now here.now.site.0 }
    ensures { IsLowSpot result
        (choice_point S.ends here.now.family.now here.now.depot.now here.now.site.0 choice.now) }
{
    let low = row[usize::from(choice.line - least)];
    LowSpot {
        cost: choice.cost,
        lo: here.low(score, low),
    }
}

/// Makes `chain` the chain of a choice's lowered bound. The answer is whether this is below the choice's point.
fn begin_low<S: Score>(
    chain: &mut Chain<LowSpot>,
    here: &BaseAt<'_, '_>,
    score: &S,
    row: &[u64],
    choice: &Choice,
    least: u8,
) -> bool
    requires here { IsBaseAt here.now }
    requires choice { IsChoice here.now.family.now here.now.site.0 choice.now }
    requires row { IsLowRow here.now.family.now here.now.depot.now here.now.site.0
        (get_or (shop_vectors here.now.family.now here.now.site.0) choice.now.shops []) row.now }
    requires least { least ≡ line_low here.now.family.now here.now.site.0 }
    ensures taken { TakesLow
        (choice_point S.ends here.now.family.now here.now.depot.now here.now.site.0 choice.now) [] chain.new result }
    ensures one { length chain.new ≡ 1 }
{
    let spot = low_spot(here, score, row, choice, least);
    chain.begin_with(spot.lowered());
    spot.is_above_zero()
}

/// Adds a choice's lowered bound to a chain. The answer is whether this is below the choice's point, and `strict`. Want
/// of memory is the only error.
#[inline(always)]
fn take_low<S: Score>(
    chain: &mut Chain<LowSpot>,
    here: &BaseAt<'_, '_>,
    score: &S,
    row: &[u64],
    choice: &Choice,
    least: u8,
    strict: bool,
) -> Result<bool, NoMemory>
    requires here { IsBaseAt here.now }
    requires choice { IsChoice here.now.family.now here.now.site.0 choice.now }
    requires row { IsLowRow here.now.family.now here.now.depot.now here.now.site.0
        (get_or (shop_vectors here.now.family.now here.now.site.0) choice.now.shops []) row.now }
    requires least { least ≡ line_low here.now.family.now here.now.site.0 }
    requires order { (v : Point) → Among v chain.old → v.cost ≤ choice.now.cost - 1 }
    requires bare { (v : Point) → Among v chain.old → v.stocks ≡ [] }
    requires room { length chain.old + 1 ≤ most_points }
    ensures taken { IfOk result (TakesLow
        (choice_point S.ends here.now.family.now here.now.depot.now here.now.site.0 choice.now) chain.old chain.new) }
    ensures strict { IfOk result (λ low. IsTrue low → IsTrue strict) }
    ensures few { IfOk result (λ _. length chain.new ≤ length chain.old + 1) }
{
    let spot = low_spot(here, score, row, choice, least);
    chain.take(spot.lowered())?;
    Ok(strict && spot.is_above_zero())
}

/// Sets `chain` to the chain of lowered bounds on all points of a base. The answer is whether all of them are below the
/// points. Want of memory is the only error.
fn put_low_points<S: Score>(
    chain: &mut Chain<LowSpot>,
    here: &BaseAt<'_, '_>,
    score: &S,
    rows: &[Vec<u64>],
) -> Result<bool, NoMemory>
    requires here { IsBaseAt here.now }
    requires rows { AreLowRows here.now (map (λ r. r.items) rows.now) }
    requires some { 0 < length here.now.base.now.order.items }
    requires room { length here.now.base.now.order.items ≤ most_vertices }
    ensures low { IfOk result (IsLowTo
        (map (choice_point S.ends here.now.family.now here.now.depot.now here.now.site.0)
        here.now.base.now.order.items) chain.new) }
    ensures few { IfOk result (λ _. length chain.new ≤ length here.now.base.now.order.items) }
{
    let least = here.family.line_low(here.site);
    let first = &here.base.order[0];
    let row = low_row_at(here, rows, first);
    let mut strict = begin_low(chain, here, score, row, first, least);
    for n in 1..here.base.order.len() {
        let choice = &here.base.order[n];
        let row = low_row_at(here, rows, choice);
        strict = take_low(chain, here, score, row, choice, least, strict)?;
    }
    Ok(strict)
}

/// Sets `chain` to the curve of lower bounds on the points of a base, and `rows` to lower bounds on the backorders
/// there. The answer is whether the curve is below the points. Want of memory is the only error; `chain` may then hold
/// only some of the bounds.
pub(crate) fn put_low_curve<S: Score>(
    chain: &mut Chain<LowSpot>,
    rows: &mut Vec<Vec<u64>>,
    here: &BaseAt<'_, '_>,
    score: &S,
    numbers: &Numbers<48>,
    tables: &DepotTables<'_>,
) -> Result<bool, NoMemory>
    requires here { IsBaseAt here.now }
    requires numbers { numbers.now ≡ box_numbers here.now.family.now }
    requires tables { AreTables here.now.family.now (drop 1 here.now.depot.now) tables.now }
    requires room { vector_count here.now.family.now here.now.site.0 ≤ most_vertices }
    ensures under { IfOk result (λ _. LieUnder chain.new
        (base_points S.ends here.now.family.now here.now.depot.now here.now.site.0)) }
    ensures below { IfOk result (λ strict. IsTrue strict → LieBelow chain.new
        (base_points S.ends here.now.family.now here.now.depot.now here.now.site.0)) }
    ensures few { IfOk result (λ _. length chain.new ≤ vector_count here.now.family.now here.now.site.0) }
{
    put_low_rows(rows, here, numbers, tables)?;
    let count = here.base.shops.len();
    put_low_points(chain, here, score, &rows.as_slice()[..count])
}
