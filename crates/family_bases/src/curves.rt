//! The curve of each base at given stocks of the depot.

ghost use Rattle.std.specs.Prelude.{◌≡◌, ◌+◌, ◌<◌, ◌≤◌, ◌++◌, ◌∷◌, [], IfOk, drop, length, map, take, vec_len};
ghost use Rattle.hull.specs.declared.point.Point.{Point};
ghost use Rattle.hull.specs.Curves.{Among, IsCurve, StandFor};
ghost use Rattle.hull.specs.Limits.{most_points};
ghost use Rattle.family_points.specs.Counts.{most_vertices};
ghost use Rattle.family_points.specs.Separation.{base_points};
ghost use Rattle.family_points.specs.Inputs.{vector_count};
ghost use Rattle.family_points.specs.Choices.{IsChoice, choice_point, choice_stocks};
ghost use Rattle.family_rows.specs.Spots.{AreRows, IsBaseAt, IsRowOf};
ghost use Rattle.family_rows.specs.Tabled.{AreTables, box_numbers};

use answers::NoMemory;
use family_numbers::Numbers;
use family_points::order::{Base, Choice};
use family_rows::base::{BaseSpot, put_rows, row_at, spot_at, spot_by_row};
use family_rows::base_at::BaseAt;
use family_rows::depot::DepotTables;
use hull::{Chain, Score};
use series_bounds::short::Iv64;
use std::alloc::Global;

/// A chain has room for no more points at first.
const FIRST_ROOM: usize = 16;

/// A placeholder chain for each base: one point of cost and score 0, without stocks. Want of memory is the only error.
pub fn chains_of<'a>(alloc: Global, bases: &'a [Base]) -> Result<Vec<Chain<BaseSpot<'a>>>, NoMemory>
    ensures { IfOk result (λ v. length v.items ≡ length bases.now) }
{
    let count = bases.len();
    let mut chains = Vec::with_capacity(alloc, count)?;
    for place in 0..count {
        let nothing = BaseSpot {
            cost: 0,
            lo: 0,
            hi: 0,
            line: 0,
            shops: &[],
        };
        let room = bases[place].order.len().min(FIRST_ROOM);
        let chain = Chain::one(alloc, room, nothing)?;
        chains.push(chain)?;
    }
    Ok(chains)
}

/// Adds the point of a choice to a chain, scored by the row of its shop units' stocks. Want of memory is the only
/// error.
#[inline(always)]
pub fn take_choice<'b, S: Score>(
    chain: &mut Chain<BaseSpot<'b>>,
    here: &BaseAt<'_, 'b>,
    score: &S,
    row: &[Iv64<48>],
    choice: &Choice,
) -> Result<(), NoMemory>
    requires here { IsBaseAt here.now }
    requires choice { IsChoice here.now.family.now here.now.site.0 choice.now }
    requires row { IsRowOf here.now choice.now.shops row.now }
    requires order { (v : Point) → Among v chain.old → v.cost ≤ choice.now.cost }
    requires width { (v : Point) → Among v chain.old
        → length v.stocks ≡ length (choice_stocks here.now.family.now here.now.site.0 choice.now) }
    requires room { length chain.old + 1 ≤ most_points }
    ensures stands { IfOk result (λ _. StandFor (chain.old
        ++ choice_point S.ends here.now.family.now here.now.depot.now here.now.site.0 choice.now ∷ []) chain.new) }
    ensures few { IfOk result (λ _. length chain.new ≤ length chain.old + 1) }
{
    let spot = spot_by_row(here, score, row, choice);
    chain.take(spot)
}

/// Sets `chain` to the chain of all points of a base.
fn put_points<'b, S: Score>(
    chain: &mut Chain<BaseSpot<'b>>,
    here: &BaseAt<'_, 'b>,
    score: &S,
    rows: &[Vec<Iv64<48>>],
) -> Result<(), NoMemory>
    requires here { IsBaseAt here.now }
    requires rows { AreRows here.now (map (λ r. r.items) rows.now) }
    requires some { 0 < length here.now.base.now.order.items }
    requires room { length here.now.base.now.order.items ≤ most_vertices }
    ensures stands { IfOk result (λ _. StandFor
        (map (choice_point S.ends here.now.family.now here.now.depot.now here.now.site.0)
        here.now.base.now.order.items) chain.new) }
    ensures few { IfOk result (λ _. length chain.new ≤ length here.now.base.now.order.items) }
{
    let first = &here.base.order[0];
    chain.begin_with(spot_at(here, score, rows, first));
    for n in 1..here.base.order.len() {
        let choice = &here.base.order[n];
        take_choice(chain, here, score, row_at(here, rows, choice), choice)?;
    }
    Ok(())
}

/// Sets `chain` to the curve of a base, and `rows` to the backorders there. Want of memory is the only error; `chain`
/// may then hold only some of the base's points.
pub fn put_curve<'b, S: Score>(
    chain: &mut Chain<BaseSpot<'b>>,
    rows: &mut Vec<Vec<Iv64<48>>>,
    here: &BaseAt<'_, 'b>,
    score: &S,
    numbers: &Numbers<48>,
    tables: &DepotTables<'_>,
) -> Result<(), NoMemory>
    requires here { IsBaseAt here.now }
    requires numbers { numbers.now ≡ box_numbers here.now.family.now }
    requires tables { AreTables here.now.family.now (drop 1 here.now.depot.now) tables.now }
    requires room { vector_count here.now.family.now here.now.site.0 ≤ most_vertices }
    ensures curve { IfOk result (λ _.
        IsCurve (base_points S.ends here.now.family.now here.now.depot.now here.now.site.0) chain.new) }
    ensures few { IfOk result (λ _. length chain.new ≤ vector_count here.now.family.now here.now.site.0) }
{
    put_rows(rows, here, numbers, tables)?;
    let count = here.base.shops.len();
    put_points(chain, here, score, &rows.as_slice()[..count])?;
    chain.invariant();
    Ok(())
}
