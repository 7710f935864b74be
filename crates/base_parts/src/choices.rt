//! The curve of a base without the choices of the shop units' stocks that lower bounds pass over.

ghost use Rattle.std.specs.Prelude.{◌≡◌, ◌+◌, ◌<◌, ◌≤◌, ◌++◌, [], IfOk, IsFalse, IsTrue, drop, get_or, length, map, ℕ};
ghost use Rattle.hull.specs.declared.point.Point.{Point};
ghost use Rattle.hull.specs.Curves.{Among, IsCurve, StandFor};
ghost use Rattle.hull.specs.Limits.{most_points};
ghost use Rattle.curve_parts.specs.Joins.{PassesAbove};
ghost use Rattle.curve_parts.specs.Cuts.{IsSmall};
ghost use Rattle.family_points.specs.declared.order.Choice.{Choice};
ghost use Rattle.family_points.specs.Counts.{most_vertices};
ghost use Rattle.family_points.specs.Separation.{base_points};
ghost use Rattle.family_points.specs.Inputs.{shop_vectors, vector_count};
ghost use Rattle.family_points.specs.Choices.{IsChoice, choice_stocks};
ghost use Rattle.family_rows.specs.Spots.{IsBaseAt};
ghost use Rattle.family_rows.specs.Tabled.{AreTables, box_numbers, own_at, parts_at};
ghost use Rattle.base_parts.specs.Choices.{AreKept, IsCurveWithout, IsSettled, kept_point, kept_points};

use answers::NoMemory;
use curve_parts::Vertices;
use depot_pipeline::Moments;
use family_bases::curves::{put_curve, take_choice};
use family_bases::lows::{Lows, put_lows};
use family_numbers::Numbers;
use family_numbers::own_part::OwnPart;
use family_points::order::Choice;
use family_rows::base::{BaseSpot, put_row, spot_by_row};
use family_rows::base_at::BaseAt;
use family_rows::depot::{DepotTables, own_at, shops_at};
use hull::{Chain, Price, Score};
use series_bounds::short::Iv64;

/// The place, in the order of the choices at a base, of the first one whose bounds have the least sum.
fn likely_place(here: &BaseAt<'_, '_>, lows: &[Lows]) -> usize
    requires here { IsBaseAt here.now }
    requires some { 0 < length here.now.base.now.order.items }
    requires count { length lows.now ≡ length (shop_vectors here.now.family.now here.now.site.0) }
    ensures { result < length here.now.base.now.order.items }
{
    let first = lows[here.base.order[0].shops];
    let mut least = first.at_low.saturating_add(first.at_high);
    let mut place = 0;
    for n in 1..here.base.order.len() {
        let bounds = lows[here.base.order[n].shops];
        let sum = bounds.at_low.saturating_add(bounds.at_high);
        if sum < least {
            least = sum;
            place = n;
        }
    }
    place
}

/// Empties the first `count` rows, and makes those that aren't there.
fn clear_rows(rows: &mut Vec<Vec<Iv64<48>>>, count: usize) -> Result<(), NoMemory>
    ensures long { IfOk result (λ _. count ≤ length rows.new.items) }
    ensures empty { IfOk result
        (λ _. (k : ℕ) → k < count → get_or (map (λ r. r.items) rows.new.items) k [] ≡ []) }
{
    let alloc = *rows.allocator();
    for n in 0..count {
        if n < rows.len() {
            rows[n].clear();
        } else {
            rows.push(Vec::new(alloc))?;
        }
    }
    Ok(())
}

/// The place of the first choice in order that has a row; the one at the place `at` has one.
fn first_kept(here: &BaseAt<'_, '_>, rows: &[Vec<Iv64<48>>], at: usize) -> usize
    requires here { IsBaseAt here.now }
    requires long { length (shop_vectors here.now.family.now here.now.site.0) ≤ length rows.now }
    requires within { at < length here.now.base.now.order.items }
    requires kept { (v : Choice) → v ≡ get_or here.now.base.now.order.items at v
        → 0 < length (get_or (map (λ r. r.items) rows.now) v.shops []) }
    ensures within { result < length here.now.base.now.order.items }
    ensures kept { (v : Choice) → v ≡ get_or here.now.base.now.order.items result v
        → 0 < length (get_or (map (λ r. r.items) rows.now) v.shops []) }
    ensures first { (k : ℕ) (v : Choice) → k < result → v ≡ get_or here.now.base.now.order.items k v
        → length (get_or (map (λ r. r.items) rows.now) v.shops []) ≡ 0 }
{
    for n in 0..at {
        if !rows[here.base.order[n].shops].is_empty() {
            return n;
        }
    }
    at
}

/// Adds the point of a choice to a chain, if it has a row.
fn add_kept<'b, S: Score>(
    chain: &mut Chain<BaseSpot<'b>>,
    here: &BaseAt<'_, 'b>,
    score: &S,
    rows: &[Vec<Iv64<48>>],
    choice: &Choice,
) -> Result<(), NoMemory>
    requires here { IsBaseAt here.now }
    requires long { length (shop_vectors here.now.family.now here.now.site.0) ≤ length rows.now }
    requires rows { AreKept here.now (map (λ r. r.items) rows.now) }
    requires choice { IsChoice here.now.family.now here.now.site.0 choice.now }
    requires order { (v : Point) → Among v chain.old → v.cost ≤ choice.now.cost }
    requires width { (v : Point) → Among v chain.old
        → length v.stocks ≡ length (choice_stocks here.now.family.now here.now.site.0 choice.now) }
    requires room { length chain.old + 1 ≤ most_points }
    ensures stands { IfOk result (λ _. StandFor
        (chain.old ++ kept_point S.ends here.now (map (λ r. r.items) rows.now) choice.now) chain.new) }
    ensures few { IfOk result (λ _. length chain.new ≤ length chain.old + 1) }
{
    let row = rows[choice.shops].as_slice();
    if row.is_empty() {
        return Ok(());
    }
    take_choice(chain, here, score, row, choice)
}

/// Sets `chain` to the curve of all choices that have a row; the one at the place `at` has one.
fn put_kept<'b, S: Score>(
    chain: &mut Chain<BaseSpot<'b>>,
    here: &BaseAt<'_, 'b>,
    score: &S,
    rows: &[Vec<Iv64<48>>],
    at: usize,
) -> Result<(), NoMemory>
    requires here { IsBaseAt here.now }
    requires long { length (shop_vectors here.now.family.now here.now.site.0) ≤ length rows.now }
    requires rows { AreKept here.now (map (λ r. r.items) rows.now) }
    requires within { at < length here.now.base.now.order.items }
    requires kept { (v : Choice) → v ≡ get_or here.now.base.now.order.items at v
        → 0 < length (get_or (map (λ r. r.items) rows.now) v.shops []) }
    requires room { length here.now.base.now.order.items ≤ most_vertices }
    ensures curve { IfOk result (λ _. IsCurve
        (kept_points S.ends here.now (map (λ r. r.items) rows.now) here.now.base.now.order.items) chain.new) }
    ensures few { IfOk result (λ _. length chain.new ≤ length here.now.base.now.order.items) }
{
    let first = first_kept(here, rows, at);
    let choice = &here.base.order[first];
    chain.begin_with(spot_by_row(here, score, rows[choice.shops].as_slice(), choice));
    for n in first + 1..here.base.order.len() {
        add_kept(chain, here, score, rows, &here.base.order[n])?;
    }
    chain.invariant();
    Ok(())
}

/// Sets `chain` to the curve of the choices with the same shop units' stocks as that at the place `at`, and `rows` to
/// their row and empty ones.
fn put_likely<'b, S: Score>(
    chain: &mut Chain<BaseSpot<'b>>,
    rows: &mut Vec<Vec<Iv64<48>>>,
    here: &BaseAt<'_, 'b>,
    score: &S,
    numbers: &Numbers<48>,
    own: &OwnPart<48>,
    parts: &[Moments<48>],
    at: usize,
) -> Result<(), NoMemory>
    requires here { IsBaseAt here.now }
    requires numbers { numbers.now ≡ box_numbers here.now.family.now }
    requires own { own.now ≡ own_at numbers.now here.now.depot.now here.now.site.0 }
    requires parts { parts.now ≡ parts_at here.now.family.now (drop 1 here.now.depot.now) here.now.site.0 }
    requires within { at < length here.now.base.now.order.items }
    requires room { length here.now.base.now.order.items ≤ most_vertices }
    ensures long { IfOk result
        (λ _. length (shop_vectors here.now.family.now here.now.site.0) ≤ length rows.new.items) }
    ensures rows { IfOk result (λ _. AreKept here.now (map (λ r. r.items) rows.new.items)) }
    ensures kept { IfOk result (λ _. (v : Choice) → v ≡ get_or here.now.base.now.order.items at v
        → 0 < length (get_or (map (λ r. r.items) rows.new.items) v.shops [])) }
    ensures curve { IfOk result (λ _. IsCurve
        (kept_points S.ends here.now (map (λ r. r.items) rows.new.items) here.now.base.now.order.items) chain.new) }
    ensures few { IfOk result (λ _. length chain.new ≤ length here.now.base.now.order.items) }
{
    clear_rows(rows, here.base.shops.len())?;
    let likely = here.base.order[at].shops;
    put_row(&mut rows[likely], here, numbers, own, parts, likely)?;
    put_kept(chain, here, score, rows.as_slice(), at)?;
    Ok(())
}

/// Whether a vertex of a chain lies below these bounds at both prices.
fn lies_below(chain: &Chain<BaseSpot<'_>>, bounds: Lows, low: Price, high: Price) -> bool
    requires low { IsSmall low }
    requires high { IsSmall high }
    ensures { IsTrue result → PassesAbove low high bounds.at_low bounds.at_high chain.now }
{
    for k in 0..chain.count() {
        if chain.value(k, low) < bounds.at_low && chain.value(k, high) < bounds.at_high {
            return true;
        }
    }
    false
}

/// What became of the choices other than the likeliest.
#[derive(Clone, Copy, Drop)]
struct Others {
    /// The points of those that were passed over lie as high at the low price.
    passed: u128,
    /// Whether one got a row.
    more: bool,
}

/// Passes over the `n`-th choice of the shop units' stocks, if a vertex of `chain` lies below its bounds at both
/// prices; else makes its row, if it has none.
fn put_other(
    others: &mut Others,
    rows: &mut Vec<Vec<Iv64<48>>>,
    chain: &Chain<BaseSpot<'_>>,
    here: &BaseAt<'_, '_>,
    numbers: &Numbers<48>,
    own: &OwnPart<48>,
    parts: &[Moments<48>],
    lows: &[Lows],
    n: usize,
    low: Price,
    high: Price,
) -> Result<(), NoMemory>
    requires here { IsBaseAt here.now }
    requires numbers { numbers.now ≡ box_numbers here.now.family.now }
    requires own { own.now ≡ own_at numbers.now here.now.depot.now here.now.site.0 }
    requires parts { parts.now ≡ parts_at here.now.family.now (drop 1 here.now.depot.now) here.now.site.0 }
    requires long { length (shop_vectors here.now.family.now here.now.site.0) ≤ length rows.old.items }
    requires rows { AreKept here.now (map (λ r. r.items) rows.old.items) }
    requires place { n < length (shop_vectors here.now.family.now here.now.site.0) }
    requires count { length lows.now ≡ length (shop_vectors here.now.family.now here.now.site.0) }
    requires low { IsSmall low }
    requires high { IsSmall high }
    ensures long { IfOk result (λ _. length rows.new.items ≡ length rows.old.items) }
    ensures rows { IfOk result (λ _. AreKept here.now (map (λ r. r.items) rows.new.items)) }
    ensures grown { IfOk result (λ _. (k : ℕ) → 0 < length (get_or (map (λ r. r.items) rows.old.items) k [])
        → 0 < length (get_or (map (λ r. r.items) rows.new.items) k [])) }
    ensures settled { IfOk result (λ _. IsSettled low high chain.now (map (λ r. r.items) rows.new.items) lows.now
        others.new.passed n) }
    ensures passed { IfOk result (λ _. others.new.passed ≤ others.old.passed) }
    ensures same { IfOk result (λ _. IsFalse others.new.more → rows.new.items ≡ rows.old.items) }
    ensures no_more { IfOk result (λ _. IsFalse others.new.more → IsFalse others.old.more) }
{
    if !rows[n].is_empty() {
        return Ok(());
    }
    if lies_below(chain, lows[n], low, high) {
        others.passed = others.passed.min(lows[n].at_low);
        return Ok(());
    }
    put_row(&mut rows[n], here, numbers, own, parts, n)?;
    others.more = true;
    Ok(())
}

/// Passes over each choice of the shop units' stocks that has no row, or makes its row.
fn put_others(
    rows: &mut Vec<Vec<Iv64<48>>>,
    chain: &Chain<BaseSpot<'_>>,
    here: &BaseAt<'_, '_>,
    numbers: &Numbers<48>,
    own: &OwnPart<48>,
    parts: &[Moments<48>],
    lows: &[Lows],
    low: Price,
    high: Price,
) -> Result<Others, NoMemory>
    requires here { IsBaseAt here.now }
    requires numbers { numbers.now ≡ box_numbers here.now.family.now }
    requires own { own.now ≡ own_at numbers.now here.now.depot.now here.now.site.0 }
    requires parts { parts.now ≡ parts_at here.now.family.now (drop 1 here.now.depot.now) here.now.site.0 }
    requires long { length (shop_vectors here.now.family.now here.now.site.0) ≤ length rows.old.items }
    requires rows { AreKept here.now (map (λ r. r.items) rows.old.items) }
    requires count { length lows.now ≡ length (shop_vectors here.now.family.now here.now.site.0) }
    requires low { IsSmall low }
    requires high { IsSmall high }
    ensures long { IfOk result (λ _. length rows.new.items ≡ length rows.old.items) }
    ensures rows { IfOk result (λ _. AreKept here.now (map (λ r. r.items) rows.new.items)) }
    ensures grown { IfOk result (λ _. (k : ℕ) → 0 < length (get_or (map (λ r. r.items) rows.old.items) k [])
        → 0 < length (get_or (map (λ r. r.items) rows.new.items) k [])) }
    ensures settled { IfOk result (λ others. (k : ℕ)
        → k < length (shop_vectors here.now.family.now here.now.site.0)
        → IsSettled low high chain.now (map (λ r. r.items) rows.new.items) lows.now others.passed k) }
    ensures same { IfOk result (λ others. IsFalse others.more → rows.new.items ≡ rows.old.items) }
{
    let mut others = Others {
        passed: u128::MAX,
        more: false,
    };
    for n in 0..here.base.shops.len() {
        put_other(
            &mut others,
            rows,
            chain,
            here,
            numbers,
            own,
            parts,
            lows,
            n,
            low,
            high,
        )?;
    }
    Ok(others)
}

/// Sets `chain` to the curve of a base without the choices that are passed over: first that of the likeliest choice of
/// the shop units' stocks, then that of all which no vertex of it passes over. Returns how high those that are passed
/// over lie at the low price.
fn put_several<'b, S: Score>(
    chain: &mut Chain<BaseSpot<'b>>,
    rows: &mut Vec<Vec<Iv64<48>>>,
    lows: &mut Vec<Lows>,
    here: &BaseAt<'_, 'b>,
    score: &S,
    numbers: &Numbers<48>,
    tables: &DepotTables<'_>,
    low: Price,
    high: Price,
) -> Result<u128, NoMemory>
    requires here { IsBaseAt here.now }
    requires numbers { numbers.now ≡ box_numbers here.now.family.now }
    requires tables { AreTables here.now.family.now (drop 1 here.now.depot.now) tables.now }
    requires room { vector_count here.now.family.now here.now.site.0 ≤ most_vertices }
    requires low { IsSmall low }
    requires high { IsSmall high }
    ensures curve { IfOk result (λ passed. IsCurveWithout low high
        (base_points S.ends here.now.family.now here.now.depot.now here.now.site.0) chain.new passed) }
    ensures few { IfOk result (λ _. length chain.new ≤ vector_count here.now.family.now here.now.site.0) }
{
    let own = own_at(here, numbers, tables);
    let parts = shops_at(tables, here);
    put_lows(lows, here, score, numbers, &own, parts, low, high)?;
    let bounds = lows.as_slice();
    let at = likely_place(here, bounds);
    put_likely(chain, rows, here, score, numbers, &own, parts, at)?;
    let others = put_others(rows, chain, here, numbers, &own, parts, bounds, low, high)?;
    if !others.more {
        return Ok(others.passed);
    }
    put_kept(chain, here, score, rows.as_slice(), at)?;
    Ok(others.passed)
}

/// Sets `chain` to the curve of a base without the choices of the shop units' stocks that are passed over between two
/// prices. Returns how high these lie at the low price.
pub(crate) fn put_choices<'b, S: Score>(
    chain: &mut Chain<BaseSpot<'b>>,
    rows: &mut Vec<Vec<Iv64<48>>>,
    lows: &mut Vec<Lows>,
    here: &BaseAt<'_, 'b>,
    score: &S,
    numbers: &Numbers<48>,
    tables: &DepotTables<'_>,
    low: Price,
    high: Price,
) -> Result<u128, NoMemory>
    requires here { IsBaseAt here.now }
    requires numbers { numbers.now ≡ box_numbers here.now.family.now }
    requires tables { AreTables here.now.family.now (drop 1 here.now.depot.now) tables.now }
    requires room { vector_count here.now.family.now here.now.site.0 ≤ most_vertices }
    requires low { IsSmall low }
    requires high { IsSmall high }
    ensures curve { IfOk result (λ passed. IsCurveWithout low high
        (base_points S.ends here.now.family.now here.now.depot.now here.now.site.0) chain.new passed) }
    ensures few { IfOk result (λ _. length chain.new ≤ vector_count here.now.family.now here.now.site.0) }
{
    if here.base.shops.len() > 1 {
        return put_several(chain, rows, lows, here, score, numbers, tables, low, high);
    }
    put_curve(chain, rows, here, score, numbers, tables)?;
    Ok(u128::MAX)
}
