//! The part of a family's curve: what each choice of stocks at the depot adds to the part so far.

ghost use Rattle.std.specs.Prelude.{◌≡◌, ◌+◌, ◌-◌, ◌*◌, ◌^◌, ◌<◌, ◌≤◌, ◌∷◌, ◌++◌, [], IfOk, drop, get_or, length, sum_by};
ghost use Rattle.hull.specs.declared.point.Point.{Point};
ghost use Rattle.hull.specs.Curves.{Among, HaveOneWidth, InRange};
ghost use Rattle.hull.specs.Limits.{most_points, most_summed};
ghost use Rattle.sum_walk.specs.Sums.{sums_of_each};
ghost use Rattle.curve_parts.specs.Cuts.{IsSmall, IsWindow};
ghost use Rattle.curve_parts.specs.Joins.{Joins};
ghost use Rattle.curve_parts.specs.Beyond.{IsKnownPart, LieBeyond};
ghost use Rattle.family_points.specs.Counts.{most_vertices};
ghost use Rattle.family_points.specs.Separation.{depot_points, shop_points};
ghost use Rattle.family_points.specs.Inputs.{box_points};
ghost use Rattle.family_points.specs.Inputs.{
  AreShopsAt,
  IsAt,
  line_high,
  line_low,
  line_stocks,
  shop_vectors,
  vector_count,
  vertex_count,
};
ghost use Rattle.family_rows.specs.Sources.{AreSources};
ghost use Rattle.family_rows.specs.Tabled.{AreTables};
ghost use Rattle.depot_lows.specs.Rough.{AreRough};
ghost use Rattle.family_bases.specs.Joining.{HaveWidthOf, vertices_of};
ghost use Rattle.family_parts.specs.Growing.{Grows, in_turn};

use answers::NoMemory;
use base_parts::parts::{Work, put_parts};
use curve_parts::{join_sums, part_of_sums};
use depot_lows::first_line::likely_line;
use depot_lows::passed::low_if_passed;
use depot_lows::rough::RoughLows;
use family_bases::stocks::{depot_point, stocks_at};
use family_points::family::{Family, shops_of};
use family_rows::depot::{DepotTables, ShopParts, depot_tables};
use family_rows::sources::Sources;
use hull::{Chain, Curve, Point, Price, Score, Spot};
use spares_input::SiteId;
use std::alloc::Global;
use sum_walk::walk::Walking;

/// The vertices of the part so far.
fn vertices_of(part: &Option<Curve>) -> &[Point]
    ensures vertices { result.now ≡ vertices_of part.now }
    ensures ranges { (v : Point) → Among v result.now → InRange v }
{
    match part {
        Some(part) => part.vertices(),
        None => &[],
    }
}

/// Joins to the part so far all sums of `first` and a vertex of each of `parts`. Returns how high all vertices behind
/// it lie at the low price.
fn join_parts<T: Spot>(
    alloc: Global,
    part: &mut Option<Curve>,
    walking: &mut Walking,
    first: &Point,
    parts: &[Chain<T>],
    low: Price,
    high: Price,
) -> Result<u128, NoMemory>
    requires some { 0 < length parts.now }
    requires few_parts { length parts.now ≤ most_summed }
    requires few { length (vertices_of part.old) + (1 + sum_by length parts.now) ≤ most_points }
    requires first { InRange first.now }
    requires ranges { (v : Point) → Among v (sums_of_each (first.now ∷ []) parts.now) → InRange v }
    requires widths { HaveOneWidth (sums_of_each (first.now ∷ []) parts.now) }
    requires width { (v w : Point) → Among v (vertices_of part.old) → Among w (sums_of_each (first.now ∷ []) parts.now)
        → length v.stocks ≡ length w.stocks }
    requires low { IsSmall low }
    requires high { IsSmall high }
    requires window { IsWindow low high }
    ensures joins { IfOk result
        (λ _. Joins low high first.now parts.now (vertices_of part.old) (vertices_of part.new)) }
    ensures beyond { IfOk result (λ beyond. LieBeyond low
        (vertices_of part.old ++ sums_of_each (first.now ∷ []) parts.now) (vertices_of part.new) beyond) }
    ensures few { IfOk result
        (λ _. length (vertices_of part.new) ≤ length (vertices_of part.old) + (1 + sum_by length parts.now)) }
{
    match part {
        Some(curve) => join_sums(alloc, walking, first, parts, curve, low, high),
        None => {
            let (curve, beyond) = part_of_sums(alloc, walking, first, parts, low, high)?;
            *part = Some(curve);
            Ok(beyond)
        }
    }
}

/// Adds to the part so far all vectors with these stocks at the depot. The stocks are passed over if lower bounds allow
/// it.
fn grow_with<'b, S: Score>(
    alloc: Global,
    part: &mut Option<Curve>,
    beyond: &mut u128,
    work: &mut Work<'b>,
    sources: &'b Sources<'_>,
    score: &S,
    tables: &DepotTables<'_>,
    rough: &RoughLows,
    depot: &[u8],
    low: Price,
    high: Price,
) -> Result<(), NoMemory>
    requires sources { AreSources sources.now }
    requires depot { IsAt sources.now.family.now 0 depot.now }
    requires tables { AreTables sources.now.family.now (drop 1 depot.now) tables.now }
    requires rough { AreRough S.ends sources.now.family.now (drop 1 depot.now) low high rough.now }
    requires room { length (vertices_of part.old) + vertex_count sources.now.family.now ≤ most_vertices }
    requires widths { HaveWidthOf sources.now.family.now (vertices_of part.old) }
    requires work { length work.old.parts.items ≡ length sources.now.bases.items }
    requires low { IsSmall low }
    requires high { IsSmall high }
    requires window { IsWindow low high }
    ensures part { IfOk result (λ _. Grows low high (depot_points S.ends sources.now.family.now depot.now)
        (vertices_of part.old) beyond.old (vertices_of part.new) beyond.new) }
    ensures few { IfOk result (λ _. length (vertices_of part.new)
        ≤ length (vertices_of part.old) + vertex_count sources.now.family.now) }
    ensures widths { IfOk result (λ _. HaveWidthOf sources.now.family.now (vertices_of part.new)) }
    ensures work { IfOk result (λ _. length work.new.parts.items ≡ length sources.now.bases.items) }
{
    sources.family.invariant();
    let vertices = vertices_of(part);
    if let Some(at_low) = low_if_passed(vertices, sources, score, tables, rough, depot, low, high) {
        *beyond = at_low.min(*beyond);
        return Ok(());
    }
    let made = put_parts(work, sources, score, tables, depot, low, high)?;
    let first = depot_point(sources.family, depot.to_vec(alloc)?);
    let parts = work.parts.as_slice();
    let behind = join_parts(alloc, part, &mut work.walking, &first, parts, low, high)?;
    *beyond = made.min(behind).min(*beyond);
    Ok(())
}

/// The `n`-th of the numbers 0 to `last`, in the order from `first` up to `last` and then from the one before `first`
/// down.
fn in_turn(first: u64, last: u64, n: u64) -> u64
    requires order { first ≤ last }
    requires within { n ≤ last }
    requires small { last ≤ 2 ^ 32 }
    ensures is { result ≡ in_turn first last n }
    ensures within { result ≤ last }
{
    let up = first + n;
    if up <= last { up } else { last - n }
}

/// The line unit's stock at the depot of the first vertex of a part.
fn line_of(part: &Curve) -> u8 {
    part.invariant();
    match part.point(0).stocks.as_slice().first() {
        Some(line) => *line,
        None => 0,
    }
}

/// The place, from 0 on, of the line unit's stock at the depot that comes first: the stock of a vertex so far, or one
/// for which lower bounds are low.
fn line_first<S: Score>(
    alloc: Global,
    so_far: &Option<Curve>,
    sources: &Sources<'_>,
    score: &S,
    tables: &DepotTables<'_>,
    rough: &RoughLows,
    depot: &[u8],
    low: Price,
    high: Price,
) -> Result<u8, NoMemory>
    requires sources { AreSources sources.now }
    requires some { 0 < length depot.now }
    requires shops { AreShopsAt sources.now.family.now 0 (drop 1 depot.now) }
    requires tables { AreTables sources.now.family.now (drop 1 depot.now) tables.now }
    requires rough { AreRough S.ends sources.now.family.now (drop 1 depot.now) low high rough.now }
    requires low { IsSmall low }
    requires high { IsSmall high }
    ensures { IfOk result (λ place. place ≤ line_high sources.now.family.now 0 - line_low sources.now.family.now 0) }
{
    let family = sources.family;
    family.invariant();
    let first = family.line_low(SiteId(0));
    let last = family.line_high(SiteId(0));
    let line = match so_far {
        Some(part) => line_of(part),
        None => likely_line(alloc, sources, score, tables, rough, depot, low, high)?,
    };
    Ok(line.max(first).min(last) - first)
}

/// The line unit's `n`-th stock at the depot, in the order from the one at the place `first` up and then down.
fn line_stock(family: &Family<'_>, first: u8, n: u8) -> u8
    requires order { first ≤ line_high family.now 0 - line_low family.now 0 }
    requires within { n ≤ line_high family.now 0 - line_low family.now 0 }
    ensures is { result ≡ line_low family.now 0 + in_turn first (line_high family.now 0 - line_low family.now 0) n }
    ensures least { line_low family.now 0 ≤ result }
    ensures most { result ≤ line_high family.now 0 }
{
    family.invariant();
    let low = family.line_low(SiteId(0));
    let high = family.line_high(SiteId(0));
    low + in_turn(u64::from(first), u64::from(high - low), u64::from(n)) as u8
}

/// Adds to the part so far all vectors with the shop units' stocks of `stocks` at the depot, from the line unit's stock
/// at the place `begin` on. The first of `stocks` is overwritten.
fn grow_with_lines<'b, S: Score>(
    alloc: Global,
    part: &mut Option<Curve>,
    beyond: &mut u128,
    work: &mut Work<'b>,
    sources: &'b Sources<'_>,
    score: &S,
    tables: &DepotTables<'_>,
    rough: &RoughLows,
    stocks: &mut [u8],
    begin: u8,
    low: Price,
    high: Price,
) -> Result<(), NoMemory>
    requires sources { AreSources sources.now }
    requires begin { begin ≤ line_high sources.now.family.now 0 - line_low sources.now.family.now 0 }
    requires some { 0 < length stocks.old }
    requires shops { AreShopsAt sources.now.family.now 0 (drop 1 stocks.old) }
    requires tables { AreTables sources.now.family.now (drop 1 stocks.old) tables.now }
    requires rough { AreRough S.ends sources.now.family.now (drop 1 stocks.old) low high rough.now }
    requires room { let x = sources.now.family.now in
        length (vertices_of part.old) + length (line_stocks x 0) * vertex_count x ≤ most_vertices }
    requires widths { HaveWidthOf sources.now.family.now (vertices_of part.old) }
    requires work { length work.old.parts.items ≡ length sources.now.bases.items }
    requires low { IsSmall low }
    requires high { IsSmall high }
    requires window { IsWindow low high }
    ensures part { IfOk result (λ _. Grows low high
        (shop_points S.ends sources.now.family.now (drop 1 stocks.old)) (vertices_of part.old) beyond.old
        (vertices_of part.new) beyond.new) }
    ensures few { IfOk result (λ _. let x = sources.now.family.now in length (vertices_of part.new)
        ≤ length (vertices_of part.old) + length (line_stocks x 0) * vertex_count x) }
    ensures widths { IfOk result (λ _. HaveWidthOf sources.now.family.now (vertices_of part.new)) }
    ensures work { IfOk result (λ _. length work.new.parts.items ≡ length sources.now.bases.items) }
{
    let family = sources.family;
    family.invariant();
    let last = family.line_high(SiteId(0)) - family.line_low(SiteId(0));
    for n in 0..last + 1 {
        stocks[0] = line_stock(family, begin, n);
        grow_with(
            alloc, part, beyond, work, sources, score, tables, rough, stocks, low, high,
        )?;
    }
    Ok(())
}

/// Adds to the part so far all vectors with the `number`-th vector of the shop units' stocks at the depot.
fn grow_with_shops<'b, S: Score>(
    alloc: Global,
    part: &mut Option<Curve>,
    beyond: &mut u128,
    work: &mut Work<'b>,
    sources: &'b Sources<'_>,
    score: &S,
    parts: &mut ShopParts,
    rough: &mut RoughLows,
    number: u64,
    low: Price,
    high: Price,
) -> Result<(), NoMemory>
    requires sources { AreSources sources.now }
    requires number { number < length (shop_vectors sources.now.family.now 0) }
    requires room { let x = sources.now.family.now in
        length (vertices_of part.old) + length (line_stocks x 0) * vertex_count x ≤ most_vertices }
    requires widths { HaveWidthOf sources.now.family.now (vertices_of part.old) }
    requires work { length work.old.parts.items ≡ length sources.now.bases.items }
    requires low { IsSmall low }
    requires high { IsSmall high }
    requires window { IsWindow low high }
    ensures part { IfOk result (λ _. let x = sources.now.family.now in Grows low high
        (shop_points S.ends x (get_or (shop_vectors x 0) number [])) (vertices_of part.old) beyond.old
        (vertices_of part.new) beyond.new) }
    ensures few { IfOk result (λ _. let x = sources.now.family.now in length (vertices_of part.new)
        ≤ length (vertices_of part.old) + length (line_stocks x 0) * vertex_count x) }
    ensures widths { IfOk result (λ _. HaveWidthOf sources.now.family.now (vertices_of part.new)) }
    ensures work { IfOk result (λ _. length work.new.parts.items ≡ length sources.now.bases.items) }
{
    let mut stocks = stocks_at(alloc, sources.family, number)?;
    let shops = shops_of(stocks.as_slice());
    parts.put(sources, shops)?;
    let tables = depot_tables(alloc, sources, shops, parts)?;
    let depot = stocks.as_slice();
    rough.put(sources, score, &tables, depot, low, high)?;
    let begin = line_first(
        alloc, part, sources, score, &tables, rough, depot, low, high,
    )?;
    let at_depot = stocks.as_mut_slice();
    grow_with_lines(
        alloc, part, beyond, work, sources, score, &tables, rough, at_depot, begin, low, high,
    )
}

/// The part of all vectors of the family within its bounds, and how high all vertices behind it lie at the low price.
/// The shop units' stocks at the depot are taken from the middle ones on.
fn whole_part<'b, S: Score>(
    alloc: Global,
    work: &mut Work<'b>,
    sources: &'b Sources<'_>,
    score: &S,
    low: Price,
    high: Price,
) -> Result<(Curve, u128), NoMemory>
    requires sources { AreSources sources.now }
    requires room { vector_count sources.now.family.now 0 * vertex_count sources.now.family.now ≤ most_vertices }
    requires work { length work.old.parts.items ≡ length sources.now.bases.items }
    requires low { IsSmall low }
    requires high { IsSmall high }
    requires window { IsWindow low high }
    ensures { IfOk result (λ made. IsKnownPart low high (box_points S.ends sources.now.family.now) made.0 made.1) }
{
    let family = sources.family;
    family.invariant();
    let count = family.shop_count(SiteId(0));
    let middle = (count - 1) / 2;
    let mut part = None;
    let mut beyond = u128::MAX;
    let mut parts = ShopParts::new(alloc);
    let mut rough = RoughLows::new(alloc);
    for n in 0..count {
        let number = in_turn(middle, count - 1, n);
        grow_with_shops(
            alloc,
            &mut part,
            &mut beyond,
            work,
            sources,
            score,
            &mut parts,
            &mut rough,
            number,
            low,
            high,
        )?;
    }
    Ok((part.unwrap(), beyond))
}

/// The part of all vectors of the family of these sources within its bounds.
fn part_of<S: Score>(
    alloc: Global,
    sources: &Sources<'_>,
    score: &S,
    low: Price,
    high: Price,
) -> Result<(Curve, u128), NoMemory>
    requires sources { AreSources sources.now }
    requires room { vector_count sources.now.family.now 0 * vertex_count sources.now.family.now ≤ most_vertices }
    requires low { IsSmall low }
    requires high { IsSmall high }
    requires window { IsWindow low high }
    ensures { IfOk result (λ made. IsKnownPart low high (box_points S.ends sources.now.family.now) made.0 made.1) }
{
    let mut work = Work::new(alloc, sources)?;
    whole_part(alloc, &mut work, sources, score, low, high)
}

/// The part of all vectors of a family within its bounds.
pub(crate) fn family_part<S: Score>(
    alloc: Global,
    family: &Family<'_>,
    score: &S,
    low: Price,
    high: Price,
) -> Result<(Curve, u128), NoMemory>
    requires room { vector_count family.now 0 * vertex_count family.now ≤ most_vertices }
    requires low { IsSmall low }
    requires high { IsSmall high }
    requires window { IsWindow low high }
    ensures { IfOk result (λ made. IsKnownPart low high (box_points S.ends family.now) made.0 made.1) }
{
    let sources = Sources::of(alloc, family)?;
    part_of(alloc, &sources, score, low, high)
}
