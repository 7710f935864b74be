//! The curve of a family: what each choice of stocks at the depot adds to the curve so far.

ghost use Rattle.std.specs.Prelude.{◌≡◌, ◌+◌, ◌-◌, ◌*◌, ◌<◌, ◌≤◌, ◌++◌, ◌∷◌, [], IfOk, List, drop, get_or, length, sum_by};
ghost use Rattle.hull.specs.declared.point.Point.{Point};
ghost use Rattle.hull.specs.Curves.{Among, InRange, IsCurve, StandFor};
ghost use Rattle.family_points.specs.Counts.{most_vertices};
ghost use Rattle.family_points.specs.Separation.{depot_point, depot_points, shop_points};
ghost use Rattle.family_points.specs.Inputs.{box_points};
ghost use Rattle.family_points.specs.Inputs.{
  AreShopsAt,
  IsAt,
  line_high,
  line_low,
  line_stocks,
  shop_vectors,
  vector_count,
  vertex_count,
};
ghost use Rattle.family_rows.specs.Sources.{AreSources};
ghost use Rattle.family_bases.specs.Joining.{HaveWidthOf, IsDepotPoint, vertices_of};
ghost use Rattle.family_curve.specs.Numbered.{numbered_points};
ghost use Rattle.family_curve.specs.Work.{HaveChains};
ghost use Rattle.family_rows.specs.Tabled.{AreTables};
ghost use Rattle.sum_walk.specs.Sums.{sums_of_each};

use crate::passed::{Lows, are_passed, lows_of};
use answers::NoMemory;
use family_bases::curves::{chains_of, put_curve};
use family_bases::stocks::depot_point;
use family_points::family::{Family, joined};
use family_points::order::Base;
use family_rows::base::BaseSpot;
use family_rows::base_at::BaseAt;
use family_rows::depot::{DepotTables, ShopParts, depot_tables, likely_line, likely_shops};
use family_rows::sources::Sources;
use hull::{Chain, Curve, Point, Score};
use series_bounds::short::Iv64;
use spares_input::SiteId;
use std::alloc::Global;
use sum_walk::walk::{Walking, walk};

/// Scratch lists for exact curves; contents are not kept between calls.
#[derive(Drop)]
struct Exact<'b> {
    /// The curves of the bases, the first base first.
    chains: Vec<Chain<BaseSpot<'b>>>,
    /// The backorders at a base.
    rows: Vec<Vec<Iv64<48>>>,
    /// The lists of a walk over the curves.
    walking: Walking,
}

/// Scratch lists for exact curves and for lower bounds.
#[derive(Drop)]
struct Work<'b> {
    /// For exact curves.
    exact: Exact<'b>,
    /// For lower bounds.
    lows: Lows,
}

/// Sets the chains of `work` to the curves of all bases with these stocks at the depot.
fn put_curves<'b, S: Score>(
    work: &mut Exact<'b>,
    sources: &'b Sources<'_>,
    score: &S,
    tables: &DepotTables<'_>,
    depot: &[u8],
) -> Result<(), NoMemory>
    requires sources { AreSources sources.now }
    requires depot { IsAt sources.now.family.now 0 depot.now }
    requires tables { AreTables sources.now.family.now (drop 1 depot.now) tables.now }
    requires room { vertex_count sources.now.family.now ≤ most_vertices }
    requires work { length work.old.chains.items ≡ length sources.now.bases.items }
    ensures stands { IfOk result (λ _. let x = sources.now.family.now in StandFor
        (depot_points S.ends x depot.now)
        (sums_of_each (depot_point x depot.now ∷ []) work.new.chains.items)) }
    ensures few { IfOk result (λ _. 1 + sum_by length work.new.chains.items ≤ vertex_count sources.now.family.now) }
    ensures work { IfOk result (λ _. length work.new.chains.items ≡ length sources.now.bases.items) }
{
    sources.family.invariant();
    for j in 1..sources.family.sites() {
        let place = usize::from(j) - 1;
        let base = &sources.bases[place];
        let here = BaseAt::of(sources.family, depot, SiteId(j), base);
        put_curve(
            &mut work.chains[place],
            &mut work.rows,
            &here,
            score,
            &sources.numbers,
            tables,
        )?;
    }
    Ok(())
}

/// The points of the vectors with these stocks at the depot, without those that are no vertices beside the points of
/// `below`.
fn depot_path<'b, S: Score>(
    alloc: Global,
    work: &mut Exact<'b>,
    sources: &'b Sources<'_>,
    score: &S,
    tables: &DepotTables<'_>,
    first: &Point,
    below: &[Point],
) -> Result<Vec<Point>, NoMemory>
    requires sources { AreSources sources.now }
    requires first { IsDepotPoint sources.now.family.now first.now }
    requires tables { AreTables sources.now.family.now (drop 1 first.now.stocks) tables.now }
    requires room { length below.now + vertex_count sources.now.family.now ≤ most_vertices }
    requires ranges { (v : Point) → Among v below.now → InRange v }
    requires work { length work.old.chains.items ≡ length sources.now.bases.items }
    ensures stands { IfOk result (λ path. StandFor
        (below.now ++ depot_points S.ends sources.now.family.now first.now.stocks) (below.now ++ path.items)) }
    ensures among { IfOk result (λ path. (v : Point) → Among v path.items
        → Among v (depot_points S.ends sources.now.family.now first.now.stocks)) }
    ensures some { below.now ≡ [] → IfOk result (λ path. 0 < length path.items) }
    ensures few { IfOk result (λ path. length path.items ≤ vertex_count sources.now.family.now) }
    ensures work { IfOk result (λ _. length work.new.chains.items ≡ length sources.now.bases.items) }
{
    sources.family.invariant();
    let depot = first.stocks.as_slice();
    put_curves(work, sources, score, tables, depot)?;
    let chains = work.chains.as_slice();
    walk(alloc, &mut work.walking, first, chains, below)
}

/// The curve of the points so far and of all vectors with these stocks at the depot.
fn with_depot<'b, S: Score>(
    alloc: Global,
    so_far: Option<Curve>,
    work: &mut Work<'b>,
    sources: &'b Sources<'_>,
    score: &S,
    tables: &DepotTables<'_>,
    first: &Point,
) -> Result<Curve, NoMemory>
    requires sources { AreSources sources.now }
    requires first { IsDepotPoint sources.now.family.now first.now }
    requires tables { AreTables sources.now.family.now (drop 1 first.now.stocks) tables.now }
    requires room { length (vertices_of so_far) + vertex_count sources.now.family.now ≤ most_vertices }
    requires widths { HaveWidthOf sources.now.family.now (vertices_of so_far) }
    requires work { HaveChains sources.now.bases.items work.old }
    ensures curve { IfOk result
        (IsCurve (vertices_of so_far ++ depot_points S.ends sources.now.family.now first.now.stocks)) }
    ensures few { IfOk result
        (λ curve. length curve ≤ length (vertices_of so_far) + vertex_count sources.now.family.now) }
    ensures widths { IfOk result (HaveWidthOf sources.now.family.now) }
    ensures work { IfOk result (λ _. HaveChains sources.now.bases.items work.new) }
{
    sources.family.invariant();
    let Some(mut curve) = so_far else {
        let below = [];
        let exact = &mut work.exact;
        let path = depot_path(alloc, exact, sources, score, tables, first, &below)?;
        let curve = Curve::of(alloc, path)?;
        return Ok(curve);
    };
    let below = curve.vertices();
    let lows = &mut work.lows;
    if are_passed(alloc, lows, sources, score, tables, first, below)? {
        return Ok(curve);
    }
    let exact = &mut work.exact;
    let path = depot_path(alloc, exact, sources, score, tables, first, below)?;
    let is_empty = path.is_empty();
    work.lows.has_tried(first, is_empty);
    if is_empty {
        return Ok(curve);
    }
    curve.add_points(path)?;
    Ok(curve)
}

/// The `n`-th stock after `start`, in the order from `start` up to `high` and then from `start` down to `low`.
fn behind(start: u8, low: u8, high: u8, n: u8) -> u8
    requires from { low ≤ start }
    requires to { start ≤ high }
    requires within { n ≤ high - low }
    ensures up { start + n ≤ high → result ≡ start + n }
    ensures down { high < start + n → result ≡ high - n }
    ensures least { low ≤ result }
    ensures most { result ≤ high }
{
    if n <= high - start {
        start + n
    } else {
        high - n
    }
}

/// The point of the same stocks at the depot but for the line unit's.
fn with_line(family: &Family<'_>, point: Point, line: u8) -> Point
    requires point { IsDepotPoint family.now point }
    requires some { 0 < length point.stocks }
    requires shops { AreShopsAt family.now 0 (drop 1 point.stocks) }
    requires least { line_low family.now 0 ≤ line }
    requires most { line ≤ line_high family.now 0 }
    ensures point { IsDepotPoint family.now result }
    ensures stocks { result.stocks ≡ line ∷ drop 1 point.stocks }
{
    family.invariant();
    let mut stocks = point.stocks.into_vec();
    stocks[0] = line;
    depot_point(family, stocks)
}

/// The point of these stocks at the depot.
fn first_point(
    alloc: Global,
    family: &Family<'_>,
    line: u8,
    shops: &[u8],
) -> Result<Point, NoMemory>
    requires least { line_low family.now 0 ≤ line }
    requires most { line ≤ line_high family.now 0 }
    requires shops { AreShopsAt family.now 0 shops.now }
    ensures point { IfOk result (IsDepotPoint family.now) }
    ensures stocks { IfOk result (λ p. p.stocks ≡ line ∷ shops.now) }
{
    family.invariant();
    let stocks = joined(alloc, line, shops)?;
    Ok(depot_point(family, stocks))
}

/// The curve of the points so far and of all vectors with the shop units' stocks `shops` at the depot. A likely stock
/// of the line unit comes first, because its points pass most of the others.
fn with_lines<'b, S: Score>(
    alloc: Global,
    so_far: Option<Curve>,
    work: &mut Work<'b>,
    sources: &'b Sources<'_>,
    score: &S,
    tables: &DepotTables<'_>,
    shops: &[u8],
) -> Result<Curve, NoMemory>
    requires sources { AreSources sources.now }
    requires shops { AreShopsAt sources.now.family.now 0 shops.now }
    requires tables { AreTables sources.now.family.now shops.now tables.now }
    requires room { let x = sources.now.family.now in
        length (vertices_of so_far) + length (line_stocks x 0) * vertex_count x ≤ most_vertices }
    requires widths { HaveWidthOf sources.now.family.now (vertices_of so_far) }
    requires work { HaveChains sources.now.bases.items work.old }
    ensures curve { IfOk result
        (IsCurve (vertices_of so_far ++ shop_points S.ends sources.now.family.now shops.now)) }
    ensures few { IfOk result (λ curve. let x = sources.now.family.now in
        length curve ≤ length (vertices_of so_far) + length (line_stocks x 0) * vertex_count x) }
    ensures widths { IfOk result (HaveWidthOf sources.now.family.now) }
    ensures work { IfOk result (λ _. HaveChains sources.now.bases.items work.new) }
{
    let family = sources.family;
    family.invariant();
    let low = family.line_low(SiteId(0));
    let high = family.line_high(SiteId(0));
    let start = likely_line(tables, low, high);
    let mut first = first_point(alloc, family, start, shops)?;
    work.lows.begin();
    let mut curve = with_depot(alloc, so_far, work, sources, score, tables, &first)?;
    work.lows.has_begun();
    for n in 1..high - low + 1 {
        first = with_line(family, first, behind(start, low, high, n));
        curve = with_depot(alloc, Some(curve), work, sources, score, tables, &first)?;
    }
    Ok(curve)
}

/// The curve of the points so far and of all vectors with the `number`-th vector of the shop units' stocks at the
/// depot.
fn with_shops<'b, S: Score>(
    alloc: Global,
    so_far: Option<Curve>,
    work: &mut Work<'b>,
    sources: &'b Sources<'_>,
    score: &S,
    parts: &mut ShopParts,
    number: u64,
) -> Result<Curve, NoMemory>
    requires sources { AreSources sources.now }
    requires number { number < length (shop_vectors sources.now.family.now 0) }
    requires room { let x = sources.now.family.now in
        length (vertices_of so_far) + length (line_stocks x 0) * vertex_count x ≤ most_vertices }
    requires widths { HaveWidthOf sources.now.family.now (vertices_of so_far) }
    requires work { HaveChains sources.now.bases.items work.old }
    ensures curve { IfOk result (let x = sources.now.family.now in
        IsCurve (vertices_of so_far ++ shop_points S.ends x (get_or (shop_vectors x 0) number []))) }
    ensures few { IfOk result (λ curve. let x = sources.now.family.now in
        length curve ≤ length (vertices_of so_far) + length (line_stocks x 0) * vertex_count x) }
    ensures widths { IfOk result (HaveWidthOf sources.now.family.now) }
    ensures work { IfOk result (λ _. HaveChains sources.now.bases.items work.new) }
{
    let family = sources.family;
    family.invariant();
    let vector = family.shop_vector(alloc, SiteId(0), number)?;
    let shops = vector.as_slice();
    parts.put(sources, shops)?;
    let tables = depot_tables(alloc, sources, shops, parts)?;
    with_lines(alloc, so_far, work, sources, score, &tables, shops)
}

/// The curve of the points so far and of all vectors whose shop units' stocks at the depot have the numbers from `from`
/// up to, not including, `to`.
fn with_numbers<'b, S: Score>(
    alloc: Global,
    so_far: Curve,
    work: &mut Work<'b>,
    sources: &'b Sources<'_>,
    score: &S,
    parts: &mut ShopParts,
    from: u64,
    to: u64,
) -> Result<Curve, NoMemory>
    requires sources { AreSources sources.now }
    requires order { from ≤ to }
    requires within { to ≤ length (shop_vectors sources.now.family.now 0) }
    requires room { let x = sources.now.family.now in
        length so_far + (to - from) * (length (line_stocks x 0) * vertex_count x) ≤ most_vertices }
    requires widths { HaveWidthOf sources.now.family.now so_far }
    requires work { HaveChains sources.now.bases.items work.old }
    ensures curve { (ps : List Point) → IsCurve ps so_far → IfOk result (let x = sources.now.family.now in
        IsCurve (ps ++ numbered_points S.ends x from (to - from))) }
    ensures few { IfOk result (λ curve. let x = sources.now.family.now in
        length curve ≤ length so_far + (to - from) * (length (line_stocks x 0) * vertex_count x)) }
    ensures widths { IfOk result (HaveWidthOf sources.now.family.now) }
    ensures work { IfOk result (λ _. HaveChains sources.now.bases.items work.new) }
{
    let mut curve = so_far;
    for n in from..to {
        let before = Some(curve);
        curve = with_shops(alloc, before, work, sources, score, parts, n)?;
    }
    Ok(curve)
}

/// The curve of all vectors of the family within its bounds. Likely stocks of the shop units at the depot come first,
/// because their points pass many of the others; these follow in dictionary order.
fn whole_curve<'b, S: Score>(
    alloc: Global,
    work: &mut Work<'b>,
    sources: &'b Sources<'_>,
    score: &S,
) -> Result<Curve, NoMemory>
    requires sources { AreSources sources.now }
    requires room { vector_count sources.now.family.now 0 * vertex_count sources.now.family.now ≤ most_vertices }
    requires work { HaveChains sources.now.bases.items work.old }
    ensures { IfOk result (IsCurve (box_points S.ends sources.now.family.now)) }
{
    let family = sources.family;
    family.invariant();
    let count = family.shop_count(SiteId(0));
    let likely = likely_shops(sources).min(count - 1);
    let mut parts = ShopParts::new(alloc);
    let parts = &mut parts;
    let first = with_shops(alloc, None, work, sources, score, parts, likely)?;
    let lower = with_numbers(alloc, first, work, sources, score, parts, 0, likely)?;
    let curve = with_numbers(alloc, lower, work, sources, score, parts, likely + 1, count)?;
    Ok(curve)
}

/// The scratch lists for the exact curves of these bases.
fn exact_of<'b>(alloc: Global, bases: &'b [Base]) -> Result<Exact<'b>, NoMemory>
    ensures { IfOk result (λ exact. length exact.chains.items ≡ length bases.now) }
{
    let chains = chains_of(alloc, bases)?;
    Ok(Exact {
        chains,
        rows: Vec::new(alloc),
        walking: Walking::new(alloc),
    })
}

/// The scratch lists for these bases.
fn work_of<'b>(alloc: Global, bases: &'b [Base]) -> Result<Work<'b>, NoMemory>
    ensures { IfOk result (HaveChains bases.now) }
{
    let exact = exact_of(alloc, bases)?;
    let lows = lows_of(alloc, bases)?;
    Ok(Work { exact, lows })
}

/// The curve of all vectors of the family of these sources within its bounds.
pub(crate) fn family_curve<S: Score>(
    alloc: Global,
    sources: &Sources<'_>,
    score: &S,
) -> Result<Curve, NoMemory>
    requires sources { AreSources sources.now }
    requires room { vector_count sources.now.family.now 0 * vertex_count sources.now.family.now ≤ most_vertices }
    ensures { IfOk result (IsCurve (box_points S.ends sources.now.family.now)) }
{
    let mut work = work_of(alloc, sources.bases.as_slice())?;
    whole_curve(alloc, &mut work, sources, score)
}
