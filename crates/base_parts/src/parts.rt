//! The part of each base's curve at given stocks of the depot.

ghost use Rattle.std.specs.Prelude.{◌≡◌, ◌+◌, ◌≤◌, ◌∷◌, [], IfOk, drop, length, sum_by};
ghost use Rattle.hull.specs.declared.point.Point.{Point};
ghost use Rattle.hull.specs.Curves.{lagrangian, Among};
ghost use Rattle.sum_walk.specs.Sums.{sums_of_each};
ghost use Rattle.curve_parts.specs.Parts.{IsPartOf, StandForBetween};
ghost use Rattle.curve_parts.specs.Cuts.{IsSmall, IsWindow};
ghost use Rattle.curve_parts.specs.Beyond.{LieBeyond};
ghost use Rattle.family_points.specs.Counts.{most_vertices};
ghost use Rattle.family_points.specs.Separation.{base_points, depot_point, depot_points};
ghost use Rattle.family_points.specs.Inputs.{IsAt, vector_count, vertex_count};
ghost use Rattle.family_rows.specs.Sources.{AreSources};
ghost use Rattle.family_rows.specs.Spots.{IsBaseAt};
ghost use Rattle.family_rows.specs.Tabled.{AreTables, box_numbers};

use crate::choices::put_choices;
use answers::NoMemory;
use curve_parts::{cut, least_at_low};
use family_bases::bases::base_of;
use family_bases::curves::chains_of;
use family_bases::lows::Lows;
use family_numbers::Numbers;
use family_rows::base::BaseSpot;
use family_rows::base_at::BaseAt;
use family_rows::depot::DepotTables;
use family_rows::sources::Sources;
use hull::{Chain, Price, Score};
use series_bounds::short::Iv64;
use spares_input::SiteId;
use std::alloc::Global;
use sum_walk::walk::Walking;

/// Scratch lists; contents are not kept between calls.
#[derive(Drop)]
pub struct Work<'b> {
    /// The parts of the bases' curves, the first base first.
    pub parts: Vec<Chain<BaseSpot<'b>>>,
    /// The backorders at a base.
    pub rows: Vec<Vec<Iv64<48>>>,
    /// The lower bounds of the choices of the shop units' stocks there.
    pub lows: Vec<Lows>,
    /// The lists of a walk over the parts.
    pub walking: Walking,
}

impl<'b> Work<'b> {
    /// Lists for the bases of these sources. Want of memory is the only error.
    pub fn new(alloc: Global, sources: &'b Sources<'_>) -> Result<Work<'b>, NoMemory>
        ensures { IfOk result (λ work. length work.parts.items ≡ length sources.now.bases.items) }
    {
        Ok(Work {
            parts: chains_of(alloc, sources.bases.as_slice())?,
            rows: Vec::new(alloc),
            lows: Vec::new(alloc),
            walking: Walking::new(alloc),
        })
    }
}

/// How high the points of a base or of several lie at the low price.
#[derive(Clone, Copy, Drop)]
struct Lowest {
    /// No point is lower.
    least: u128,
    /// The vertices that the parts lack are higher by this.
    gap: u128,
}

/// Sets `part` to the part of a base's curve between two prices. `rows` and `lows` are scratch lists.
fn put_part<'b, S: Score>(
    part: &mut Chain<BaseSpot<'b>>,
    rows: &mut Vec<Vec<Iv64<48>>>,
    lows: &mut Vec<Lows>,
    here: &BaseAt<'_, 'b>,
    score: &S,
    numbers: &Numbers<48>,
    tables: &DepotTables<'_>,
    low: Price,
    high: Price,
) -> Result<Lowest, NoMemory>
    requires here { IsBaseAt here.now }
    requires numbers { numbers.now ≡ box_numbers here.now.family.now }
    requires tables { AreTables here.now.family.now (drop 1 here.now.depot.now) tables.now }
    requires room { vector_count here.now.family.now here.now.site.0 ≤ most_vertices }
    requires low { IsSmall low }
    requires high { IsSmall high }
    requires window { IsWindow low high }
    ensures part { IfOk result (λ _. IsPartOf low high
        (base_points S.ends here.now.family.now here.now.depot.now here.now.site.0) part.new) }
    ensures few { IfOk result (λ _. length part.new ≤ vector_count here.now.family.now here.now.site.0) }
    ensures least { IfOk result (λ lowest. (w : Point)
        → Among w (base_points S.ends here.now.family.now here.now.depot.now here.now.site.0)
        → lowest.least ≤ lagrangian low.p low.q w) }
    ensures beyond { IfOk result (λ lowest. LieBeyond low
        (base_points S.ends here.now.family.now here.now.depot.now here.now.site.0) part.new
        (lowest.least + lowest.gap)) }
{
    let passed = put_choices(part, rows, lows, here, score, numbers, tables, low, high)?;
    let beyond = cut(part, low, high).min(passed);
    let least = least_at_low(part, low);
    Ok(Lowest {
        least,
        gap: beyond.saturating_sub(least),
    })
}

/// Sets the parts of all bases at these stocks of the depot. Returns how high the vertices lie at the low price that
/// aren't sums of theirs. Want of memory is the only error.
pub fn put_parts<'b, S: Score>(
    work: &mut Work<'b>,
    sources: &'b Sources<'_>,
    score: &S,
    tables: &DepotTables<'_>,
    depot: &[u8],
    low: Price,
    high: Price,
) -> Result<u128, NoMemory>
    requires sources { AreSources sources.now }
    requires depot { IsAt sources.now.family.now 0 depot.now }
    requires tables { AreTables sources.now.family.now (drop 1 depot.now) tables.now }
    requires room { vertex_count sources.now.family.now ≤ most_vertices }
    requires low { IsSmall low }
    requires high { IsSmall high }
    requires window { IsWindow low high }
    requires work { length work.old.parts.items ≡ length sources.now.bases.items }
    ensures stands { IfOk result (λ _. let x = sources.now.family.now in StandForBetween low high
        (depot_points S.ends x depot.now)
        (sums_of_each (depot_point x depot.now ∷ []) work.new.parts.items)) }
    ensures beyond { IfOk result (λ beyond. let x = sources.now.family.now in LieBeyond low
        (depot_points S.ends x depot.now)
        (sums_of_each (depot_point x depot.now ∷ []) work.new.parts.items) beyond) }
    ensures few { IfOk result
        (λ _. 1 + sum_by length work.new.parts.items ≤ vertex_count sources.now.family.now) }
    ensures work { IfOk result (λ _. length work.new.parts.items ≡ length sources.now.bases.items) }
{
    sources.family.invariant();
    let cost = u128::from(sources.family.cost(SiteId(0), depot));
    let mut least = low.p * cost;
    let mut gap = u128::MAX;
    for j in 1..sources.family.sites() {
        let here = base_of(sources, depot, j);
        let lowest = put_part(
            &mut work.parts[usize::from(j) - 1],
            &mut work.rows,
            &mut work.lows,
            &here,
            score,
            &sources.numbers,
            tables,
            low,
            high,
        )?;
        least = least.saturating_add(lowest.least);
        gap = gap.min(lowest.gap);
    }
    Ok(least.saturating_add(gap))
}
