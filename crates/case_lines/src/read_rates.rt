//! The lines of the rates, by part and then by site.

ghost use Rattle.std.specs.Prelude.{◌≤◌, ◌<◌, ◌*◌, length};
ghost use Rattle.line_text.specs.Formats.{each};
ghost use Rattle.line_text.specs.Texts.{numbers_from};
ghost use Rattle.line_text.specs.Reading.{Reads, Gathers, Takes};
ghost use Rattle.spares_input.specs.Limits.{most_sites, most_parts};
ghost use Rattle.case_lines.specs.Rates.{pair_rates};
ghost use Rattle.case_lines.specs.Grammar.{pair_of, pair_at, rate_fields, rate_line, rates};

use crate::rates::has_demand;
use crate::read_fields::fixed_if;
use answers::Stop;
use line_text::{BadLine, Fields, Lines, count_line};
use spares_input::{MOST_DAYS, PartId, PartRow, RateRow, SiteId, SiteRow};
use std::alloc::Global;

/// Takes `PART,SITE,DEMAND,REPAIR_HERE,SHARE,DAYS`; a field that the pair lacks is empty.
fn rate_of(
    fields: &mut Fields<'_>,
    part: PartId,
    row: &PartRow,
    site: SiteId,
    place: &SiteRow,
) -> Option<RateRow>
    ensures { Takes (λ r. r) result fields.new
        ((rate_fields (pair_of part.0 row.now site.0 place.now)).read fields.old) }
{
    let is_line = row.parent.is_none();
    fields.word(row.name.as_bytes())?;
    fields.word(place.name.as_bytes())?;
    let demand = fixed_if(fields, has_demand(is_line, place.depot), 4, 1_000_000_000)?;
    let repair_here = fixed_if(fields, !place.depot, 4, 10_000)?;
    let share = fixed_if(fields, !is_line, 4, 10_000)?;
    let repair_days = fields.fixed(2, 0, MOST_DAYS as u128)?;
    Some(RateRow {
        part,
        site,
        demand: demand as u32,
        repair_here: repair_here as u16,
        share: share as u16,
        repair_days: repair_days as u32,
    })
}

/// Reads the line of a pair.
#[tactic(auto, using(line_text::proofs::Cursors::line_missing))]
fn rate_line(
    lines: &mut Lines<'_>,
    part: PartId,
    row: &PartRow,
    site: SiteId,
    place: &SiteRow,
) -> Result<RateRow, BadLine>
    ensures { Reads (λ r. r) result lines.new
        ((rate_line (pair_of part.0 row.now site.0 place.now)).read lines.old) }
{
    let mut fields = lines.fields()?;
    let rate = rate_of(&mut fields, part, row, site, place);
    lines.row(rate, &fields)
}

/// Reads the line of the pair at a place.
fn rate_at(
    lines: &mut Lines<'_>,
    sites: &[SiteRow],
    parts: &[PartRow],
    i: usize,
) -> Result<RateRow, BadLine>
    requires some_sites { 0 < length sites.now }
    requires few_sites { length sites.now ≤ most_sites }
    requires few_parts { length parts.now ≤ most_parts }
    requires within { i < length parts.now * length sites.now }
    ensures { Reads (λ r. r) result lines.new ((rate_line (pair_at sites.now parts.now i)).read lines.old) }
{
    let part = i / sites.len();
    let site = i % sites.len();
    rate_line(
        lines,
        PartId(part as u16),
        &parts[part],
        SiteId(site as u8),
        &sites[site],
    )
}

/// Reads the rates of each pair.
fn each_rate(
    alloc: Global,
    lines: &mut Lines<'_>,
    sites: &[SiteRow],
    parts: &[PartRow],
) -> Result<Vec<RateRow>, Stop<BadLine>>
    requires some_sites { 0 < length sites.now }
    requires few_sites { length sites.now ≤ most_sites }
    requires few_parts { length parts.now ≤ most_parts }
    ensures { Gathers (λ v. v.items) result lines.new
        ((each (numbers_from 0 (length parts.now * length sites.now))
        (λ i. rate_line (pair_at sites.now parts.now i))).read lines.old) }
{
    let pairs = parts.len() * sites.len();
    let mut found = Vec::new(alloc);
    for i in 0..pairs {
        let rate = rate_at(lines, sites, parts, i)?;
        found.push(rate)?;
    }
    Ok(found)
}

/// Reads the line of the number of pairs, and then the rates of each pair.
fn counted_rates(
    alloc: Global,
    lines: &mut Lines<'_>,
    sites: &[SiteRow],
    parts: &[PartRow],
) -> Result<Vec<RateRow>, Stop<BadLine>>
    requires some_sites { 0 < length sites.now }
    requires few_sites { length sites.now ≤ most_sites }
    requires few_parts { length parts.now ≤ most_parts }
    ensures { Gathers (λ v. v.items) result lines.new
        ((pair_rates (length parts.now * length sites.now)
        (length parts.now * length sites.now) sites.now parts.now).read lines.old) }
{
    let pairs = parts.len() as u128 * sites.len() as u128;
    let _count = count_line(lines, b"rates", pairs, pairs)?;
    each_rate(alloc, lines, sites, parts)
}

/// Reads the lines of the rates.
pub(crate) fn rates(
    alloc: Global,
    lines: &mut Lines<'_>,
    sites: &[SiteRow],
    parts: &[PartRow],
) -> Result<Vec<RateRow>, Stop<BadLine>>
    requires some_sites { 0 < length sites.now }
    requires few_sites { length sites.now ≤ most_sites }
    requires few_parts { length parts.now ≤ most_parts }
    ensures { Gathers (λ v. v.items) result lines.new ((rates sites.now parts.now).read lines.old) }
{
    counted_rates(alloc, lines, sites, parts)
}
