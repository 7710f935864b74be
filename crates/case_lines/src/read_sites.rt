//! The lines of the sites.

ghost use Rattle.line_text.specs.Formats.{one, each};
ghost use Rattle.line_text.specs.Files.{line};
ghost use Rattle.line_text.specs.Texts.{numbers_from};
ghost use Rattle.line_text.specs.Reading.{Reads, Gathers, Takes};
ghost use Rattle.case_lines.specs.Grammar.{depot_fields, base_fields, site_line, sites};

use crate::read_fields::name_in;
use answers::Stop;
use line_text::{BadLine, Fields, Lines, count_line};
use spares_input::{MOST_DAYS, MOST_SITES, SiteRow};
use std::alloc::Global;

/// Takes `NAME,depot,,`.
fn depot_of(fields: &mut Fields<'_>) -> Option<SiteRow>
    ensures { Takes (λ s. s) result fields.new (depot_fields.read fields.old) }
{
    let name = name_in(fields)?;
    fields.word(b"depot")?;
    fields.word(b"")?;
    fields.word(b"")?;
    Some(SiteRow {
        name,
        depot: true,
        systems: 0,
        ship: 0,
    })
}

/// Takes `NAME,base,SYSTEMS,DAYS`.
fn base_of(fields: &mut Fields<'_>) -> Option<SiteRow>
    ensures { Takes (λ s. s) result fields.new (base_fields.read fields.old) }
{
    let name = name_in(fields)?;
    fields.word(b"base")?;
    let systems = fields.number(1, 10_000)?;
    let ship = fields.fixed(2, 0, MOST_DAYS as u128)?;
    Some(SiteRow {
        name,
        depot: false,
        systems: systems as u32,
        ship: ship as u32,
    })
}

/// Reads the line of the depot.
#[tactic(auto, using(line_text::proofs::Cursors::line_missing))]
fn depot_line(lines: &mut Lines<'_>) -> Result<SiteRow, BadLine>
    ensures { Reads (λ s. s) result lines.new ((one (line depot_fields)).read lines.old) }
{
    let mut fields = lines.fields()?;
    let site = depot_of(&mut fields);
    lines.row(site, &fields)
}

/// Reads the line of a base.
#[tactic(auto, using(line_text::proofs::Cursors::line_missing))]
fn base_line(lines: &mut Lines<'_>) -> Result<SiteRow, BadLine>
    ensures { Reads (λ s. s) result lines.new ((one (line base_fields)).read lines.old) }
{
    let mut fields = lines.fields()?;
    let site = base_of(&mut fields);
    lines.row(site, &fields)
}

/// Reads the line of the site at a place.
fn site_at(lines: &mut Lines<'_>, place: usize) -> Result<SiteRow, BadLine>
    ensures { Reads (λ s. s) result lines.new ((site_line place).read lines.old) }
{
    if place == 0 {
        depot_line(lines)
    } else {
        base_line(lines)
    }
}

/// Reads `count` sites.
fn each_site(
    alloc: Global,
    lines: &mut Lines<'_>,
    count: usize,
) -> Result<Vec<SiteRow>, Stop<BadLine>>
    ensures { Gathers (λ v. v.items) result lines.new ((each (numbers_from 0 count) site_line).read lines.old) }
{
    let mut found = Vec::new(alloc);
    for k in 0..count {
        let site = site_at(lines, k)?;
        found.push(site)?;
    }
    Ok(found)
}

/// Reads the lines of the sites.
pub(crate) fn sites(alloc: Global, lines: &mut Lines<'_>) -> Result<Vec<SiteRow>, Stop<BadLine>>
    ensures { Gathers (λ v. v.items) result lines.new (sites.read lines.old) }
{
    let count = count_line(lines, b"sites", 2, MOST_SITES as u128)?;
    each_site(alloc, lines, count as usize)
}
