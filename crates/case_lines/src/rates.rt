//! The lines of the rates, by part and then by site.

ghost use Rattle.std.specs.Prelude.{◌≡◌, ℕ, ◌*◌, ◌<◌, ◌++◌, not, ◌&&◌, length, OnOk};
ghost use Rattle.std.specs.List.{concat};
ghost use Rattle.line_text.specs.Formats.{each};
ghost use Rattle.line_text.specs.Files.{line, file_text};
ghost use Rattle.line_text.specs.Texts.{numbers_from};
ghost use Rattle.spares_input.specs.Frames.{site_at, part_at};
ghost use Rattle.spares_input.specs.Cases.{rate_at};
ghost use Rattle.case_lines.specs.Grammar.{pair_of, pair_at, rate_fields, rate_line, rates};

use crate::fields::{put_fixed_if, put_name};
use answers::NoMemory;
use line_text::{put_count_line, put_fixed};
use spares_input::{Case, PartId, PartRow, RateRow, SiteId, SiteRow};

/// Whether a pair has a demand field: only a line unit at a base has one.
pub fn has_demand(is_line: bool, is_depot: bool) -> bool
    ensures { result ≡ (is_line && not is_depot) }
{
    is_line && !is_depot
}

/// Writes PART,SITE,DEMAND,REPAIR_HERE,SHARE,DAYS, with each field that the pair lacks empty.
fn put_rate(
    out: &mut Vec<u8>,
    part: &PartRow,
    site: &SiteRow,
    rate: &RateRow,
) -> Result<(), NoMemory>
    ensures { OnOk result ((p k : ℕ) → out.new.items ≡ out.old.items
        ++ (line (rate_fields (pair_of p part.now k site.now))).print rate.now) }
{
    let is_line = part.parent.is_none();
    put_name(out, &part.name)?;
    put_name(out, &site.name)?;
    put_fixed_if(out, has_demand(is_line, site.depot), 4, rate.demand as u128)?;
    put_fixed_if(out, !site.depot, 4, rate.repair_here as u128)?;
    put_fixed_if(out, !is_line, 4, rate.share as u128)?;
    put_fixed(out, 2, rate.repair_days as u128)?;
    out.push(b'\n')?;
    Ok(())
}

/// Writes the line of a pair.
fn put_pair(out: &mut Vec<u8>, case: &Case, part: PartId, site: SiteId) -> Result<(), NoMemory>
    requires part { part.0 < length case.now.parts }
    requires site { site.0 < length case.now.sites }
    ensures { OnOk result (out.new.items ≡ out.old.items
        ++ (line (rate_fields (pair_of part.0 (part_at case.now.parts part.0) site.0
        (site_at case.now.sites site.0)))).print
        (rate_at case.now part.0 site.0)) }
{
    put_rate(out, case.part(part), case.site(site), case.rate(part, site))
}

/// Writes a line for each pair.
fn put_each_rate(out: &mut Vec<u8>, case: &Case) -> Result<(), NoMemory>
    ensures { OnOk result (out.new.items ≡ out.old.items
        ++ concat ((each (numbers_from 0 (length case.now.parts * length case.now.sites))
        (λ i. rate_line (pair_at case.now.sites case.now.parts i))).print case.now.rates)) }
{
    let sites = case.site_count() as usize;
    let pairs = case.part_count() as usize * sites;
    for i in 0..pairs {
        put_pair(
            out,
            case,
            PartId((i / sites) as u16),
            SiteId((i % sites) as u8),
        )?;
    }
    Ok(())
}

/// Writes the lines of the rates.
pub(crate) fn put_rates(out: &mut Vec<u8>, case: &Case) -> Result<(), NoMemory>
    ensures { OnOk result (out.new.items ≡ out.old.items
        ++ file_text (rates case.now.sites case.now.parts) case.now.rates) }
{
    let pairs = case.part_count() as u128 * case.site_count() as u128;
    put_count_line(out, b"rates", pairs)?;
    put_each_rate(out, case)
}
