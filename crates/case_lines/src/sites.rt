//! The lines of the sites.

ghost use Rattle.std.specs.Prelude.{◌≡◌, ◌++◌, length, OnOk};
ghost use Rattle.std.specs.List.{concat};
ghost use Rattle.line_text.specs.Formats.{each};
ghost use Rattle.line_text.specs.Files.{line, file_text};
ghost use Rattle.line_text.specs.Texts.{numbers_from};
ghost use Rattle.case_lines.specs.Grammar.{depot_fields, base_fields, site_line, sites};

use answers::NoMemory;
use line_text::{put_count_line, put_fixed, put_number};
use spares_input::{Case, SiteId, SiteRow};

/// Writes NAME,depot,,
fn put_depot(out: &mut Vec<u8>, site: &SiteRow) -> Result<(), NoMemory>
    ensures { OnOk result (out.new.items ≡ out.old.items ++ (line depot_fields).print site.now) }
{
    out.extend_from_slice(site.name.as_bytes())?;
    out.extend_from_slice(b",depot,,\n")?;
    Ok(())
}

/// Writes NAME,base,SYSTEMS,DAYS
fn put_base(out: &mut Vec<u8>, site: &SiteRow) -> Result<(), NoMemory>
    ensures { OnOk result (out.new.items ≡ out.old.items ++ (line base_fields).print site.now) }
{
    out.extend_from_slice(site.name.as_bytes())?;
    out.extend_from_slice(b",base,")?;
    put_number(out, site.systems as u128)?;
    out.push(b',')?;
    put_fixed(out, 2, site.ship as u128)?;
    out.push(b'\n')?;
    Ok(())
}

/// Writes the line of the site at a place.
#[tactic(auto, using(line_text::proofs::Loops::one_text))]
fn put_site(out: &mut Vec<u8>, place: u8, site: &SiteRow) -> Result<(), NoMemory>
    ensures { OnOk result (out.new.items ≡ out.old.items ++ concat ((site_line place).print site.now)) }
{
    if place == 0 {
        put_depot(out, site)
    } else {
        put_base(out, site)
    }
}

/// Writes a line for each site.
fn put_each_site(out: &mut Vec<u8>, case: &Case) -> Result<(), NoMemory>
    ensures { OnOk result (out.new.items ≡ out.old.items
        ++ concat ((each (numbers_from 0 (length case.now.sites)) site_line).print case.now.sites)) }
{
    let count = case.site_count();
    for k in 0..count {
        put_site(out, k, case.site(SiteId(k)))?;
    }
    Ok(())
}

/// Writes the lines of the sites.
pub(crate) fn put_sites(out: &mut Vec<u8>, case: &Case) -> Result<(), NoMemory>
    ensures { OnOk result (out.new.items ≡ out.old.items ++ file_text sites case.now.sites) }
{
    put_count_line(out, b"sites", case.site_count() as u128)?;
    put_each_site(out, case)
}
