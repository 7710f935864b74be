//! All lines of a case.

ghost use Rattle.std.specs.Prelude.{◌≡◌, true};
ghost use Rattle.answers.specs.Answers.{Gives};
ghost use Rattle.line_text.specs.Reading.{Gathers};
ghost use Rattle.case_lines.specs.Grammar.{case_format};
ghost use Rattle.case_lines.specs.Framed.{rows_of, framed};

use crate::read_parts::parts;
use crate::read_rates::rates;
use crate::read_sites::sites;
use answers::{List, Stop};
use line_text::{BadLine, Lines};
use spares_input::{Case, CaseFault, Frame, PartRow, RateRow, SiteRow};
use std::alloc::Global;

/// The rows of a case's lines. They need not make a case: names may be repeated, and parents may be unknown.
#[derive(Drop)]
pub struct CaseLines {
    pub sites: List<SiteRow>,
    pub parts: List<PartRow>,
    pub rates: List<RateRow>,
}

/// Reads the lines of a case. `BadLine` leaves the cursor at the first bad line.
pub fn case_lines(alloc: Global, lines: &mut Lines<'_>) -> Result<CaseLines, Stop<BadLine>>
    ensures { Gathers rows_of result lines.new (case_format.read lines.old) }
{
    let sites = sites(alloc, lines)?;
    let parts = parts(alloc, lines)?;
    let rates = rates(alloc, lines, sites.as_slice(), parts.as_slice())?;
    Ok(CaseLines {
        sites: List::of(sites),
        parts: List::of(parts),
        rates: List::of(rates),
    })
}

/// The case of lines. A fault is the first rule that their sites and parts break. There is none for rates, since the
/// lines have one row for each pair.
pub fn case_of_lines(alloc: Global, rows: CaseLines) -> Result<Case, Stop<CaseFault>>
    requires { case_format.fits (rows_of rows) ≡ true }
    ensures { Gives (framed (rows_of rows)) result }
{
    let CaseLines {
        sites,
        parts,
        rates,
    } = rows;
    let frame = Frame::build(alloc, sites.into_vec(), parts.into_vec())?;
    match Case::build(alloc, frame, rates.into_vec()) {
        Ok(case) => Ok(case),
        Err((_frame, stop)) => Err(stop),
    }
}
