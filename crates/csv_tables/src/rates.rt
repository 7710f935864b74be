//! The table of rates, and how rows name the pairs of a frame.

ghost use Rattle.std.specs.Prelude.{◌≡◌, ◌≤◌, ◌<◌, [], IfOk, All, length, get_or, map};
ghost use Rattle.std.specs.Result.{result_map_both};
ghost use Rattle.csv.specs.Records.{fields_of};
ghost use Rattle.answers.specs.Answers.{Gives};
ghost use Rattle.spares_input.specs.Limits.{most_pairs};
ghost use Rattle.spares_input.specs.Cases.{IsRateOf};
ghost use Rattle.csv_tables.specs.Rest.{table_limit};
ghost use Rattle.csv_tables.specs.Tables.{rows_of};
ghost use Rattle.csv_tables.specs.Rates.{part_in, rate_in, rate_of, rates_of, rates_header, site_in};

use crate::fault::TableFault;
use crate::fields::{field, name_in, number_in, used_in};
use crate::table::{Table, read_table};
use answers::Stop;
use csv::ByteRecord;
use spares_input::{Frame, MOST_DAYS, MOST_PAIRS, PartId, RateRow, SiteId};
use std::alloc::Global;

/// The rows of a table of rates for this frame, or its first fault.
pub fn read_rates(
    alloc: Global,
    bytes: &[u8],
    frame: &Frame,
) -> Result<Vec<RateRow>, Stop<TableFault>>
    requires { length bytes.now ≤ table_limit }
    ensures answer { Gives (rates_of frame.now bytes.now) (rows_of result) }
    ensures few { IfOk result (λ v. length v.items ≤ most_pairs) }
    ensures fields { IfOk result (λ v. All (IsRateOf frame.now) v.items) }
{
    read_table(
        alloc,
        bytes,
        &Rates { frame },
        6,
        header().as_slice(),
        MOST_PAIRS,
    )
}

/// The columns of a table of rates.
fn header() -> [&'static [u8]; 6]
    ensures { map (λ f. f.now) result ≡ rates_header }
{
    [
        b"part".as_slice(),
        b"site".as_slice(),
        b"demand".as_slice(),
        b"repair_here".as_slice(),
        b"share".as_slice(),
        b"repair_days".as_slice(),
    ]
}

/// The table of rates for a frame.
#[derive(Drop)]
struct Rates<'a> {
    frame: &'a Frame,
}

impl<'a> Table for Rates<'a> {
    type Row = RateRow;

    ghost row_of = { λ t. rate_of t.frame.now };

    fn row(&self, row: u32, record: &ByteRecord) -> Result<RateRow, TableFault> {
        rate_of(self.frame, row, record)
    }
}

/// The rates of a record.
fn rate_of(frame: &Frame, row: u32, record: &ByteRecord) -> Result<RateRow, TableFault>
    ensures { result ≡ rate_of frame.now row (fields_of «record».now) }
{
    let fields = [
        field(record, 0),
        field(record, 1),
        field(record, 2),
        field(record, 3),
        field(record, 4),
        field(record, 5),
    ];
    rate_in(frame, row, &fields)
}

/// The rates of six fields without blanks at their ends.
#[tactic(auto, unfolding(crate::specs::Rates::rate_in))]
pub fn rate_in(frame: &Frame, row: u32, fields: &[&[u8]; 6]) -> Result<RateRow, TableFault>
    ensures { result ≡ rate_in frame.now row (λ i. get_or (map (λ f. f.now) fields.now) i []) }
{
    let part = part_in(frame, row, 1, fields[0])?;
    let site = site_in(frame, row, 2, fields[1])?;
    let line = frame.is_line(part);
    let base = site.0 != 0;
    let demand = used_in(line && base, row, 3, 4, 0, 1_000_000_000, fields[2])?;
    let repair_here = used_in(base, row, 4, 4, 0, 10_000, fields[3])?;
    let share = used_in(!line, row, 5, 4, 0, 10_000, fields[4])?;
    let repair_days = number_in(row, 6, 2, 0, MOST_DAYS, fields[5])?;
    Ok(RateRow {
        part,
        site,
        demand,
        repair_here: repair_here as u16,
        share: share as u16,
        repair_days,
    })
}

/// The part that a field names.
pub fn part_in(frame: &Frame, row: u32, column: u8, text: &[u8]) -> Result<PartId, TableFault>
    ensures part { result_map_both (λ p. p.0) (λ e. e) result ≡ part_in frame.now row column text.now }
    ensures within { IfOk result (λ p. p.0 < length frame.now.parts) }
{
    let name = name_in(row, column, text)?;
    match frame.find_part(&name) {
        Some(part) => Ok(part),
        None => Err(TableFault::UnknownPart { row }),
    }
}

/// The site that a field names.
pub fn site_in(frame: &Frame, row: u32, column: u8, text: &[u8]) -> Result<SiteId, TableFault>
    ensures site { result_map_both (λ s. s.0) (λ e. e) result ≡ site_in frame.now row column text.now }
    ensures within { IfOk result (λ s. s.0 < length frame.now.sites) }
{
    let name = name_in(row, column, text)?;
    match frame.find_site(&name) {
        Some(site) => Ok(site),
        None => Err(TableFault::UnknownSite { row }),
    }
}
