//! The table of sites.

ghost use Rattle.std.specs.Prelude.{◌≡◌, ◌≤◌, IfOk, All, length, map};
ghost use Rattle.csv.specs.Records.{fields_of};
ghost use Rattle.answers.specs.Answers.{Gives};
ghost use Rattle.spares_input.specs.Limits.{most_sites};
ghost use Rattle.spares_input.specs.Rows.{IsSiteRow};
ghost use Rattle.csv_tables.specs.Rest.{table_limit};
ghost use Rattle.csv_tables.specs.Tables.{rows_of};
ghost use Rattle.csv_tables.specs.Sites.{depot_in, site_of, sites_of, sites_header};

use crate::fault::TableFault;
use crate::fields::{field, name_at, used_at};
use crate::table::{Table, read_table};
use answers::Stop;
use csv::ByteRecord;
use spares_input::{MOST_DAYS, MOST_SITES, SiteRow};
use std::alloc::Global;

/// The rows of a table of sites, or its first fault.
pub fn read_sites(alloc: Global, bytes: &[u8]) -> Result<Vec<SiteRow>, Stop<TableFault>>
    requires { length bytes.now ≤ table_limit }
    ensures answer { Gives (sites_of bytes.now) (rows_of result) }
    ensures few { IfOk result (λ v. length v.items ≤ most_sites) }
    ensures fields { IfOk result (λ v. All IsSiteRow v.items) }
{
    read_table(alloc, bytes, &Sites, 4, header().as_slice(), MOST_SITES)
}

/// The columns of a table of sites.
fn header() -> [&'static [u8]; 4]
    ensures { map (λ f. f.now) result ≡ sites_header }
{
    [
        b"site".as_slice(),
        b"kind".as_slice(),
        b"systems".as_slice(),
        b"ship_days".as_slice(),
    ]
}

/// The table of sites.
struct Sites;

impl Table for Sites {
    type Row = SiteRow;

    ghost row_of = { λ _. site_of };

    fn row(&self, row: u32, record: &ByteRecord) -> Result<SiteRow, TableFault> {
        site_of(row, record)
    }
}

/// The site of a record.
#[tactic(auto, unfolding(crate::specs::Sites::site_of))]
fn site_of(row: u32, record: &ByteRecord) -> Result<SiteRow, TableFault>
    ensures { result ≡ site_of row (fields_of «record».now) }
{
    let name = name_at(row, 1, record)?;
    let depot = depot_in(row, field(record, 1))?;
    let systems = used_at(!depot, row, 3, 0, 1, 10_000, record)?;
    let ship = used_at(!depot, row, 4, 2, 0, MOST_DAYS, record)?;
    Ok(SiteRow {
        name,
        depot,
        systems,
        ship,
    })
}

/// Whether the kind of a site is the depot.
fn depot_in(row: u32, text: &[u8]) -> Result<bool, TableFault>
    ensures { result ≡ depot_in row text.now }
{
    if text == b"depot".as_slice() {
        Ok(true)
    } else if text == b"base".as_slice() {
        Ok(false)
    } else {
        Err(TableFault::BadKind { row })
    }
}
