//! The table of parts.

ghost use Rattle.std.specs.Prelude.{◌≡◌, ◌≤◌, IfOk, All, length, map};
ghost use Rattle.csv.specs.Records.{fields_of};
ghost use Rattle.answers.specs.Answers.{Gives};
ghost use Rattle.spares_input.specs.Limits.{most_parts};
ghost use Rattle.spares_input.specs.Rows.{IsPartRow};
ghost use Rattle.csv_tables.specs.Rest.{table_limit};
ghost use Rattle.csv_tables.specs.Tables.{rows_of};
ghost use Rattle.csv_tables.specs.Parts.{parent_in, part_of, parts_of, parts_header, weight_in};

use crate::fault::TableFault;
use crate::fields::{field, name_at, name_in, number_at, used_at};
use crate::table::{Table, read_table};
use answers::Stop;
use csv::ByteRecord;
use spares_input::{MOST_PART_COST, MOST_PARTS, MOST_STOCK, Name, PartRow};
use std::alloc::Global;

/// The rows of a table of parts, or its first fault. The last column, `weight`, may be missing: then each line unit has
/// the weight 1.
pub fn read_parts(alloc: Global, bytes: &[u8]) -> Result<Vec<PartRow>, Stop<TableFault>>
    requires { length bytes.now ≤ table_limit }
    ensures answer { Gives (parts_of bytes.now) (rows_of result) }
    ensures few { IfOk result (λ v. length v.items ≤ most_parts) }
    ensures fields { IfOk result (λ v. All IsPartRow v.items) }
{
    read_table(alloc, bytes, &Parts, 6, header().as_slice(), MOST_PARTS)
}

/// The columns of a table of parts.
fn header() -> [&'static [u8]; 7]
    ensures { map (λ f. f.now) result ≡ parts_header }
{
    [
        b"part".as_slice(),
        b"parent".as_slice(),
        b"cost".as_slice(),
        b"per_system".as_slice(),
        b"max_depot".as_slice(),
        b"max_base".as_slice(),
        b"weight".as_slice(),
    ]
}

/// The table of parts.
struct Parts;

impl Table for Parts {
    type Row = PartRow;

    ghost row_of = { λ _. part_of };

    fn row(&self, row: u32, record: &ByteRecord) -> Result<PartRow, TableFault> {
        part_of(row, record)
    }
}

/// The part of a record.
#[tactic(auto, unfolding(crate::specs::Parts::part_of))]
fn part_of(row: u32, record: &ByteRecord) -> Result<PartRow, TableFault>
    ensures { result ≡ part_of row (fields_of «record».now) }
{
    let name = name_at(row, 1, record)?;
    let parent = parent_in(row, 2, field(record, 1))?;
    let line = parent.is_none();
    let cost = number_at(row, 3, 0, 1, MOST_PART_COST, record)?;
    let per_system = used_at(line, row, 4, 0, 1, 100, record)?;
    let max_depot = number_at(row, 5, 0, 0, MOST_STOCK, record)?;
    let max_base = number_at(row, 6, 0, 0, MOST_STOCK, record)?;
    let weight = weight_in(line, row, record)?;
    Ok(PartRow {
        name,
        parent,
        cost,
        per_system,
        max_depot: max_depot as u8,
        max_base: max_base as u8,
        weight: weight as u8,
    })
}

/// The name of a shop unit's line unit, or none for a line unit.
fn parent_in(row: u32, column: u8, text: &[u8]) -> Result<Option<Name>, TableFault>
    ensures { result ≡ parent_in row column text.now }
{
    if text.is_empty() {
        return Ok(None);
    }
    let name = name_in(row, column, text)?;
    Ok(Some(name))
}

/// The weight of a part, whose table may lack the column.
fn weight_in(line: bool, row: u32, record: &ByteRecord) -> Result<u32, TableFault>
    ensures weight { result ≡ weight_in line row (fields_of «record».now) }
    ensures range { IfOk result (λ n. n ≤ 100) }
{
    if record.len() == 7 {
        return used_at(line, row, 7, 0, 1, 100, record);
    }
    if line { Ok(1) } else { Ok(0) }
}
