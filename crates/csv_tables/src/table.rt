//! A table of any kind, read record by record.

ghost use Rattle.std.specs.Prelude.{◌≡◌, ◌+◌, ◌<◌, ◌≤◌, ◌^◌, ℕ, [], Result, length, map};
ghost use Rattle.std.specs.Result.{result_map_both};
ghost use Rattle.csv.specs.Records.{fields_of};
ghost use Rattle.answers.specs.Answers.{Gives};
ghost use Rattle.spares_input.specs.Limits.{most_pairs};
ghost use Rattle.csv_tables.specs.Rest.{all_records, rest_of, IsTable, Record, table_limit};
ghost use Rattle.csv_tables.specs.Tables.{column_fault, header_in, row_with, rows_from, rows_of, table_of};
ghost use Rattle.csv_tables.specs.declared.fault.TableFault.{TableFault};

use crate::fault::TableFault;
use crate::fields::{counted, field};
use crate::reader::{next_record, table_of};
use answers::Stop;
use csv::{ByteRecord, Reader};
use std::alloc::Global;

/// A kind of table, which parses its records.
pub trait Table {
    /// A row of this table.
    type Row: Drop;

    /// The row of a record, by the number of its row in the file, or its first fault.
    ghost row_of: { Self → ℕ → Record → Result Self.Row TableFault };

    /// The row of a record, or its first fault.
    fn row(&self, row: u32, record: &ByteRecord) -> Result<Self::Row, TableFault>
        ensures { result ≡ row_of self.now row (fields_of «record».now) };
}

/// The rows of a table with these columns, or its first fault. The last columns may be missing, down to `least`.
pub fn read_table<T: Table>(
    alloc: Global,
    bytes: &[u8],
    table: &T,
    least: u8,
    header: &[&[u8]],
    limit: u32,
) -> Result<Vec<T::Row>, Stop<TableFault>>
    requires small { length bytes.now ≤ table_limit }
    requires columns { length header.now < 256 }
    requires few { limit ≤ most_pairs }
    ensures { Gives (table_of (T.row_of table.now) limit least (map (λ f. f.now) header.now) (all_records bytes.now))
        (rows_of result) }
{
    let mut rdr = table_of(alloc, bytes);
    let mut record = ByteRecord::new(alloc);
    read_records(alloc, &mut rdr, &mut record, table, least, header, limit)
}

/// The rows of the records left, the first of which is the header, or the first fault.
fn read_records<T: Table>(
    alloc: Global,
    rdr: &mut Reader<&[u8]>,
    record: &mut ByteRecord,
    table: &T,
    least: u8,
    header: &[&[u8]],
    limit: u32,
) -> Result<Vec<T::Row>, Stop<TableFault>>
    requires reader { IsTable rdr.old }
    requires columns { length header.now < 256 }
    requires few { limit ≤ most_pairs }
    ensures { Gives (table_of (T.row_of table.now) limit least (map (λ f. f.now) header.now) (rest_of rdr.old))
        (rows_of result) }
{
    if !next_record(rdr, record)? {
        return Err(Stop::Fault(TableFault::NoHeader));
    }
    match header_in(least, header, record) {
        Ok(columns) => read_rows(alloc, rdr, record, table, columns, limit),
        Err(fault) => Err(Stop::Fault(fault)),
    }
}

/// The number of columns of a header, or its first fault.
fn header_in(least: u8, header: &[&[u8]], record: &ByteRecord) -> Result<u8, TableFault>
    requires columns { length header.now < 256 }
    requires fields { length (fields_of «record».now) < 2 ^ 32 }
    ensures { result ≡ header_in least (map (λ f. f.now) header.now) (fields_of «record».now) }
{
    let columns = record.len();
    if columns < least as usize || columns > header.len() {
        return Err(TableFault::FieldCount {
            row: 1,
            found: columns as u32,
        });
    }
    for k in 0..columns {
        if let Some(fault) = column_fault(header, record, k) {
            return Err(fault);
        }
    }
    Ok(columns as u8)
}

/// The fault of a column of the header.
fn column_fault(header: &[&[u8]], record: &ByteRecord, k: usize) -> Option<TableFault>
    requires columns { length header.now < 256 }
    requires within { k < length header.now }
    ensures { result ≡ column_fault (map (λ f. f.now) header.now) (fields_of «record».now) k }
{
    let wanted = header[k];
    if field(record, k) == wanted {
        None
    } else {
        Some(TableFault::Header {
            column: k as u8 + 1,
        })
    }
}

/// The rows of the records left, the first of which is row 2 of the file.
fn read_rows<T: Table>(
    alloc: Global,
    rdr: &mut Reader<&[u8]>,
    record: &mut ByteRecord,
    table: &T,
    columns: u8,
    limit: u32,
) -> Result<Vec<T::Row>, Stop<TableFault>>
    requires reader { IsTable rdr.old }
    requires few { limit ≤ most_pairs }
    ensures { Gives (rows_from (T.row_of table.now) limit columns 2 (rest_of rdr.old)) (rows_of result) }
{
    let mut rows = Vec::new(alloc);
    put_rows(&mut rows, rdr, record, table, columns, limit)?;
    Ok(rows)
}

/// Puts the rows of the records left to an empty list, the first as row 2 of the file.
fn put_rows<T: Table>(
    rows: &mut Vec<T::Row>,
    rdr: &mut Reader<&[u8]>,
    record: &mut ByteRecord,
    table: &T,
    columns: u8,
    limit: u32,
) -> Result<(), Stop<TableFault>>
    requires empty { rows.old.items ≡ [] }
    requires reader { IsTable rdr.old }
    requires few { limit ≤ most_pairs }
    ensures { Gives (rows_from (T.row_of table.now) limit columns 2 (rest_of rdr.old))
        (result_map_both (λ _. rows.new.items) (λ e. e) result) }
{
    for row in 2..limit + 2 {
        if !next_record(rdr, record)? {
            return Ok(());
        }
        match row_in(table, row, columns, record) {
            Ok(found) => rows.push(found)?,
            Err(fault) => return Err(Stop::Fault(fault)),
        }
    }
    if next_record(rdr, record)? {
        return Err(Stop::Fault(TableFault::TooManyRows));
    }
    Ok(())
}

/// The row of a record with this number of fields, or its first fault.
fn row_in<T: Table>(
    table: &T,
    row: u32,
    columns: u8,
    record: &ByteRecord,
) -> Result<T::Row, TableFault>
    requires { length (fields_of «record».now) < 2 ^ 32 }
    ensures { result ≡ row_with (T.row_of table.now) row columns (fields_of «record».now) }
{
    counted(row, columns, record)?;
    table.row(row, record)
}
