//! The fields of a record, and their contents.

ghost use Rattle.std.specs.Prelude.{◌≡◌, ◌≤◌, ◌<◌, ◌-◌, ◌^◌, Ok, Err, IfOk, length};
ghost use Rattle.csv.specs.Records.{fields_of};
ghost use Rattle.csv_tables.specs.Fields.{counted, field, is_blank, name_in, number_in, trim_end, trim_start, trimmed, used_in};

use crate::fault::TableFault;
use csv::ByteRecord;
use exact_ratio::read_decimal;
use spares_input::Name;

/// The field at a place, counted from 0, without the blanks at its ends. A missing field is empty.
pub fn field(record: &ByteRecord, i: usize) -> &[u8]
    ensures { result.now ≡ field (fields_of «record».now) i }
{
    match record.get(i) {
        Some(text) => trim(text),
        None => &[],
    }
}

/// The text without the blanks at its ends.
pub fn trim(text: &[u8]) -> &[u8]
    ensures { result.now ≡ trimmed text.now }
{
    trim_end(trim_start(text))
}

/// The text without the blanks at its start.
fn trim_start(text: &[u8]) -> &[u8]
    ensures { result.now ≡ trim_start text.now }
{
    for i in 0..text.len() {
        if !is_blank(text[i]) {
            return &text[i..];
        }
    }
    &text[text.len()..]
}

/// The text without the blanks at its end.
fn trim_end(text: &[u8]) -> &[u8]
    ensures { result.now ≡ trim_end text.now }
{
    let mut end = text.len();
    while end > 0 && is_blank(text[end - 1]) {
        end -= 1;
    }
    &text[..end]
}

/// Whether a byte is a space or a tab.
fn is_blank(b: u8) -> bool
    ensures { result ≡ is_blank b }
{
    b == b' ' || b == b'\t'
}

/// The number of columns if the record has a field for each, otherwise `FieldCount`.
pub fn counted(row: u32, columns: u8, record: &ByteRecord) -> Result<u8, TableFault>
    requires { length (fields_of «record».now) < 2 ^ 32 }
    ensures { result ≡ counted row columns (fields_of «record».now) }
{
    if record.len() == columns as usize {
        Ok(columns)
    } else {
        Err(TableFault::FieldCount {
            row,
            found: record.len() as u32,
        })
    }
}

/// The name in a field.
pub fn name_in(row: u32, column: u8, text: &[u8]) -> Result<Name, TableFault>
    ensures { result ≡ name_in row column text.now }
{
    match Name::of(text) {
        Some(name) => Ok(name),
        None => Err(TableFault::BadName { row, column }),
    }
}

/// The name in a column of a record. Columns count from 1.
pub fn name_at(row: u32, column: u8, record: &ByteRecord) -> Result<Name, TableFault>
    requires { 0 < column }
    ensures { result ≡ name_in row column (field (fields_of «record».now) (column - 1)) }
{
    name_in(row, column, field(record, column as usize - 1))
}

/// The number in a field, in units of its last place.
pub fn number_in(
    row: u32,
    column: u8,
    places: u8,
    least: u32,
    most: u32,
    text: &[u8],
) -> Result<u32, TableFault>
    requires { places ≤ 4 }
    ensures number { result ≡ number_in row column places least most text.now }
    ensures range { IfOk result (λ n. (least ≤ n) × (n ≤ most)) }
{
    if text.is_empty() {
        return Err(TableFault::FieldEmpty { row, column });
    }
    match read_decimal(text, places) {
        Err(fault) => Err(TableFault::BadNumber { row, column, fault }),
        Ok(decimal) => {
            if u64::from(least) <= decimal.units && decimal.units <= u64::from(most) {
                Ok(decimal.units as u32)
            } else {
                Err(TableFault::OutOfRange { row, column })
            }
        }
    }
}

/// The number in a field that is used, or 0 for one that must be empty.
pub fn used_in(
    used: bool,
    row: u32,
    column: u8,
    places: u8,
    least: u32,
    most: u32,
    text: &[u8],
) -> Result<u32, TableFault>
    requires { places ≤ 4 }
    ensures number { result ≡ used_in used row column places least most text.now }
    ensures range { IfOk result (λ n. n ≤ most) }
{
    if used {
        return number_in(row, column, places, least, most, text);
    }
    if text.is_empty() {
        Ok(0)
    } else {
        Err(TableFault::FieldNotEmpty { row, column })
    }
}

/// The number in a column of a record. Columns count from 1.
pub fn number_at(
    row: u32,
    column: u8,
    places: u8,
    least: u32,
    most: u32,
    record: &ByteRecord,
) -> Result<u32, TableFault>
    requires column { 0 < column }
    requires places { places ≤ 4 }
    ensures number { result ≡ number_in row column places least most (field (fields_of «record».now) (column - 1)) }
    ensures range { IfOk result (λ n. (least ≤ n) × (n ≤ most)) }
{
    number_in(
        row,
        column,
        places,
        least,
        most,
        field(record, column as usize - 1),
    )
}

/// The number in a column of a record if it is used, or 0 for one that must be empty. Columns count from 1.
pub fn used_at(
    used: bool,
    row: u32,
    column: u8,
    places: u8,
    least: u32,
    most: u32,
    record: &ByteRecord,
) -> Result<u32, TableFault>
    requires column { 0 < column }
    requires places { places ≤ 4 }
    ensures number { result ≡ used_in used row column places least most (field (fields_of «record».now) (column - 1)) }
    ensures range { IfOk result (λ n. n ≤ most) }
{
    used_in(
        used,
        row,
        column,
        places,
        least,
        most,
        field(record, column as usize - 1),
    )
}
