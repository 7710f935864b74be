//! The lines of refused tables.
ghost use Rattle.std.specs.Prelude.{◌≡◌, ◌≤◌, ◌++◌, length};
ghost use Rattle.refusals.specs.Lines.{table_text};

use crate::line::Line;
use crate::refusal::File;
use csv_tables::TableFault;

impl Line {
    /// Appends the fault of a table.
    pub(crate) fn put_table(&mut self, file: File, fault: TableFault)
        requires { length self.old ≤ 6 }
        ensures text { self.new ≡ self.old ++ table_text file fault }
        ensures short { length self.new ≤ 159 }
    {
        match fault {
            TableFault::NoHeader => self.put_file(b"no-header,", file),
            TableFault::FieldCount { row, found } => {
                self.put_at_field(b"field-count,", file, row, found)
            }
            TableFault::Header { column } => self.put_in_file(b"header,", file, column as u32),
            TableFault::TooManyRows => self.put_file(b"too-many-rows,", file),
            TableFault::BadName { row, column } => {
                self.put_at_field(b"bad-name,", file, row, column as u32)
            }
            TableFault::BadKind { row } => self.put_in_file(b"bad-kind,", file, row),
            TableFault::UnknownPart { row } => self.put_in_file(b"unknown-part,", file, row),
            TableFault::UnknownSite { row } => self.put_in_file(b"unknown-site,", file, row),
            TableFault::FieldEmpty { row, column } => {
                self.put_at_field(b"field-empty,", file, row, column as u32)
            }
            TableFault::FieldNotEmpty { row, column } => {
                self.put_at_field(b"field-not-empty,", file, row, column as u32)
            }
            TableFault::BadNumber { row, column, .. } => {
                self.put_at_field(b"bad-number,", file, row, column as u32)
            }
            TableFault::OutOfRange { row, column } => {
                self.put_at_field(b"out-of-range,", file, row, column as u32)
            }
        }
    }
}
