//! The tables among the files that were read.
ghost use Rattle.std.specs.Prelude.{◌≡◌, ◌+◌, IfSome, option_map};
ghost use Rattle.order_inputs.specs.Files.{bytes_at, tables_in};
ghost use Rattle.order_inputs.specs.Given.{AreTables, bytes_of};

use crate::tables::{Table, Tables};
use answers::List;
use spares_io::Text;

/// The table at a place, counted from 0. `files` has one there, and each is within the limit of a table.
pub fn table_at(files: &[List<u8>], place: usize) -> Table<'_>
    requires { AreTables (place + 1) files.now }
    ensures { result.bytes.now ≡ bytes_at files.now place }
{
    Table {
        bytes: files[place].as_slice(),
    }
}

/// The fourth table, if it has a name.
pub fn fourth_of<'a>(files: &'a [List<u8>], name: &Option<Text>) -> Option<Table<'a>>
    requires { IfSome name.now (λ _. AreTables 4 files.now) }
    ensures { option_map (λ t. t.bytes.now) result ≡ option_map (λ _. bytes_at files.now 3) name.now }
{
    match name {
        Some(_) => Some(table_at(files, 3)),
        None => None,
    }
}

/// The tables of a case, which are the first three files.
pub fn tables_of(files: &[List<u8>]) -> Tables<'_>
    requires { AreTables 3 files.now }
    ensures { bytes_of result ≡ tables_in files.now }
{
    Tables {
        sites: table_at(files, 0),
        parts: table_at(files, 1),
        rates: table_at(files, 2),
    }
}
