//! The tables that a command works on.
ghost use Rattle.std.specs.Prelude.{◌≤◌, length};
ghost use Rattle.csv_tables.specs.Rest.{table_limit};

/// The bytes of a table.
#[derive(Drop)]
pub struct Table<'a> {
    pub bytes: &'a [u8],
    ghost within: { length bytes.now ≤ table_limit },
}

/// The tables of a case.
#[derive(Drop)]
pub struct Tables<'a> {
    pub sites: Table<'a>,
    pub parts: Table<'a>,
    pub rates: Table<'a>,
}
