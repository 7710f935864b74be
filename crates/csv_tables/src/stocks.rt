//! The table of stocks.

ghost use Rattle.std.specs.Prelude.{◌≡◌, ◌≤◌, IfOk, All, length, map};
ghost use Rattle.csv.specs.Records.{fields_of};
ghost use Rattle.answers.specs.Answers.{Gives};
ghost use Rattle.spares_input.specs.Limits.{most_pairs};
ghost use Rattle.spares_input.specs.Stocks.{IsStockOf};
ghost use Rattle.csv_tables.specs.Rest.{table_limit};
ghost use Rattle.csv_tables.specs.Tables.{rows_of};
ghost use Rattle.csv_tables.specs.Stocks.{stock_of, stocks_of, stocks_header};

use crate::fault::TableFault;
use crate::fields::{field, number_at};
use crate::rates::{part_in, site_in};
use crate::table::{Table, read_table};
use answers::Stop;
use csv::ByteRecord;
use spares_input::{Frame, MOST_PAIRS, MOST_STOCK, StockRow};
use std::alloc::Global;

/// The rows of a table of stocks for this frame, or its first fault.
pub fn read_stocks(
    alloc: Global,
    bytes: &[u8],
    frame: &Frame,
) -> Result<Vec<StockRow>, Stop<TableFault>>
    requires { length bytes.now ≤ table_limit }
    ensures answer { Gives (stocks_of frame.now bytes.now) (rows_of result) }
    ensures few { IfOk result (λ v. length v.items ≤ most_pairs) }
    ensures fields { IfOk result (λ v. All (IsStockOf frame.now) v.items) }
{
    read_table(
        alloc,
        bytes,
        &Stocks { frame },
        3,
        header().as_slice(),
        MOST_PAIRS,
    )
}

/// The columns of a table of stocks.
fn header() -> [&'static [u8]; 3]
    ensures { map (λ f. f.now) result ≡ stocks_header }
{
    [b"part".as_slice(), b"site".as_slice(), b"stock".as_slice()]
}

/// The table of stocks for a frame.
#[derive(Drop)]
struct Stocks<'a> {
    frame: &'a Frame,
}

impl<'a> Table for Stocks<'a> {
    type Row = StockRow;

    ghost row_of = { λ t. stock_of t.frame.now };

    fn row(&self, row: u32, record: &ByteRecord) -> Result<StockRow, TableFault> {
        stock_of(self.frame, row, record)
    }
}

/// The stock of a record.
#[tactic(auto, unfolding(crate::specs::Stocks::stock_of))]
fn stock_of(frame: &Frame, row: u32, record: &ByteRecord) -> Result<StockRow, TableFault>
    ensures { result ≡ stock_of frame.now row (fields_of «record».now) }
{
    let part = part_in(frame, row, 1, field(record, 0))?;
    let site = site_in(frame, row, 2, field(record, 1))?;
    let stock = number_at(row, 3, 0, 0, MOST_STOCK, record)?;
    Ok(StockRow {
        part,
        site,
        stock: stock as u8,
    })
}
