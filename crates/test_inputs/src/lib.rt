//! Cases, stocks and rates from tables written as texts, for the tests of other crates.
#![tactic(auto)]

ghost use Rattle.std.specs.Prelude.{◌≤◌, IfSome, length};
ghost use Rattle.spares_input.specs.Stocks.{AreStocksOf};
ghost use Rattle.csv_tables.specs.Rest.{table_limit};
ghost use Rattle.demand_rates.specs.Rates.{AreRatesOf};
ghost use Rattle.family_items.specs.Inputs.{IsLine};

use csv_tables::{TABLE_LIMIT, read_parts, read_rates, read_sites, read_stocks};
use demand_rates::kinds::Rates;
use demand_rates::rates;
use spares_input::{Case, Frame, PartId, Stocks, stocks_from};
use std::alloc::Global;

/// The bytes of a table, unless there are too many.
fn bytes_of(table: &str) -> Option<&[u8]>
    ensures { IfSome result (λ bytes. length bytes.now ≤ table_limit) }
{
    let bytes = table.as_bytes();
    if bytes.len() <= TABLE_LIMIT {
        Some(bytes)
    } else {
        None
    }
}

/// The case of these tables of sites, parts and rates, or None if they have a fault.
pub fn case_of(alloc: Global, tables: [&str; 3]) -> Option<Case> {
    let sites = read_sites(alloc, bytes_of(tables[0])?).ok()?;
    let parts = read_parts(alloc, bytes_of(tables[1])?).ok()?;
    let frame = Frame::build(alloc, sites, parts).ok()?;
    let rates = read_rates(alloc, bytes_of(tables[2])?, &frame).ok()?;
    Case::build(alloc, frame, rates).ok()
}

/// The same case, or None if its first part is no line unit.
pub fn family_of(alloc: Global, tables: [&str; 3]) -> Option<Case>
    ensures { IfSome result (λ c. IsLine c 0) }
{
    let case = case_of(alloc, tables)?;
    if case.part_count() == 0 || !case.is_line(PartId(0)) {
        return None;
    }
    Some(case)
}

/// The stocks of a case in a table, or None if the table has a fault.
pub fn stocks_of(alloc: Global, case: &Case, table: &str) -> Option<Stocks>
    ensures { IfSome result (AreStocksOf case.now) }
{
    let rows = read_stocks(alloc, bytes_of(table)?, case.frame()).ok()?;
    stocks_from(alloc, case, rows.as_slice()).ok()
}

/// The rates of a case, or None if one of them is refused.
pub fn rates_of(alloc: Global, case: &Case) -> Option<Rates>
    ensures { IfSome result (AreRatesOf case.now) }
{
    rates(alloc, case).ok()
}
