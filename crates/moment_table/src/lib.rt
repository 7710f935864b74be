//! Expected backorders, their variance and the tail of a pipeline, at each stock from 0 to 63.
//!
//! With `u` units in the pipeline on average and a stock of `s`, the expected backorders EBO follow Sherbrooke
//! (*Optimal Inventory Modeling of Systems*, 2nd ed.): `EBO(0) = u`, and each further unit in stock subtracts the
//! probability of a backorder, `EBO(s + 1) = EBO(s) - tail(s)`, with `tail(s)` the probability of more than `s` units
//! in the pipeline. Their variance VBO starts at the larger of the pipeline's variance and its mean, and falls by
//! `(2 EBO(s + 1) + tail(s)) (1 - tail(s))`.
#![tactic(auto)]

ghost use Rattle.std.specs.Prelude.{◌≡◌, ℕ, ◌+◌, ◌-◌, ◌*◌, ◌^◌, ◌<◌, ◌≤◌, IfOk, length};
ghost use Rattle.fixed_interval.specs.Ends.{Ends, ends_max};
ghost use Rattle.moment_table.specs.Inputs.{CanTable};
ghost use Rattle.moment_table.specs.Profile.{known_row, table_rows};
ghost use Rattle.moment_table.specs.Rows.{EncloseRows, EnclosesRow, IsBelow, at_stock};

use crate::kinds::{Row, Table};
use crate::rows::{bare_row, known_row, rows_of};
use crate::weighed::weigh;
use answers::NoMemory;
use fixed_interval::Iv;
use series_bounds::short::Iv64;
use std::alloc::Global;

mod backorders;
pub mod kinds;
mod plain;
mod rows;
mod running;
mod shares;
mod stored;
mod weighed;

pub use backorders::put_backorders;

/// The last stock of a table.
const LAST: u32 = 63;

/// A scratch list of weights best has room for so many beyond those up to the limit: all up to the pivot are listed.
pub const ROOM_BESIDE: usize = 4;

/// The tables of the definitions enclose the model.
pub fn tables_enclose()
    ensures { (f : ℕ) (m v : Ends) → CanTable f m v → EncloseRows f m v (table_rows f m v) }
{}

/// The table of a pipeline with this mean and variance, both in units of `2^-F` and at most 256. Either all ends are 0,
/// for a pipeline that is always empty, or the mean is above 0, and no upper end is more than 2048 times the lower end
/// of the mean.
///
/// Each figure encloses the model's at each depth from 1024 on, for every mean and every variance in the two intervals.
/// Want of memory is the only error.
pub fn table<const F: u32>(
    alloc: Global,
    mean: Iv<F>,
    variance: Iv<F>,
) -> Result<Table<F>, NoMemory>
    requires { CanTable F mean variance }
    ensures ends { IfOk result (λ t. t ≡ record { rows = table_rows F mean.entry variance.entry; stored = 64 }) }
    ensures encloses { IfOk result (λ t. EncloseRows F mean.entry variance.entry t.rows) }
    ensures stocks { IfOk result (λ t. length t.rows ≡ 64) }
    ensures most { IfOk result (λ t. (s : ℕ) → s < 64 → IsBelow F mean.entry variance.entry (at_stock t.rows s)) }
{
    let mut weights = Vec::with_capacity(alloc, LAST as usize + ROOM_BESIDE)?;
    let rows = rows_of(alloc, &mut weights, mean, variance, LAST, LAST)?;
    Ok(Table::of(mean, variance, rows))
}

/// The same table, with backorders and variance stored at the stocks 0 to `limit` alone, at most 63, in 32 bytes for
/// each. Other stocks are computed anew when they are asked for, which is slow. Want of memory is the only error.
///
/// `weights` is a scratch list, whose contents are unspecified afterwards. Its allocation is reused from call to call:
/// where it has the room, only the table's own rows are allocated.
pub fn table_to<const F: u32>(
    alloc: Global,
    weights: &mut Vec<Iv64<F>>,
    mean: Iv<F>,
    variance: Iv<F>,
    limit: u8,
) -> Result<Table<F>, NoMemory>
    requires table { CanTable F mean variance }
    requires limit { limit ≤ 63 }
    ensures ends { IfOk result (λ t. t ≡ record { rows = table_rows F mean.entry variance.entry; stored = limit + 1 }) }
    ensures encloses { IfOk result (λ t. EncloseRows F mean.entry variance.entry t.rows) }
    ensures stocks { IfOk result (λ t. length t.rows ≡ 64) }
    ensures most { IfOk result (λ t. (s : ℕ) → s < 64 → IsBelow F mean.entry variance.entry (at_stock t.rows s)) }
{
    let rows = rows_of(alloc, weights, mean, variance, u32::from(limit), 0)?;
    Ok(Table::of(mean, variance, rows))
}

/// The row of the table at one stock, at most 63, for a mean and a variance within the ranges of `table`. No row above
/// that stock and no list of rows is made.
///
/// The figures enclose the model's at this stock, at each depth from 1024 on. Want of memory is the only error.
pub fn row_at<const F: u32>(
    alloc: Global,
    mean: Iv<F>,
    variance: Iv<F>,
    stock: u8,
) -> Result<Row<F>, NoMemory>
    requires table { CanTable F mean variance }
    requires stock { stock ≤ 63 }
    ensures ends { IfOk result (λ row. row ≡ at_stock (table_rows F mean.entry variance.entry) stock) }
    ensures encloses { IfOk result (EnclosesRow F mean.entry variance.entry stock) }
    ensures ebo_most { IfOk result (λ row. row.ebo.hi ≤ mean.entry.hi) }
    ensures vbo_most { IfOk result (λ row. row.vbo.hi ≤ (ends_max variance.entry mean.entry).hi) }
{
    let stock = u32::from(stock);
    match weigh(alloc, mean, variance, stock + 1)? {
        Some(weighed) => {
            let list = weighed.list.as_slice();
            Ok(known_row(mean, variance, list, weighed.sum, stock))
        }
        None => Ok(bare_row(mean, variance, stock)),
    }
}
