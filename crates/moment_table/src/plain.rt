//! The row at one stock without memory: the plain, slow form of `row_at`.

ghost use Rattle.std.specs.Prelude.{◌≡◌, ◌*◌, ◌^◌, ◌<◌, ◌≤◌, true, IfSome, IfNone};
ghost use Rattle.series_bounds.specs.Profile.{is_wide};
ghost use Rattle.moment_table.specs.Inputs.{CanTable};
ghost use Rattle.moment_table.specs.Profile.{excess_ends, table_rows};
ghost use Rattle.moment_table.specs.Rows.{at_stock};

use crate::kinds::Row;
use crate::rows::bare_row;
use crate::running::Running;
use crate::weighed::excess_of;
use fixed_interval::Iv;
use series_bounds::plain::{sum_of_weights, weight_at};
use series_bounds::short::Iv64;

/// The row at a stock, with each weight computed anew from the pivot, or None if the weights are unknown.
fn known<const F: u32>(mean: Iv<F>, variance: Iv<F>, stock: u8) -> Option<Row<F>>
    requires table { CanTable F mean variance }
    requires mean_least { 0 < mean.lo }
    requires ratio { variance.hi ≤ 2048 * mean.lo }
    requires stock { stock ≤ 63 }
    ensures wide { IfNone result (is_wide F mean.entry (excess_ends F mean.entry variance.entry) ≡ true) }
    ensures row { IfSome result (λ row. row ≡ at_stock (table_rows F mean.entry variance.entry) stock) }
{
    let excess = excess_of(mean, variance);
    let sum = sum_of_weights(mean, excess)?;
    let mut running = Running::first(mean, variance, sum);
    for s in 0..u32::from(stock) {
        let weight = weight_at(mean, excess, s)?;
        running.step(Iv64::of(weight), s);
    }
    let last = weight_at(mean, excess, u32::from(stock))?;
    let row = running.row(Iv64::of(last), u32::from(stock));
    Some(row)
}

/// The row of the table at a stock.
pub(crate) fn plain_row<const F: u32>(mean: Iv<F>, variance: Iv<F>, stock: u8) -> Row<F>
    requires table { CanTable F mean variance }
    requires stock { stock ≤ 63 }
    ensures { result ≡ at_stock (table_rows F mean.entry variance.entry) stock }
{
    if mean.hi() == 0 {
        return bare_row(mean, variance, u32::from(stock));
    }
    match known(mean, variance, stock) {
        Some(row) => row,
        None => bare_row(mean, variance, u32::from(stock)),
    }
}
