//! The rows of a table, one or many.

ghost use Rattle.std.specs.Prelude.{◌≡◌, ◌+◌, ◌^◌, ◌≤◌, IfOk};
ghost use Rattle.fixed_interval.specs.Ends.{InScale, IsWithinLimit};
ghost use Rattle.moment_table.specs.Stored.{HasRows, bare_row};
ghost use Rattle.moment_table.specs.Inputs.{CanTable};
ghost use Rattle.moment_table.specs.Profile.{known_row, wide_row, empty_row, table_rows};
ghost use Rattle.moment_table.specs.Rows.{at_stock};
ghost use Rattle.moment_table.specs.Running.{AreFirst};

use crate::kinds::Row;
use crate::running::Running;
use crate::stored::{Rows, StoredRow};
use crate::weighed::weigh_to;
use answers::NoMemory;
use fixed_interval::Iv;
use series_bounds::short::Iv64;
use std::alloc::Global;

/// The row at a stock from known weights.
pub(crate) fn known_row<const F: u32>(
    mean: Iv<F>,
    variance: Iv<F>,
    list: &[Iv64<F>],
    sum: Iv<F>,
    stock: u32,
) -> Row<F>
    requires mean_top { IsWithinLimit F mean }
    requires variance_top { IsWithinLimit F variance }
    requires least { 2 ^ F ≤ sum.lo }
    requires first { AreFirst F (stock + 1) list.now }
    requires stock { stock ≤ 63 }
    ensures { result ≡ known_row F mean.entry variance.entry list.now sum.entry stock }
{
    let mut running = Running::first(mean, variance, sum);
    for s in 0..stock {
        running.step(list[s as usize], s);
    }
    running.row(list[stock as usize], stock)
}

/// The row at a stock if the weights are unknown: bounds for any distribution with this mean and variance.
fn wide_row<const F: u32>(mean: Iv<F>, variance: Iv<F>, stock: u32) -> Row<F>
    ensures { result ≡ wide_row F mean.entry variance.entry stock }
{
    let start = variance.max_of(mean);
    let short = mean.less(Iv::exact(stock));
    Row {
        ebo: Iv::of_ends(short.lo(), mean.hi()),
        vbo: Iv::of_ends(0, start.hi()),
        tail: Iv::of_ends(0, Iv::<F>::exact(1).hi()),
    }
}

/// The row of a pipeline that is always empty, at every stock.
fn empty_row<const F: u32>() -> Row<F>
    requires { InScale F }
    ensures { result ≡ empty_row F }
{
    let none = Iv::exact(0);
    Row {
        ebo: none,
        vbo: none,
        tail: none,
    }
}

/// The row at a stock of a pipeline that is always empty or whose weights are unknown.
pub(crate) fn bare_row<const F: u32>(mean: Iv<F>, variance: Iv<F>, stock: u32) -> Row<F>
    ensures { result ≡ bare_row F mean.entry variance.entry stock }
{
    if mean.hi() == 0 {
        empty_row()
    } else {
        wide_row(mean, variance, stock)
    }
}

/// The rows at the stocks 0 to `last` from known weights, each from the one before, with the first tails.
fn known_to<const F: u32>(
    alloc: Global,
    mean: Iv<F>,
    variance: Iv<F>,
    list: &[Iv64<F>],
    sum: Iv<F>,
    last: u32,
    tails: u32,
) -> Result<Rows<F>, NoMemory>
    requires mean_top { IsWithinLimit F mean }
    requires variance_top { IsWithinLimit F variance }
    requires least { 2 ^ F ≤ sum.lo }
    requires first { AreFirst F last list.now }
    requires last { last ≤ 63 }
    requires tails { tails ≤ last }
    ensures { IfOk result (HasRows F (known_row F mean.entry variance.entry list.now sum.entry) (last + 1) tails) }
{
    let mut running = Running::first(mean, variance, sum);
    let mut rows = Rows::with_room(alloc, last + 1, tails)?;
    for s in 0..last {
        let stored = running.stored();
        let tail = running.step(list[s as usize], s);
        rows.push(stored, tail, s, tails)?;
    }
    rows.push_stored(running.stored())?;
    Ok(rows)
}

/// The rows of a pipeline that is always empty or whose weights are unknown.
fn bare_to<const F: u32>(
    alloc: Global,
    mean: Iv<F>,
    variance: Iv<F>,
    stocks: u32,
    tails: u32,
) -> Result<Rows<F>, NoMemory>
    requires mean_top { IsWithinLimit F mean }
    requires variance_top { IsWithinLimit F variance }
    ensures { IfOk result (HasRows F (bare_row F mean.entry variance.entry) stocks tails) }
{
    let mut rows = Rows::with_room(alloc, stocks, tails)?;
    for s in 0..stocks {
        let row = bare_row(mean, variance, s);
        let tail = Iv64::of(row.tail);
        rows.push(StoredRow::of(row), tail, s, tails)?;
    }
    Ok(rows)
}

/// The rows of a pipeline's table at the stocks 0 to `last`, with the first tails. `weights` is a scratch list, whose
/// contents are unspecified afterwards.
pub(crate) fn rows_of<const F: u32>(
    alloc: Global,
    weights: &mut Vec<Iv64<F>>,
    mean: Iv<F>,
    variance: Iv<F>,
    last: u32,
    tails: u32,
) -> Result<Rows<F>, NoMemory>
    requires table { CanTable F mean variance }
    requires last { last ≤ 63 }
    requires tails { tails ≤ last }
    ensures { IfOk result (HasRows F (at_stock (table_rows F mean.entry variance.entry)) (last + 1) tails) }
{
    match weigh_to(weights, mean, variance, last)? {
        Some(sum) => known_to(alloc, mean, variance, weights.as_slice(), sum, last, tails),
        None => bare_to(alloc, mean, variance, last + 1, tails),
    }
}
