//! A table and its rows.

ghost use Rattle.std.specs.Prelude.{◌≡◌, ◌≤◌, length};
ghost use Rattle.moment_table.specs.Stored.{IsStored};
ghost use Rattle.moment_table.specs.Profile.{table_rows};
ghost use Rattle.moment_table.specs.Rows.{at_stock};

use crate::plain::plain_row;
use crate::stored::Rows;
use fixed_interval::Iv;
use series_bounds::short::Iv64;
use std::marker::Model;

/// The figures at one stock, in units of `2^-F`.
#[derive(Clone, Copy, Drop)]
pub struct Row<const F: u32> {
    /// The expected backorders.
    pub ebo: Iv<F>,
    /// The variance of the backorders.
    pub vbo: Iv<F>,
    /// The probability of more units in the pipeline than the stock.
    pub tail: Iv<F>,
}

/// The figures of a pipeline at the stocks 0 to 63.
///
/// Contracts see its rows, and the number of first stocks whose backorders and variance are stored. Others are computed
/// from the stored mean and variance.
#[derive(Drop)]
pub struct Table<const F: u32> {
    mean: Iv64<F>,
    variance: Iv64<F>,
    rows: Rows<F>,
}

impl<const F: u32> Model for Table<F> {
    ghost use Rattle.std.specs.Prelude.{length};
    ghost use Rattle.moment_table.specs.Stored.{IsStored};
    ghost use Rattle.moment_table.specs.Profile.{table_rows};
    ghost use Rattle.moment_table.specs.Rows.{TableRows};

    ghost Value = { TableRows F };

    ghost view = { λ t. record { rows = table_rows F t.mean t.variance; stored = length t.rows.stored.items } };

    // the stored rows are the first of the table
    ghost invariant = { λ t. IsStored F t.mean t.variance t.rows };
}

impl<const F: u32> Table<F> {
    /// The table of this mean and variance, with these rows stored.
    pub(crate) fn of(mean: Iv<F>, variance: Iv<F>, rows: Rows<F>) -> Self
        requires { IsStored F mean variance rows }
        ensures rows { result.rows ≡ table_rows F mean.entry variance.entry }
        ensures stored { result.stored ≡ length rows.entry.stored.items }
    {
        Table {
            mean: Iv64::of(mean),
            variance: Iv64::of(variance),
            rows,
        }
    }

    /// Computes the row at the stock `s`, which isn't stored.
    fn row(&self, s: u8) -> Row<F>
        requires { s ≤ 63 }
        ensures { result ≡ at_stock self.now.rows s }
    {
        plain_row(self.mean.open(), self.variance.open(), s)
    }

    /// The expected backorders at the stock `s`, at most 63.
    pub fn ebo(&self, s: u8) -> Iv<F>
        requires { s ≤ 63 }
        ensures { result ≡ (at_stock self.now.rows s).ebo }
    {
        if usize::from(s) < self.rows.stored.len() {
            self.rows.stored[usize::from(s)].ebo.open()
        } else {
            self.row(s).ebo
        }
    }

    /// The variance of the backorders at the stock `s`, at most 63.
    pub fn vbo(&self, s: u8) -> Iv<F>
        requires { s ≤ 63 }
        ensures { result ≡ (at_stock self.now.rows s).vbo }
    {
        if usize::from(s) < self.rows.stored.len() {
            self.rows.stored[usize::from(s)].vbo.open()
        } else {
            self.row(s).vbo
        }
    }

    /// The probability of more than `s` units in the pipeline, with `s` at most 62.
    pub fn tail(&self, s: u8) -> Iv<F>
        requires { s ≤ 62 }
        ensures { result ≡ (at_stock self.now.rows s).tail }
    {
        if usize::from(s) < self.rows.tails.len() {
            self.rows.tails[usize::from(s)].open()
        } else {
            self.row(s).tail
        }
    }
}
