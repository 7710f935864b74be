//! The stored rows of a table: ends of 64 bits, enough for all figures of at most 256.

ghost use Rattle.std.specs.Prelude.{◌≡◌, ◌<◌, ◌^◌, ◌++◌, ◌∷◌, [], nat_lt, if◌then◌else◌, OnOk, IfOk};
ghost use Rattle.moment_table.specs.Stored.{IsShort, stored_row};

use crate::kinds::Row;
use answers::NoMemory;
use series_bounds::short::Iv64;
use std::alloc::Global;

/// A stored row, without its tail.
#[derive(Clone, Copy, Drop)]
pub(crate) struct StoredRow<const F: u32> {
    /// The expected backorders.
    pub(crate) ebo: Iv64<F>,
    /// Their variance.
    pub(crate) vbo: Iv64<F>,
}

impl<const F: u32> StoredRow<F> {
    /// The stored form of a row.
    #[inline(always)]
    pub(crate) fn of(row: Row<F>) -> StoredRow<F>
        requires { IsShort F row }
        ensures { result ≡ stored_row row.entry }
    {
        StoredRow {
            ebo: Iv64::of(row.ebo),
            vbo: Iv64::of(row.vbo),
        }
    }
}

/// The first rows of a table, and the tails of the first of them.
#[derive(Drop)]
pub(crate) struct Rows<const F: u32> {
    pub(crate) stored: Vec<StoredRow<F>>,
    pub(crate) tails: Vec<Iv64<F>>,
}

impl<const F: u32> Rows<F> {
    /// No rows, with capacity for `stocks` rows and `tails` tails.
    pub(crate) fn with_room(alloc: Global, stocks: u32, tails: u32) -> Result<Rows<F>, NoMemory>
        ensures stored { IfOk result (λ rows. rows.stored.items ≡ []) }
        ensures tails { IfOk result (λ rows. rows.tails.items ≡ []) }
    {
        Ok(Rows {
            stored: Vec::with_capacity(alloc, stocks as usize)?,
            tails: Vec::with_capacity(alloc, tails as usize)?,
        })
    }

    /// Adds the row at the stock `s`, with its tail if `s` is below `tails`.
    #[inline(always)]
    pub(crate) fn push(
        &mut self,
        stored: StoredRow<F>,
        tail: Iv64<F>,
        s: u32,
        tails: u32,
    ) -> Result<(), NoMemory>
        ensures stored { OnOk result (self.new.stored.items ≡ self.old.stored.items ++ stored.entry ∷ []) }
        ensures tails { OnOk result (self.new.tails.items
            ≡ (if nat_lt s tails then self.old.tails.items ++ tail.entry ∷ [] else self.old.tails.items)) }
    {
        self.stored.push(stored)?;
        if s < tails {
            self.tails.push(tail)?;
        }
        Ok(())
    }

    /// Adds a row without its tail.
    pub(crate) fn push_stored(&mut self, stored: StoredRow<F>) -> Result<(), NoMemory>
        ensures stored { OnOk result (self.new.stored.items ≡ self.old.stored.items ++ stored.entry ∷ []) }
        ensures tails { self.new.tails.items ≡ self.old.tails.items }
    {
        Ok(self.stored.push(stored)?)
    }
}
