//! Names that have bytes.
ghost use Rattle.std.specs.Prelude.{◌≡◌, ◌⊎◌, ◌<◌, ◌≤◌, ◌^◌, List, [], ℕ, Option, length, OnOk, OnErr, IsErrOf};
ghost use Rattle.std.specs.Option.{option_map};
ghost use Rattle.spares_io.specs.Causes.{Rose, Fits64};
ghost use Rattle.spares_io.specs.Shelf.{Files, with_file, Holds, HoldsMore, KeepsOthers, Lacks};
ghost use Rattle.spares_io.specs.declared.shelf.ShelfError.TheVariants.{NoMemory};

use crate::NoMemory;
use std::alloc::{AllocError, AllocFailed};

/// Why a shelf didn't read or write.
#[derive(Clone, Copy, Debug, PartialEq, Eq)]
pub enum ShelfError {
    /// It found no memory.
    NoMemory,
    /// The outside failed, or there is no such name to read.
    Failed,
    /// The name has more bytes than the limit.
    TooLong,
}

impl From<NoMemory> for ShelfError {
    ghost from_gives = { λ _ e. e ≡ NoMemory };

    fn from(_: NoMemory) -> Self {
        ShelfError::NoMemory
    }
}

impl From<AllocError> for ShelfError {
    ghost from_gives = { λ _ e. e ≡ NoMemory };

    fn from(_: AllocError) -> Self {
        ShelfError::NoMemory
    }
}

impl<T: Drop> From<AllocFailed<T>> for ShelfError {
    ghost from_gives = { λ _ e. e ≡ NoMemory };

    fn from(_: AllocFailed<T>) -> Self {
        ShelfError::NoMemory
    }
}

/// Names that have bytes, like the files of a folder. Contracts may know the contents of a shelf; if they do, they know
/// them after each call. Each name has a count of failed reads and one of failed writes, which never fall, and don't
/// change at a call that returns Ok.
pub trait Shelf {
    /// The bytes of the names, if contracts know them.
    ghost held: { Self → Option Files };

    /// The number of failed reads of a name, up to `u64::MAX`.
    ghost read_faults: { Self → List ℕ → ℕ };

    /// The number of failed writes of a name, up to `u64::MAX`.
    ghost write_faults: { Self → List ℕ → ℕ };

    /// Overwrites `into` with the bytes of a name, if they are at most `limit`. After an error `into` is empty.
    ///
    /// # Errors
    ///
    /// `TooLong` if the name has more bytes than that; `Failed` if the outside fails, which is counted, or if the shelf
    /// is known not to have the name; `NoMemory`.
    fn read(&mut self, name: &str, limit: usize, into: &mut Vec<u8>) -> Result<(), ShelfError>
        requires { limit < 2 ^ 32 }
        ensures held { held self.new ≡ held self.old }
        ensures content { OnOk result (Holds (held self.old) name.now into.new.items) }
        ensures size { OnOk result (length into.new.items ≤ limit) }
        ensures nothing { OnErr result (into.new.items ≡ []) }
        ensures too_long { IsErrOf result ShelfError.TooLong → HoldsMore (held self.old) name.now limit }
        ensures failed { IsErrOf result ShelfError.Failed
            → Rose (read_faults self.old name.now) (read_faults self.new name.now) ⊎ Lacks (held self.old) name.now }
        ensures reads { (n : List ℕ) → read_faults self.old n ≤ read_faults self.new n }
        ensures still { OnOk result ((n : List ℕ) → read_faults self.new n ≡ read_faults self.old n) }
        ensures writes { (n : List ℕ) → write_faults self.new n ≡ write_faults self.old n };

    /// Replaces the bytes of a name. All other names stay unchanged.
    ///
    /// # Errors
    ///
    /// `Failed` if the outside fails, which is counted: that name may then have any bytes. `NoMemory` leaves all names
    /// unchanged. Never returns `TooLong`.
    fn write(&mut self, name: &str, bytes: &[u8]) -> Result<(), ShelfError>
        ensures content { OnOk result
            (held self.new ≡ option_map (λ files. with_file files name.now bytes.now) (held self.old)) }
        ensures unchanged { IsErrOf result ShelfError.NoMemory → held self.new ≡ held self.old }
        ensures others { IsErrOf result ShelfError.Failed → KeepsOthers name.now (held self.old) (held self.new) }
        ensures not_too_long { ¬ IsErrOf result ShelfError.TooLong }
        ensures failed { IsErrOf result ShelfError.Failed
            → Rose (write_faults self.old name.now) (write_faults self.new name.now) }
        ensures writes { (n : List ℕ) → write_faults self.old n ≤ write_faults self.new n }
        ensures still { OnOk result ((n : List ℕ) → write_faults self.new n ≡ write_faults self.old n) }
        ensures reads { (n : List ℕ) → read_faults self.new n ≡ read_faults self.old n };

    /// Each count of failed reads is at most `u64::MAX`.
    ghost read_end: { (s : Self) (n : List ℕ) → Fits64 (read_faults s n) };

    /// Each count of failed writes is at most `u64::MAX`.
    ghost write_end: { (s : Self) (n : List ℕ) → Fits64 (write_faults s n) };
}
