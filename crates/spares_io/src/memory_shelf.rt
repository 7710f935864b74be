//! A shelf in memory.
ghost use Rattle.std.specs.Prelude as prelude;
ghost use Rattle.std.specs.Prelude.{◌≡◌, ◌⊎◌, ◌≤◌, [], ℕ, length, bytes_eq, position, IsTrue, Some, IfOk, OnOk, OnErr, IsErrOf};
ghost use Rattle.std.specs.Option.{option_map};
ghost use Rattle.answers.specs.Counts.{count64};
ghost use Rattle.spares_io.specs.Causes.{Rose};
ghost use Rattle.spares_io.specs.Memory.{files_of, are_distinct, within, read_of, Reads, after_read, Writes};
ghost use Rattle.spares_io.specs.Shelf.{file_of, with_file, Holds, HoldsMore, KeepsOthers, Lacks};

use crate::schedule::Schedule;
use crate::{List, NoMemory, Shelf, ShelfError, Text};
use std::alloc::Global;
use std::marker::Model;

/// Named byte strings in memory. Listed calls fail. It keeps one count of failed reads and one of failed writes, for
/// all names together; they rise only at listed calls.
#[derive(Drop)]
pub struct MemShelf {
    alloc: Global,
    files: Vec<(Text, List<u8>)>,
    schedule: Schedule,
    failed_reads: u64,
    failed_writes: u64,
}

impl Model for MemShelf {
    ghost use Rattle.spares_io.specs.Memory.{ShelfMemory, shelf_code, files_of};

    ghost Value = { ShelfMemory };

    ghost coded = { shelf_code };

    ghost view = { λ a. record {
      files = files_of a.files.items;
      fails = a.schedule.fails.items;
      calls = a.schedule.calls;
      failed_reads = a.failed_reads;
      failed_writes = a.failed_writes;
    } };
}

/// The index of a name in a list of files.
fn find_place(files: &[(Text, List<u8>)], name: &str) -> Option<usize>
    ensures { result ≡ position (λ file. bytes_eq name.now file.0) files.now }
{
    files.iter().position(|(key, _)| name == key.as_str())
}

/// The bytes of a name in a list of files.
fn find_file<'a>(files: &'a [(Text, List<u8>)], name: &str) -> Option<&'a [u8]>
    ensures { option_map (λ s. s.now) result ≡ file_of (files_of files.now) name.now }
{
    let place = find_place(files, name)?;
    Some(files[place].1.as_slice())
}

/// Copies the bytes of a name in a list of files, if they are no more than the limit.
fn read_file(
    files: &[(Text, List<u8>)],
    name: &str,
    limit: usize,
    into: &mut Vec<u8>,
) -> Result<(), ShelfError>
    requires { into.old.items ≡ [] }
    ensures answer { Reads (within limit (file_of (files_of files.now) name.now)) result into.new.items }
    ensures nothing { OnErr result (into.new.items ≡ []) }
{
    let Some(bytes) = find_file(files, name) else {
        return Err(ShelfError::Failed);
    };
    if bytes.len() > limit {
        return Err(ShelfError::TooLong);
    }
    into.extend_from_slice(bytes)?;
    Ok(())
}

/// A file of this name with these bytes.
fn new_file(alloc: Global, name: &str, bytes: &[u8]) -> Result<(Text, List<u8>), NoMemory>
    ensures { IfOk result (λ file. file ≡ (name.now, bytes.now)) }
{
    let key = Text::from_str(alloc, name)?;
    Ok((key, List::of(bytes.to_vec(alloc)?)))
}

/// Sets the bytes of a name in a list of files.
fn write_file(
    alloc: Global,
    files: &mut Vec<(Text, List<u8>)>,
    name: &str,
    bytes: &[u8],
) -> Result<(), NoMemory>
    ensures written { OnOk result
        (files_of files.new.items ≡ with_file (files_of files.old.items) name.now bytes.now) }
    ensures unchanged { OnErr result (files_of files.new.items ≡ files_of files.old.items) }
{
    match find_place(files.as_slice(), name) {
        Some(place) => files[place].1 = List::of(bytes.to_vec(alloc)?),
        None => files.push(new_file(alloc, name, bytes)?)?,
    }
    Ok(())
}

impl MemShelf {
    /// Whether these files have distinct names, which `new` needs.
    pub fn are_distinct(files: &[(Text, List<u8>)]) -> bool
        ensures { result ≡ are_distinct files.now }
    {
        for (index, (name, _)) in files.iter().enumerate() {
            if find_place(&files[index + 1..], name.as_str()).is_some() {
                return false;
            }
        }
        true
    }

    /// A shelf with these files. Its calls are numbered from 1, and those in `fails` fail. Want of memory is the only
    /// error.
    pub fn new(
        alloc: Global,
        files: Vec<(Text, List<u8>)>,
        fails: Vec<u32>,
    ) -> Result<MemShelf, NoMemory>
        requires { IsTrue (are_distinct files.items) }
        ensures { IfOk result (λ shelf. shelf ≡ record {
          files = files_of files.items;
          fails = fails.items;
          calls = 0;
          failed_reads = 0;
          failed_writes = 0;
        }) }
    {
        Ok(MemShelf {
            alloc,
            files,
            schedule: Schedule::new(fails),
            failed_reads: 0,
            failed_writes: 0,
        })
    }

    /// The bytes of a name; `None` exactly if there is no such name.
    pub fn file(&self, name: &str) -> Option<&[u8]>
        ensures { option_map (λ s. s.now) result ≡ file_of self.now.files name.now }
    {
        find_file(self.files.as_slice(), name)
    }
}

impl Shelf for MemShelf {
    ghost use Rattle.std.specs.Prelude.{Some};
    ghost use Rattle.std.proofs.Common.{arith};
    ghost use Rattle.answers.specs.Counts.{count64};

    ghost held = { λ s. Some s.files };

    ghost read_faults = { λ s _. count64 s.failed_reads };

    ghost write_faults = { λ s _. count64 s.failed_writes };

    ghost read_end = { λ s _. Prim.omega arith };

    ghost write_end = { λ s _. Prim.omega arith };

    /// Reads the bytes of a name.
    ///
    /// # Errors
    ///
    /// A listed call returns `Failed` and is counted. For other calls, `Failed` comes exactly if there is no such name,
    /// `TooLong` exactly if it has more than `limit` bytes, and `NoMemory` only otherwise.
    fn read(&mut self, name: &str, limit: usize, into: &mut Vec<u8>) -> Result<(), ShelfError>
        ensures held { Some self.new.files ≡ Some self.old.files }
        ensures content { OnOk result (Holds (Some self.old.files) name.now into.new.items) }
        ensures size { OnOk result (length into.new.items ≤ limit) }
        ensures nothing { OnErr result (into.new.items ≡ []) }
        ensures too_long { IsErrOf result ShelfError.TooLong → HoldsMore (Some self.old.files) name.now limit }
        ensures failed { IsErrOf result ShelfError.Failed
            → Rose (count64 self.old.failed_reads) (count64 self.new.failed_reads)
            ⊎ Lacks (Some self.old.files) name.now }
        ensures reads { (n : prelude.List ℕ) → count64 self.old.failed_reads ≤ count64 self.new.failed_reads }
        ensures still { OnOk result
            ((n : prelude.List ℕ) → count64 self.new.failed_reads ≡ count64 self.old.failed_reads) }
        ensures writes { (n : prelude.List ℕ) → count64 self.new.failed_writes ≡ count64 self.old.failed_writes }
        ensures answer { Reads (read_of self.old name.now limit) result into.new.items }
        ensures state { self.new ≡ after_read self.old }
    {
        into.clear();
        if self.schedule.begin_call() {
            self.failed_reads = self.failed_reads.saturating_add(1);
            return Err(ShelfError::Failed);
        }
        read_file(self.files.as_slice(), name, limit, into)
    }

    /// Replaces the bytes of a name.
    ///
    /// # Errors
    ///
    /// A listed call returns `Failed`, leaves the first half of the bytes, rounded down, under the name, and is
    /// counted. `NoMemory`, also at a listed call, leaves the names and counts unchanged.
    fn write(&mut self, name: &str, bytes: &[u8]) -> Result<(), ShelfError>
        ensures content { OnOk result
            (Some self.new.files ≡ option_map (λ files. with_file files name.now bytes.now) (Some self.old.files)) }
        ensures unchanged { IsErrOf result ShelfError.NoMemory → Some self.new.files ≡ Some self.old.files }
        ensures others { IsErrOf result ShelfError.Failed
            → KeepsOthers name.now (Some self.old.files) (Some self.new.files) }
        ensures not_too_long { ¬ IsErrOf result ShelfError.TooLong }
        ensures failed { IsErrOf result ShelfError.Failed
            → Rose (count64 self.old.failed_writes) (count64 self.new.failed_writes) }
        ensures writes { (n : prelude.List ℕ) → count64 self.old.failed_writes ≤ count64 self.new.failed_writes }
        ensures still { OnOk result
            ((n : prelude.List ℕ) → count64 self.new.failed_writes ≡ count64 self.old.failed_writes) }
        ensures reads { (n : prelude.List ℕ) → count64 self.new.failed_reads ≡ count64 self.old.failed_reads }
        ensures calls { Writes self.old name.now bytes.now result self.new }
    {
        if self.schedule.begin_call() {
            let half = &bytes[..bytes.len() / 2];
            write_file(self.alloc, &mut self.files, name, half)?;
            self.failed_writes = self.failed_writes.saturating_add(1);
            return Err(ShelfError::Failed);
        }
        write_file(self.alloc, &mut self.files, name, bytes)?;
        Ok(())
    }
}
