//! A shelf over the files of a folder.
ghost use Rattle.std.specs.Prelude.{◌≡◌, ◌≢◌, ◌↔◌, ◌⊎◌, ◌≤◌, ℕ, List, ◌<◌, ◌^◌, [], length, if◌then◌else◌, IsErrOf, IsOkUnless, OnOk, OnErr, IfSome};
ghost use Rattle.std.specs.IoError.{error_kind};
ghost use Rattle.std.specs.Option.{option_map};
ghost use Rattle.std.proofs.Common.{arith};
ghost use Rattle.answers.specs.Counts.{count64};
ghost use Rattle.spares_io.specs.Causes.{Rose, next_count};
ghost use Rattle.spares_io.specs.Files.{ReadsAll, ReadsMore, WritesAll};
ghost use Rattle.spares_io.specs.Shelf.{untold, with_file, Holds, HoldsMore, KeepsOthers, Lacks, is_failed};

use crate::std_sink::write_and_flush;
use crate::{Folder, Shelf, ShelfError};
use std::io;
use std::io::{ErrorKind, Read};

/// The files of a folder under their names, like a runtime's files under their paths. Their contents are unknown to
/// contracts. It keeps one count of failed reads and one of failed writes, for all names together.
#[derive(Drop)]
pub struct FileShelf<F: Folder + Drop> {
    folder: F,
    read_faults: u64,
    write_faults: u64,
}

impl<F: Folder + Drop> FileShelf<F> {
    /// The files of a folder, before any failed read or write.
    pub fn new(folder: F) -> FileShelf<F>
        ensures folder { result.folder ≡ folder }
        ensures reads { (n : List ℕ) → ⟦<FileShelf<F> as Shelf>⟧.read_faults result n ≡ 0 }
        ensures writes { (n : List ℕ) → ⟦<FileShelf<F> as Shelf>⟧.write_faults result n ≡ 0 }
    {
        FileShelf {
            folder,
            read_faults: 0,
            write_faults: 0,
        }
    }
}

/// Want of memory while a file is read, and only that, is told apart from a read that failed.
fn read_error(error: &io::Error) -> ShelfError
    ensures memory { (result ≡ ShelfError.NoMemory) ↔ (error_kind error.now ≡ ErrorKind.OutOfMemory) }
    ensures not_too_long { result ≢ ShelfError.TooLong }
{
    if error.kind() == ErrorKind::OutOfMemory {
        ShelfError::NoMemory
    } else {
        ShelfError::Failed
    }
}

/// Reads the rest of a file. If that is longer than the limit, it reads one byte more than the limit.
fn read_rest<F: Read + Drop>(file: F, limit: usize, into: &mut Vec<u8>) -> Result<(), ShelfError>
    requires empty { into.old.items ≡ [] }
    requires limit { limit < 2 ^ 32 }
    ensures size { OnOk result (length into.new.items ≤ limit) }
    ensures content { OnOk result (IfSome (F.remaining file) (λ bytes. into.new.items ≡ bytes)) }
    ensures too_long { IsErrOf result ShelfError.TooLong
        → IfSome (F.remaining file) (λ bytes. limit < length bytes) }
{
    match file.take(limit as u64 + 1).read_to_end(into) {
        Ok(_) if into.len() <= limit => Ok(()),
        Ok(_) => Err(ShelfError::TooLong),
        Err(error) => Err(read_error(&error)),
    }
}

/// Reads the file of that name.
fn read_named<F: Folder>(
    folder: &F,
    name: &str,
    limit: usize,
    into: &mut Vec<u8>,
) -> Result<(), ShelfError>
    requires { limit < 2 ^ 32 }
    ensures size { OnOk result (length into.new.items ≤ limit) }
    ensures content { OnOk result (ReadsAll (F.opens folder.now name.now) F.Input.remaining into.new.items) }
    ensures nothing { OnErr result (into.new.items ≡ []) }
    ensures too_long { IsErrOf result ShelfError.TooLong
        → ReadsMore (F.opens folder.now name.now) F.Input.remaining limit }
{
    into.clear();
    let answer = match folder.open(name) {
        Ok(file) => read_rest(file, limit, into),
        Err(error) => Err(read_error(&error)),
    };
    if answer.is_err() {
        into.clear();
    }
    answer
}

/// Writes exactly these bytes into the file of that name.
fn write_named<F: Folder>(folder: &F, name: &str, bytes: &[u8]) -> Result<(), ShelfError>
    ensures answer { IsOkUnless result ShelfError.Failed }
    ensures content { OnOk result (WritesAll (F.creates folder.now name.now) F.Output.contents bytes.now) }
{
    let mut file = folder.create(name).map_err(|_| ShelfError::Failed)?;
    write_and_flush(&mut file, bytes).map_err(|_| ShelfError::Failed)
}

/// Counts a result if it is a failure.
fn count_failure(faults: &mut u64, answer: Result<(), ShelfError>) -> Result<(), ShelfError>
    ensures answer { result ≡ answer }
    ensures faults { faults.new ≡ (if is_failed answer then next_count faults.old else faults.old) }
{
    if answer == Err(ShelfError::Failed) {
        *faults = faults.saturating_add(1);
    }
    answer
}

impl<F: Folder + Drop> Shelf for FileShelf<F> {
    ghost held = { λ _. untold };

    ghost read_faults = { λ s _. count64 s.read_faults };

    ghost write_faults = { λ s _. count64 s.write_faults };

    ghost read_end = { λ s _. Prim.omega arith };

    ghost write_end = { λ s _. Prim.omega arith };

    /// Reads the file. If it is longer than `limit`, reads one byte more than that.
    fn read(&mut self, name: &str, limit: usize, into: &mut Vec<u8>) -> Result<(), ShelfError>
        requires { limit < 2 ^ 32 }
        ensures held { untold ≡ untold }
        ensures content { OnOk result (Holds untold name.now into.new.items) }
        ensures size { OnOk result (length into.new.items ≤ limit) }
        ensures nothing { OnErr result (into.new.items ≡ []) }
        ensures too_long { IsErrOf result ShelfError.TooLong → HoldsMore untold name.now limit }
        ensures failed { IsErrOf result ShelfError.Failed
            → Rose (count64 self.old.read_faults) (count64 self.new.read_faults) ⊎ Lacks untold name.now }
        ensures reads { (n : List ℕ) → count64 self.old.read_faults ≤ count64 self.new.read_faults }
        ensures still { OnOk result ((n : List ℕ) → count64 self.new.read_faults ≡ count64 self.old.read_faults) }
        ensures writes { (n : List ℕ) → count64 self.new.write_faults ≡ count64 self.old.write_faults }
        ensures opened { OnOk result
            (ReadsAll (F.opens self.old.folder name.now) F.Input.remaining into.new.items) }
        ensures longer { IsErrOf result ShelfError.TooLong
            → ReadsMore (F.opens self.old.folder name.now) F.Input.remaining limit }
        ensures folder { self.new.folder ≡ self.old.folder }
    {
        let answer = read_named(&self.folder, name, limit, into);
        count_failure(&mut self.read_faults, answer)
    }

    /// Creates or empties the file, and writes these bytes. Returns Ok only once they are written and flushed,
    /// otherwise `Failed`.
    fn write(&mut self, name: &str, bytes: &[u8]) -> Result<(), ShelfError>
        ensures content { OnOk result (untold ≡ option_map (λ files. with_file files name.now bytes.now) untold) }
        ensures unchanged { IsErrOf result ShelfError.NoMemory → untold ≡ untold }
        ensures others { IsErrOf result ShelfError.Failed → KeepsOthers name.now untold untold }
        ensures not_too_long { ¬ IsErrOf result ShelfError.TooLong }
        ensures failed { IsErrOf result ShelfError.Failed
            → Rose (count64 self.old.write_faults) (count64 self.new.write_faults) }
        ensures writes { (n : List ℕ) → count64 self.old.write_faults ≤ count64 self.new.write_faults }
        ensures still { OnOk result
            ((n : List ℕ) → count64 self.new.write_faults ≡ count64 self.old.write_faults) }
        ensures reads { (n : List ℕ) → count64 self.new.read_faults ≡ count64 self.old.read_faults }
        ensures created { OnOk result
            (WritesAll (F.creates self.old.folder name.now) F.Output.contents bytes.now) }
        ensures folder { self.new.folder ≡ self.old.folder }
    {
        let answer = write_named(&self.folder, name, bytes);
        count_failure(&mut self.write_faults, answer)
    }
}
