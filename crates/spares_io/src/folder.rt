//! Files under their names.
ghost use Rattle.std.specs.Prelude.{List, ℕ, ⊤, IfOk};

use std::io::{Read, Write};
use std::rt::Files;
use std::{fs, io};

/// Files under their names, as a runtime opens them.
pub trait Folder {
    /// A file opened for reading.
    type Input: Read + Drop;
    /// A file opened for writing.
    type Output: Write + Drop;

    /// This is the file of that name, opened for reading from its beginning.
    ghost opens: { Self → List ℕ → Self.Input → Type 0 };

    /// This is the file of that name, created or emptied.
    ghost creates: { Self → List ℕ → Self.Output → Type 0 };

    /// Opens the file of that name, to read it from its beginning.
    fn open(&self, name: &str) -> io::Result<Self::Input>
        ensures { IfOk result (opens self.now name.now) };

    /// Creates the file of that name, or empties an existing one.
    fn create(&self, name: &str) -> io::Result<Self::Output>
        ensures { IfOk result (creates self.now name.now) };
}

/// The files of a runtime. Contracts don't know which file it opens under a name.
impl<'a, R: Files> Folder for &'a R {
    type Input = R::File;

    type Output = R::File;

    ghost opens = { λ _ _ _. ⊤ };

    ghost creates = { λ _ _ _. ⊤ };

    fn open(&self, name: &str) -> io::Result<R::File> {
        fs::open(*self, name)
    }

    fn create(&self, name: &str) -> io::Result<R::File> {
        fs::create(*self, name)
    }
}
