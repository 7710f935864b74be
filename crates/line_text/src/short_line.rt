//! A line that is built in place, before it is appended to a text.
ghost use Rattle.std.specs.Prelude.{◌≡◌, ◌+◌, ◌<◌, ◌≤◌, ◌++◌, ◌∷◌, [], length};

use std::marker::Model;

/// A line of at most `MOST` bytes. Contracts see the list of its bytes. It allocates no memory.
#[derive(Drop)]
pub struct ShortLine<const MOST: usize> {
    bytes: [u8; MOST],
    len: usize,
}

impl<const MOST: usize> Model for ShortLine<MOST> {
    ghost use Rattle.std.specs.Prelude.{List, ℕ, take, ◌≤◌};

    ghost Value = { List ℕ };

    ghost view = { λ a. take a.len a.bytes };

    ghost invariant = { λ a. a.len ≤ MOST };
}

impl<const MOST: usize> ShortLine<MOST> {
    /// The empty line.
    #[inline(always)]
    pub fn new() -> ShortLine<MOST>
        ensures { result ≡ [] }
    {
        ShortLine {
            bytes: [0; MOST],
            len: 0,
        }
    }

    /// Removes all bytes.
    #[inline(always)]
    pub fn clear(&mut self)
        ensures { self.new ≡ [] }
    {
        self.len = 0;
    }

    /// Appends a byte. There must be fewer than `MOST` before.
    #[inline(always)]
    pub fn push(&mut self, byte: u8)
        requires { length self.old < MOST }
        ensures { self.new ≡ self.old ++ byte ∷ [] }
    {
        self.bytes[self.len] = byte;
        self.len += 1;
    }

    /// Appends bytes. There must be at most `MOST` in all.
    #[inline(always)]
    pub fn put(&mut self, piece: &[u8])
        requires { length self.old + length piece.now ≤ MOST }
        ensures { self.new ≡ self.old ++ piece.now }
    {
        let end = self.len + piece.len();
        let bytes = &mut self.bytes[..];
        bytes[self.len..end].copy_from_slice(piece);
        self.len = end;
    }

    /// The bytes.
    #[inline(always)]
    pub fn as_slice(&self) -> &[u8]
        ensures { result.now ≡ self.now }
    {
        let bytes = &self.bytes[..];
        &bytes[..self.len]
    }
}
