//! Cursors: bytes as lines, and lines as fields.

ghost use Rattle.std.specs.Prelude.{ℕ, ◌≡◌, ◌≤◌, ◌∷◌, ◌↔◌, List, [], length, Some, None, IsTrue, MatchOption, MatchResult};
ghost use Rattle.std.specs.List.{position_or_len, slice_split};
ghost use Rattle.line_text.specs.Formats.{Format, one};
ghost use Rattle.line_text.specs.Texts.{word, number, fixed};
ghost use Rattle.line_text.specs.Files.{line, lines_of, comma};
ghost use Rattle.line_text.specs.Exact.{is_end};
ghost use Rattle.line_text.specs.Reading.{first_fields, later, fields_left, Reads, Takes};

use crate::bad_line::BadLine;
use crate::decimals::fixed;
use crate::numbers::number;
use std::marker::Model;

/// The fields of a line that are left.
#[derive(Drop)]
pub struct Fields<'a> {
    rest: Option<&'a [u8]>,
}

impl<'a> Model for Fields<'a> {
    ghost use Rattle.std.specs.Prelude.{List, ℕ};
    ghost use Rattle.line_text.specs.Reading.{fields_left};

    ghost Value = { List (List ℕ) };

    ghost view = { λ f. fields_left f.rest };
}

/// The lines that are left, each with its line feed.
#[derive(Drop)]
pub struct Lines<'a> {
    rest: &'a [u8],
}

impl<'a> Model for Lines<'a> {
    ghost use Rattle.std.specs.Prelude.{List, ℕ};
    ghost use Rattle.line_text.specs.Files.{lines_of};

    ghost Value = { List (List ℕ) };

    ghost view = { λ l. lines_of l.rest.now };
}

/// The index of the first line feed, or the length.
fn line_end(bytes: &[u8]) -> usize
    ensures place { result ≡ position_or_len is_end bytes.now }
    ensures within { result ≤ length bytes.now }
{
    for (i, b) in bytes.iter().enumerate() {
        if *b == b'\n' {
            return i;
        }
    }
    bytes.len()
}

/// The index of the first comma, or the length.
fn field_end(bytes: &[u8]) -> usize
    ensures place { result ≡ position_or_len comma bytes.now }
    ensures within { result ≤ length bytes.now }
{
    for (i, b) in bytes.iter().enumerate() {
        if *b == b',' {
            return i;
        }
    }
    bytes.len()
}

/// The first line without its line feed, if it has one.
#[tactic(auto, using(crate::proofs::Cursors::fields_found, crate::proofs::Cursors::fields_missing))]
fn first_line(bytes: &[u8]) -> Option<&[u8]>
    ensures { MatchOption result (first_fields (lines_of bytes.now) ≡ None)
        (λ t. first_fields (lines_of bytes.now) ≡ Some (slice_split comma t.now)) }
{
    let end = line_end(bytes);
    if end < bytes.len() {
        Some(&bytes[..end])
    } else {
        None
    }
}

/// The bytes after the first line.
#[tactic(auto, using(crate::proofs::Cursors::passed, crate::proofs::Cursors::passed_last, crate::proofs::Cursors::empty_lines))]
fn after_line(bytes: &[u8]) -> &[u8]
    ensures { lines_of result.now ≡ later (lines_of bytes.now) }
{
    let end = line_end(bytes);
    if end < bytes.len() {
        let (_line, rest) = bytes.split_at(end + 1);
        rest
    } else {
        &bytes[bytes.len()..]
    }
}

/// The first field, and the bytes after its comma, if it has one.
#[tactic(auto, using(crate::proofs::Cursors::field_found, crate::proofs::Cursors::last_field))]
fn first_field(bytes: &[u8]) -> (&[u8], Option<&[u8]>)
    ensures { slice_split comma bytes.now ≡ result.0.now ∷ fields_left result.1 }
{
    let end = field_end(bytes);
    if end < bytes.len() {
        let (_field, rest) = bytes.split_at(end + 1);
        (&bytes[..end], Some(rest))
    } else {
        (bytes, None)
    }
}

impl<'a> Lines<'a> {
    /// The lines of these bytes; the last may have no line feed.
    pub fn of(bytes: &'a [u8]) -> Lines<'a>
        ensures { result ≡ lines_of bytes.now }
    {
        Lines { rest: bytes }
    }

    /// Whether no line is left.
    pub fn is_empty(&self) -> bool
        ensures { IsTrue result ↔ (self.now ≡ []) }
    {
        self.rest.is_empty()
    }

    /// The fields of the next line, which isn't passed. `BadLine` if no line is left or it has no line feed.
    pub fn fields(&self) -> Result<Fields<'a>, BadLine>
        ensures { MatchResult result (λ f. first_fields self.now ≡ Some f) (λ _. first_fields self.now ≡ None) }
    {
        match first_line(self.rest) {
            Some(line) => Ok(Fields { rest: Some(line) }),
            None => Err(BadLine),
        }
    }

    /// The number of lines left.
    pub fn count(&self) -> usize
        ensures { result ≡ length self.now }
    {
        count_lines(self.rest)
    }

    /// Passes the next line, if there is one.
    pub fn pass(&mut self)
        ensures { self.new ≡ later self.old }
    {
        self.rest = after_line(self.rest);
    }

    /// Passes the next line, whose fields made `row` and had `left` left over. `BadLine`, without passing the line, if
    /// they made no row or a field is left.
    #[tactic(auto, using(crate::proofs::Cursors::row_read, crate::proofs::Cursors::row_left, crate::proofs::Cursors::row_refused))]
    pub fn row<T: Drop>(&mut self, row: Option<T>, left: &Fields<'_>) -> Result<T, BadLine>
        ensures { (format : Format T) (fields : List (List ℕ)) → first_fields self.old ≡ Some fields
            → Takes (λ r. r) row left.now (format.read fields)
            → Reads (λ r. r) result self.new ((one (line format)).read self.old) }
    {
        match row {
            Some(row) if left.is_empty() => {
                self.pass();
                Ok(row)
            }
            _ => Err(BadLine),
        }
    }
}

impl<'a> Fields<'a> {
    /// The fields of a line without its line feed.
    pub fn of(bytes: &'a [u8]) -> Fields<'a>
        ensures { result ≡ slice_split comma bytes.now }
    {
        Fields { rest: Some(bytes) }
    }

    /// The next field.
    pub fn next(&mut self) -> Option<&'a [u8]>
        ensures { MatchOption result ((self.old ≡ []) × (self.new ≡ []))
            (λ t. self.old ≡ t.now ∷ self.new) }
    {
        match self.rest {
            Some(bytes) => {
                let (field, rest) = first_field(bytes);
                self.rest = rest;
                Some(field)
            }
            None => None,
        }
    }

    /// Whether no field is left.
    pub fn is_empty(&self) -> bool
        ensures { IsTrue result ↔ (self.now ≡ []) }
    {
        match self.rest {
            Some(_bytes) => false,
            None => true,
        }
    }

    /// Takes a field if it has exactly these bytes.
    #[tactic(auto, using(crate::proofs::Cursors::word_found, crate::proofs::Cursors::word_differs, crate::proofs::Cursors::none_left))]
    pub fn word(&mut self, wanted: &[u8]) -> Option<()>
        ensures { Takes (λ _. tt) result self.new ((word wanted.now).read self.old) }
    {
        let Some(field) = self.next() else {
            return None;
        };
        if field == wanted { Some(()) } else { None }
    }

    /// Takes a whole number from `least` to `most`.
    #[tactic(auto, using(crate::proofs::Cursors::field_read, crate::proofs::Cursors::field_refused, crate::proofs::Cursors::none_left))]
    pub fn number(&mut self, least: u128, most: u128) -> Option<u128>
        ensures { Takes (λ n. n) result self.new ((one (number least most)).read self.old) }
    {
        let Some(field) = self.next() else {
            return None;
        };
        number(field, least, most)
    }

    /// Takes a number with exactly these `places` from `least` to `most`, all in units of the last place.
    #[tactic(auto, using(crate::proofs::Cursors::field_read, crate::proofs::Cursors::field_refused, crate::proofs::Cursors::none_left))]
    pub fn fixed(&mut self, places: usize, least: u128, most: u128) -> Option<u128>
        ensures { Takes (λ n. n) result self.new ((one (fixed places least most)).read self.old) }
    {
        let Some(field) = self.next() else {
            return None;
        };
        fixed(field, places, least, most)
    }
}

/// The number of lines.
fn count_lines(bytes: &[u8]) -> usize
    ensures { result ≡ length (lines_of bytes.now) }
{
    let mut left = Lines::of(bytes);
    let mut count: usize = 0;
    while !left.is_empty() {
        left.pass();
        count += 1;
    }
    count
}
