//! A line of bytes, which takes no memory.
ghost use Rattle.std.specs.Prelude.{◌≡◌, ◌+◌, ◌≤◌, ◌<◌, ◌++◌, ◌∷◌, [], length};
ghost use Rattle.refusals.specs.Lines.{file_text, number_field};

use crate::refusal::File;
use itoa::Buffer;
use line_text::ShortLine;
use std::marker::Model;

/// A line of at most 160 bytes.
#[derive(Drop)]
pub struct Line {
    text: ShortLine<160>,
}

impl Model for Line {
    ghost use Rattle.std.specs.Prelude.{List, ℕ};

    ghost Value = { List ℕ };

    ghost view = { λ a. a.text };
}

impl Line {
    /// A line with no bytes.
    pub(crate) fn new() -> Line
        ensures { result ≡ [] }
    {
        Line {
            text: ShortLine::new(),
        }
    }

    /// The bytes of the line.
    pub fn as_slice(&self) -> &[u8]
        ensures { result.now ≡ self.now }
    {
        self.text.as_slice()
    }

    /// Appends a byte.
    pub(crate) fn push(&mut self, byte: u8)
        requires { length self.old < 160 }
        ensures { self.new ≡ self.old ++ byte ∷ [] }
    {
        self.text.push(byte);
    }

    /// Appends these bytes.
    pub(crate) fn put(&mut self, piece: &[u8])
        requires { length self.old + length piece.now ≤ 160 }
        ensures { self.new ≡ self.old ++ piece.now }
    {
        self.text.put(piece);
    }

    /// Appends one more field with a number, which has at most 10 digits.
    pub(crate) fn put_number(&mut self, number: u32)
        requires { length self.old ≤ 149 }
        ensures text { self.new ≡ self.old ++ number_field number }
        ensures short { length self.new ≤ length self.old + 11 }
    {
        let mut digits = Buffer::new();
        self.push(b',');
        self.put(digits.format(number).as_bytes());
    }

    /// Appends one more field with a number of up to 128 bits, which has at most 39 digits.
    pub(crate) fn put_wide(&mut self, number: u128)
        requires { length self.old ≤ 119 }
        ensures text { self.new ≡ self.old ++ number_field number }
        ensures short { length self.new ≤ length self.old + 41 }
    {
        let mut digits = Buffer::new();
        self.push(b',');
        self.put(digits.format(number).as_bytes());
    }

    /// Appends the kind of a fault, and a number.
    pub(crate) fn put_at_row(&mut self, head: &'static [u8], row: u32)
        requires old { length self.old ≤ 6 }
        requires head { length head.now ≤ 20 }
        ensures text { self.new ≡ self.old ++ (head.now ++ number_field row) }
        ensures short { length self.new ≤ 159 }
    {
        self.put(head);
        self.put_number(row);
    }

    /// Appends the kind of a fault, and the file.
    pub(crate) fn put_file(&mut self, head: &'static [u8], file: File)
        requires old { length self.old ≤ 6 }
        requires head { length head.now ≤ 16 }
        ensures text { self.new ≡ self.old ++ (head.now ++ file_text file) }
        ensures short { length self.new ≤ 33 }
    {
        self.put(head);
        self.put(file_text(file));
    }

    /// Appends the kind of a fault, the file, and a number.
    pub(crate) fn put_in_file(&mut self, head: &'static [u8], file: File, number: u32)
        requires old { length self.old ≤ 6 }
        requires head { length head.now ≤ 16 }
        ensures text { self.new ≡ self.old ++ (head.now ++ (file_text file ++ number_field number)) }
        ensures short { length self.new ≤ 45 }
    {
        self.put_file(head, file);
        self.put_number(number);
    }

    /// Appends the kind of a fault, the file, and two numbers.
    pub(crate) fn put_at_field(&mut self, head: &'static [u8], file: File, row: u32, number: u32)
        requires old { length self.old ≤ 6 }
        requires head { length head.now ≤ 16 }
        ensures text { self.new ≡ self.old ++ (head.now
            ++ (file_text file ++ (number_field row ++ number_field number))) }
        ensures short { length self.new ≤ 159 }
    {
        self.put_in_file(head, file, row);
        self.put_number(number);
    }
}

/// The name of a file.
fn file_text(file: File) -> &'static [u8]
    ensures text { result.now ≡ file_text file }
    ensures short { length result.now ≤ 11 }
{
    match file {
        File::Sites => b"sites",
        File::Parts => b"parts",
        File::Rates => b"rates",
        File::Stocks => b"stocks",
        File::OnHand => b"on-hand",
        File::Certificate => b"certificate",
        File::Edits => b"edits",
    }
}
