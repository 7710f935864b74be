//! Formats of lines and fields: a file is a list of lines, and a line is a list of fields with commas between them.
//!
//! A format is one term for both writing and reading values. It is built of a few parts, and the laws of this crate
//! prove for each part that it keeps a format exact: each value reads as it was written, each text that reads was
//! written so, and a refusal names the first bad line. Cursors read by such a format, line after line.
#![tactic(auto)]

mod bad_line;
mod decimals;
mod exactness;
mod lines;
mod numbers;
mod rows;
mod short_line;

pub use bad_line::BadLine;
pub use decimals::{fixed, put_fixed};
pub use exactness::{
    choices_are_exact, fields_are_exact, files_are_exact, formats_are_exact, lines_are_exact,
};
pub use lines::{Fields, Lines};
pub use numbers::{number, put_number};
pub use rows::{count_line, number_line, put_count_line, put_number_line, word_line};
pub use short_line::ShortLine;
