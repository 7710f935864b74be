//! The lines of an edits file and their parser.

ghost use Rattle.std.specs.Prelude.{◌≡◌, ◌∷◌, ◌<◌, length, option_map, position, IfSome};
ghost use Rattle.std.specs.Str.Lines.{strip_carriage_return};
ghost use Rattle.line_text.specs.Exact.{is_end};
ghost use Rattle.case_edits.specs.Lines.{after, budget_in, edit_lines, edit_of, IsEditOf};

use csv_tables::rate_line;
use exact_ratio::read_decimal;
use spares_input::{Frame, MOST_BUDGET, RateRow};

/// The edit of a line.
#[derive(Clone, Copy)]
pub enum Edit {
    /// A budget in whole money.
    Budget(u64),
    /// A plan of the current case under the current budget.
    Plan,
    /// A row that replaces the row of its pair.
    Rate(RateRow),
}

/// The index of the first line feed.
fn line_feed(bytes: &[u8]) -> Option<usize>
    ensures { result ≡ position is_end bytes.now }
{
    bytes.iter().position(|b| *b == b'\n')
}

/// The first line without its line end, and the bytes after it.
pub fn first_line(bytes: &[u8]) -> (&[u8], &[u8])
    requires { 0 < length bytes.now }
    ensures lines { edit_lines bytes.now ≡ result.0.now ∷ edit_lines result.1.now }
    ensures shorter { length result.1.now < length bytes.now }
{
    match line_feed(bytes) {
        Some(end) => {
            let (line, rest) = bytes.split_at(end);
            (without_return(line), &rest[1..])
        }
        None => (bytes, &bytes[bytes.len()..]),
    }
}

/// A text without one carriage return at its end.
fn without_return(text: &[u8]) -> &[u8]
    ensures { result.now ≡ strip_carriage_return text.now }
{
    match text.split_last() {
        Some((last, rest)) if *last == b'\r' => rest,
        _ => text,
    }
}

/// The rest of a line after a word at its start.
fn after<'a>(word: &[u8], line: &'a [u8]) -> Option<&'a [u8]>
    ensures { option_map (λ t. t.now) result ≡ after word.now line.now }
{
    line.strip_prefix(word)
}

/// The budget that a text spells, if it spells one.
fn budget_in(text: &[u8]) -> Option<u64>
    ensures { result ≡ budget_in text.now }
{
    match read_decimal(text, 0) {
        Ok(decimal) if decimal.units <= MOST_BUDGET => Some(decimal.units),
        _ => None,
    }
}

/// Parses a non-empty edit line for this frame. None exactly if it has none of the three forms.
pub fn edit_in(frame: &Frame, line: &[u8]) -> Option<Edit>
    ensures edit { result ≡ edit_of frame.now line.now }
    ensures fields { IfSome result (IsEditOf frame.now) }
{
    if line == b"plan".as_slice() {
        return Some(Edit::Plan);
    }
    if let Some(text) = after(b"budget,", line) {
        return budget_in(text).map(Edit::Budget);
    }
    let text = after(b"rate,", line)?;
    let row = rate_line(text, frame)?;
    Some(Edit::Rate(row))
}
