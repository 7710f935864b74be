//! A row of rates by itself, as a line of text.

ghost use Rattle.std.specs.Prelude.{◌≡◌, [], IfSome, MatchOption};
ghost use Rattle.spares_input.specs.Cases.{IsRateOf};
ghost use Rattle.csv_tables.specs.Rates.{TakesField, rate_line};

use crate::fields::trim;
use crate::rates::rate_in;
use line_text::Fields;
use spares_input::{Frame, RateRow};

/// Parses a row of rates for this frame: six fields with commas between them, each with or without blanks at its ends.
/// `None` exactly if the line isn't one. Allocates no memory.
pub fn rate_line(line: &[u8], frame: &Frame) -> Option<RateRow>
    ensures row { result ≡ rate_line frame.now line.now }
    ensures fields { IfSome result (IsRateOf frame.now) }
{
    let mut left = Fields::of(line);
    let part = next_trimmed(&mut left)?;
    let site = next_trimmed(&mut left)?;
    let demand = next_trimmed(&mut left)?;
    let repair_here = next_trimmed(&mut left)?;
    let share = next_trimmed(&mut left)?;
    let repair_days = next_trimmed(&mut left)?;
    if !left.is_empty() {
        return None;
    }
    let fields = [part, site, demand, repair_here, share, repair_days];
    match rate_in(frame, 0, &fields) {
        Ok(row) => Some(row),
        Err(_fault) => None,
    }
}

/// The next field of a line, without the blanks at its ends.
fn next_trimmed<'a>(left: &mut Fields<'a>) -> Option<&'a [u8]>
    ensures { MatchOption result (left.old ≡ []) (λ field. TakesField left.old left.new field.now) }
{
    let text = left.next()?;
    Some(trim(text))
}
