//! A decimal number's text, read exactly.

ghost use Rattle.std.specs.Prelude.{
  ◌≡◌,
  ℕ,
  ◌+◌,
  ◌-◌,
  ◌*◌,
  ◌^◌,
  ◌≤◌,
  ◌<◌,
  ◌++◌,
  List,
  Result,
  true,
  false,
  length,
  slice_index,
  drop,
  min,
  MatchOption,
};
ghost use Rattle.std.specs.Str.Parse.{digits_value, digits_value_after};
ghost use Rattle.exact_ratio.specs.declared.decimal.Decimal.{Decimal};
ghost use Rattle.exact_ratio.specs.declared.decimal.NumberFault.{NumberFault};
ghost use Rattle.exact_ratio.specs.Decimal.{
  IsDigit,
  IsClean,
  FirstBad,
  HasLateDigit,
  HasNoLateDigit,
  ReadsDecimal,
  decimal_of,
  point_of,
};

use thiserror::Error;

/// The number `units / 10^places`.
#[derive(Clone, Copy, Debug, Drop, PartialEq, Eq)]
pub struct Decimal {
    /// The number in units of its last place.
    pub units: u64,
    /// The number of decimals.
    pub places: u8,
}

/// Why a text is no decimal number. Of several faults the first in this order is reported.
#[derive(Clone, Copy, Debug, Drop, PartialEq, Eq, Error)]
pub enum NumberFault {
    /// The first byte, counted from 0, that is neither a digit nor the first point. A place past `2^32 - 1` is reported
    /// as `2^32 - 1`.
    #[error("the byte at {0} is neither a digit nor the first point")]
    BadByte(u32),
    /// The text holds no digit.
    #[error("there is no digit")]
    Empty,
    /// A digit past the places asked for isn't 0.
    #[error("there are too many decimals")]
    TooManyPlaces,
    /// The number of units is above `2^64 - 1`.
    #[error("the number is too large")]
    TooLarge,
}

/// The definition of reading agrees, for every text, with a description by its digits, place by place.
pub fn reads_as_defined()
    ensures { (text : List ℕ) (places : ℕ) → ReadsDecimal text places (decimal_of text places) }
{}

/// A text has only one reading.
pub fn reads_one_answer()
    ensures { (text : List ℕ) (places : ℕ) (answer : Result Decimal NumberFault)
        → ReadsDecimal text places answer → answer ≡ decimal_of text places }
{}

/// Reads digits with at most one point among them as a number of `places` decimals.
///
/// The digits before or after the point may be missing, as in `.5` and `5.`, and zeros past the places asked for are
/// allowed. The error is the first fault in the order of [`NumberFault`]. Allocates no memory.
pub fn read_decimal(text: &[u8], places: u8) -> Result<Decimal, NumberFault>
    requires { places ≤ 4 }
    ensures value { result ≡ decimal_of text.now places }
    ensures reads { ReadsDecimal text.now places result }
{
    let point = find_point(text);
    if let Some(at) = find_bad(text, point) {
        return Err(NumberFault::BadByte(place(at)));
    }
    let whole = &text[..point];
    let fraction = after(text, point);
    if whole.len() + fraction.len() == 0 {
        return Err(NumberFault::Empty);
    }
    if has_late_digit(fraction, places) {
        return Err(NumberFault::TooManyPlaces);
    }
    let kept = (places as usize).min(fraction.len());
    match units_of(whole, &fraction[..kept], places - kept as u8) {
        Some(units) => Ok(Decimal { units, places }),
        None => Err(NumberFault::TooLarge),
    }
}

/// The index of the first point, or the length.
fn find_point(text: &[u8]) -> usize
    ensures place { result ≡ point_of text.now }
    ensures within { result ≤ length text.now }
{
    for (i, c) in text.iter().enumerate() {
        if *c == b'.' {
            return i;
        }
    }
    text.len()
}

/// The bytes after the index `point`.
fn after(text: &[u8], point: usize) -> &[u8]
    requires { point ≤ length text.now }
    ensures { result.now ≡ drop (point + 1) text.now }
{
    if point < text.len() {
        &text[point + 1..]
    } else {
        &text[point..]
    }
}

/// The first byte that is neither a digit nor at the index `point`.
fn find_bad(text: &[u8], point: usize) -> Option<usize>
    requires { point ≡ point_of text.now }
    ensures { MatchOption result (IsClean text.now) (λ k. FirstBad text.now k) }
{
    for (i, c) in text.iter().enumerate() {
        if (*c < b'0' || *c > b'9') && i != point {
            return Some(i);
        }
    }
    None
}

/// Whether a digit past `places` isn't 0.
fn has_late_digit(fraction: &[u8], places: u8) -> bool
    ensures late { result ≡ true → HasLateDigit fraction.now places }
    ensures none { result ≡ false → HasNoLateDigit fraction.now places }
{
    for (i, c) in fraction.iter().enumerate() {
        if i >= places as usize && *c != b'0' {
            return true;
        }
    }
    false
}

/// The number that the digits write after the digits of `start`, if it fits.
fn read_on(start: u64, digits: &[u8]) -> Option<u64>
    requires { (k : ℕ) → k < length digits.now → IsDigit (slice_index digits.now k) }
    ensures { MatchOption result (2 ^ 64 ≤ digits_value_after 10 start digits.now)
        (λ n. n ≡ digits_value_after 10 start digits.now) }
{
    let mut number = start;
    for c in digits {
        let Some(tens) = number.checked_mul(10) else {
            return None;
        };
        let Some(next) = tens.checked_add((*c - b'0') as u64) else {
            return None;
        };
        number = next;
    }
    Some(number)
}

/// Ten to a power of at most 4.
fn power_of_ten(places: u8) -> u64
    requires { places ≤ 4 }
    ensures { result ≡ 10 ^ places }
{
    match places {
        0 => 1,
        1 => 10,
        2 => 100,
        3 => 1000,
        _ => 10000,
    }
}

/// The number written by these digits and `missing` zeros after them, if it fits.
fn units_of(whole: &[u8], kept: &[u8], missing: u8) -> Option<u64>
    requires whole_digits { (k : ℕ) → k < length whole.now → IsDigit (slice_index whole.now k) }
    requires kept_digits { (k : ℕ) → k < length kept.now → IsDigit (slice_index kept.now k) }
    requires few { missing ≤ 4 }
    ensures { MatchOption result (2 ^ 64 ≤ digits_value 10 (whole.now ++ kept.now) * 10 ^ missing)
        (λ n. n ≡ digits_value 10 (whole.now ++ kept.now) * 10 ^ missing) }
{
    let Some(start) = read_on(0, whole) else {
        return None;
    };
    let Some(number) = read_on(start, kept) else {
        return None;
    };
    number.checked_mul(power_of_ten(missing))
}

/// A place in the form of a fault.
fn place(at: usize) -> u32
    ensures { result ≡ min at (2 ^ 32 - 1) }
{
    at.min(u32::MAX as usize) as u32
}
