//! Whole numbers as fields.

ghost use Rattle.std.specs.Prelude.{◌≡◌, ◌^◌, ◌≤◌, ◌↔◌, IsTrue, MatchOption};
ghost use Rattle.std.specs.Fmt.{decimal};
ghost use Rattle.std.specs.Str.Parse.{digits_value_after};
ghost use Rattle.line_text.specs.Texts.{AreDigits, IsShort, number};
ghost use Rattle.line_text.specs.Writing.{Puts};

use answers::NoMemory;
use itoa::Buffer;

/// Whether each byte is a digit.
pub(crate) fn are_digits(text: &[u8]) -> bool
    ensures { IsTrue result ↔ AreDigits text.now }
{
    for b in text {
        if *b < b'0' || *b > b'9' {
            return false;
        }
    }
    true
}

/// The number that the digits write after the number `front`, if it fits.
pub(crate) fn value_after(front: u128, digits: &[u8]) -> Option<u128>
    requires { AreDigits digits.now }
    ensures { MatchOption result (2 ^ 128 ≤ digits_value_after 10 front digits.now)
        (λ n. n ≡ digits_value_after 10 front digits.now) }
{
    let mut number = front;
    for c in digits {
        let Some(tens) = number.checked_mul(10) else {
            return None;
        };
        let Some(next) = tens.checked_add((*c - b'0') as u128) else {
            return None;
        };
        number = next;
    }
    Some(number)
}

/// Whether there is no needless 0 in front.
fn is_short(text: &[u8]) -> bool
    ensures { IsTrue result ↔ IsShort text.now }
{
    text.len() == 1 || (!text.is_empty() && text[0] != b'0')
}

/// Parses a whole number from `least` to `most`, with no needless 0 in front.
#[tactic(auto, using(crate::proofs::Numerals::read_found, crate::proofs::Numerals::not_short, crate::proofs::Numerals::not_digits, crate::proofs::Numerals::too_large, crate::proofs::Numerals::too_low, crate::proofs::Numerals::too_high))]
pub fn number(text: &[u8], least: u128, most: u128) -> Option<u128>
    ensures { result ≡ (number least most).read text.now }
{
    if !is_short(text) {
        return None;
    }
    if !are_digits(text) {
        return None;
    }
    let Some(n) = value_after(0, text) else {
        return None;
    };
    if n < least {
        return None;
    }
    if n > most {
        return None;
    }
    Some(n)
}

/// Writes a whole number. After want of memory a part of it may be written.
#[tactic(auto, using(crate::proofs::Parts::none_put))]
pub fn put_number(out: &mut Vec<u8>, number: u128) -> Result<(), NoMemory>
    ensures { Puts result out.old.items out.new.items (decimal number) }
{
    let mut buffer = Buffer::new();
    out.extend_from_slice(buffer.format(number).as_bytes())?;
    Ok(())
}
