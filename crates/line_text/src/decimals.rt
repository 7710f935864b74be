//! Numbers with fixed places as fields: whole numbers of units of the last place.

ghost use Rattle.std.specs.Prelude.{
  ◌≡◌,
  ℕ,
  List,
  ◌^◌,
  ◌-◌,
  ◌/◌,
  ◌≤◌,
  ◌++◌,
  ◌∷◌,
  drop,
  length,
  MatchOption,
};
ghost use Rattle.fixed_interval.specs.Text.{fixed_text, last_digits};
ghost use Rattle.line_text.specs.Texts.{fixed};
ghost use Rattle.line_text.specs.Writing.{Puts};

use crate::numbers::{are_digits, number, put_number, value_after};
use answers::NoMemory;
use itoa::write_digits;

/// The bytes before and after the point, if the point is before the last `places` bytes.
#[tactic(auto, using(crate::proofs::FixedLaws::too_short, crate::proofs::FixedLaws::no_point, crate::proofs::FixedLaws::point_found))]
fn halves(text: &[u8], places: usize) -> Option<(&[u8], &[u8])>
    ensures { MatchOption result ((xs ys : List ℕ) → length ys ≡ places → text.now ≡ xs ++ (46 ∷ ys) → ⊥)
        (λ h. (text.now ≡ h.0.now ++ (46 ∷ h.1.now)) × (length h.1.now ≡ places)) }
{
    if text.len() <= places {
        return None;
    }
    let (whole, rest) = text.split_at(text.len() - places - 1);
    let (point, part) = rest.split_at(1);
    if point[0] == b'.' {
        Some((whole, part))
    } else {
        None
    }
}

/// Parses a number with exactly `places` decimals. The result is in units of the last place, from `least` to `most`.
#[tactic(auto, using(crate::proofs::FixedLaws::no_halves, crate::proofs::FixedLaws::no_whole))]
pub fn fixed(text: &[u8], places: usize, least: u128, most: u128) -> Option<u128>
    ensures { result ≡ (fixed places least most).read text.now }
{
    let Some((whole, part)) = halves(text, places) else {
        return None;
    };
    let Some(front) = number(whole, 0, u128::MAX) else {
        return None;
    };
    if !are_digits(part) {
        return None;
    }
    let Some(n) = value_after(front, part) else {
        return None;
    };
    if n < least {
        return None;
    }
    if n > most {
        return None;
    }
    Some(n)
}

/// The number of units in one whole.
fn power_of_ten(places: usize) -> u128
    requires { places ≤ 18 }
    ensures { result ≡ 10 ^ places }
{
    10_u128.pow(places as u32)
}

/// Writes the last decimal digits of a number.
fn put_last_digits(
    out: &mut Vec<u8>,
    places: usize,
    power: u128,
    number: u128,
) -> Result<(), NoMemory>
    requires { power ≡ 10 ^ places }
    ensures { Puts result out.old.items out.new.items (last_digits places number) }
{
    let mut unit = power;
    for _k in 0..places {
        unit /= 10;
        out.push(b'0' + (number / unit % 10) as u8)?;
    }
    Ok(())
}

/// Writes a number of any length with `places` decimals.
fn put_wide_fixed(out: &mut Vec<u8>, places: usize, number: u128) -> Result<(), NoMemory>
    requires { places ≤ 18 }
    ensures { Puts result out.old.items out.new.items (fixed_text places number) }
{
    let power = power_of_ten(places);
    put_number(out, number / power)?;
    out.push(b'.')?;
    put_last_digits(out, places, power, number)?;
    Ok(())
}

/// Ends the bytes with the last decimal digits of a number, and returns the number without them.
fn end_with_digits(bytes: &mut [u8; 40], places: usize, number: u64) -> u64
    requires { places ≤ 18 }
    ensures rest { result ≡ number / 10 ^ places }
    ensures written { drop (40 - places) bytes.new ≡ last_digits places number }
{
    let mut left = number;
    for k in 0..places {
        bytes[39 - k] = b'0' + (left % 10) as u8;
        left /= 10;
    }
    left
}

/// Writes a number of 64 bits with `places` decimals, by no division but by 10.
fn put_short_fixed(out: &mut Vec<u8>, places: usize, number: u64) -> Result<(), NoMemory>
    requires { places ≤ 18 }
    ensures { Puts result out.old.items out.new.items (fixed_text places number) }
{
    let mut bytes = [0; 40];
    let whole = end_with_digits(&mut bytes, places, number);
    let point = 39 - places;
    bytes[point] = b'.';
    let start = write_digits(whole, &mut bytes[..], point);
    out.extend_from_slice(&bytes[start..])?;
    Ok(())
}

/// Writes a number of units of the last of `places` decimals, with all of them. After want of memory a part of it may
/// be written.
pub fn put_fixed(out: &mut Vec<u8>, places: usize, number: u128) -> Result<(), NoMemory>
    requires { places ≤ 18 }
    ensures { Puts result out.old.items out.new.items (fixed_text places number) }
{
    if number < 1 << 64 {
        put_short_fixed(out, places, number as u64)
    } else {
        put_wide_fixed(out, places, number)
    }
}
