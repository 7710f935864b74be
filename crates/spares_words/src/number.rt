//! The numbers and names of a command line.
ghost use Rattle.std.specs.Prelude.{◌≡◌, ◌≤◌, IfOk, IfSome, option_map};
ghost use Rattle.fixed_interval.specs.Widths.{IsWidth, is_width};
ghost use Rattle.spares_words.specs.Order.{bits_of, format_of, lowest_format, number_of, objective_of, optional_of, whole_word, within};

use crate::{Which, WordsFault};
use exact_ratio::{Decimal, read_decimal};
use price_certificate::Objective;

/// The number that a text spells with this count of decimals.
pub(crate) fn number(which: Which, places: u8, text: &str) -> Result<Decimal, WordsFault>
    requires { places ≤ 4 }
    ensures value { result ≡ number_of which places text.now }
    ensures places { IfOk result (λ number. number.places ≡ places) }
{
    match read_decimal(text.as_bytes(), places) {
        Ok(number) => Ok(number),
        Err(fault) => Err(WordsFault::Number(which, fault)),
    }
}

/// The number of a text that may be left out.
pub(crate) fn optional(
    which: Which,
    places: u8,
    text: Option<&str>,
) -> Result<Option<Decimal>, WordsFault>
    requires { places ≤ 4 }
    ensures value { result ≡ optional_of which places (option_map (λ s. s.now) text.entry) }
    ensures places { IfOk result (λ number. IfSome number (λ n. n.places ≡ places)) }
{
    match text {
        None => Ok(None),
        Some(text) => Ok(Some(number(which, places, text)?)),
    }
}

/// The number that a text spells with this count of decimals, if it is from `least` to `most` units.
pub(crate) fn within(
    which: Which,
    places: u8,
    least: u64,
    most: u64,
    text: &str,
) -> Result<Decimal, WordsFault>
    requires { places ≤ 4 }
    ensures value { result ≡ within which places least most text.now }
    ensures places { IfOk result (λ number. number.places ≡ places) }
    ensures least { IfOk result (λ number. least ≤ number.units) }
    ensures most { IfOk result (λ number. number.units ≤ most) }
{
    let number = number(which, places, text)?;
    if least <= number.units && number.units <= most {
        Ok(number)
    } else {
        Err(WordsFault::Range(which))
    }
}

/// The whole number that a text spells, if it is from `least` to `most`.
pub(crate) fn whole(which: Which, least: u64, most: u64, text: &str) -> Result<u64, WordsFault>
    ensures value { result ≡ whole_word which least most text.now }
    ensures least { IfOk result (λ number. least ≤ number) }
    ensures most { IfOk result (λ number. number ≤ most) }
{
    let number = within(which, 0, least, most, text)?;
    Ok(number.units)
}

/// Whether an interval may have this count of bits.
fn is_width(bits: u64) -> bool
    ensures { result ≡ is_width bits }
{
    bits == 32 || bits == 48 || bits == 52
}

/// The bits of a text that may be left out; the default is 48.
pub(crate) fn bits(text: Option<&str>) -> Result<u8, WordsFault>
    ensures value { result ≡ bits_of (option_map (λ s. s.now) text.entry) }
    ensures range { IfOk result IsWidth }
{
    let Some(text) = text else {
        return Ok(48);
    };
    let number = number(Which::Bits, 0, text)?;
    if is_width(number.units) {
        Ok(number.units as u8)
    } else {
        Err(WordsFault::Range(Which::Bits))
    }
}

/// The objective of a text, if an objective has this name; the default is backorders.
pub(crate) fn objective_of(text: Option<&str>) -> Option<Objective>
    ensures { result ≡ objective_of (option_map (λ s. s.now) text.entry) }
{
    let Some(name) = text else {
        return Some(Objective::Backorders);
    };
    Objective::named(name.as_bytes())
}

/// The lowest format that a plan may have.
pub(crate) fn lowest_format(on_hand: Option<&str>, objective: Option<Objective>) -> u8
    ensures value { result ≡ lowest_format (option_map (λ s. s.now) on_hand.entry) objective }
    ensures most { result ≤ 2 }
{
    match on_hand {
        Some(_) => 2,
        None => match objective {
            Some(Objective::LogAvailability) => 2,
            _ => 1,
        },
    }
}

/// The format of a text that may be left out; the default is `lowest`.
pub(crate) fn format(lowest: u8, text: Option<&str>) -> Result<u8, WordsFault>
    requires { lowest ≤ 2 }
    ensures value { result ≡ format_of lowest (option_map (λ s. s.now) text.entry) }
    ensures least { IfOk result (λ format. lowest ≤ format) }
    ensures most { IfOk result (λ format. format ≤ 2) }
{
    match text {
        None => Ok(lowest),
        Some(text) => Ok(whole(Which::Format, lowest as u64, 2, text)? as u8),
    }
}
