//! Texts of numbers with a fixed count of decimals.

ghost use Rattle.std.specs.Prelude.{◌≡◌, ℕ, ◌+◌, ◌*◌, ◌^◌, ◌≤◌, ◌<◌, ◌∷◌, [], List, length, ◌⊎◌, ◌/◌};
ghost use Rattle.exact_model.specs.Fraction.{◌≤ℚ◌};
ghost use Rattle.fixed_interval.specs.Text.{fixed_text, IsFixedText, text_value};

use std::marker::Model;

/// A text of at most 48 bytes without an allocation: a number in decimals.
///
/// Contracts see the list of its bytes. They are at the end of the array, since digits are made from the last one on.
#[derive(Drop)]
pub struct Digits {
    bytes: [u8; 48],
    len: usize,
}

impl Model for Digits {
    ghost use Rattle.std.specs.Prelude.{List, ℕ, drop, ◌-◌, ◌≤◌};

    ghost Value = { List ℕ };

    // the text ends where the bytes end
    ghost view = { λ d. drop (48 - d.len) d.bytes };

    ghost invariant = { λ d. d.len ≤ 48 };
}

impl Digits {
    /// The empty text.
    fn new() -> Self
        ensures { result ≡ [] }
    {
        Digits {
            bytes: [b'0'; 48],
            len: 0,
        }
    }

    /// Puts a byte in front.
    fn put_before(&mut self, byte: u8)
        requires { length self.old < 48 }
        ensures { self.new ≡ byte ∷ self.old }
    {
        self.len += 1;
        self.bytes[48 - self.len] = byte;
    }

    /// The bytes of the text, in ASCII.
    pub fn as_slice(&self) -> &[u8]
        ensures { result.now ≡ self.now }
    {
        &self.bytes[48 - self.len..]
    }
}

/// A text of decimals reads as the number that it was made of, and has one spelling: digits on both sides of a point,
/// as many after it as there are places, and no needless 0 in front. The whole part may have up to 64 digits.
pub fn texts_read()
    ensures { (places n : ℕ) → n / 10 ^ places < 10 ^ 64 → IsFixedText places n (fixed_text places n) }
{}

/// `n` units of the last of `places` decimal places, as a text: the whole part without leading zeros, a point, and each
/// place.
pub(crate) fn text_of(n: u128, places: u8) -> Digits
    requires few_places { places ≤ 12 }
    requires room { n < 10 ^ 34 * 10 ^ places }
    ensures text { result ≡ fixed_text places n }
    ensures reads { IsFixedText places n result }
{
    let mut text = Digits::new();
    let mut rest = n;
    for _k in 0..places {
        text.put_before(b'0' + (rest % 10) as u8);
        rest /= 10;
    }
    text.put_before(b'.');
    while rest >= 10 {
        text.put_before(b'0' + (rest % 10) as u8);
        rest /= 10;
    }
    text.put_before(b'0' + rest as u8);
    text
}

/// The number of units of the last place in a whole, for 6 or 12 places.
pub(crate) fn units(places: u8) -> u128
    requires { (places ≡ 6) ⊎ (places ≡ 12) }
    ensures { result ≡ 10 ^ places }
{
    if places == 6 { 1000000 } else { 1000000000000 }
}

/// The fraction `num / den` in 6 or 12 decimals, rounded down.
pub fn ratio_down(num: u128, den: u128, places: u8) -> Digits
    requires divisor { 0 < den }
    requires small_divisor { den < 2 ^ 90 }
    requires small { num < 2 ^ 75 }
    requires places { (places ≡ 6) ⊎ (places ≡ 12) }
    ensures text { result ≡ fixed_text places (num * 10 ^ places / den) }
    ensures reads { IsFixedText places (num * 10 ^ places / den) result }
    ensures below { (positive : 0 < den)
        → text_value places (num * 10 ^ places / den) ≤ℚ record { num = num; den = den; positive = positive } }
{
    text_of(num * units(places) / den, places)
}
