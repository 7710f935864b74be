//! Quotients of whole numbers, mostly found without a division.
//!
//! A [`Divisor`] holds its inverse, and a quotient by it takes two products and a comparison. A table has the inverses
//! of small divisors, and a quotient by one takes one product if the number has at most 55 bits. The inverse of a
//! [`Divisor`] is guessed. The code of the guess has no clauses, since each guess is checked, with a plain division as
//! fallback.
#![tactic(auto)]

ghost use Rattle.std.specs.Prelude.{◌≡◌, ◌+◌, ◌-◌, ◌*◌, ◌/◌, ◌^◌, ◌<◌, ◌≤◌, IsTrue};
ghost use Rattle.quotients.specs.Inverses.{are_inverses};

mod divisors;
mod inverses;
mod parts;

pub use divisors::Divisor;
use inverses::INVERSES;
pub use parts::Parts;

/// `num / den`, rounded down. If `guess` is that or one less, no division is made; otherwise one is.
#[inline(always)]
fn quotient_near(num: u128, den: u64, guess: u64) -> u128
    requires { 0 < den }
    ensures { result ≡ num / den }
{
    let product = u128::from(guess) * u128::from(den);
    let left = num.wrapping_sub(product);
    if left < 1 << 64 {
        let left = left as u64;
        if left < den {
            return u128::from(guess);
        }
        if left - den < den {
            return u128::from(guess) + 1;
        }
    }
    num / u128::from(den)
}

/// The same for a number of 64 bits.
fn short_quotient_near(num: u64, den: u64, guess: u64) -> u64
    requires { 0 < den }
    ensures { result ≡ num / den }
{
    let product = u128::from(guess) * u128::from(den);
    if product <= u128::from(num) {
        let left = num - product as u64;
        if left < den {
            return guess;
        }
        if left - den < den {
            return guess + 1;
        }
    }
    num / den
}

/// The inverse of `x` in a table of inverses.
#[inline(always)]
fn entry(table: &[u64], x: u8) -> u64
    requires table { IsTrue (are_inverses table.now) }
    requires divisor { 0 < x }
    ensures least { 2 ^ 63 ≤ result * x }
    ensures most { result * x < 2 ^ 63 + x }
{
    table[usize::from(x)]
}

/// `2^63 / x`, rounded up.
#[inline(always)]
fn short_inverse(x: u8) -> u64
    requires { 0 < x }
    ensures least { 2 ^ 63 ≤ result * x }
    ensures most { result * x < 2 ^ 63 + x }
{
    entry(&INVERSES, x)
}

/// `num / den`, rounded down, for a number of at most 55 bits: by one product.
#[inline(always)]
pub fn few_quotient(num: u64, den: u8) -> u64
    requires divisor { 0 < den }
    requires few { num < 2 ^ 55 }
    ensures { result ≡ num / den }
{
    product_with(num, short_inverse(den))
}

/// A number times an inverse in parts of `2^63`.
#[inline(always)]
fn product_with(num: u64, inverse: u64) -> u64
    requires { inverse ≤ 2 ^ 63 }
    ensures { result ≡ num * inverse / 2 ^ 63 }
{
    ((u128::from(num) * u128::from(inverse)) >> 63) as u64
}

/// `num / den`, rounded down: by one product if the number has at most 55 bits.
#[inline(always)]
pub fn short_quotient(num: u64, den: u8) -> u64
    requires { 0 < den }
    ensures { result ≡ num / den }
{
    if num < 1 << 55 {
        few_quotient(num, den)
    } else {
        short_quotient_near(num, u64::from(den), product_with(num, short_inverse(den)))
    }
}

/// `2^126 / den`, rounded down or one less, for a `den` of `2^63` or more: from the inverse of its first eight bits,
/// rounded, by three of Newton's steps. No clause says so: it is a guess.
#[inline(always)]
fn full_inverse(den: u64) -> u64 {
    let first = ((den >> 55) + 1) >> 1;
    let inverse = INVERSES[first as usize].wrapping_shl(7);
    let inverse = nearer(nearer(inverse, den), den);
    last_step(inverse.wrapping_sub(8), den)
}

/// The inverse, in parts of `2^126`, after one of Newton's steps.
#[inline(always)]
fn nearer(inverse: u64, den: u64) -> u64 {
    let twice = (1u64 << 63).wrapping_sub(high_half(inverse, den));
    high_half(inverse, twice).wrapping_shl(2)
}

/// Newton's last step, for an inverse too small by less than one part in `2^31`, as exact as possible.
#[inline(always)]
fn last_step(inverse: u64, den: u64) -> u64 {
    let missing = (1u128 << 126).wrapping_sub(u128::from(inverse) * u128::from(den));
    inverse.wrapping_add(low_half(
        (u128::from(inverse) * u128::from(low_half(missing >> 60))) >> 66,
    ))
}

/// The lower 64 bits.
#[inline(always)]
fn low_half(a: u128) -> u64 {
    (a & u128::from(u64::MAX)) as u64
}

/// The upper 64 bits of a product.
fn high_half(a: u64, b: u64) -> u64
    ensures { result ≡ a * b / 2 ^ 64 }
{
    ((u128::from(a) * u128::from(b)) >> 64) as u64
}

/// A guess at `num / den`, for a quotient of at most 60 bits: it is that rounded down, or one less.
#[inline(always)]
fn quotient_guess(num: u128, den: u64) -> u64 {
    let zeros = den.leading_zeros();
    let inverse = full_inverse(den.wrapping_shl(zeros));
    let shifted = num.wrapping_shl(zeros);
    let upper = u128::from((shifted >> 64) as u64) * u128::from(inverse);
    let lower = u128::from(high_half(low_half(shifted), inverse));
    low_half(upper.wrapping_add(lower) >> 62)
}

/// `num / den`, rounded down: mostly without a division if `den` has 64 bits and the quotient at most 60.
#[inline(always)]
pub fn quotient(num: u128, den: u128) -> u128
    requires { 0 < den }
    ensures { result ≡ num / den }
{
    if den < 1 << 64 {
        let den = den as u64;
        quotient_near(num, den, quotient_guess(num, den))
    } else {
        num / den
    }
}

/// A guess at `2^(F + 62) / den`, for a `den` of `2^F` or more: it is that rounded down, or one less.
#[inline(always)]
fn inverse_of<const F: u32>(den: u64) -> u64
    requires { F ≤ 52 }
{
    let zeros = den.leading_zeros();
    full_inverse(den.wrapping_shl(zeros)).wrapping_shr((64 - F).wrapping_sub(zeros))
}

/// The fewest places by which a number that isn't 0 is shifted so that it has `F + 1` bits or more.
#[inline(always)]
pub fn places_to<const F: u32>(den: u64) -> u32
    requires { F ≤ 52 }
    ensures least { 0 < den → 2 ^ F ≤ den * 2 ^ result }
    ensures fewest { 0 < result → den * 2 ^ (result - 1) < 2 ^ F }
    ensures few { result ≤ 53 }
{
    den.leading_zeros().saturating_sub(63 - F)
}

/// A guess at the inverse of a number that is `den` or somewhat less, from that of `den`, which is rounded down: by one
/// of Newton's steps, where the numbers are near enough for that. It is the inverse rounded down, or one less.
#[inline(always)]
fn inverse_near<const F: u32>(inverse: u64, den: u64, below: u64) -> u64
    requires { F ≤ 52 }
{
    if den.wrapping_sub(below) > below >> 33 {
        return inverse_of::<F>(below);
    }
    let missing = (1u128 << (F + 62)).wrapping_sub(u128::from(inverse) * u128::from(below));
    let part = low_half(missing.wrapping_shl(8) >> F);
    inverse.wrapping_add(low_half((u128::from(inverse) * u128::from(part)) >> 70))
}
