//! Shifts and quotients with their rounding, in 128 bits.

ghost use Rattle.std.specs.Prelude.{◌≡◌, ◌*◌, ◌^◌, ◌≤◌, ◌<◌};
ghost use Rattle.std.specs.Int.{div_ceil};

/// `x` whole units in units of `2^-f`.
pub(crate) fn scaled(x: u128, f: u32) -> u128
    requires places { f ≤ 52 }
    requires room { x * 2 ^ f < 2 ^ 128 }
    ensures { result ≡ x * 2 ^ f }
{
    x << f
}

/// `x` units of `2^-f` in whole units, rounded up.
pub(crate) fn rounded_up(x: u128, f: u32) -> u128
    requires places { f ≤ 52 }
    requires room { x < 2 ^ 127 }
    ensures { result ≡ div_ceil x (2 ^ f) }
{
    (x + (scaled(1, f) - 1)) >> f
}

/// `num / den` rounded up, by dividing the rest after `start`, which is fast if `start` is near.
pub(crate) fn quotient_up(num: u128, den: u128, start: u128) -> u128
    requires divisor { 0 < den }
    requires start { start * den ≤ num }
    ensures { result ≡ div_ceil num den }
{
    let left = num - start * den;
    if left < 1 << 64 && den < 1 << 64 {
        start + (left as u64).div_ceil(den as u64) as u128
    } else {
        start + left.div_ceil(den)
    }
}
