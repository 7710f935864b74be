//! Quotients of intervals, mostly without a division.

ghost use Rattle.std.specs.Prelude.{◌≡◌, ◌*◌, ◌^◌, ◌<◌, ◌≤◌};
ghost use Rattle.fixed_interval.specs.Ends.{ends_div};

use crate::short::Iv64;
use crate::unit;
use fixed_interval::Iv;
use quotients::{Divisor, places_to};

/// `a / b`, mostly without a division. `near` is a divisor near the upper end of `b`, and is set to it.
#[inline(always)]
pub(crate) fn div_near<const F: u32>(a: Iv<F>, b: Iv<F>, near: &mut Divisor<F>) -> Iv<F>
    requires room { a.hi ≤ 65536 * 2 ^ F }
    requires divisor { 0 < b.lo }
    ensures { result ≡ ends_div F a.entry b.entry }
{
    if a.hi() <= 1 << 62 && b.hi() < 1 << 63 && unit::<F>() <= b.lo() {
        let upper = near.beside(b.hi() as u64);
        let lower = upper.beside(b.lo() as u64);
        *near = upper;
        Iv64::of(a).over(lower, upper).open()
    } else {
        a.div(b)
    }
}

/// The interval times a power of 2.
#[inline(always)]
fn shifted<const F: u32>(a: Iv<F>, places: u32) -> Iv64<F>
    requires few { places ≤ 53 }
    requires room { a.hi * 2 ^ places < 2 ^ 63 }
    ensures { result ≡ record { lo = a.entry.lo * 2 ^ places; hi = a.entry.hi * 2 ^ places } }
{
    Iv64::of_ends((a.lo() as u64) << places, (a.hi() as u64) << places)
}

/// `a / b`, mostly without a division.
#[inline(always)]
pub fn quotient<const F: u32>(a: Iv<F>, b: Iv<F>) -> Iv<F>
    requires room { a.hi ≤ 65536 * 2 ^ F }
    requires divisor { 0 < b.lo }
    ensures { result ≡ ends_div F a.entry b.entry }
{
    if a.hi() <= 1 << 62 && b.hi() < 1 << 63 {
        let (top, least, most) = (a.hi() as u64, b.lo() as u64, b.hi() as u64);
        let places = places_to::<F>(least);
        if top <= (1 << 62) >> places && most < (1 << 63) >> places {
            let upper = Divisor::of(most << places);
            let lower = upper.beside(least << places);
            return shifted(a, places).over(lower, upper).open();
        }
    }
    a.div(b)
}
