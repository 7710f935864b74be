//! Numbers of 36 binary places, with products and quotients.

ghost use Rattle.std.specs.Prelude.{◌≡◌, ◌+◌, ◌*◌, ◌/◌, ◌^◌, ◌<◌, ◌≤◌, min};
ghost use Rattle.fixed_interval.specs.Ends.{IsInterval, IsWithinLimit};
ghost use Rattle.backorder_bounds.specs.Coarse.{IsCoarse};

use fixed_interval::Iv;
use quotients::quotient;

/// One whole, `2^36`.
pub(crate) const UNIT: u64 = 68_719_476_736;

/// Eight, which no weight passes.
pub(crate) const MOST: u64 = 549_755_813_888;

/// The product, rounded down.
#[inline(always)]
pub(crate) fn product(a: u64, b: u64) -> u64
    requires { a * b < 2 ^ 100 }
    ensures { result ≡ a * b / 2 ^ 36 }
{
    ((u128::from(a) * u128::from(b)) >> 36) as u64
}

/// The quotient, rounded down, or one whole if it is more.
pub(crate) fn share(a: u64, b: u64) -> u64
    requires { 0 < b }
    ensures { result ≡ min (a * 2 ^ 36 / b) (2 ^ 36) }
{
    let whole = u128::from(UNIT);
    quotient(u128::from(a) * whole, u128::from(b)).min(whole) as u64
}

/// The ends of an interval, rounded outwards.
#[derive(Clone, Copy, Drop)]
pub(crate) struct Coarse {
    pub(crate) lo: u64,
    pub(crate) hi: u64,
}

impl Coarse {
    /// The ends of an interval of more places.
    #[inline(always)]
    pub(crate) fn of<const F: u32>(exact: Iv<F>) -> Coarse
        requires places { 46 ≤ F }
        requires limit { IsWithinLimit F exact }
        ensures valid { IsInterval F exact.entry }
        ensures coarse { IsCoarse F exact.entry result }
        ensures ordered { result.lo ≤ result.hi }
        ensures most { result.hi ≤ 2 ^ 44 + 1 }
        ensures positive { 0 < result.hi }
    {
        Coarse {
            lo: (exact.lo() as u64) >> (F - 36),
            hi: ((exact.hi() as u64) >> (F - 36)) + 1,
        }
    }
}
