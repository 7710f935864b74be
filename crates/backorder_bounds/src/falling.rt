//! Lower bounds from stock to stock.

ghost use Rattle.std.specs.Prelude.{◌≡◌, ◌+◌, ◌*◌, ◌^◌, ◌<◌, ◌≤◌};
ghost use Rattle.fixed_interval.specs.Ends.{Ends};
ghost use Rattle.moment_table.specs.Profile.{excess_ends};
ghost use Rattle.backorder_bounds.specs.Lead.{IsLead, IsSmallLead};
ghost use Rattle.backorder_bounds.specs.Falling.{IsFallen, IsFlat, IsSmall};

use crate::lead::Lead;
use crate::scale::{MOST, product};
use quotients::few_quotient;

/// A lower bound on the backorders at a stock, and the numbers that bound their fall to the next one. `low` and `tail`
/// have `F` places, `weight` and `above` 36.
#[derive(Clone, Copy, Drop)]
pub(crate) struct Falling {
    pub(crate) low: u64,
    tail: u64,
    weight: u64,
    above: u64,
}

impl Falling {
    /// The values at the stock 0.
    #[inline(always)]
    pub(crate) fn first<const F: u32>(mean: u64, lead: Lead) -> Falling
        requires most { F ≤ 52 }
        requires lead { IsSmallLead lead }
        ensures small { IsSmall 0 result }
        ensures fallen { (m v : Ends) → mean ≡ m.lo → IsLead F m (excess_ends F m v) lead
            → IsFallen F m v lead 0 result }
        ensures flat { (m : Ends) → mean ≡ m.lo → lead.inverse ≡ 0 → IsFlat F m lead 0 result }
    {
        Falling {
            low: mean,
            tail: 1 << F,
            weight: lead.start,
            above: lead.under.first,
        }
    }

    /// The values at the stock after `s`; the same ones if no backorders are left.
    #[inline(always)]
    pub(crate) fn next<const F: u32>(self, lead: Lead, s: u8) -> Falling
        requires most { F ≤ 52 }
        requires stock { s < 64 }
        requires small { IsSmall s self }
        requires lead { IsSmallLead lead }
        ensures small { IsSmall (s + 1) result }
        ensures fallen { (m v : Ends) → 46 ≤ F → IsLead F m (excess_ends F m v) lead → IsFallen F m v lead s self
            → IsFallen F m v lead (s + 1) result }
        ensures flat { (m : Ends) → IsFlat F m lead s self → IsFlat F m lead (s + 1) result }
    {
        if self.low == 0 {
            return self;
        }
        let chance = (u128::from(self.weight) * u128::from(lead.inverse) >> (72 - F)) as u64;
        let tail = self.tail.saturating_sub(chance);
        let ratio = few_quotient(self.above, s + 1);
        Falling {
            low: self.low.saturating_sub(tail),
            tail,
            weight: product(self.weight, ratio).min(MOST),
            above: self.above + lead.under.step,
        }
    }
}
