//! Points: stocks with their cost and the ends of their backorders.

ghost use Rattle.std.specs.Prelude.{◌≡◌, ◌≤◌, ◌++◌, IfOk};
ghost use Rattle.hull.specs.Curves.{lagrangian, InRange, plus};
ghost use Rattle.hull.specs.Limits.{most_price_units, most_price_money};

use answers::{List, NoMemory};
use std::alloc::Global;

/// Stocks with their cost and the ends of their score. In a curve the cost is at most 10^12, and the lower end is at
/// most the upper end, which is below 2^74.
#[derive(Debug, Drop, PartialEq, Eq)]
pub struct Point {
    /// The cost of the stocks, in whole money.
    pub cost: u64,
    /// The lower end of the score, in units of 2^-48.
    pub lo: u128,
    /// The upper end of the score, in units of 2^-48.
    pub hi: u128,
    /// The units in stock, in a fixed order of parts and sites.
    pub stocks: List<u8>,
}

/// The elements of `a`, then of `b`.
fn joined(alloc: Global, a: &[u8], b: &[u8]) -> Result<List<u8>, NoMemory>
    ensures { IfOk result (λ both. both ≡ a.now ++ b.now) }
{
    let mut both = Vec::new(alloc);
    both.extend_from_slice(a)?;
    both.extend_from_slice(b)?;
    Ok(List::of(both))
}

impl Point {
    /// The sum of two points: costs and ends are added, and the stocks are those of `a`, then of `b`.
    pub(crate) fn plus(alloc: Global, a: &Point, b: &Point) -> Result<Point, NoMemory>
        requires { InRange (plus a.now b.now) }
        ensures { IfOk result (λ sum. sum ≡ plus a.now b.now) }
    {
        let stocks = joined(alloc, a.stocks.as_slice(), b.stocks.as_slice())?;
        Ok(Point {
            cost: a.cost + b.cost,
            lo: a.lo + b.lo,
            hi: a.hi + b.hi,
            stocks,
        })
    }

    /// The Lagrangian at the price `p / q`: `q` times the lower end and `p` times the cost.
    pub(crate) fn lagrangian_at(&self, p: u128, q: u64) -> u128
        requires p_range { p ≤ most_price_units }
        requires q_range { q ≤ most_price_money }
        requires range { InRange self.now }
        ensures { result ≡ lagrangian p q self.now }
    {
        u128::from(q) * self.lo + p * u128::from(self.cost)
    }
}
