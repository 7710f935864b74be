//! The prices between which a part of a curve is known.

ghost use Rattle.std.specs.Prelude.{◌+◌, ◌-◌, ◌*◌, ◌<◌, ◌≤◌};
ghost use Rattle.hull.specs.Limits.{most_price_money};
ghost use Rattle.curve_parts.specs.Cuts.{IsSmall};

use hull::{MOST_PRICE_MONEY, Price};

/// A low and a high price.
#[derive(Clone, Copy, Drop)]
pub struct Window {
    pub low: Price,
    pub high: Price,
}

/// A price at which no vertex lies behind a part: each step falls at least 1 for at most 10^12 money.
const LEAST: Price = Price {
    p: 1,
    q: MOST_PRICE_MONEY,
};

/// A lower price than `low`: two thirds of it, or the least one if it is small or below an eighth of `start`.
pub(crate) fn lower(low: Price, start: Price) -> Price
    requires steep { 0 < low.p }
    requires money { 0 < low.q }
    requires small { IsSmall low }
    requires start { IsSmall start }
    requires more { low.q < low.p * most_price_money }
    ensures steep { 0 < result.p }
    ensures money { 0 < result.q }
    ensures small { IsSmall result }
    ensures below { result.p * low.q ≤ low.p * result.q }
    ensures less { result.p + (most_price_money - result.q) < low.p + (most_price_money - low.q) }
{
    let near = low.p * u128::from(start.q) * 8 >= start.p * u128::from(low.q);
    if near && low.p >= 65_536 {
        return Price {
            p: low.p * 2 / 3,
            q: low.q,
        };
    }
    LEAST
}
