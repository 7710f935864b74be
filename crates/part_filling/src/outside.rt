//! Vertices of a curve that aren't known.

ghost use Rattle.std.specs.Prelude.{◌*◌, ◌-◌, ◌<◌, ◌≤◌, length, IfNone, IfSome, IsFalse, IsTrue};
ghost use Rattle.spares_input.specs.Money.{most_budget};
ghost use Rattle.hull.specs.Curves.{IsShape, point_at};
ghost use Rattle.hull.specs.Limits.{end_limit, most_price_money};
ghost use Rattle.curve_parts.specs.Cuts.{IsSmall};
ghost use Rattle.part_filling.specs.Known.{HasNoBetter, HasNoneBehind, IsPriceWindow};
ghost use Rattle.part_filling.specs.Widening.{IsWider};

use crate::window::{Window, lower};
use hull::{Curve, Price};

/// Whether no vertex behind a part can change its pick for a gain of `most` or more, with `left` money to spend.
fn has_none_behind(
    curve: &Curve,
    pick: u32,
    low: Price,
    beyond: u128,
    left: u64,
    most: u128,
) -> bool
    requires small { IsSmall low }
    requires shape { IsShape curve.now }
    requires pick { pick < length curve.now }
    requires left { left ≤ most_budget }
    requires most { most ≤ end_limit }
    ensures none { IsTrue result → HasNoneBehind low beyond (point_at curve.now (length curve.now - 1))
        (point_at curve.now pick) left most }
    ensures more { IsFalse result → low.q < low.p * most_price_money }
{
    if low.p * 1_000_000_000_000 <= u128::from(low.q) {
        return true;
    }
    let here = curve.point(pick);
    let last = curve.point(curve.len() - 1);
    let room = here.cost + left;
    if room <= last.cost {
        return true;
    }
    let lowest = u128::from(low.q) * here.hi + low.p * u128::from(room);
    lowest < beyond.saturating_add(u128::from(low.q) * most)
}

/// A wider window for a part, if a vertex outside it could change its pick for a gain of `most` or more, with `left`
/// money to spend. `start` is the low price of the first part.
pub(crate) fn wider(
    curve: &Curve,
    pick: u32,
    window: Window,
    beyond: u128,
    start: Price,
    left: u64,
    most: u128,
) -> Option<Window>
    requires window { IsPriceWindow window.low window.high }
    requires start { IsSmall start }
    requires pick { pick < length curve.now }
    requires left { left ≤ most_budget }
    requires most { most ≤ end_limit }
    ensures none { IfNone result (HasNoBetter window.low window.high beyond curve.now pick left most) }
    ensures some { IfSome result (IsWider window) }
{
    curve.invariant();
    let here = curve.point(pick);
    let first = curve.point(0);
    let money = u128::from(window.high.q);
    if here.hi * money > first.lo * money + window.high.p {
        let high = Price {
            p: here.hi - first.lo,
            q: 1,
        };
        return Some(Window {
            low: window.low,
            high,
        });
    }
    if has_none_behind(curve, pick, window.low, beyond, left, most) {
        return None;
    }
    Some(Window {
        low: lower(window.low, start),
        high: window.high,
    })
}
