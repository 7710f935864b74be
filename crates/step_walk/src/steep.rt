//! The steps that fall by more than a price per unit of money, which come before all others.
ghost use Rattle.std.specs.Prelude.{◌*◌, ◌<◌, ◌≤◌, IfOk, IsTrue, ◌↔◌};
ghost use Rattle.hull.specs.Limits.{most_price_units, most_price_money};
ghost use Rattle.step_walk.specs.Steep.{AreAfterSteep, IsAfterSteep};

use answers::NoMemory;
use hull::{Curve, Price};
use std::alloc::Global;

/// Whether a step falls by more than `price` per unit of money.
fn is_steep(step: Price, price: u128) -> bool
    requires price { price ≤ most_price_units }
    requires rise { step.q ≤ most_price_money }
    ensures { IsTrue result ↔ (price * step.q < step.p) }
{
    price * u128::from(step.q) < step.p
}

/// The vertex of a curve after its steps that fall by more than `price` per unit of money.
fn after_steep(curve: &Curve, price: u128) -> u32
    requires { price ≤ most_price_units }
    ensures { IsAfterSteep price curve.now result }
{
    let mut low = 0;
    let mut high = curve.len() - 1;
    'halves: while low < high {
        let middle = low + (high - low) / 2;
        if is_steep(curve.slope(middle), price) {
            low = middle + 1;
        } else {
            high = middle;
        }
    }
    low
}

/// The vertex of each curve after its steps that fall by more than `price` per unit of money. The price is in units of
/// 2^-48 for whole money, at most 2^74. Want of memory is the only error.
pub fn all_after_steep(alloc: Global, curves: &[Curve], price: u128) -> Result<Vec<u32>, NoMemory>
    requires { price ≤ most_price_units }
    ensures { IfOk result (λ picks. AreAfterSteep price curves.now picks.items) }
{
    let mut picks = Vec::with_capacity(alloc, curves.len())?;
    for f in 0..curves.len() {
        picks.push(after_steep(&curves[f], price))?;
    }
    Ok(picks)
}
