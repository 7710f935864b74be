//! Bounds by prices: a price and a floor for each family bound the backorders of every choice of stocks under a budget.
//!
//! A price turns money into backorders. A floor of a family at a price is at most the Lagrangian of each of its points,
//! so the sum of the floors less the price of the budget is a lower bound of every choice within the budget (weak
//! duality). A certificate claims such a bound, and an upper end by chosen points. Nothing here depends on how prices
//! or points are found.
#![tactic(auto)]

ghost use Rattle.price_bounds.specs.Soundness.{CertificatesAreSound};

/// The promises of an acceptable certificate about all allocations of stocks and the model's backorders, at each depth
/// from 1024 on: no allocation within the budget has fewer than its bound, and its own has at most its upper end.
pub fn certificates_are_sound()
    ensures { CertificatesAreSound }
{}
