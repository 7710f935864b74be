//! The sums over the vertices of all families.
ghost use Rattle.std.specs.Prelude.{◌≡◌, ◌≤◌, length, set};
ghost use Rattle.hull.specs.Limits.{most_curves};
ghost use Rattle.step_walk.specs.Prefix.{AreVertices};
ghost use Rattle.step_walk.specs.Walks.{TellsFirst};
ghost use Rattle.budget_sweep.specs.Sums.{AreSums};

use crate::report::SweepPoint;
use hull::{Curve, Price};
use step_walk::{Next, Walk};

/// The cost of the vertices of all families together, and the ends of their sum.
#[derive(Clone, Copy, Drop)]
pub(crate) struct Sums {
    pub cost: u64,
    pub lo: u128,
    pub hi: u128,
}

impl Sums {
    /// The state with these sums and the price of the next step.
    pub(crate) fn at_price(self, price: Option<Price>) -> SweepPoint
        ensures { result ≡ record { cost = self.cost; lo = self.lo; hi = self.hi; price = price } }
    {
        SweepPoint {
            cost: self.cost,
            lo: self.lo,
            hi: self.hi,
            price,
        }
    }
}

/// The sums at the picks.
pub(crate) fn sums_at(curves: &[Curve], picks: &[u32]) -> Sums
    requires few { length curves.now ≤ most_curves }
    requires vertices { AreVertices curves.now picks.now }
    ensures { AreSums curves.now picks.now result }
{
    let mut sums = Sums {
        cost: 0,
        lo: 0,
        hi: 0,
    };
    for f in 0..curves.len() {
        let curve = &curves[f];
        let pick = picks[f];
        let within = pick < curve.len();
        prove!(within);
        let vertex = curve.point(pick);
        sums.cost += vertex.cost;
        sums.lo += vertex.lo;
        sums.hi += vertex.hi;
    }
    sums
}

/// The sums after the next step of a walk.
pub(crate) fn sums_after(curves: &[Curve], walk: &Walk<'_>, sums: Sums, next: Next) -> Sums
    requires few { length curves.now ≤ most_curves }
    requires same { walk.now.curves ≡ curves.now }
    requires next { TellsFirst walk.now next }
    requires sums { AreSums curves.now walk.now.picks sums }
    ensures { AreSums curves.now (set walk.now.picks next.family next.vertex) result }
{
    let curve = &curves[next.family as usize];
    let start = curve.point(next.vertex - 1);
    let end = curve.point(next.vertex);
    Sums {
        cost: sums.cost + next.price.q,
        lo: sums.lo - next.price.p,
        hi: sums.hi + end.hi - start.hi,
    }
}
