//! The filling: the best change of one family at a time, until no change is left.
ghost use Rattle.std.specs.Prelude.{◌≡◌, ◌+◌, ◌^◌, ◌<◌, ◌≤◌, length, set};
ghost use Rattle.hull.specs.Limits.{most_curves};
ghost use Rattle.price_bounds.specs.Sums.{cost_of};
ghost use Rattle.step_walk.specs.Prefix.{AreVertices, picked};
ghost use Rattle.marginal_alloc.specs.Filling.{Fills, IsBestChange};

use crate::change::{Change, best_change};
use hull::Curve;

/// The total cost of the picks, one vertex of each of at most 2,000 curves.
pub fn cost_at(curves: &[Curve], picks: &[u32]) -> u64
    requires few { length curves.now ≤ most_curves }
    requires vertices { AreVertices curves.now picks.now }
    ensures { result ≡ cost_of (picked curves.now picks.now) }
{
    let mut cost = 0;
    for f in 0..curves.len() {
        let curve = &curves[f];
        let pick = picks[f];
        let within = pick < curve.len();
        prove!(within);
        cost += curve.point(pick).cost;
    }
    cost
}

/// Makes a change of the picks that fits the money left, and returns what is left then.
pub fn take_change(curves: &[Curve], picks: &mut Vec<u32>, change: Change, left: u64) -> u64
    requires vertices { AreVertices curves.now picks.old.items }
    requires money { cost_of (picked curves.now picks.old.items) + left < 2 ^ 64 }
    requires change { IsBestChange curves.now
        (cost_of (picked curves.now picks.old.items) + left) picks.old.items change.family change.vertex }
    ensures picks { picks.new.items ≡ set picks.old.items change.family change.vertex }
    ensures money { cost_of (picked curves.now picks.new.items) + result
        ≡ cost_of (picked curves.now picks.old.items) + left }
{
    let curve = &curves[change.family as usize];
    let pick = picks[change.family as usize];
    let after = left + curve.point(pick).cost - curve.point(change.vertex).cost;
    picks[change.family as usize] = change.vertex;
    after
}

/// Fills the picks: takes the best change until no change is left.
///
/// A change moves one family to another vertex of its curve, fits the budget in whole money, and lowers that family's
/// upper end. The best change lowers it most; of equal ones it is the first by family and then by vertex. There are at
/// most 2,000 curves, with one pick for each, below its curve's `len`, and together the picks fit the budget. Allocates
/// no memory.
pub fn fill(curves: &[Curve], picks: &mut Vec<u32>, budget: u64)
    requires few { length curves.now ≤ most_curves }
    requires vertices { AreVertices curves.now picks.old.items }
    requires fits { cost_of (picked curves.now picks.old.items) ≤ budget }
    ensures fills { Fills curves.now budget picks.old.items picks.new.items }
    ensures vertices { AreVertices curves.now picks.new.items }
{
    let mut left = budget - cost_at(curves, picks.as_slice());
    'changes: while let Some(change) = best_change(curves, picks.as_slice(), left) {
        left = take_change(curves, picks, change, left);
    }
}
