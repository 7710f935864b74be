//! The best change of one family to another vertex of its curve.
ghost use Rattle.std.specs.Prelude.{◌≡◌, ℕ, ◌+◌, ◌^◌, ◌<◌, ◌≤◌, length, slice_index, IfNone, IfSome, MatchOption};
ghost use Rattle.hull.specs.Curves.{IsShape};
ghost use Rattle.hull.specs.Limits.{most_curves};
ghost use Rattle.price_bounds.specs.Sums.{cost_of};
ghost use Rattle.step_walk.specs.Prefix.{curve_at, AreVertices, picked};
ghost use Rattle.marginal_alloc.specs.Filling.{IsFull, IsBestChange, gain};
ghost use Rattle.marginal_alloc.specs.Changes.{hi_at, IsLowest, IsBestBefore};

use hull::Curve;

/// A change of one family to another vertex of its curve, and its gain: the fall of the upper end.
#[derive(Clone, Copy, Drop)]
pub struct Change {
    pub family: u32,
    pub vertex: u32,
    pub gain: u128,
}

/// The first place whose upper end can be below the pick's: before it even the lower ends are too high.
fn first_below(curve: &Curve, pick: u32) -> u32
    requires shape { IsShape curve.now }
    requires pick { pick < length curve.now }
    ensures within { result ≤ pick }
    ensures none { (k : ℕ) → k < result → hi_at curve.now pick ≤ hi_at curve.now k }
{
    let top = curve.point(pick).hi;
    for back in 0..pick {
        let k = pick - 1 - back;
        if curve.point(k).lo >= top {
            return k + 1;
        }
    }
    0
}

/// The first vertex with the lowest upper end among those that cost at most `room`, or the pick if none is lower.
fn lowest_vertex(curve: &Curve, pick: u32, room: u64) -> u32
    requires shape { IsShape curve.now }
    requires pick { pick < length curve.now }
    ensures { IsLowest curve.now pick room (length curve.now) result }
{
    let mut lowest = pick;
    for k in first_below(curve, pick)..curve.len() {
        let vertex = curve.point(k);
        if vertex.cost > room {
            return lowest;
        }
        if vertex.hi < curve.point(lowest).hi {
            lowest = k;
        }
    }
    lowest
}

/// The gain of the change, 0 if there is none.
fn gain_of(change: Option<Change>) -> u128
    ensures { MatchOption change (result ≡ 0) (λ c. result ≡ c.gain) }
{
    change.map_or(0, |c| c.gain)
}

/// The better of `best` and the best change of one more family, with `left` money to spend.
fn better_of(
    curves: &[Curve],
    picks: &[u32],
    left: u64,
    best: Option<Change>,
    family: u32,
) -> Option<Change>
    requires count { length picks.now ≡ length curves.now }
    requires family { family < length curves.now }
    requires pick { slice_index picks.now family < length (curve_at curves.now family) }
    requires money { cost_of (picked curves.now picks.now) + left < 2 ^ 64 }
    requires best { IsBestBefore curves.now (cost_of (picked curves.now picks.now) + left) picks.now family best }
    ensures { IsBestBefore curves.now (cost_of (picked curves.now picks.now) + left) picks.now (family + 1) result }
{
    let curve = &curves[family as usize];
    let pick = picks[family as usize];
    let here = curve.point(pick);
    let end = curve.point(curve.len() - 1);
    let least = gain_of(best);
    // No upper end of the curve is below its last lower end, so most families need no closer look.
    if here.hi - end.lo <= least {
        return best;
    }
    let vertex = lowest_vertex(curve, pick, left + here.cost);
    let gain = here.hi - curve.point(vertex).hi;
    if gain <= least {
        return best;
    }
    Some(Change {
        family,
        vertex,
        gain,
    })
}

/// The best change of the picks with `left` money to spend, if there is one: it lowers its family's upper end most, and
/// of equal ones it is the first by family and then by vertex.
pub fn best_change(curves: &[Curve], picks: &[u32], left: u64) -> Option<Change>
    requires few { length curves.now ≤ most_curves }
    requires vertices { AreVertices curves.now picks.now }
    requires money { cost_of (picked curves.now picks.now) + left < 2 ^ 64 }
    ensures none { IfNone result (IsFull curves.now (cost_of (picked curves.now picks.now) + left) picks.now) }
    ensures some { IfSome result (λ c. IsBestChange curves.now
        (cost_of (picked curves.now picks.now) + left) picks.now c.family c.vertex) }
    ensures gain { IfSome result (λ c. c.gain ≡ gain curves.now picks.now c.family c.vertex) }
{
    let mut best = None;
    for f in 0..curves.len() {
        best = better_of(curves, picks, left, best, f as u32);
    }
    best
}
