//! The lanes of a walk, one for each curve: the walk's place on the curve, and its next step there.

ghost use Rattle.std.specs.Prelude.{◌≡◌, ◌<◌, IfOk, length};
ghost use Rattle.std.specs.List.{AllZip, AllByRecursion};
ghost use Rattle.hull.specs.Curves.{IsShape};
ghost use Rattle.sum_walk.specs.Lanes.{IsOn};

use answers::NoMemory;
use hull::{Chain, Spot};

/// A walk's place on a curve, and its next step there. At the last vertex the next step has a fall of 0.
#[derive(Clone, Copy, Drop)]
pub(crate) struct Lane {
    /// The fall of the lower end in the next step, in units of 2^-48.
    pub(crate) fall: u128,
    /// The rise of the cost in the next step; 1 if there is no step.
    pub(crate) rise: u64,
    /// The place of the vertex on the curve.
    pub(crate) at: u32,
}

/// The lane at the place `at` of a curve.
#[inline(always)]
pub(crate) fn lane_at<T: Spot>(curve: &Chain<T>, at: u32) -> Lane
    requires { at < length curve.now }
    ensures on { IsOn curve.now result }
    ensures at { result.at ≡ at }
{
    let count = curve.len();
    if at + 1 < count {
        let step = curve.slope(at);
        Lane {
            at,
            fall: step.p,
            rise: step.q,
        }
    } else {
        Lane {
            at,
            fall: 0,
            rise: 1,
        }
    }
}

/// Sets `lanes` to the first vertex of each curve.
pub(crate) fn put_lanes<T: Spot>(lanes: &mut Vec<Lane>, curves: &[Chain<T>]) -> Result<(), NoMemory>
    ensures on { IfOk result (λ _. AllZip IsOn curves.now lanes.new.items) }
    ensures shapes { IfOk result (λ _. AllByRecursion IsShape curves.now) }
    ensures start { IfOk result (λ _. AllByRecursion (λ r. r.at ≡ 0) lanes.new.items) }
{
    lanes.clear();
    for j in 0..curves.len() {
        let curve = &curves[j];
        curve.invariant();
        lanes.push(lane_at(curve, 0))?;
    }
    Ok(())
}
