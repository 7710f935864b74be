//! What is known of each family's curve.

ghost use Rattle.std.specs.Prelude.{◌≡◌, ◌<◌, List, IfOk, OnOk, length, set};
ghost use Rattle.hull.specs.declared.point.Point.{Point};
ghost use Rattle.hull.specs.Curves.{point_at};
ghost use Rattle.step_walk.specs.Prefix.{AreVertices, curve_at, picked};
ghost use Rattle.curve_parts.specs.Cuts.{IsSmall, IsWindow, IsWithin};
ghost use Rattle.curve_parts.specs.Beyond.{IsKnownPart};
ghost use Rattle.choice_parts.specs.Parts.{AreFamilies};
ghost use Rattle.part_filling.specs.Known.{AreKnown, HasCost, IsPriceWindow, window_at};
ghost use Rattle.part_filling.specs.Widening.{OthersStay};

use crate::window::Window;
use answers::NoMemory;
use hull::{Curve, Price};
use std::alloc::Global;

/// Families of whose curves parts can be made.
pub trait Families {
    /// The points of each family.
    ghost points: { Self → List (List Point) };

    /// The part of a family's curve between two prices, and how high all vertices behind it lie at the low price. Want
    /// of memory is the only error.
    fn part(
        &self,
        alloc: Global,
        family: u32,
        low: Price,
        high: Price,
    ) -> Result<(Curve, u128), NoMemory>
        requires family { family < length (points self.now) }
        requires low { IsSmall low }
        requires high { IsSmall high }
        requires window { IsWindow low high }
        ensures { IfOk result (λ made. IsKnownPart low high (curve_at (points self.now) family) made.0 made.1) };
}

/// The part of each family's curve between its two prices, how high all vertices behind it lie at the low one, and a
/// pick among its vertices.
#[derive(Drop)]
pub struct Known {
    pub curves: Vec<Curve>,
    pub windows: Vec<Window>,
    pub beyond: Vec<u128>,
    pub picks: Vec<u32>,
}

/// The place of the vertex of a cost.
fn place_at(curve: &Curve, cost: u64) -> u32
    requires { HasCost curve.now cost }
    ensures below { result < length curve.now }
    ensures cost { (point_at curve.now result).cost ≡ cost }
{
    for k in 0..curve.len() {
        if curve.point(k).cost == cost {
            return k;
        }
    }
    0
}

/// Makes a wider part of a family's curve, and finds its pick there.
pub(crate) fn widen<F: Families>(
    alloc: Global,
    families: &F,
    known: &mut Known,
    family: u32,
    window: Window,
) -> Result<(), NoMemory>
    requires families { AreFamilies (F.points families.now) }
    requires known { AreKnown (F.points families.now) known.old.curves.items known.old.windows.items
        known.old.beyond.items }
    requires vertices { AreVertices known.old.curves.items known.old.picks.items }
    requires family { family < length known.old.curves.items }
    requires window { IsPriceWindow window.low window.high }
    requires within { IsWithin (window_at known.old.windows.items family).low
        (window_at known.old.windows.items family).high window.low window.high }
    ensures known { OnOk result (AreKnown (F.points families.now) known.new.curves.items known.new.windows.items
        known.new.beyond.items) }
    ensures vertices { OnOk result (AreVertices known.new.curves.items known.new.picks.items) }
    ensures windows { OnOk result (known.new.windows.items ≡ set known.old.windows.items family window) }
    ensures others { OnOk result (OthersStay family known.old known.new) }
    ensures picks { OnOk result (picked known.new.curves.items known.new.picks.items
        ≡ picked known.old.curves.items known.old.picks.items) }
{
    let f = family as usize;
    let (part, beyond) = families.part(alloc, family, window.low, window.high)?;
    let cost = known.curves[f].point(known.picks[f]).cost;
    let place = place_at(&part, cost);
    known.curves[f] = part;
    known.picks[f] = place;
    known.windows[f] = window;
    known.beyond[f] = beyond;
    Ok(())
}
