//! The parts of all families' curves between two prices, of which some are kept.

ghost use Rattle.std.specs.Prelude.{◌≡◌, ◌<◌, List, None, IfOk, IfSome, IsTrue, length};
ghost use Rattle.hull.specs.declared.point.Point.{Point};
ghost use Rattle.step_walk.specs.Prefix.{curve_at};
ghost use Rattle.choice_parts.specs.Parts.{ArePartsOf};
ghost use Rattle.part_filling.specs.Known.{AllLieBeyond, AreKnown, IsPriceWindow};
ghost use Rattle.held_plan.specs.Kept.{AreKeptIn, IsPartIn};

use answers::NoMemory;
use hull::Curve;
use part_filling::{Families, Known, Window};
use std::alloc::Global;

/// The parts of several families, each with how high all vertices behind it lie at the low price.
#[derive(Drop)]
pub(crate) struct Parts {
    pub(crate) curves: Vec<Curve>,
    pub(crate) beyond: Vec<u128>,
}

/// The part between two prices of a family's curve: taken from its place if it is kept there, and made if it isn't.
/// Want of memory is the only error.
fn part_taken<F: Families>(
    alloc: Global,
    families: &F,
    family: u32,
    window: Window,
    kept: &mut Option<(Curve, u128)>,
) -> Result<(Curve, u128), NoMemory>
    requires family { family < length (F.points families.now) }
    requires window { IsPriceWindow window.low window.high }
    requires kept { IfSome kept.old (IsPartIn window (curve_at (F.points families.now) family)) }
    ensures part { IfOk result (IsPartIn window (curve_at (F.points families.now) family)) }
    ensures kept { kept.new ≡ None }
{
    match kept.take() {
        Some(part) => Ok(part),
        None => families.part(alloc, family, window.low, window.high),
    }
}

/// The part between two prices of each family's curve, for this number of families. Parts that are kept are taken from
/// their places. Want of memory is the only error.
pub(crate) fn parts_between<F: Families>(
    alloc: Global,
    families: &F,
    count: u32,
    window: Window,
    kept: &mut Vec<Option<(Curve, u128)>>,
) -> Result<Parts, NoMemory>
    requires count { count ≡ length (F.points families.now) }
    requires kept { AreKeptIn window (F.points families.now) kept.old.items }
    ensures parts { IfOk result (λ parts.
        ArePartsOf window.low window.high (F.points families.now) parts.curves.items) }
    ensures beyond { IfOk result (λ parts.
        AllLieBeyond window.low (F.points families.now) parts.curves.items parts.beyond.items) }
    ensures kept { AreKeptIn window (F.points families.now) kept.new.items }
{
    let mut curves = Vec::new(alloc);
    let mut beyond = Vec::new(alloc);
    for f in 0..count {
        let (part, behind) = part_taken(alloc, families, f, window, &mut kept[f as usize])?;
        curves.push(part)?;
        beyond.push(behind)?;
    }
    Ok(Parts { curves, beyond })
}

/// True only if two windows have the same prices, number by number.
fn is_same(one: Window, other: Window) -> bool
    ensures { IsTrue result → one ≡ other }
{
    one.low.p == other.low.p
        && one.low.q == other.low.q
        && one.high.p == other.high.p
        && one.high.q == other.high.q
}

/// Puts each part back to its family's place, unless it was widened beyond the window.
pub(crate) fn put_back(kept: &mut Vec<Option<(Curve, u128)>>, window: Window, known: Known)
    requires windows { length known.windows.items ≡ length known.curves.items }
    requires beyond { length known.beyond.items ≡ length known.curves.items }
    requires places { length kept.old.items ≡ length known.curves.items }
    ensures { (families : List (List Point))
        → AreKnown families known.curves.items known.windows.items known.beyond.items
        → AreKeptIn window families kept.old.items → AreKeptIn window families kept.new.items }
{
    let Known {
        curves,
        windows,
        beyond,
        picks: _,
    } = known;
    let mut left = curves;
    while let Some(curve) = left.pop() {
        let f = left.len();
        if is_same(windows[f], window) {
            kept[f] = Some((curve, beyond[f]));
        }
    }
}
