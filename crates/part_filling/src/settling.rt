//! Parts are widened until no vertex outside them could be as good as a change.

ghost use Rattle.std.specs.Prelude.{◌≡◌, ℕ, ◌<◌, ◌≤◌, IfOk, OnOk, length};
ghost use Rattle.spares_input.specs.Money.{most_budget};
ghost use Rattle.hull.specs.Limits.{end_limit, most_curves};
ghost use Rattle.step_walk.specs.Prefix.{AreVertices, picked};
ghost use Rattle.curve_parts.specs.Cuts.{IsSmall};
ghost use Rattle.choice_parts.specs.Parts.{AreFamilies};
ghost use Rattle.part_filling.specs.Known.{AreKnown, IsSettled};
ghost use Rattle.part_filling.specs.Widening.{HasWidened, OthersStay};

use crate::known::{Families, Known, widen};
use crate::outside::wider;
use answers::NoMemory;
use hull::Price;
use std::alloc::Global;

/// Widens the part of a family until no vertex outside can change its pick for a gain of `most` or more, with `left`
/// money to spend; returns whether it widened it. `start` is the low price of the first parts.
fn settle_family<F: Families>(
    alloc: Global,
    families: &F,
    start: Price,
    known: &mut Known,
    family: u32,
    left: u64,
    most: u128,
) -> Result<bool, NoMemory>
    requires families { AreFamilies (F.points families.now) }
    requires start { IsSmall start }
    requires known { AreKnown (F.points families.now) known.old.curves.items known.old.windows.items
        known.old.beyond.items }
    requires vertices { AreVertices known.old.curves.items known.old.picks.items }
    requires family { family < length known.old.curves.items }
    requires left { left ≤ most_budget }
    requires most { most ≤ end_limit }
    ensures known { OnOk result (AreKnown (F.points families.now) known.new.curves.items known.new.windows.items
        known.new.beyond.items) }
    ensures vertices { OnOk result (AreVertices known.new.curves.items known.new.picks.items) }
    ensures picks { OnOk result (picked known.new.curves.items known.new.picks.items
        ≡ picked known.old.curves.items known.old.picks.items) }
    ensures settled { OnOk result (IsSettled known.new.windows.items known.new.beyond.items
        known.new.curves.items known.new.picks.items left most family) }
    ensures others { OnOk result (OthersStay family known.old known.new) }
    ensures widened { IfOk result (λ widened. HasWidened widened known.old known.new) }
{
    let f = family as usize;
    let mut widened = false;
    'wider: while let Some(window) = wider(
        &known.curves[f],
        known.picks[f],
        known.windows[f],
        known.beyond[f],
        start,
        left,
        most,
    ) {
        widen(alloc, families, known, family, window)?;
        widened = true;
    }
    Ok(widened)
}

/// Widens the part of each family until no vertex outside can change its pick for a gain of `most` or more, with `left`
/// money to spend; returns whether it widened any. `start` is the low price of the first parts.
pub(crate) fn settle<F: Families>(
    alloc: Global,
    families: &F,
    start: Price,
    known: &mut Known,
    left: u64,
    most: u128,
) -> Result<bool, NoMemory>
    requires families { AreFamilies (F.points families.now) }
    requires start { IsSmall start }
    requires few { length known.old.curves.items ≤ most_curves }
    requires known { AreKnown (F.points families.now) known.old.curves.items known.old.windows.items
        known.old.beyond.items }
    requires vertices { AreVertices known.old.curves.items known.old.picks.items }
    requires left { left ≤ most_budget }
    requires most { most ≤ end_limit }
    ensures known { OnOk result (AreKnown (F.points families.now) known.new.curves.items known.new.windows.items
        known.new.beyond.items) }
    ensures vertices { OnOk result (AreVertices known.new.curves.items known.new.picks.items) }
    ensures picks { OnOk result (picked known.new.curves.items known.new.picks.items
        ≡ picked known.old.curves.items known.old.picks.items) }
    ensures settled { OnOk result ((f : ℕ) → f < length known.new.curves.items
        → IsSettled known.new.windows.items known.new.beyond.items known.new.curves.items known.new.picks.items left
        most f) }
    ensures widened { IfOk result (λ widened. HasWidened widened known.old known.new) }
{
    let mut widened = false;
    'families: for f in 0..known.curves.len() {
        let more = settle_family(alloc, families, start, known, f as u32, left, most)?;
        widened = widened || more;
    }
    Ok(widened)
}
