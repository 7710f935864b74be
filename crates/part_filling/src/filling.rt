//! The filling of picks by what is known.

ghost use Rattle.std.specs.Prelude.{◌≡◌, ℕ, ◌+◌, ◌≤◌, List, IfOk, IfSome, MatchOption, OnOk, length};
ghost use Rattle.spares_input.specs.Money.{most_budget};
ghost use Rattle.hull.specs.declared.point.Point.{Point};
ghost use Rattle.hull.specs.Limits.{most_curves};
ghost use Rattle.price_bounds.specs.Sums.{cost_of};
ghost use Rattle.step_walk.specs.Prefix.{AreVertices, picked};
ghost use Rattle.marginal_alloc.specs.Choice.{AreCurves};
ghost use Rattle.marginal_alloc.specs.Filling.{Fills, IsBestChange};
ghost use Rattle.choice_parts.specs.Parts.{AreFamilies};
ghost use Rattle.curve_parts.specs.Cuts.{IsSmall};
ghost use Rattle.part_filling.specs.Known.{AreKnown, ArePlaces, IsFound};

use crate::known::{Families, Known};
use crate::settling::settle;
use answers::NoMemory;
use hull::Price;
use marginal_alloc::{Change, best_change, cost_at, take_change};
use std::alloc::Global;

/// The gain that a vertex outside must have to be as good as a change: that of the change, or 1 if there is none.
fn most_of(change: Option<Change>) -> u128
    ensures { MatchOption change (result ≡ 1) (λ c. result ≡ c.gain) }
{
    change.map_or(1, |c| c.gain)
}

/// The best change of the whole curves with `left` money to spend, if there is one: of what is known, once no vertex
/// outside a part could be as good.
fn next_change<F: Families>(
    alloc: Global,
    families: &F,
    start: Price,
    known: &mut Known,
    left: u64,
) -> Result<Option<Change>, NoMemory>
    requires families { AreFamilies (F.points families.now) }
    requires start { IsSmall start }
    requires few { length known.old.curves.items ≤ most_curves }
    requires known { AreKnown (F.points families.now) known.old.curves.items known.old.windows.items
        known.old.beyond.items }
    requires vertices { AreVertices known.old.curves.items known.old.picks.items }
    requires money { cost_of (picked known.old.curves.items known.old.picks.items) + left ≤ most_budget }
    ensures known { OnOk result (AreKnown (F.points families.now) known.new.curves.items known.new.windows.items
        known.new.beyond.items) }
    ensures vertices { OnOk result (AreVertices known.new.curves.items known.new.picks.items) }
    ensures picks { OnOk result (picked known.new.curves.items known.new.picks.items
        ≡ picked known.old.curves.items known.old.picks.items) }
    ensures some { IfOk result (λ found. IfSome found (λ c. IsBestChange known.new.curves.items
        (cost_of (picked known.old.curves.items known.old.picks.items) + left) known.new.picks.items c.family
        c.vertex)) }
    ensures found { IfOk result (λ found. IsFound (F.points families.now)
        (cost_of (picked known.old.curves.items known.old.picks.items) + left) known.new.curves.items
        known.new.picks.items found) }
{
    let mut change = best_change(known.curves.as_slice(), known.picks.as_slice(), left);
    'passes: while settle(alloc, families, start, known, left, most_of(change))? {
        change = best_change(known.curves.as_slice(), known.picks.as_slice(), left);
    }
    Ok(change)
}

/// Fills the picks of what is known: takes the best change of the whole curves until no change is left.
///
/// A family's part is widened if a vertex outside it could be as good as the best known change. `start` is the low
/// price of the first parts, and changes no answer. There are at most 2,000 families, and together the picks are within
/// the budget in whole money. Want of memory is the only error.
pub fn fill_parts<F: Families>(
    alloc: Global,
    families: &F,
    start: Price,
    known: &mut Known,
    budget: u64,
) -> Result<(), NoMemory>
    requires families { AreFamilies (F.points families.now) }
    requires start { IsSmall start }
    requires few { length known.old.curves.items ≤ most_curves }
    requires known { AreKnown (F.points families.now) known.old.curves.items known.old.windows.items
        known.old.beyond.items }
    requires vertices { AreVertices known.old.curves.items known.old.picks.items }
    requires fits { cost_of (picked known.old.curves.items known.old.picks.items) ≤ budget }
    requires budget { budget ≤ most_budget }
    ensures known { OnOk result (AreKnown (F.points families.now) known.new.curves.items known.new.windows.items
        known.new.beyond.items) }
    ensures vertices { OnOk result (AreVertices known.new.curves.items known.new.picks.items) }
    ensures fills { OnOk result ((curves : List (List Point)) (starts : List ℕ)
        → AreCurves (F.points families.now) curves
        → ArePlaces curves starts known.old.curves.items known.old.picks.items
        → (ends : List ℕ) × ArePlaces curves ends known.new.curves.items known.new.picks.items
        × Fills curves budget starts ends) }
{
    let mut left = budget - cost_at(known.curves.as_slice(), known.picks.as_slice());
    let mut found = next_change(alloc, families, start, known, left)?;
    'changes: while let Some(change) = found {
        left = take_change(known.curves.as_slice(), &mut known.picks, change, left);
        found = next_change(alloc, families, start, known, left)?;
    }
    Ok(())
}
