//! The stocks chosen for a case by parts of its curves between two prices.

ghost use Rattle.std.specs.Prelude.{◌≤◌, List, IfOk, IfNone, IfSome};
ghost use Rattle.spares_input.specs.Money.{most_budget};
ghost use Rattle.hull.specs.declared.point.Point.{Point};
ghost use Rattle.marginal_alloc.specs.Choice.{AreCurves};
ghost use Rattle.choice_parts.specs.Parts.{AreFamilies, ArePartsOf};
ghost use Rattle.part_filling.specs.Known.{AllLieBeyond, AreKnown, IsPriceWindow};
ghost use Rattle.case_plan.specs.Chosen.{FitsCase, IsChosen};
ghost use Rattle.case_plan.specs.Parts.{HasNoCritical};
ghost use Rattle.case_plan.specs.Report.{HaveVectors};

use crate::chosen::{ChosenByParts, filled};
use crate::numbers::{floors_at, hull_numbers};
use answers::NoMemory;
use hull::Curve;
use marginal_alloc::{allocate_within, first_cost};
use part_filling::{Families, Known, Window, fill_parts};
use spares_input::Case;
use std::alloc::Global;

/// Stocks for a case under a budget in whole money, from the part between two prices of each family's curve.
///
/// The choice is the one plan of all the families' points, as of [`choose_stocks`](crate::choose_stocks) by their whole
/// curves. The filling makes wider parts of some; what is known at the end is returned with the stocks. None exactly if
/// the parts' hull choice has no critical step: their first vertices exceed the budget, or all their steps are within
/// it. `beyond` says of each family how high all vertices behind its part lie at the low price. `near` guesses the
/// plan's price and changes no answer. Want of memory is the only error.
pub fn choose_stocks_by_parts<F: Families>(
    alloc: Global,
    case: &Case,
    families: &F,
    window: Window,
    parts: Vec<Curve>,
    beyond: Vec<u128>,
    budget: u64,
    near: u128,
) -> Result<Option<ChosenByParts>, NoMemory>
    requires budget { budget ≤ most_budget }
    requires families { AreFamilies (F.points families.now) }
    requires vectors { HaveVectors case.now (F.points families.now) }
    requires window { IsPriceWindow window.low window.high }
    requires parts { ArePartsOf window.low window.high (F.points families.now) parts.items }
    requires beyond { AllLieBeyond window.low (F.points families.now) parts.items beyond.items }
    ensures none { IfOk result (λ found. IfNone found (HasNoCritical parts.items budget)) }
    ensures some { IfOk result (λ found. IfSome found (λ _. HasNoCritical parts.items budget → ⊥)) }
    ensures fits { IfOk result (λ found. IfSome found (λ x. FitsCase case.now x.chosen)) }
    ensures chosen { (curves : List (List Point)) → AreCurves (F.points families.now) curves
        → IfOk result (λ found. IfSome found (λ x. IsChosen case.now curves budget x.chosen)) }
    ensures known { IfOk result (λ found. IfSome found (λ x. AreKnown (F.points families.now) x.known.curves.items
        x.known.windows.items x.known.beyond.items)) }
{
    case.invariant();
    if first_cost(alloc, parts.as_slice())? > budget {
        return Ok(None);
    }
    let chosen = allocate_within(alloc, parts.as_slice(), budget, near)?;
    let cost = chosen.cost;
    let price = chosen.price;
    let Some(step) = chosen.critical else {
        return Ok(None);
    };
    let picks = chosen.picks.into_vec();
    let hull = hull_numbers(
        parts.as_slice(),
        picks.as_slice(),
        cost,
        price,
        Some(step),
        budget,
    );
    let floors = floors_at(alloc, parts.as_slice(), picks.as_slice(), price)?;
    let windows = vec![in alloc; window; parts.len()]?;
    let mut known = Known {
        curves: parts,
        windows,
        beyond,
        picks,
    };
    fill_parts(alloc, families, window.low, &mut known, budget)?;
    let stocks = filled(
        alloc,
        case,
        known.curves.as_slice(),
        known.picks.as_slice(),
        floors,
        hull,
    )?;
    Ok(Some(ChosenByParts {
        chosen: stocks,
        known,
    }))
}
