//! The stocks chosen for a case.

ghost use Rattle.std.specs.Prelude.{◌≡◌, ◌<◌, length, IfOk, IfSome};
ghost use Rattle.fleet_model.specs.Rows.{line_units};
ghost use Rattle.price_bounds.specs.Sums.{lo_of};
ghost use Rattle.price_bounds.specs.Soundness.{stocks_of};
ghost use Rattle.step_walk.specs.Prefix.{picked, AreVertices};
ghost use Rattle.fleet_plan.specs.Families.{vectors_at};
ghost use Rattle.case_plan.specs.Chosen.{FitsCase};
ghost use Rattle.case_plan.specs.Parts.{numbers_of};
ghost use Rattle.case_plan.specs.Report.{HaveVectors};

use crate::numbers::{HullNumbers, totals_of};
use crate::placing::stocks_of;
use answers::NoMemory;
use hull::Curve;
use marginal_alloc::plans::PlanNumbers;
use part_filling::Known;
use spares_input::{Case, Stocks};
use std::alloc::Global;

/// Stocks of a case within a budget, with a floor for each family, the lower end of the aim and the numbers of the
/// plan.
#[derive(Drop)]
pub struct ChosenStocks {
    pub stocks: Stocks,
    /// For each line unit in order, a lower bound of the Lagrangian at the price over all vectors of its family.
    pub floors: Vec<u128>,
    /// The lower end of the aim at these stocks.
    pub lower: u128,
    pub numbers: PlanNumbers,
}

/// Stocks that are chosen by parts of curves, with what is known of each family's curve at the end.
#[derive(Drop)]
pub struct ChosenByParts {
    pub chosen: ChosenStocks,
    pub known: Known,
}

/// What the picks choose that fill a hull choice: their stocks and sums, with the hull choice's floors and numbers.
pub(crate) fn filled(
    alloc: Global,
    case: &Case,
    curves: &[Curve],
    picks: &[u32],
    floors: Vec<u128>,
    hull: HullNumbers,
) -> Result<ChosenStocks, NoMemory>
    requires vectors { HaveVectors case.now curves.now }
    requires vertices { AreVertices curves.now picks.now }
    requires critical { IfSome hull.critical (λ family. family < length (line_units case.now)) }
    ensures fits { IfOk result (FitsCase case.now) }
    ensures vectors { IfOk result (λ x. vectors_at case.now x.stocks.list ≡ stocks_of (picked curves.now picks.now)) }
    ensures floors { IfOk result (λ x. x.floors.items ≡ floors.items) }
    ensures lower { IfOk result (λ x. x.lower ≡ lo_of (picked curves.now picks.now)) }
    ensures numbers { IfOk result (λ x. x.numbers
        ≡ numbers_of hull.cost hull.price hull.bound hull.rounding hull.critical (picked curves.now picks.now)) }
{
    case.invariant();
    let sums = totals_of(curves, picks);
    let stocks = stocks_of(alloc, case, curves, picks)?;
    Ok(ChosenStocks {
        stocks,
        floors,
        lower: sums.lo,
        numbers: PlanNumbers {
            hull_cost: hull.cost,
            price: hull.price,
            cost: sums.cost,
            upper: sums.hi,
            bound: hull.bound,
            rounding: hull.rounding,
            gap: sums.hi.saturating_sub(hull.bound),
            critical: hull.critical,
        },
    })
}
