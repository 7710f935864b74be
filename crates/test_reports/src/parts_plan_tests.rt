//! Plans by parts of curves beside plans by whole curves, of a demonstration with many line units.
ghost use Rattle.std.specs.Prelude.{◌≤◌};
ghost use Rattle.spares_input.specs.Money.{most_budget};

use answers::NoMemory;
use case_figures::{BaseLine, Figures, ItemLine, Items};
use case_maker::make_case;
use case_plan::{Request, plan};
use demand_rates::rates;
use held_work::held_work;
use hull::Plain;
use on_hand::{held_curves, plan_case};
use plan_report::{CriticalLine, PlanReport};
use spares_input::nothing_held;
use std::alloc::Global;
use std::process::Abort;
use std::test::*;

/// Whether two pairs have the same line.
fn is_same_line(line: &ItemLine, other: &ItemLine) -> bool {
    line.part == other.part
        && line.site == other.site
        && line.stock == other.stock
        && line.mean == other.mean
        && line.variance == other.variance
        && line.backorders == other.backorders
        && line.spread == other.spread
}

/// Whether two lists of pairs have the same lines.
fn have_same_lines(items: &Items, others: &Items) -> bool {
    if items.len() != others.len() {
        return false;
    }
    for n in 0..items.len() {
        if !is_same_line(&items.get(n), &others.get(n)) {
            return false;
        }
    }
    true
}

/// Whether two lists have the same bases with the same availabilities.
fn have_same_bases(bases: &[BaseLine], others: &[BaseLine]) -> bool {
    if bases.len() != others.len() {
        return false;
    }
    for n in 0..bases.len() {
        let (base, other) = (bases[n], others[n]);
        if base.site != other.site || base.availability != other.availability {
            return false;
        }
    }
    true
}

/// Whether two plans have the same figures.
fn have_same_figures(figures: &Figures, others: &Figures) -> bool {
    figures.cost == others.cost
        && have_same_lines(&figures.items, &others.items)
        && have_same_bases(figures.bases.as_slice(), others.bases.as_slice())
        && figures.fleet == others.fleet
        && figures.total == others.total
}

/// Whether two plans have the same critical step, or neither has one.
fn have_same_step(step: Option<CriticalLine>, other: Option<CriticalLine>) -> bool {
    match (step, other) {
        (Some(step), Some(other)) => step.part == other.part && step.cost == other.cost,
        (None, None) => true,
        _ => false,
    }
}

/// Whether two reports say the same.
fn are_same(report: &PlanReport, other: &PlanReport) -> bool {
    report.budget == other.budget
        && have_same_figures(&report.figures, &other.figures)
        && report.on_hand == other.on_hand
        && report.loss == other.loss
        && report.bound == other.bound
        && report.gap == other.gap
        && report.rounding == other.rounding
        && report.price == other.price
        && report.hull == other.hull
        && have_same_step(report.critical, other.critical)
}

/// Whether both plans of a demonstration with 56 line units have the same report and stocks, and the cost of the hull
/// choice. None if there is no memory, or the case is refused.
fn agreement(alloc: Global, budget: u64) -> Result<Option<(bool, u64)>, NoMemory>
    requires { budget ≤ most_budget }
{
    let case = make_case(alloc, 7, 56)?;
    let Ok(rates) = rates(alloc, &case) else {
        return Ok(None);
    };
    let held = nothing_held(alloc, &case)?;
    if held_work(&case, &held).is_err() {
        return Ok(None);
    }
    let curves = held_curves(alloc, &case, &rates, &held, &Plain)?;
    let whole = plan(alloc, &case, &rates, curves.as_slice(), budget, false, None)?;
    let request = Request {
        budget,
        loss: false,
        on_hand: None,
    };
    let parts = plan_case(alloc, &case, &rates, &held, &Plain, request)?;
    let report = are_same(&whole.report, &parts.report);
    let stocks = whole.stocks.as_slice() == parts.stocks.as_slice();
    Ok(Some((report && stocks, whole.report.hull)))
}

/// Budgets in whole money, from none to enough for all stocks.
const BUDGETS: [u64; 5] = [0, 900, 20_000, 80_000, 1_000_000_000];

/// Compares the plans at each budget, at the cost of its hull choice, and one below.
fn agree(rt: &impl Abort, alloc: Global, budgets: &[u64]) -> Result<(), Fail> {
    for budget in budgets {
        let (same, hull) = agreement(alloc, (*budget).min(1_000_000_000))?.expect(rt, "plans");
        assert!(rt; same);
        let cost = hull.min(1_000_000_000);
        assert!(rt; agreement(alloc, cost)?.expect(rt, "plans").0);
        let less = cost.saturating_sub(1);
        assert!(rt; agreement(alloc, less)?.expect(rt, "plans").0);
    }
    Ok(())
}

#[test]
fn parts_of_curves_plan_as_whole_curves_do(rt: HostRuntime) -> Result<(), Fail> {
    agree(&rt, rt.alloc(), BUDGETS.as_slice())
}
