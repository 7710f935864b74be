//! The figures of a case from the evaluation of its families.
ghost use Rattle.std.specs.Prelude.{◌≡◌, ℕ, ◌*◌, ◌^◌, ◌≤◌, All, IfOk, length, map};
ghost use Rattle.std.specs.List.{fold};
ghost use Rattle.fixed_interval.specs.Ends.{InScale, ends_add, ends_exact};
ghost use Rattle.spares_input.specs.Cases.{CaseRows};
ghost use Rattle.spares_input.specs.Limits.{most_parts};
ghost use Rattle.spares_input.specs.Stocks.{StockList};
ghost use Rattle.family_items.specs.Profile.{families_of};
ghost use Rattle.family_items.specs.Encloses.{CanEvaluate};
ghost use Rattle.case_figures.specs.Fits.{FitsPrint};
ghost use Rattle.fixed_interval.specs.Widths.{IsWidth};
ghost use Rattle.case_figures.specs.Figures.{figures_of};
ghost use Rattle.case_figures.specs.Gathering.{AreEvaluated};
ghost use Rattle.case_figures.specs.Shows.{ShowsFigures};

use crate::bases::{base_lines, weighted_bases};
use crate::compact::Items;
use crate::figures::Figures;
use crate::items::{compact_by_pair, part_names, site_names, span_of};
use answers::{List, NoMemory};
use availability::fleet;
use family_items::FamilyResult;
use fixed_interval::Iv;
use spares_input::{Case, Stocks};
use std::alloc::Global;

/// The figures of a case enclose the model's at every depth, and can be printed.
pub fn figures_enclose()
    ensures shows { (f : ℕ) (c : CaseRows) (s : StockList) → IsWidth f → CanEvaluate f c s
        → ShowsFigures f c s (figures_of f c s) }
    ensures printed { (f : ℕ) (c : CaseRows) (s : StockList) → IsWidth f → CanEvaluate f c s
        → FitsPrint (figures_of f c s) }
{}

/// The sum of the families' totals, in order.
fn total_of<const F: u32>(families: &[FamilyResult<F>]) -> Iv<F>
    requires scale { InScale F }
    requires totals { All (λ r. r.total.hi ≤ 384000 * 2 ^ F) families.now }
    requires few { length families.now ≤ most_parts }
    ensures { result ≡ fold ends_add (ends_exact F 0) (map (λ r. r.total) families.now) }
{
    let mut total = Iv::exact(0);
    for family in families {
        total = total.add(family.total);
    }
    total
}

/// The figures of a case from its families' evaluation at its stocks, with 32, 48 or 52 binary places, and with this
/// cost in place of the stocks' own.
///
/// The items are sorted by part in file order and then by site, in whatever order the families have them. Want of
/// memory is the only error.
pub fn figures_with_cost<const F: u32>(
    alloc: Global,
    case: &Case,
    families: &[FamilyResult<F>],
    cost: u64,
) -> Result<Figures, NoMemory>
    requires width { IsWidth F }
    requires evaluated { AreEvaluated F case.now families.now }
    ensures { (s : StockList) → CanEvaluate F case.now s → families.now ≡ families_of F case.now s
        → IfOk result (λ x. x ≡ record (figures_of F case.now s) { cost = cost }) }
{
    let parts = part_names(alloc, case)?;
    let sites = site_names(alloc, case)?;
    let compact = compact_by_pair(alloc, case, families)?;
    let bases = weighted_bases(alloc, case, families)?;
    Ok(Figures {
        cost,
        items: Items::of::<F>(parts, sites, compact),
        bases: List::of(base_lines(alloc, case, bases.as_slice())?),
        fleet: span_of(fleet(bases.as_slice())),
        total: span_of(total_of(families)),
    })
}

/// The figures of a case at its stocks with the cost of these stocks, as of [`figures_with_cost`].
pub fn figures_at<const F: u32>(
    alloc: Global,
    case: &Case,
    families: &[FamilyResult<F>],
    stocks: &Stocks,
) -> Result<Figures, NoMemory>
    requires width { IsWidth F }
    requires inputs { CanEvaluate F case.now stocks.now }
    requires families { families.now ≡ families_of F case.now stocks.now }
    ensures figures { IfOk result (λ x. x ≡ figures_of F case.now stocks.now) }
    ensures shows { IfOk result (ShowsFigures F case.now stocks.now) }
    ensures printed { IfOk result FitsPrint }
{
    figures_with_cost(alloc, case, families, stocks.cost(case))
}
