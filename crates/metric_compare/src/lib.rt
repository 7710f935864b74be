//! The backorders of a case at its stocks beside the backorders of Poisson pipelines.
//!
//! In VARI-METRIC a pipeline's variance grows with the backorders that feed it. METRIC before it (C. C. Sherbrooke,
//! *Operations Research* 16, 1968) took each pipeline as Poisson, so its variance is its mean. Here the model's own
//! means are taken with that rule at every level: depot and bases, line units and shop units. So each pair shows what
//! METRIC leaves out.
#![tactic(auto)]

ghost use Rattle.std.specs.Prelude.{◌≡◌, ℕ, ◌<◌, IfOk, length, map};
ghost use Rattle.std.specs.List.{range_with_len};
ghost use Rattle.exact_model.specs.Fraction.{Encloses};
ghost use Rattle.spares_input.specs.Cases.{CaseRows, frame_rows, pair_count};
ghost use Rattle.spares_input.specs.Stocks.{StockList};
ghost use Rattle.demand_rates.specs.Rates.{AreRatesOf};
ghost use Rattle.fleet_model.specs.Poisson.{poisson, poisson_total};
ghost use Rattle.family_items.specs.Encloses.{CanEvaluate};
ghost use Rattle.metric_compare.specs.Profile.{poisson_of, poisson_total_of};
ghost use Rattle.case_figures.specs.Figures.{figures_of};
ghost use Rattle.metric_compare.specs.Levels.{poisson_numbers};
ghost use Rattle.metric_compare.specs.Report.{compared_at, comparison_of};
ghost use Rattle.metric_compare.specs.Shows.{ShowsComparison};
ghost use Rattle.metric_compare.specs.Fits.{FitsComparison};

use crate::rows::numbers_of;
use crate::totals::poisson_total;
use answers::{List, NoMemory};
use case_figures::{Figures, figures_at};
use demand_rates::kinds::Rates;
use family_eval::evaluate_all;
use family_items::inputs::Inputs;
use fixed_interval::Iv;
use spares_input::{Case, Stocks};
use std::alloc::Global;

mod levels;
mod lines;
mod report;
mod rows;
mod shops;
mod totals;

pub use report::{CompareItem, CompareReport};

/// The Poisson ends enclose, at every depth from 1024 on, each pair's backorders with Poisson pipelines and their
/// weighted total.
pub fn poisson_encloses()
    ensures pairs { (f : ℕ) (c : CaseRows) (s : StockList) (p k : ℕ)
        → CanEvaluate f c s → p < length c.parts → k < length c.sites
        → Encloses f (poisson_of f c s.list p k).lo (poisson_of f c s.list p k).hi (poisson c s.list p k) }
    ensures total { (f : ℕ) (c : CaseRows) (s : StockList) → CanEvaluate f c s
        → Encloses f (poisson_total_of f c s.list).lo (poisson_total_of f c s.list).hi (poisson_total c s.list) }
{}

/// A comparison encloses the model's backorders and the Poisson backorders, pair by pair and in total, and can be
/// printed.
pub fn comparisons_enclose()
    ensures shows { (c : CaseRows) (s : StockList) → CanEvaluate 48 c s → ShowsComparison c s (comparison_of c s) }
    ensures printed { (c : CaseRows) (s : StockList) → CanEvaluate 48 c s → FitsComparison (comparison_of c s) }
{}

/// The figures of a case at its stocks.
fn figures_of(
    alloc: Global,
    case: &Case,
    rates: &Rates,
    stocks: &Stocks,
) -> Result<Figures, NoMemory>
    requires inputs { CanEvaluate 48 case.now stocks.now }
    requires rates { AreRatesOf case.now rates.now }
    ensures { IfOk result (λ figures. figures ≡ figures_of 48 case.now stocks.now) }
{
    let families = evaluate_all::<48>(alloc, case, rates, stocks)?;
    figures_at::<48>(alloc, case, families.as_slice(), stocks)
}

/// The line of each pair, from the figures and the Poisson backorders.
fn compared_items(
    alloc: Global,
    inputs: &Inputs<'_>,
    figures: &Figures,
    poisson: &[Iv<48>],
) -> Result<Vec<CompareItem>, NoMemory>
    requires figures { figures.now ≡ figures_of 48 inputs.now.case inputs.now.stocks }
    requires poisson { poisson.now ≡ poisson_numbers inputs.now.case inputs.now.stocks.list }
    ensures { IfOk result (λ v. v.items ≡ map (compared_at inputs.now.case inputs.now.stocks.list)
        (range_with_len 0 (pair_count (frame_rows inputs.now.case)))) }
{
    inputs.invariant();
    let lines = &figures.items;
    let mut items = Vec::new(alloc);
    for i in 0..lines.len() {
        let line = lines.get(i);
        items.push(CompareItem {
            part: line.part,
            site: line.site,
            stock: line.stock,
            backorders: line.backorders.interval(),
            poisson: poisson[i],
        })?;
    }
    Ok(items)
}

/// The report of a comparison, from the figures.
fn report_of(
    alloc: Global,
    inputs: &Inputs<'_>,
    figures: &Figures,
) -> Result<CompareReport, NoMemory>
    requires { figures.now ≡ figures_of 48 inputs.now.case inputs.now.stocks }
    ensures { IfOk result (λ report. report ≡ comparison_of inputs.now.case inputs.now.stocks) }
{
    let numbers = numbers_of(alloc, inputs)?;
    let poisson = numbers.as_slice();
    let items = compared_items(alloc, inputs, figures, poisson)?;
    Ok(CompareReport {
        items: List::of(items),
        total: figures.total.interval(),
        poisson_total: poisson_total(inputs, poisson),
    })
}

/// The backorders of a case at its stocks beside those with Poisson pipelines, by part and then by site, and the two
/// weighted totals.
///
/// The rates are the rates of the case and break no rule, and the stocks are for this case and within its limits. Each
/// end equals its definition, and encloses its value at every depth from 1024 on. Want of memory is the only error.
pub fn compare(
    alloc: Global,
    case: &Case,
    rates: &Rates,
    stocks: &Stocks,
) -> Result<CompareReport, NoMemory>
    requires inputs { CanEvaluate 48 case.now stocks.now }
    requires rates { AreRatesOf case.now rates.now }
    ensures comparison { IfOk result (λ report. report ≡ comparison_of case.now stocks.now) }
    ensures shows { IfOk result (ShowsComparison case.now stocks.now) }
    ensures printed { IfOk result FitsComparison }
{
    let inputs = Inputs::of(case, rates, stocks);
    let figures = figures_of(alloc, case, rates, stocks)?;
    report_of(alloc, &inputs, &figures)
}
