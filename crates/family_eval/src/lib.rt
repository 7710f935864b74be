//! The pipelines of a family, a line unit with its shop units, and its backorders at given stocks.
//!
//! A pipeline waits for units of which another pair is short, so the levels are computed in this order: each shop unit
//! at the depot; the line unit there, whose repairs need the shop units; each shop unit at a base, which the depot
//! sends; and the line unit at a base, which waits for the depot and for the base's own shop units. At each level the
//! table of `moment_table` turns the mean and the variance of the pipeline into the backorders at the stock and their
//! variance. This is VARI-METRIC: C. C. Sherbrooke, *Optimal Inventory Modeling of Systems*, 2nd edition, and
//! *Operations Research* 34 (1986).
//!
//! Mean and variance of a pipeline are capped at its mean without any stock anywhere: with stock they are never above
//! it. All figures are intervals in units of `2^-F`, with F from 24 to 52. The definitions in `specs/Profile.antt` fix
//! their ends, and laws of these definitions say that they enclose the model's values ([`items_enclose`],
//! [`families_enclose`]).
#![tactic(auto)]

ghost use Rattle.std.specs.Prelude.{◌≡◌, ◌<◌, IfOk, flat_map};
ghost use Rattle.fixed_interval.specs.Ends.{InScale};
ghost use Rattle.demand_rates.specs.Rates.{AreRatesOf};
ghost use Rattle.std.specs.List.{AllZip};
ghost use Rattle.fleet_model.specs.Rows.{line_units, shop_units};
ghost use Rattle.family_items.specs.Profile.{item_of, part_items, family_of, families_of};
ghost use Rattle.family_items.specs.Encloses.{CanEvaluate, EnclosesFamily, IsSmallFamily};
ghost use Rattle.family_items.specs.Inputs.{IsLine};

use crate::lines::{depot_line_at, line_items, total_of};
use crate::shops::all_shop_items;
use answers::{List, NoMemory};
use demand_rates::kinds::Rates;
use family_items::inputs::Inputs;
use spares_input::{Case, PartId, Stocks};
use std::alloc::Global;

mod levels;
mod lines;
mod shops;

pub use family_items::{FamilyResult, Item};

/// The family of a line unit, from its item at the depot and the items of its shop units, each by site in part order.
/// Want of memory is the only error.
pub fn family_from<const F: u32>(
    alloc: Global,
    inputs: &Inputs<'_>,
    line: PartId,
    depot: Item<F>,
    shop_items: &[Item<F>],
) -> Result<FamilyResult<F>, NoMemory>
    requires scale { InScale F }
    requires line { IsLine inputs.now.case line.0 }
    requires depot { depot ≡ item_of F inputs.now.case inputs.now.stocks.list line.0 0 }
    requires shops { shop_items.now ≡ flat_map (part_items F inputs.now.case inputs.now.stocks.list)
        (shop_units inputs.now.case line.0) }
    ensures { IfOk result (λ r. r ≡ family_of F inputs.now.case line.0 inputs.now.stocks) }
{
    inputs.invariant();
    let shops = inputs.shop_units(line);
    let mut items = line_items(alloc, inputs, line, depot, shops, shop_items)?;
    let total = total_of(items.as_slice(), inputs.weight(line));
    items.extend_from_slice(shop_items)?;
    Ok(FamilyResult {
        items: List::of(items),
        total,
    })
}

/// The family of a line unit.
fn evaluate_family<const F: u32>(
    alloc: Global,
    inputs: &Inputs<'_>,
    line: PartId,
) -> Result<FamilyResult<F>, NoMemory>
    requires scale { InScale F }
    requires line { IsLine inputs.now.case line.0 }
    ensures { IfOk result (λ r. r ≡ family_of F inputs.now.case line.0 inputs.now.stocks) }
{
    inputs.invariant();
    let shops = inputs.shop_units(line);
    let items = all_shop_items(alloc, inputs, shops)?;
    let depot = depot_line_at(alloc, inputs, line, shops, items.as_slice())?;
    family_from(alloc, inputs, line, depot, items.as_slice())
}

/// The items of a line unit and of its shop units at these stocks, and the family's total, in units of `2^-F`.
///
/// The rates are those of the case, `line` is one of its line units, and the stocks are of this case and within its
/// limits. Each end is exactly the end of the definitions, which round once at each step. Each item encloses the
/// model's figures at every depth from 1024 on, and the total encloses the family's. Want of memory is the only error.
pub fn evaluate<const F: u32>(
    alloc: Global,
    case: &Case,
    rates: &Rates,
    line: PartId,
    stocks: &Stocks,
) -> Result<FamilyResult<F>, NoMemory>
    requires inputs { CanEvaluate F case.now stocks.now }
    requires rates { AreRatesOf case.now rates.now }
    requires line { IsLine case.now line.0 }
    ensures ends { IfOk result (λ r. r ≡ family_of F case.now line.0 stocks.now) }
    ensures encloses { IfOk result (EnclosesFamily F case.now stocks.now.list line.0) }
    ensures small { IfOk result (IsSmallFamily F case.now line.0) }
{
    let inputs = Inputs::of(case, rates, stocks);
    evaluate_family(alloc, &inputs, line)
}

/// The result of [`evaluate`] for each line unit, in part order. Want of memory is the only error.
pub fn evaluate_all<const F: u32>(
    alloc: Global,
    case: &Case,
    rates: &Rates,
    stocks: &Stocks,
) -> Result<Vec<FamilyResult<F>>, NoMemory>
    requires inputs { CanEvaluate F case.now stocks.now }
    requires rates { AreRatesOf case.now rates.now }
    ensures ends { IfOk result (λ v. v.items ≡ families_of F case.now stocks.now) }
    ensures encloses { IfOk result (λ v. AllZip (EnclosesFamily F case.now stocks.now.list)
        (line_units case.now) v.items) }
    ensures small { IfOk result (λ v. AllZip (IsSmallFamily F case.now) (line_units case.now) v.items) }
{
    let inputs = Inputs::of(case, rates, stocks);
    let lines = case.line_units();
    let mut families = Vec::with_capacity(alloc, lines.len())?;
    for line in lines {
        families.push(evaluate_family(alloc, &inputs, *line)?)?;
    }
    Ok(families)
}
