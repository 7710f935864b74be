//! The items of a family from kept tables.

ghost use Rattle.std.specs.Prelude.{◌≡◌, ◌∷◌, ◌++◌, [], true, IfOk, OnOk, flat_map, map};
ghost use Rattle.std.specs.List.{All};
ghost use Rattle.fleet_model.specs.Rows.{shop_units};
ghost use Rattle.demand_rates.specs.Rates.{AreRatesOf};
ghost use Rattle.family_items.specs.Encloses.{CanEvaluate, EnclosesFamily, IsSmallFamily};
ghost use Rattle.family_items.specs.Inputs.{IsLine};
ghost use Rattle.family_items.specs.Profile.{family_of, item_of, part_items};
ghost use Rattle.family_tables.specs.Kept.{Grows, Has, HaveStocks, IsKept, IsKey, depot_stocks, is_among, key_item, keys_of, with_keys};

use crate::keys::{Kept, Key, kept_at};
use crate::making::{depot_stocks, keep_each, keys_of};
use answers::NoMemory;
use demand_rates::kinds::Rates;
use family_eval::family_from;
use family_items::inputs::Inputs;
use family_items::{FamilyResult, Item, families_enclose};
use family_numbers::numbers::Numbers;
use spares_input::{Case, PartId, Stocks};
use std::alloc::Global;

/// The item of a kept key's pair.
fn item_at<const F: u32>(
    numbers: &Numbers<F>,
    kept: &[Kept<F>],
    stocks: &Stocks,
    key: &Key,
) -> Item<F>
    requires kept { All (IsKept F numbers.now) kept.now }
    requires key { IsKey numbers.now key.now }
    requires found { is_among (map (λ x. x.key) kept.now) key.now.place key.now.site.0 key.now.stocks ≡ true }
    requires stocks { HaveStocks numbers.now stocks.now }
    ensures { result ≡ key_item F numbers.now stocks.now key.now }
{
    let part = numbers.part(key.place);
    let stock = stocks.get(part, key.site);
    let found = kept_at(numbers, kept, key.place, key.site, key.stocks.as_slice()).unwrap();
    Item {
        part,
        site: key.site,
        stock,
        mean: found.moments.mean,
        variance: found.moments.variance,
        backorders: found.table.ebo(stock),
        spread: found.table.vbo(stock),
    }
}

/// The items of the pairs of these kept keys.
fn items_of<const F: u32>(
    alloc: Global,
    numbers: &Numbers<F>,
    kept: &[Kept<F>],
    stocks: &Stocks,
    keys: &[Key],
) -> Result<Vec<Item<F>>, NoMemory>
    requires kept { All (IsKept F numbers.now) kept.now }
    requires keys { All (IsKey numbers.now) keys.now }
    requires has { Has keys.now (map (λ x. x.key) kept.now) }
    requires stocks { HaveStocks numbers.now stocks.now }
    ensures { IfOk result (λ v. v.items ≡ map (key_item F numbers.now stocks.now) keys.now) }
{
    let mut items = Vec::new(alloc);
    for key in keys {
        items.push(item_at(numbers, kept, stocks, key))?;
    }
    Ok(items)
}

/// Keeps the tables that belong to these stocks, and makes the items of their keys from them. After `NoMemory` only
/// some of the tables may have been added, and none is removed.
pub(crate) fn kept_items<const F: u32>(
    alloc: Global,
    numbers: &Numbers<F>,
    kept: &mut Vec<Kept<F>>,
    stocks: &Stocks,
) -> Result<Vec<Item<F>>, NoMemory>
    requires kept { All (IsKept F numbers.now) kept.old.items }
    requires stocks { HaveStocks numbers.now stocks.now }
    ensures kept { All (IsKept F numbers.now) kept.new.items }
    ensures grows { Grows (keys_of numbers.now (depot_stocks numbers.now stocks.now)) (map (λ x. x.key) kept.old.items)
        (map (λ x. x.key) kept.new.items) }
    ensures keys { OnOk result (map (λ x. x.key) kept.new.items ≡ with_keys (map (λ x. x.key) kept.old.items)
        (keys_of numbers.now (depot_stocks numbers.now stocks.now))) }
    ensures items { IfOk result (λ v. v.items ≡ map (key_item F numbers.now stocks.now)
        (keys_of numbers.now (depot_stocks numbers.now stocks.now))) }
{
    numbers.invariant();
    let depot = depot_stocks(alloc, numbers, stocks)?;
    let keys = keys_of(alloc, numbers, depot.as_slice())?;
    keep_each(alloc, numbers, kept, keys.as_slice())?;
    items_of(alloc, numbers, kept.as_slice(), stocks, keys.as_slice())
}

/// The family of a line unit, from the items that have tables: those of its shop units and, last, its own at the depot.
pub(crate) fn family_of<const F: u32>(
    alloc: Global,
    case: &Case,
    rates: &Rates,
    line: PartId,
    stocks: &Stocks,
    items: &[Item<F>],
) -> Result<FamilyResult<F>, NoMemory>
    requires inputs { CanEvaluate F case.now stocks.now }
    requires rates { AreRatesOf case.now rates.now }
    requires line { IsLine case.now line.0 }
    requires items { items.now ≡ flat_map (part_items F case.now stocks.now.list) (shop_units case.now line.0)
        ++ item_of F case.now stocks.now.list line.0 0 ∷ [] }
    ensures ends { IfOk result (λ r. r ≡ family_of F case.now line.0 stocks.now) }
    ensures encloses { IfOk result (EnclosesFamily F case.now stocks.now.list line.0) }
    ensures small { IfOk result (IsSmallFamily F case.now line.0) }
{
    families_enclose();
    let inputs = Inputs::of(case, rates, stocks);
    let last = items.len() - 1;
    family_from(alloc, &inputs, line, items[last], &items[..last])
}
