//! The tables of the shop units at the bases, each made once.

ghost use Rattle.std.specs.Prelude.{◌≡◌, ◌+◌, ◌-◌, ◌<◌, ◌≤◌, IfOk, length, map};
ghost use Rattle.spares_input.specs.Limits.{most_stock};
ghost use Rattle.family_numbers.specs.BaseTables.{AreBaseShops, AreShopBounds, HaveShops, tables_by_shop, tables_by_stock};
ghost use Rattle.family_numbers.specs.Numbers.{base_shop_table, depot_shop_table, nth_stock, shop_numbers};

use crate::numbers::Numbers;
use crate::pair_tables::{base_shop_table, feed_from};
use answers::{List, NoMemory};
use moment_table::kinds::Table;
use series_bounds::short::Iv64;
use spares_input::SiteId;
use std::alloc::Global;

/// The tables of a family's shop units at the bases: by base, by shop unit, and by its stock at the depot.
#[derive(Drop)]
pub struct BaseShops<const F: u32> {
    /// The least stock of each shop unit at the depot.
    low: List<u8>,
    /// The tables.
    tables: List<List<List<Table<F>>>>,
}

/// The tables of a shop unit at a base, for its stocks at the depot from `low` to `high`; `depot` is its table there,
/// and `weights` a scratch list.
fn by_stock<const F: u32>(
    alloc: Global,
    weights: &mut Vec<Iv64<F>>,
    numbers: &Numbers<F>,
    depot: &Table<F>,
    shop: usize,
    site: SiteId,
    low: u8,
    high: u8,
) -> Result<List<Table<F>>, NoMemory>
    requires depot { depot.now ≡ depot_shop_table F numbers.now shop }
    requires shop { shop < length numbers.now.parts - 1 }
    requires site { site.0 < numbers.now.sites }
    requires order { low ≤ high }
    requires most { high ≤ most_stock }
    ensures { IfOk result (λ v. v ≡ tables_by_stock F numbers.now site.0 shop low high) }
{
    numbers.invariant();
    let mut made = Vec::with_capacity(alloc, usize::from(high - low) + 1)?;
    for s in low..high + 1 {
        let pair = numbers.pair(shop + 1, site.0);
        let feed = feed_from(pair.share, depot, s);
        let table = base_shop_table(alloc, weights, pair, feed)?;
        made.push(table)?;
    }
    Ok(List::of(made))
}

/// The tables of the shop units at a base, for their stocks at the depot from `low` to `high`; `depot` are their tables
/// there, and `weights` is a scratch list.
fn by_shop<const F: u32>(
    alloc: Global,
    weights: &mut Vec<Iv64<F>>,
    numbers: &Numbers<F>,
    depot: &[Table<F>],
    site: SiteId,
    low: &[u8],
    high: &[u8],
) -> Result<List<List<Table<F>>>, NoMemory>
    requires depot { depot.now ≡ map (λ i. depot_shop_table F numbers.now i) (shop_numbers numbers.now) }
    requires site { site.0 < numbers.now.sites }
    requires bounds { AreShopBounds numbers.now low.now high.now }
    ensures { IfOk result (λ v. v ≡ tables_by_shop F numbers.now low.now high.now site.0) }
{
    let mut made = Vec::with_capacity(alloc, numbers.shops())?;
    for i in 0..numbers.shops() {
        let tables = by_stock(alloc, weights, numbers, &depot[i], i, site, low[i], high[i])?;
        made.push(tables)?;
    }
    Ok(List::of(made))
}

impl<const F: u32> BaseShops<F> {
    /// The tables for the stocks at the depot from `low` to `high`; `depot` are the shop units' tables there.
    pub fn of(
        alloc: Global,
        numbers: &Numbers<F>,
        depot: &[Table<F>],
        low: &[u8],
        high: &[u8],
    ) -> Result<BaseShops<F>, NoMemory>
        requires depot { depot.now ≡ map (λ i. depot_shop_table F numbers.now i) (shop_numbers numbers.now) }
        requires bounds { AreShopBounds numbers.now low.now high.now }
        ensures { IfOk result (AreBaseShops F numbers.now low.now high.now) }
    {
        let mut weights = Vec::new(alloc);
        let mut tables = Vec::with_capacity(alloc, usize::from(numbers.sites()))?;
        for j in 1..numbers.sites() {
            let at_base = by_shop(alloc, &mut weights, numbers, depot, SiteId(j), low, high)?;
            tables.push(at_base)?;
        }
        let mut least = Vec::new(alloc);
        least.extend_from_slice(low)?;
        Ok(BaseShops {
            low: List::of(least),
            tables: List::of(tables),
        })
    }
}

/// The table of a shop unit at a base, if the shop units have the stocks `depot` at the depot.
pub fn table_of<'a, const F: u32>(
    tables: &'a BaseShops<F>,
    numbers: &Numbers<F>,
    depot: &[u8],
    site: SiteId,
    shop: usize,
) -> &'a Table<F>
    requires tables { HaveShops F numbers.now depot.now tables.now }
    requires base { 0 < site.0 }
    requires site { site.0 < numbers.now.sites }
    requires shop { shop < length numbers.now.parts - 1 }
    ensures { result.now ≡ base_shop_table F numbers.now shop site.0 (nth_stock depot.now shop) }
{
    let least = tables.low.as_slice()[shop];
    let bases = tables.tables.as_slice();
    let shops = bases[usize::from(site.0) - 1].as_slice();
    let stocks = shops[shop].as_slice();
    &stocks[usize::from(depot[shop] - least)]
}
