//! The levels of a family from its numbers and its stocks, by tables that serve many stocks.

ghost use Rattle.std.specs.Prelude.{◌≡◌, ◌+◌, ◌-◌, ◌*◌, ◌^◌, ◌<◌, ◌≤◌, IfOk, length, map, All};
ghost use Rattle.spares_input.specs.Limits.{most_stock};
ghost use Rattle.family_numbers.specs.Numbers.{depot_feeds, depot_line_table, depot_shop_table, shop_numbers};

use crate::numbers::Numbers;
use crate::pair_tables::{depot_line_table, depot_shop_table, feed_from};
use answers::NoMemory;
use depot_pipeline::Feed;
use moment_table::ROOM_BESIDE;
use moment_table::kinds::Table;
use std::alloc::Global;

/// The tables of the shop units at the depot.
pub fn depot_shop_tables<const F: u32>(
    alloc: Global,
    numbers: &Numbers<F>,
) -> Result<Vec<Table<F>>, NoMemory>
    ensures { IfOk result (λ v. v.items ≡ map (λ i. depot_shop_table F numbers.now i) (shop_numbers numbers.now)) }
{
    numbers.invariant();
    let mut weights = Vec::new(alloc);
    let mut tables = Vec::with_capacity(alloc, numbers.shops())?;
    for i in 0..numbers.shops() {
        let table = depot_shop_table(alloc, &mut weights, numbers.pair(i + 1, 0))?;
        tables.push(table)?;
    }
    Ok(tables)
}

/// The feeds of the shop units to their line unit at the depot, at their stocks there.
fn feeds_at<const F: u32>(
    alloc: Global,
    numbers: &Numbers<F>,
    tables: &[Table<F>],
    depot: &[u8],
) -> Result<Vec<Feed<F>>, NoMemory>
    requires tables { tables.now ≡ map (λ i. depot_shop_table F numbers.now i) (shop_numbers numbers.now) }
    requires count { length depot.now ≡ length numbers.now.parts - 1 }
    requires stocks { All (λ n. n ≤ most_stock) depot.now }
    ensures { IfOk result (λ v. v.items ≡ depot_feeds F numbers.now depot.now) }
{
    numbers.invariant();
    let mut feeds = Vec::with_capacity(alloc, numbers.shops())?;
    for i in 0..numbers.shops() {
        let share = numbers.pair(i + 1, 0).share;
        feeds.push(feed_from(share, &tables[i], depot[i]))?;
    }
    Ok(feeds)
}

/// The table of the line unit at the depot, at the shop units' stocks `depot` there.
pub fn depot_line<const F: u32>(
    alloc: Global,
    numbers: &Numbers<F>,
    tables: &[Table<F>],
    depot: &[u8],
) -> Result<Table<F>, NoMemory>
    requires tables { tables.now ≡ map (λ i. depot_shop_table F numbers.now i) (shop_numbers numbers.now) }
    requires count { length depot.now ≡ length numbers.now.parts - 1 }
    requires stocks { All (λ n. n ≤ most_stock) depot.now }
    ensures { IfOk result (λ t. t ≡ depot_line_table F numbers.now depot.now) }
{
    numbers.invariant();
    let feeds = feeds_at(alloc, numbers, tables, depot)?;
    let pair = numbers.pair(0, 0);
    let mut weights = Vec::with_capacity(alloc, usize::from(pair.limit) + ROOM_BESIDE)?;
    depot_line_table(alloc, &mut weights, pair, feeds.as_slice())
}
