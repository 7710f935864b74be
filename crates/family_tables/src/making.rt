//! Making the tables that aren't kept yet.

ghost use Rattle.std.specs.Prelude.{◌≡◌, ◌+◌, ◌-◌, ◌<◌, ◌≤◌, IfOk, OnOk, OnErr, length, map, get_or, ℕ};
ghost use Rattle.std.specs.List.{All, range_with_len};
ghost use Rattle.spares_input.specs.Limits.{most_stock};
ghost use Rattle.spares_input.specs.Stocks.{HasPair};
ghost use Rattle.family_tables.specs.Kept.{Grows, IsKept, IsKey, depot_stocks, key_at, key_moments, keys_of, shop_key, with_key, with_keys};
ghost use Rattle.family_numbers.specs.Numbers.{depot_feeds, depot_shop_row, feed_from, pair_at};

use crate::keys::{Kept, Key, kept_at};
use answers::{List, NoMemory};
use base_pipeline::base_shop;
use depot_pipeline::{Feed, Moments, depot_line, depot_shop};
use family_numbers::numbers::Numbers;
use family_numbers::pair_tables::{depot_shop_table, feed_from};
use moment_table::table_to;
use spares_input::{SiteId, Stocks};
use std::alloc::Global;

/// The feed of a shop unit to a site at its stock at the depot, by its kept table if there is one.
fn feed_at<const F: u32>(
    alloc: Global,
    numbers: &Numbers<F>,
    kept: &[Kept<F>],
    shop: usize,
    site: u8,
    stock: u8,
) -> Result<Feed<F>, NoMemory>
    requires kept { All (IsKept F numbers.now) kept.now }
    requires shop { shop < length numbers.now.parts - 1 }
    requires site { site < numbers.now.sites }
    requires stock { stock ≤ most_stock }
    ensures { IfOk result (λ x. x ≡ feed_from F (pair_at numbers.now (shop + 1) site).share
        (depot_shop_row F numbers.now shop stock)) }
{
    numbers.invariant();
    let share = numbers.pair(shop + 1, site).share;
    match kept_at(numbers, kept, shop + 1, SiteId(0), &[]) {
        Some(depot) => Ok(feed_from(share, &depot.table, stock)),
        None => {
            let mut weights = Vec::new(alloc);
            let table = depot_shop_table(alloc, &mut weights, numbers.pair(shop + 1, 0))?;
            Ok(feed_from(share, &table, stock))
        }
    }
}

/// The feeds of the shop units to their line unit at the depot, at their stocks there.
fn feeds_at<const F: u32>(
    alloc: Global,
    numbers: &Numbers<F>,
    kept: &[Kept<F>],
    depot: &[u8],
) -> Result<Vec<Feed<F>>, NoMemory>
    requires kept { All (IsKept F numbers.now) kept.now }
    requires count { length depot.now ≡ length numbers.now.parts - 1 }
    requires stocks { All (λ n. n ≤ most_stock) depot.now }
    ensures { IfOk result (λ v. v.items ≡ depot_feeds F numbers.now depot.now) }
{
    numbers.invariant();
    let mut feeds = Vec::new(alloc);
    for i in 0..numbers.shops() {
        let feed = feed_at(alloc, numbers, kept, i, 0, depot[i])?;
        feeds.push(feed)?;
    }
    Ok(feeds)
}

/// The pipeline of a key.
fn pipeline_of<const F: u32>(
    alloc: Global,
    numbers: &Numbers<F>,
    kept: &[Kept<F>],
    key: &Key,
) -> Result<Moments<F>, NoMemory>
    requires kept { All (IsKept F numbers.now) kept.now }
    requires key { IsKey numbers.now key.now }
    ensures { IfOk result (λ m. m ≡ key_moments F numbers.now key.now) }
{
    numbers.invariant();
    let pair = numbers.pair(key.place, key.site.0);
    if key.place == 0 {
        let feeds = feeds_at(alloc, numbers, kept, key.stocks.as_slice())?;
        Ok(depot_line(pair.direct, pair.cap, feeds.as_slice()))
    } else if key.site.0 == 0 {
        Ok(depot_shop(pair.direct, pair.cap))
    } else {
        let stock = key.stocks.as_slice()[0];
        let feed = feed_at(alloc, numbers, kept, key.place - 1, key.site.0, stock)?;
        Ok(base_shop(pair.direct, pair.cap, feed))
    }
}

/// The pipeline of a key with its table.
fn made<const F: u32>(
    alloc: Global,
    numbers: &Numbers<F>,
    kept: &[Kept<F>],
    key: Key,
) -> Result<Kept<F>, NoMemory>
    requires kept { All (IsKept F numbers.now) kept.now }
    requires key { IsKey numbers.now key }
    ensures key { IfOk result (λ y. y.key ≡ key) }
    ensures kept { IfOk result (IsKept F numbers.now) }
{
    numbers.invariant();
    let pair = numbers.pair(key.place, key.site.0);
    let moments = pipeline_of(alloc, numbers, kept, &key)?;
    let mut weights = Vec::new(alloc);
    let table = table_to(
        alloc,
        &mut weights,
        moments.mean,
        moments.variance,
        pair.limit,
    )?;
    Ok(Kept {
        key,
        moments,
        table,
    })
}

/// Makes and keeps the table of a key, if it isn't kept yet. After `NoMemory` the kept tables are as before.
fn keep<const F: u32>(
    alloc: Global,
    numbers: &Numbers<F>,
    kept: &mut Vec<Kept<F>>,
    key: Key,
) -> Result<(), NoMemory>
    requires kept { All (IsKept F numbers.now) kept.old.items }
    requires key { IsKey numbers.now key }
    ensures kept { All (IsKept F numbers.now) kept.new.items }
    ensures ok { OnOk result (map (λ x. x.key) kept.new.items ≡ with_key (map (λ x. x.key) kept.old.items) key) }
    ensures err { OnErr result (kept.new.items ≡ kept.old.items) }
{
    let stocks = key.stocks.as_slice();
    let found = kept_at(numbers, kept.as_slice(), key.place, key.site, stocks).is_some();
    if found {
        return Ok(());
    }
    let more = made(alloc, numbers, kept.as_slice(), key)?;
    kept.push(more)?;
    Ok(())
}

/// A copy of a key.
fn copied(alloc: Global, key: &Key) -> Result<Key, NoMemory>
    ensures { IfOk result (λ copy. copy ≡ key.now) }
{
    let mut stocks = Vec::new(alloc);
    stocks.extend_from_slice(key.stocks.as_slice())?;
    Ok(Key {
        place: key.place,
        site: key.site,
        stocks: List::of(stocks),
    })
}

/// Keeps the tables of these keys: makes those that aren't kept yet, in order. After `NoMemory` only some of them may
/// have been added, and none is removed.
pub(crate) fn keep_each<const F: u32>(
    alloc: Global,
    numbers: &Numbers<F>,
    kept: &mut Vec<Kept<F>>,
    keys: &[Key],
) -> Result<(), NoMemory>
    requires kept { All (IsKept F numbers.now) kept.old.items }
    requires keys { All (IsKey numbers.now) keys.now }
    ensures kept { All (IsKept F numbers.now) kept.new.items }
    ensures grows { Grows keys.now (map (λ x. x.key) kept.old.items) (map (λ x. x.key) kept.new.items) }
    ensures keys { OnOk result
        (map (λ x. x.key) kept.new.items ≡ with_keys (map (λ x. x.key) kept.old.items) keys.now) }
{
    for n in 0..keys.len() {
        let key = copied(alloc, &keys[n])?;
        keep(alloc, numbers, kept, key)?;
    }
    Ok(())
}

/// The stocks of the shop units at the depot, among the stocks of a case.
pub(crate) fn depot_stocks<const F: u32>(
    alloc: Global,
    numbers: &Numbers<F>,
    stocks: &Stocks,
) -> Result<Vec<u8>, NoMemory>
    requires { (i : ℕ) → i < length numbers.now.parts → HasPair stocks.now (get_or numbers.now.parts i 0) 0 }
    ensures { IfOk result (λ v. v.items ≡ depot_stocks numbers.now stocks.now) }
{
    numbers.invariant();
    let mut depot = Vec::new(alloc);
    for i in 0..numbers.shops() {
        depot.push(stocks.get(numbers.part(i + 1), SiteId(0)))?;
    }
    Ok(depot)
}

/// A key.
fn key_at(alloc: Global, place: usize, site: u8, stocks: &[u8]) -> Result<Key, NoMemory>
    ensures { IfOk result (λ key. key ≡ key_at place site stocks.now) }
{
    let mut list = Vec::new(alloc);
    list.extend_from_slice(stocks)?;
    Ok(Key {
        place,
        site: SiteId(site),
        stocks: List::of(list),
    })
}

/// The key of a shop unit at a site, with the stocks `depot` of the shop units at the depot.
fn shop_key(alloc: Global, shop: usize, site: u8, depot: &[u8]) -> Result<Key, NoMemory>
    requires { shop < length depot.now }
    ensures { IfOk result (λ key. key ≡ shop_key depot.now shop site) }
{
    if site == 0 {
        key_at(alloc, shop + 1, site, &[])
    } else {
        key_at(alloc, shop + 1, site, &[depot[shop]])
    }
}

/// Its keys at the sites.
fn shop_keys(alloc: Global, shop: usize, sites: u8, depot: &[u8]) -> Result<Vec<Key>, NoMemory>
    requires { shop < length depot.now }
    ensures { IfOk result (λ v. v.items ≡ map (shop_key depot.now shop) (range_with_len 0 sites)) }
{
    let mut keys = Vec::new(alloc);
    for k in 0..sites {
        let key = shop_key(alloc, shop, k, depot)?;
        keys.push(key)?;
    }
    Ok(keys)
}

/// The keys that belong to these stocks of the shop units at the depot.
pub(crate) fn keys_of<const F: u32>(
    alloc: Global,
    numbers: &Numbers<F>,
    depot: &[u8],
) -> Result<Vec<Key>, NoMemory>
    requires { length depot.now ≡ length numbers.now.parts - 1 }
    ensures { IfOk result (λ v. v.items ≡ keys_of numbers.now depot.now) }
{
    let mut keys = Vec::new(alloc);
    for i in 0..numbers.shops() {
        let mut more = shop_keys(alloc, i, numbers.sites(), depot)?;
        keys.append(&mut more)?;
    }
    let line = key_at(alloc, 0, 0, depot)?;
    keys.push(line)?;
    Ok(keys)
}
