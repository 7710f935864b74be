//! The items of a line unit, computed from its shop units' items, and its total.

ghost use Rattle.std.specs.Prelude.{◌≡◌, ◌+◌, ◌-◌, ◌<◌, ◌≤◌, IfOk, length, map, flat_map, get_or, All};
ghost use Rattle.fixed_interval.specs.Ends.{InScale, ends_exact, ends_times};
ghost use Rattle.spares_input.specs.Limits.{most_sites, most_shop_units};
ghost use Rattle.depot_pipeline.specs.Profile.{added};
ghost use Rattle.fleet_model.specs.Rows.{shop_units};
ghost use Rattle.family_items.specs.Profile.{base_line, depot_line, feed_of, delay_of, item_of, part_items, share_of};
ghost use Rattle.family_items.specs.Encloses.{IsSmallItem, no_item};
ghost use Rattle.family_items.specs.Inputs.{IsLine};

use crate::levels::{base_line_item, delay_of, depot_line_item, feed_of};
use answers::NoMemory;
use base_pipeline::Held;
use depot_pipeline::Feed;
use family_items::Item;
use family_items::inputs::Inputs;
use fixed_interval::Iv;
use spares_input::{PartId, SiteId};
use std::alloc::Global;

/// The feeds of shop units to their line unit at the depot. Their items are by unit and then by site.
fn depot_feeds<const F: u32>(
    alloc: Global,
    inputs: &Inputs<'_>,
    shops: &[PartId],
    items: &[Item<F>],
) -> Result<Vec<Feed<F>>, NoMemory>
    requires scale { InScale F }
    requires few { length shops.now ≤ most_shop_units }
    requires shops { All (λ p. p.0 < length inputs.now.case.parts) shops.now }
    requires items { items.now ≡ flat_map (λ p. part_items F inputs.now.case inputs.now.stocks.list p.0) shops.now }
    ensures { IfOk result (λ v. v.items ≡ map
        (λ p. feed_of F (share_of F inputs.now.case p.0 0) (item_of F inputs.now.case inputs.now.stocks.list p.0 0))
        shops.now) }
{
    let sites = usize::from(inputs.sites());
    let mut feeds = Vec::with_capacity(alloc, shops.len())?;
    for i in 0..shops.len() {
        let share = inputs.share(shops[i], SiteId(0));
        feeds.push(feed_of(share, &items[i * sites]))?;
    }
    Ok(feeds)
}

/// The backorders of shop units at a base. Their items are by unit and then by site.
fn delays_at<const F: u32>(
    alloc: Global,
    inputs: &Inputs<'_>,
    site: SiteId,
    shops: &[PartId],
    items: &[Item<F>],
) -> Result<Vec<Held<F>>, NoMemory>
    requires scale { InScale F }
    requires site { site.0 < length inputs.now.case.sites }
    requires few { length shops.now ≤ most_shop_units }
    requires items { items.now ≡ flat_map (λ p. part_items F inputs.now.case inputs.now.stocks.list p.0) shops.now }
    ensures { IfOk result (λ v. v.items ≡ map
        (λ p. delay_of F (item_of F inputs.now.case inputs.now.stocks.list p.0 site.0)) shops.now) }
{
    let sites = usize::from(inputs.sites());
    let mut delays = Vec::with_capacity(alloc, shops.len())?;
    for i in 0..shops.len() {
        delays.push(delay_of(&items[i * sites + usize::from(site.0)]))?;
    }
    Ok(delays)
}

/// A line unit at the depot, from the items of its shop units.
pub(crate) fn depot_line_at<const F: u32>(
    alloc: Global,
    inputs: &Inputs<'_>,
    line: PartId,
    shops: &[PartId],
    items: &[Item<F>],
) -> Result<Item<F>, NoMemory>
    requires scale { InScale F }
    requires line { IsLine inputs.now.case line.0 }
    requires shops { map (λ p. p.0) shops.now ≡ shop_units inputs.now.case line.0 }
    requires items { items.now ≡ flat_map (λ p. part_items F inputs.now.case inputs.now.stocks.list p.0) shops.now }
    ensures { IfOk result (λ x. x ≡ depot_line F inputs.now.case inputs.now.stocks.list line.0) }
{
    inputs.invariant();
    let feeds = depot_feeds(alloc, inputs, shops, items)?;
    depot_line_item(alloc, inputs.pipeline(line, SiteId(0)), feeds.as_slice())
}

/// A line unit at a base, from its item at the depot and the items of its shop units.
fn base_line_at<const F: u32>(
    alloc: Global,
    inputs: &Inputs<'_>,
    line: PartId,
    site: SiteId,
    depot: &Item<F>,
    shops: &[PartId],
    items: &[Item<F>],
) -> Result<Item<F>, NoMemory>
    requires scale { InScale F }
    requires line { IsLine inputs.now.case line.0 }
    requires base { 0 < site.0 }
    requires site { site.0 < length inputs.now.case.sites }
    requires depot { depot.now ≡ depot_line F inputs.now.case inputs.now.stocks.list line.0 }
    requires shops { map (λ p. p.0) shops.now ≡ shop_units inputs.now.case line.0 }
    requires items { items.now ≡ flat_map (λ p. part_items F inputs.now.case inputs.now.stocks.list p.0) shops.now }
    ensures { IfOk result (λ x. x ≡ base_line F inputs.now.case inputs.now.stocks.list line.0 site.0) }
{
    inputs.invariant();
    let delays = delays_at(alloc, inputs, site, shops, items)?;
    let feed = feed_of(inputs.share(line, site), depot);
    base_line_item(alloc, inputs.pipeline(line, site), feed, delays.as_slice())
}

/// The items of a line unit, by site, from its item at the depot and its shop units' items.
pub(crate) fn line_items<const F: u32>(
    alloc: Global,
    inputs: &Inputs<'_>,
    line: PartId,
    depot: Item<F>,
    shops: &[PartId],
    items: &[Item<F>],
) -> Result<Vec<Item<F>>, NoMemory>
    requires scale { InScale F }
    requires line { IsLine inputs.now.case line.0 }
    requires depot { depot ≡ depot_line F inputs.now.case inputs.now.stocks.list line.0 }
    requires shops { map (λ p. p.0) shops.now ≡ shop_units inputs.now.case line.0 }
    requires items { items.now ≡ flat_map (λ p. part_items F inputs.now.case inputs.now.stocks.list p.0) shops.now }
    ensures { IfOk result (λ v. v.items ≡ part_items F inputs.now.case inputs.now.stocks.list line.0) }
{
    let mut row = Vec::with_capacity(alloc, usize::from(inputs.sites()))?;
    row.push(depot)?;
    for j in 1..inputs.sites() {
        let item = base_line_at(alloc, inputs, line, SiteId(j), &depot, shops, items)?;
        row.push(item)?;
    }
    Ok(row)
}

/// The sum over the bases of the weight times the backorders, from a line unit's items by site.
pub(crate) fn total_of<const F: u32>(items: &[Item<F>], weight: u32) -> Iv<F>
    requires scale { InScale F }
    requires weight { weight ≤ 100 }
    requires some { 0 < length items.now }
    requires few { length items.now ≤ most_sites }
    requires small { All (IsSmallItem F) items.now }
    ensures { result ≡ added (ends_exact F 0) (λ j. ends_times (get_or items.now (j + 1) (no_item F)).backorders weight)
        (length items.now - 1) }
{
    let mut total = Iv::exact(0);
    for j in 1..items.len() {
        total = total.add(items[j].backorders.times(weight));
    }
    total
}
