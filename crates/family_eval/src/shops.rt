//! The items of shop units.

ghost use Rattle.std.specs.Prelude.{◌≡◌, ◌<◌, IfOk, length, flat_map, All};
ghost use Rattle.fixed_interval.specs.Ends.{InScale};
ghost use Rattle.family_items.specs.Profile.{base_shop, depot_shop, part_items};
ghost use Rattle.family_items.specs.Inputs.{IsShopUnit};

use crate::levels::{base_shop_item, depot_shop_item, feed_of};
use answers::NoMemory;
use family_items::Item;
use family_items::inputs::Inputs;
use spares_input::{Case, PartId, SiteId};
use std::alloc::Global;

/// A shop unit at the depot.
fn depot_shop_at<const F: u32>(
    alloc: Global,
    inputs: &Inputs<'_>,
    part: PartId,
) -> Result<Item<F>, NoMemory>
    requires scale { InScale F }
    requires part { part.0 < length inputs.now.case.parts }
    ensures { IfOk result (λ x. x ≡ depot_shop F inputs.now.case inputs.now.stocks.list part.0) }
{
    inputs.invariant();
    depot_shop_item(alloc, inputs.pipeline(part, SiteId(0)))
}

/// A shop unit at a base, from its item at the depot.
fn base_shop_at<const F: u32>(
    alloc: Global,
    inputs: &Inputs<'_>,
    part: PartId,
    site: SiteId,
    depot: &Item<F>,
) -> Result<Item<F>, NoMemory>
    requires scale { InScale F }
    requires part { part.0 < length inputs.now.case.parts }
    requires site { site.0 < length inputs.now.case.sites }
    requires depot { depot.now ≡ depot_shop F inputs.now.case inputs.now.stocks.list part.0 }
    ensures { IfOk result (λ x. x ≡ base_shop F inputs.now.case inputs.now.stocks.list part.0 site.0) }
{
    inputs.invariant();
    let feed = feed_of(inputs.share(part, site), depot);
    base_shop_item(alloc, inputs.pipeline(part, site), feed)
}

/// The items of a shop unit, by site.
fn shop_items<const F: u32>(
    alloc: Global,
    inputs: &Inputs<'_>,
    part: PartId,
) -> Result<Vec<Item<F>>, NoMemory>
    requires scale { InScale F }
    requires shop { IsShopUnit inputs.now.case part.0 }
    ensures { IfOk result (λ v. v.items ≡ part_items F inputs.now.case inputs.now.stocks.list part.0) }
{
    let depot = depot_shop_at(alloc, inputs, part)?;
    let mut items = Vec::with_capacity(alloc, usize::from(inputs.sites()))?;
    items.push(depot)?;
    for j in 1..inputs.sites() {
        let item = base_shop_at(alloc, inputs, part, SiteId(j), &depot)?;
        items.push(item)?;
    }
    Ok(items)
}

/// The items of these shop units, each by site.
pub(crate) fn all_shop_items<const F: u32>(
    alloc: Global,
    inputs: &Inputs<'_>,
    shops: &[PartId],
) -> Result<Vec<Item<F>>, NoMemory>
    requires scale { InScale F }
    requires shops { All (λ p. IsShopUnit inputs.now.case p.0) shops.now }
    ensures { IfOk result (λ v. v.items ≡ flat_map
        (λ p. part_items F inputs.now.case inputs.now.stocks.list p.0) shops.now) }
{
    let sites = usize::from(inputs.sites());
    let mut items = Vec::with_capacity(alloc, shops.len().saturating_mul(sites))?;
    for part in shops {
        let mut row = shop_items(alloc, inputs, *part)?;
        items.append(&mut row)?;
    }
    Ok(items)
}
