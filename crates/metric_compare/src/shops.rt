//! The backorders of shop units.

ghost use Rattle.std.specs.Prelude.{◌≡◌, ◌<◌, IfOk, length};
ghost use Rattle.fixed_interval.specs.Ends.{IsWithinLimit};
ghost use Rattle.fleet_model.specs.Laws.{IsBase};
ghost use Rattle.family_items.specs.Inputs.{IsLine, IsShopUnit};
ghost use Rattle.metric_compare.specs.Levels.{by_site, of_shop, shop_numbers};
ghost use Rattle.metric_compare.specs.Profile.{poisson_base_shop, poisson_depot_shop, poisson_of};

use crate::levels::{backorders_at, fed};
use answers::NoMemory;
use base_pipeline::base_shop;
use depot_pipeline::depot_shop;
use family_items::inputs::Inputs;
use fixed_interval::Iv;
use spares_input::{PartId, SiteId, pair_place};
use std::alloc::Global;

/// The backorders of a shop unit at the depot. As at every level, the variance is the mean.
fn depot_shop_at(alloc: Global, inputs: &Inputs<'_>, part: PartId) -> Result<Iv<48>, NoMemory>
    requires part { part.0 < length inputs.now.case.parts }
    ensures ends { IfOk result (λ x. x ≡ poisson_depot_shop 48 inputs.now.case inputs.now.stocks.list part.0) }
    ensures small { IfOk result (IsWithinLimit 48) }
{
    inputs.invariant();
    let pipe = inputs.pipeline(part, SiteId(0));
    let depot = depot_shop(pipe.direct, pipe.cap);
    backorders_at(alloc, depot.mean, depot.mean, pipe.stock)
}

/// The backorders of a shop unit at a base, from its backorders at the depot.
fn base_shop_at(
    alloc: Global,
    inputs: &Inputs<'_>,
    part: PartId,
    site: SiteId,
    depot: Iv<48>,
) -> Result<Iv<48>, NoMemory>
    requires part { part.0 < length inputs.now.case.parts }
    requires site { site.0 < length inputs.now.case.sites }
    requires depot { depot ≡ poisson_depot_shop 48 inputs.now.case inputs.now.stocks.list part.0 }
    requires small { IsWithinLimit 48 depot }
    ensures ends { IfOk result (λ x. x ≡ poisson_base_shop 48 inputs.now.case inputs.now.stocks.list part.0 site.0) }
    ensures small { IfOk result (IsWithinLimit 48) }
{
    let pipe = inputs.pipeline(part, site);
    let feed = fed(inputs.share(part, site), depot);
    let base = base_shop(pipe.direct, pipe.cap, feed);
    backorders_at(alloc, base.mean, base.mean, pipe.stock)
}

/// The backorders of a shop unit, by site.
fn shop_row(alloc: Global, inputs: &Inputs<'_>, part: PartId) -> Result<Vec<Iv<48>>, NoMemory>
    requires { IsShopUnit inputs.now.case part.0 }
    ensures { IfOk result (λ v. v.items
        ≡ by_site inputs.now.case (of_shop inputs.now.case inputs.now.stocks.list part.0)) }
{
    let depot = depot_shop_at(alloc, inputs, part)?;
    let mut row = Vec::new(alloc);
    row.push(depot)?;
    for j in 1..inputs.sites() {
        let base = base_shop_at(alloc, inputs, part, SiteId(j), depot)?;
        row.push(base)?;
    }
    Ok(row)
}

/// The entries of a line unit among the shop units: 0 at each site.
fn nothing_row(alloc: Global, inputs: &Inputs<'_>, line: PartId) -> Result<Vec<Iv<48>>, NoMemory>
    requires { IsLine inputs.now.case line.0 }
    ensures { IfOk result (λ v. v.items
        ≡ by_site inputs.now.case (of_shop inputs.now.case inputs.now.stocks.list line.0)) }
{
    let row = vec![in alloc; Iv::exact(0); usize::from(inputs.sites())]?;
    Ok(row)
}

/// The backorders of all shop units, by part and then by site, with zeros at line units.
pub(crate) fn shop_numbers(alloc: Global, inputs: &Inputs<'_>) -> Result<Vec<Iv<48>>, NoMemory>
    ensures { IfOk result (λ v. v.items ≡ shop_numbers inputs.now.case inputs.now.stocks.list) }
{
    inputs.invariant();
    let mut all = Vec::new(alloc);
    for p in 0..inputs.case().part_count() {
        let part = PartId(p);
        let mut row = if inputs.case().is_line(part) {
            nothing_row(alloc, inputs, part)?
        } else {
            shop_row(alloc, inputs, part)?
        };
        all.append(&mut row)?;
    }
    Ok(all)
}

/// The backorders of a part at a site, looked up in the numbers of all shop units.
fn number_at(inputs: &Inputs<'_>, shops: &[Iv<48>], part: PartId, site: SiteId) -> Iv<48>
    requires part { part.0 < length inputs.now.case.parts }
    requires site { site.0 < length inputs.now.case.sites }
    requires shops { shops.now ≡ shop_numbers inputs.now.case inputs.now.stocks.list }
    ensures ends { result ≡ of_shop inputs.now.case inputs.now.stocks.list part.0 site.0 }
    ensures small { IsWithinLimit 48 result }
{
    let sites = usize::from(inputs.sites());
    let parts = usize::from(inputs.case().part_count());
    shops[pair_place(part, site, sites, parts)]
}

/// The backorders of a shop unit at the depot, looked up in the numbers of all shop units.
pub(crate) fn at_depot(inputs: &Inputs<'_>, shops: &[Iv<48>], unit: PartId) -> Iv<48>
    requires unit { IsShopUnit inputs.now.case unit.0 }
    requires shops { shops.now ≡ shop_numbers inputs.now.case inputs.now.stocks.list }
    ensures ends { result ≡ poisson_depot_shop 48 inputs.now.case inputs.now.stocks.list unit.0 }
    ensures small { IsWithinLimit 48 result }
{
    inputs.invariant();
    number_at(inputs, shops, unit, SiteId(0))
}

/// The backorders of a shop unit at a base, looked up in the numbers of all shop units.
pub(crate) fn at_base(inputs: &Inputs<'_>, shops: &[Iv<48>], unit: PartId, base: SiteId) -> Iv<48>
    requires unit { IsShopUnit inputs.now.case unit.0 }
    requires base { IsBase inputs.now.case base.0 }
    requires shops { shops.now ≡ shop_numbers inputs.now.case inputs.now.stocks.list }
    ensures ends { result ≡ poisson_base_shop 48 inputs.now.case inputs.now.stocks.list unit.0 base.0 }
    ensures small { IsWithinLimit 48 result }
{
    number_at(inputs, shops, unit, base)
}

/// The backorders of a shop unit by site, looked up in the numbers of all shop units.
pub(crate) fn row_of(
    alloc: Global,
    inputs: &Inputs<'_>,
    unit: PartId,
    shops: &[Iv<48>],
) -> Result<Vec<Iv<48>>, NoMemory>
    requires unit { IsShopUnit inputs.now.case unit.0 }
    requires shops { shops.now ≡ shop_numbers inputs.now.case inputs.now.stocks.list }
    ensures { IfOk result (λ v. v.items
        ≡ by_site inputs.now.case (poisson_of 48 inputs.now.case inputs.now.stocks.list unit.0)) }
{
    let mut row = Vec::new(alloc);
    for k in 0..inputs.sites() {
        row.push(number_at(inputs, shops, unit, SiteId(k)))?;
    }
    Ok(row)
}
