//! The backorders of line units, from the backorders of their shop units.

ghost use Rattle.std.specs.Prelude.{◌≡◌, ◌<◌, ◌≤◌, IfOk, length, map, All};
ghost use Rattle.fixed_interval.specs.Ends.{IsWithinLimit};
ghost use Rattle.spares_input.specs.Limits.{most_shop_units};
ghost use Rattle.depot_pipeline.specs.Exact.{IsSmallFeed};
ghost use Rattle.base_pipeline.specs.Exact.{IsSmallDelay};
ghost use Rattle.fleet_model.specs.Rows.{shop_units};
ghost use Rattle.fleet_model.specs.Laws.{IsBase};
ghost use Rattle.family_items.specs.Inputs.{IsLine, IsShopUnit};
ghost use Rattle.metric_compare.specs.Levels.{by_site, shop_numbers};
ghost use Rattle.metric_compare.specs.Profile.{poisson_base_line, poisson_base_shop, poisson_depot_feed, poisson_depot_line, delay, poisson_of};

use crate::levels::{backorders_at, fed};
use crate::shops::{at_base, at_depot};
use answers::NoMemory;
use base_pipeline::{Held, base_line};
use depot_pipeline::{Feed, depot_line};
use family_items::inputs::Inputs;
use fixed_interval::Iv;
use spares_input::{PartId, SiteId};
use std::alloc::Global;

/// The feeds of shop units to their line unit at the depot.
fn depot_feeds(
    alloc: Global,
    inputs: &Inputs<'_>,
    units: &[PartId],
    shops: &[Iv<48>],
) -> Result<Vec<Feed<48>>, NoMemory>
    requires units { All (λ p. IsShopUnit inputs.now.case p.0) units.now }
    requires shops { shops.now ≡ shop_numbers inputs.now.case inputs.now.stocks.list }
    ensures feeds { IfOk result (λ v. v.items
        ≡ map (λ p. poisson_depot_feed 48 inputs.now.case inputs.now.stocks.list p.0) units.now) }
    ensures small { IfOk result (λ v. All (IsSmallFeed 48) v.items) }
{
    inputs.invariant();
    let mut feeds = Vec::new(alloc);
    for unit in units {
        let depot = at_depot(inputs, shops, *unit);
        feeds.push(fed(inputs.share(*unit, SiteId(0)), depot))?;
    }
    Ok(feeds)
}

/// The backorders of shop units that hold back their line unit at a base.
fn delays_at(
    alloc: Global,
    inputs: &Inputs<'_>,
    base: SiteId,
    units: &[PartId],
    shops: &[Iv<48>],
) -> Result<Vec<Held<48>>, NoMemory>
    requires base { IsBase inputs.now.case base.0 }
    requires units { All (λ p. IsShopUnit inputs.now.case p.0) units.now }
    requires shops { shops.now ≡ shop_numbers inputs.now.case inputs.now.stocks.list }
    ensures delay { IfOk result (λ v. v.items
        ≡ map (λ p. delay 48 (poisson_base_shop 48 inputs.now.case inputs.now.stocks.list p.0 base.0)) units.now) }
    ensures small { IfOk result (λ v. All (IsSmallDelay 48) v.items) }
{
    let mut all = Vec::new(alloc);
    for unit in units {
        let backorders = at_base(inputs, shops, *unit, base);
        all.push(Held {
            backorders,
            spread: backorders,
        })?;
    }
    Ok(all)
}

/// The backorders of a line unit at the depot, from its shop units' feeds.
fn depot_line_at(
    alloc: Global,
    inputs: &Inputs<'_>,
    line: PartId,
    feeds: &[Feed<48>],
) -> Result<Iv<48>, NoMemory>
    requires line { line.0 < length inputs.now.case.parts }
    requires few { length feeds.now ≤ most_shop_units }
    requires small { All (IsSmallFeed 48) feeds.now }
    requires feeds { feeds.now
        ≡ map (poisson_depot_feed 48 inputs.now.case inputs.now.stocks.list) (shop_units inputs.now.case line.0) }
    ensures ends { IfOk result (λ x. x ≡ poisson_depot_line 48 inputs.now.case inputs.now.stocks.list line.0) }
    ensures small { IfOk result (IsWithinLimit 48) }
{
    inputs.invariant();
    let pipe = inputs.pipeline(line, SiteId(0));
    let depot = depot_line(pipe.direct, pipe.cap, feeds);
    backorders_at(alloc, depot.mean, depot.mean, pipe.stock)
}

/// The backorders of a line unit at a base, from its backorders at the depot and its shop units' backorders at the
/// base.
fn base_line_at(
    alloc: Global,
    inputs: &Inputs<'_>,
    line: PartId,
    site: SiteId,
    depot: Iv<48>,
    delays: &[Held<48>],
) -> Result<Iv<48>, NoMemory>
    requires line { line.0 < length inputs.now.case.parts }
    requires site { site.0 < length inputs.now.case.sites }
    requires depot { depot ≡ poisson_depot_line 48 inputs.now.case inputs.now.stocks.list line.0 }
    requires small { IsWithinLimit 48 depot }
    requires few { length delays.now ≤ most_shop_units }
    requires most { All (IsSmallDelay 48) delays.now }
    requires delay { delays.now
        ≡ map (λ i. delay 48 (poisson_base_shop 48 inputs.now.case inputs.now.stocks.list i site.0))
        (shop_units inputs.now.case line.0) }
    ensures ends { IfOk result (λ x. x ≡ poisson_base_line 48 inputs.now.case inputs.now.stocks.list line.0 site.0) }
    ensures small { IfOk result (IsWithinLimit 48) }
{
    let pipe = inputs.pipeline(line, site);
    let feed = fed(inputs.share(line, site), depot);
    let base = base_line(pipe.direct, pipe.cap, feed, delays);
    backorders_at(alloc, base.mean, base.mean, pipe.stock)
}

/// The backorders of a line unit at the depot, from its shop units and the backorders of all shop units.
fn line_at_depot(
    alloc: Global,
    inputs: &Inputs<'_>,
    line: PartId,
    units: &[PartId],
    shops: &[Iv<48>],
) -> Result<Iv<48>, NoMemory>
    requires line { IsLine inputs.now.case line.0 }
    requires units { map (λ p. p.0) units.now ≡ shop_units inputs.now.case line.0 }
    requires shops { shops.now ≡ shop_numbers inputs.now.case inputs.now.stocks.list }
    ensures ends { IfOk result (λ x. x ≡ poisson_depot_line 48 inputs.now.case inputs.now.stocks.list line.0) }
    ensures small { IfOk result (IsWithinLimit 48) }
{
    inputs.invariant();
    let feeds = depot_feeds(alloc, inputs, units, shops)?;
    depot_line_at(alloc, inputs, line, feeds.as_slice())
}

/// The backorders of a line unit at a base, from its backorders at the depot, its shop units and the backorders of all
/// shop units.
fn line_at_base(
    alloc: Global,
    inputs: &Inputs<'_>,
    line: PartId,
    base: SiteId,
    depot: Iv<48>,
    units: &[PartId],
    shops: &[Iv<48>],
) -> Result<Iv<48>, NoMemory>
    requires line { IsLine inputs.now.case line.0 }
    requires base { IsBase inputs.now.case base.0 }
    requires depot { depot ≡ poisson_depot_line 48 inputs.now.case inputs.now.stocks.list line.0 }
    requires small { IsWithinLimit 48 depot }
    requires units { map (λ p. p.0) units.now ≡ shop_units inputs.now.case line.0 }
    requires shops { shops.now ≡ shop_numbers inputs.now.case inputs.now.stocks.list }
    ensures ends { IfOk result (λ x. x ≡ poisson_base_line 48 inputs.now.case inputs.now.stocks.list line.0 base.0) }
    ensures small { IfOk result (IsWithinLimit 48) }
{
    inputs.invariant();
    let delay = delays_at(alloc, inputs, base, units, shops)?;
    base_line_at(alloc, inputs, line, base, depot, delay.as_slice())
}

/// The backorders of a line unit by site, from its shop units and the backorders of all shop units.
fn row_with(
    alloc: Global,
    inputs: &Inputs<'_>,
    line: PartId,
    units: &[PartId],
    shops: &[Iv<48>],
) -> Result<Vec<Iv<48>>, NoMemory>
    requires line { IsLine inputs.now.case line.0 }
    requires units { map (λ p. p.0) units.now ≡ shop_units inputs.now.case line.0 }
    requires shops { shops.now ≡ shop_numbers inputs.now.case inputs.now.stocks.list }
    ensures { IfOk result (λ v. v.items
        ≡ by_site inputs.now.case (poisson_of 48 inputs.now.case inputs.now.stocks.list line.0)) }
{
    inputs.invariant();
    let depot = line_at_depot(alloc, inputs, line, units, shops)?;
    let mut row = Vec::new(alloc);
    row.push(depot)?;
    for j in 1..inputs.sites() {
        let base = SiteId(j);
        row.push(line_at_base(alloc, inputs, line, base, depot, units, shops)?)?;
    }
    Ok(row)
}

/// The backorders of a line unit by site, from the backorders of all shop units.
pub(crate) fn line_row(
    alloc: Global,
    inputs: &Inputs<'_>,
    line: PartId,
    shops: &[Iv<48>],
) -> Result<Vec<Iv<48>>, NoMemory>
    requires line { IsLine inputs.now.case line.0 }
    requires shops { shops.now ≡ shop_numbers inputs.now.case inputs.now.stocks.list }
    ensures { IfOk result (λ v. v.items
        ≡ by_site inputs.now.case (poisson_of 48 inputs.now.case inputs.now.stocks.list line.0)) }
{
    row_with(alloc, inputs, line, inputs.shop_units(line), shops)
}
