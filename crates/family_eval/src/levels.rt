//! A pair's item, from the pairs that feed its pipeline.

ghost use Rattle.std.specs.Prelude.{◌≡◌, ◌*◌, ◌^◌, ◌<◌, ◌≤◌, IfOk, length, All};
ghost use Rattle.spares_input.specs.Limits.{most_shop_units, most_stock};
ghost use Rattle.moment_table.specs.Inputs.{CanTable};
ghost use Rattle.depot_pipeline.specs.Exact.{IsSmallFeed};
ghost use Rattle.depot_pipeline.specs.Profile.{depot_shop_ends, depot_line_ends};
ghost use Rattle.base_pipeline.specs.Exact.{IsSmallDelay};
ghost use Rattle.base_pipeline.specs.Profile.{base_shop_ends, base_line_ends};
ghost use Rattle.family_items.specs.Profile.{stocked, feed_of, delay_of};
ghost use Rattle.family_items.specs.Inputs.{IsPipeline};

use answers::NoMemory;
use base_pipeline::{Held, base_line, base_shop};
use depot_pipeline::{Feed, Moments, depot_line, depot_shop};
use family_items::Item;
use family_items::pipeline::Pipeline;
use fixed_interval::Iv;
use moment_table::row_at;
use std::alloc::Global;

/// The pipeline of a pair with its backorders at the pair's stock.
fn stocked<const F: u32>(
    alloc: Global,
    pair: Pipeline<F>,
    moments: Moments<F>,
) -> Result<Item<F>, NoMemory>
    requires table { CanTable F moments.mean moments.variance }
    requires stock { pair.stock ≤ most_stock }
    ensures { IfOk result (λ x. x ≡ stocked F pair.entry moments.entry) }
{
    let row = row_at(alloc, moments.mean, moments.variance, pair.stock)?;
    Ok(Item {
        part: pair.part,
        site: pair.site,
        stock: pair.stock,
        mean: moments.mean,
        variance: moments.variance,
        backorders: row.ebo,
        spread: row.vbo,
    })
}

/// The feed of an item to another pair, by that pair's share.
pub(crate) fn feed_of<const F: u32>(share: Iv<F>, item: &Item<F>) -> Feed<F>
    ensures { result ≡ feed_of F share.entry item.now }
{
    Feed {
        share,
        backorders: item.backorders,
        spread: item.spread,
    }
}

/// The backorders of a shop unit at a base, for which its line unit's repairs there wait.
pub(crate) fn delay_of<const F: u32>(item: &Item<F>) -> Held<F>
    ensures { result ≡ delay_of F item.now }
{
    Held {
        backorders: item.backorders,
        spread: item.spread,
    }
}

/// A shop unit at the depot.
pub(crate) fn depot_shop_item<const F: u32>(
    alloc: Global,
    pair: Pipeline<F>,
) -> Result<Item<F>, NoMemory>
    requires { IsPipeline F pair }
    ensures { IfOk result (λ x. x ≡ stocked F pair.entry (depot_shop_ends F pair.entry.direct pair.entry.cap)) }
{
    stocked(alloc, pair, depot_shop(pair.direct, pair.cap))
}

/// A line unit at the depot, fed by its shop units there.
pub(crate) fn depot_line_item<const F: u32>(
    alloc: Global,
    pair: Pipeline<F>,
    feeds: &[Feed<F>],
) -> Result<Item<F>, NoMemory>
    requires pair { IsPipeline F pair }
    requires few { length feeds.now ≤ most_shop_units }
    requires small { All (IsSmallFeed F) feeds.now }
    ensures { IfOk result (λ x. x ≡ stocked F pair.entry
        (depot_line_ends F pair.entry.direct pair.entry.cap feeds.now)) }
{
    stocked(alloc, pair, depot_line(pair.direct, pair.cap, feeds))
}

/// A shop unit at a base, fed by the depot.
pub(crate) fn base_shop_item<const F: u32>(
    alloc: Global,
    pair: Pipeline<F>,
    depot: Feed<F>,
) -> Result<Item<F>, NoMemory>
    requires pair { IsPipeline F pair }
    requires small { IsSmallFeed F depot }
    ensures { IfOk result (λ x. x ≡ stocked F pair.entry
        (base_shop_ends F pair.entry.direct pair.entry.cap depot.entry)) }
{
    stocked(alloc, pair, base_shop(pair.direct, pair.cap, depot))
}

/// A line unit at a base, fed by the depot and the shop units at that base.
pub(crate) fn base_line_item<const F: u32>(
    alloc: Global,
    pair: Pipeline<F>,
    depot: Feed<F>,
    shops: &[Held<F>],
) -> Result<Item<F>, NoMemory>
    requires pair { IsPipeline F pair }
    requires small { IsSmallFeed F depot }
    requires few { length shops.now ≤ most_shop_units }
    requires delays { All (IsSmallDelay F) shops.now }
    ensures { IfOk result (λ x. x ≡ stocked F pair.entry
        (base_line_ends F pair.entry.direct pair.entry.cap depot.entry shops.now)) }
{
    stocked(alloc, pair, base_line(pair.direct, pair.cap, depot, shops))
}
