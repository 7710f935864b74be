//! The tables of a pair from what feeds its pipeline. The weights of a table lie in a scratch list of the caller's,
//! whose contents are unspecified afterwards.

ghost use Rattle.std.specs.Prelude.{◌≡◌, ◌+◌, ◌*◌, ◌^◌, ◌<◌, ◌≤◌, IfOk, length, All};
ghost use Rattle.spares_input.specs.Limits.{most_shop_units, most_stock};
ghost use Rattle.moment_table.specs.Rows.{at_stock};
ghost use Rattle.depot_pipeline.specs.Exact.{IsSmallFeed};
ghost use Rattle.depot_pipeline.specs.Profile.{depot_shop_ends, depot_line_ends};
ghost use Rattle.base_pipeline.specs.Profile.{base_shop_ends};
ghost use Rattle.family_numbers.specs.Numbers.{ArePairNumbers, feed_from, table_of};

use crate::numbers::PairNumbers;
use answers::NoMemory;
use base_pipeline::base_shop;
use depot_pipeline::{Feed, depot_line, depot_shop};
use fixed_interval::Iv;
use moment_table::kinds::Table;
use moment_table::table_to;
use series_bounds::short::Iv64;
use std::alloc::Global;

/// The feed of a pair with this table to another pair at its stock, by a share.
pub fn feed_from<const F: u32>(share: Iv<F>, table: &Table<F>, stock: u8) -> Feed<F>
    requires { stock ≤ most_stock }
    ensures { result ≡ feed_from F share.entry (at_stock table.now.rows stock) }
{
    Feed {
        share,
        backorders: table.ebo(stock),
        spread: table.vbo(stock),
    }
}

/// The table of a shop unit at the depot, stored up to its limit there.
pub fn depot_shop_table<const F: u32>(
    alloc: Global,
    weights: &mut Vec<Iv64<F>>,
    pair: PairNumbers<F>,
) -> Result<Table<F>, NoMemory>
    requires { ArePairNumbers F pair }
    ensures { IfOk result (λ t. t ≡ table_of F (depot_shop_ends F pair.entry.direct pair.entry.cap) pair.entry.limit) }
{
    let moments = depot_shop(pair.direct, pair.cap);
    table_to(alloc, weights, moments.mean, moments.variance, pair.limit)
}

/// The table of a line unit at the depot, fed by its shop units there, stored up to its limit there.
pub fn depot_line_table<const F: u32>(
    alloc: Global,
    weights: &mut Vec<Iv64<F>>,
    pair: PairNumbers<F>,
    feeds: &[Feed<F>],
) -> Result<Table<F>, NoMemory>
    requires pair { ArePairNumbers F pair }
    requires few { length feeds.now ≤ most_shop_units }
    requires small { All (IsSmallFeed F) feeds.now }
    ensures { IfOk result (λ t. t ≡ table_of F
        (depot_line_ends F pair.entry.direct pair.entry.cap feeds.now) pair.entry.limit) }
{
    let moments = depot_line(pair.direct, pair.cap, feeds);
    table_to(alloc, weights, moments.mean, moments.variance, pair.limit)
}

/// The table of a shop unit at a base, fed by the depot, stored up to its limit there.
pub fn base_shop_table<const F: u32>(
    alloc: Global,
    weights: &mut Vec<Iv64<F>>,
    pair: PairNumbers<F>,
    depot: Feed<F>,
) -> Result<Table<F>, NoMemory>
    requires pair { ArePairNumbers F pair }
    requires small { IsSmallFeed F depot }
    ensures { IfOk result (λ t. t ≡ table_of F
        (base_shop_ends F pair.entry.direct pair.entry.cap depot.entry) pair.entry.limit) }
{
    let moments = base_shop(pair.direct, pair.cap, depot);
    table_to(alloc, weights, moments.mean, moments.variance, pair.limit)
}
