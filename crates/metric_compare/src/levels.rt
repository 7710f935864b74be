//! The backorders of a pipeline, and their feed to another pipeline.

ghost use Rattle.std.specs.Prelude.{◌≡◌, ◌≤◌, IfOk};
ghost use Rattle.fixed_interval.specs.Ends.{IsWithinLimit};
ghost use Rattle.spares_input.specs.Limits.{most_stock};
ghost use Rattle.moment_table.specs.Inputs.{CanTable};
ghost use Rattle.metric_compare.specs.Profile.{backorders_at, fed};

use answers::NoMemory;
use depot_pipeline::Feed;
use fixed_interval::Iv;
use moment_table::row_at;
use std::alloc::Global;

/// The backorders of a pipeline with this mean and this variance, at a stock.
pub(crate) fn backorders_at(
    alloc: Global,
    mean: Iv<48>,
    variance: Iv<48>,
    stock: u8,
) -> Result<Iv<48>, NoMemory>
    requires table { CanTable 48 mean variance }
    requires stock { stock ≤ most_stock }
    ensures ends { IfOk result (λ x. x ≡ backorders_at 48 mean variance stock) }
    ensures small { IfOk result (IsWithinLimit 48) }
{
    let row = row_at(alloc, mean, variance, stock)?;
    Ok(row.ebo)
}

/// The feed of these backorders to another pair, by that pair's share.
pub(crate) fn fed(share: Iv<48>, backorders: Iv<48>) -> Feed<48>
    ensures { result ≡ fed 48 share backorders }
{
    Feed {
        share,
        backorders,
        spread: backorders,
    }
}
