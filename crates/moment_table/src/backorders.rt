//! The backorders alone, at the stocks up to a limit.

ghost use Rattle.std.specs.Prelude.{◌≡◌, ◌+◌, ◌*◌, ◌^◌, ◌<◌, ◌≤◌, OnOk};
ghost use Rattle.series_bounds.specs.Profile.{listed};
ghost use Rattle.fixed_interval.specs.Ends.{IsWithinLimit};
ghost use Rattle.moment_table.specs.Inputs.{CanTable};
ghost use Rattle.moment_table.specs.Stored.{bare_row};
ghost use Rattle.moment_table.specs.Profile.{ebo_ends};
ghost use Rattle.moment_table.specs.Running.{AreFirst};
ghost use Rattle.moment_table.specs.Rows.{AreBackorders, EncloseBackorders};

use crate::rows::bare_row;
use crate::running::Falling;
use crate::weighed::weigh_to;
use answers::NoMemory;
use fixed_interval::Iv;
use series_bounds::short::Iv64;

/// Overwrites the first weights with the backorders at the stocks 0 to `last`, computed from them and the sum of all.
fn known<const F: u32>(
    found: &mut Vec<Iv64<F>>,
    mean: Iv<F>,
    sum: Iv<F>,
    last: u32,
) -> Result<(), NoMemory>
    requires mean_top { IsWithinLimit F mean }
    requires least { 2 ^ F ≤ sum.lo }
    requires first { AreFirst F last found.old.items }
    requires last { last ≤ 63 }
    ensures { OnOk result (found.new.items ≡ listed (ebo_ends F mean.entry found.old.items sum.entry) (last + 1)) }
{
    let mut falling = Falling::first(mean, sum);
    for s in 0..last {
        let weight = found[s as usize];
        found[s as usize] = falling.expected();
        falling.step(weight, s);
    }
    found.truncate(last as usize);
    found.push(falling.expected())?;
    Ok(())
}

/// Overwrites `found` with the backorders of a pipeline that is always empty or whose weights are unknown.
fn bare<const F: u32>(
    found: &mut Vec<Iv64<F>>,
    mean: Iv<F>,
    variance: Iv<F>,
    count: u32,
) -> Result<(), NoMemory>
    requires mean_top { IsWithinLimit F mean }
    requires variance_top { IsWithinLimit F variance }
    ensures { OnOk result (found.new.items ≡ listed (λ s. (bare_row F mean.entry variance.entry s).ebo) count) }
{
    found.clear();
    for s in 0..count {
        let row = bare_row(mean, variance, s);
        found.push(Iv64::of(row.ebo))?;
    }
    Ok(())
}

/// Overwrites `found` with the expected backorders of the table at the stocks 0 to `limit`, at most 63, for a mean and
/// a variance within the ranges of `table`. Computes nothing else of the table, and reuses the allocation of `found`.
///
/// They enclose the model's, at each depth from 1024 on, for every mean and every variance in the two intervals. Want
/// of memory is the only error, after which the contents of `found` are unspecified.
pub fn put_backorders<const F: u32>(
    found: &mut Vec<Iv64<F>>,
    mean: Iv<F>,
    variance: Iv<F>,
    limit: u8,
) -> Result<(), NoMemory>
    requires table { CanTable F mean variance }
    requires limit { limit ≤ 63 }
    ensures ends { OnOk result (AreBackorders F mean.entry variance.entry limit found.new.items) }
    ensures encloses { OnOk result (EncloseBackorders F mean.entry variance.entry found.new.items) }
{
    let last = u32::from(limit);
    match weigh_to(found, mean, variance, last)? {
        Some(sum) => known(found, mean, sum, last),
        None => bare(found, mean, variance, last + 1),
    }
}
