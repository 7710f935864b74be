//! The first weights and the sum of all, from which a table of up to 63 stocks is made.

ghost use Rattle.std.specs.Prelude.{◌≡◌, ◌*◌, ◌^◌, ◌<◌, ◌≤◌, true, IfOk, IfSome, IfNone};
ghost use Rattle.fixed_interval.specs.Ends.{IsWithinLimit};
ghost use Rattle.series_bounds.specs.Profile.{is_wide};
ghost use Rattle.series_bounds.specs.Answer.{IsBeginning};

use crate::short::Iv64;
use crate::walk::weigh;
use answers::NoMemory;
use fixed_interval::Iv;

/// Overwrites the list with the first weights, at least `wanted` of them, with `wanted` at most 63, and returns the sum
/// of all, whose upper end also covers all weights past the last index. The mean and the excess are as for
/// [`crate::weights`].
///
/// None if the result of `weights` is `Wide`. Want of memory is the only error. After both, the contents of the list
/// are unspecified.
pub fn first_weights<const F: u32>(
    list: &mut Vec<Iv64<F>>,
    mean: Iv<F>,
    excess: Iv<F>,
    wanted: usize,
) -> Result<Option<Iv<F>>, NoMemory>
    requires positive { 0 < mean.lo }
    requires mean_top { IsWithinLimit F mean }
    requires excess_top { excess.hi ≤ 2048 * 2 ^ F }
    requires wanted { wanted ≤ 63 }
    ensures wide { IfOk result (λ found. IfNone found (is_wide F mean.entry excess.entry ≡ true)) }
    ensures known { IfOk result (λ found. IfSome found
        (IsBeginning F mean.entry excess.entry wanted list.new.items)) }
    ensures least { IfOk result (λ found. IfSome found (λ sum. 2 ^ F ≤ sum.lo)) }
{
    list.clear();
    weigh(list, mean, excess, wanted)
}
