//! The weights of a table.

ghost use Rattle.std.specs.Prelude.{◌≡◌, ◌*◌, ◌^◌, ◌<◌, ◌≤◌, IfOk, IfSome, IfNone};
ghost use Rattle.fixed_interval.specs.Ends.{IsWithinLimit};
ghost use Rattle.moment_table.specs.Stored.{AreStoredTo, AreRowsTo, bare_row};
ghost use Rattle.moment_table.specs.Inputs.{CanTable};
ghost use Rattle.moment_table.specs.Profile.{known_row, excess_ends};
ghost use Rattle.moment_table.specs.Running.{AreFirst};
ghost use Rattle.moment_table.specs.Weighed.{IsWeighed};

use answers::NoMemory;
use fixed_interval::Iv;
use series_bounds::heads::first_weights;
use series_bounds::kinds::Weights;
use series_bounds::shares::quotient;
use series_bounds::short::Iv64;
use series_bounds::weights;
use std::alloc::Global;

/// The first weights and the sum of all.
#[derive(Drop)]
pub(crate) struct Weighed<const F: u32> {
    pub(crate) list: Vec<Iv64<F>>,
    pub(crate) sum: Iv<F>,
}

/// The variance over the mean, less 1.
#[inline(always)]
pub(crate) fn excess_of<const F: u32>(mean: Iv<F>, variance: Iv<F>) -> Iv<F>
    requires mean_least { 0 < mean.lo }
    requires variance_top { IsWithinLimit F variance }
    requires ratio { variance.hi ≤ 2048 * mean.lo }
    ensures ends { result ≡ excess_ends F mean.entry variance.entry }
    ensures most { result.hi ≤ 2048 * 2 ^ F }
{
    quotient(variance, mean).less(Iv::exact(1))
}

/// All weights of a pipeline with this mean and variance, or None if it is always empty or its weights are unknown.
fn weigh_all<const F: u32>(
    alloc: Global,
    mean: Iv<F>,
    variance: Iv<F>,
) -> Result<Option<Weighed<F>>, NoMemory>
    requires { CanTable F mean variance }
    ensures bare { IfOk result (λ found. IfNone found
        (AreRowsTo F mean.entry variance.entry 64 (bare_row F mean.entry variance.entry))) }
    ensures known { IfOk result (λ found. IfSome found (IsWeighed F mean.entry variance.entry 64)) }
{
    if mean.hi() == 0 {
        return Ok(None);
    }
    let excess = excess_of(mean, variance);
    match weights(alloc, mean, excess)? {
        Weights::Known {
            pivot: _,
            list,
            sum,
        } => {
            let list = list.into_vec();
            Ok(Some(Weighed { list, sum }))
        }
        Weights::Wide => Ok(None),
    }
}

/// Overwrites `list` with the first weights of a pipeline with this mean and variance, at least `wanted` of them, with
/// `wanted` at most 63, and returns the sum of all. None if the pipeline is always empty or its weights are unknown.
pub(crate) fn weigh_to<const F: u32>(
    list: &mut Vec<Iv64<F>>,
    mean: Iv<F>,
    variance: Iv<F>,
    wanted: u32,
) -> Result<Option<Iv<F>>, NoMemory>
    requires table { CanTable F mean variance }
    requires wanted { wanted ≤ 63 }
    ensures bare { IfOk result (λ found. IfNone found
        (AreRowsTo F mean.entry variance.entry 64 (bare_row F mean.entry variance.entry))) }
    ensures rows { IfOk result (λ found. IfSome found (λ sum. AreRowsTo F mean.entry variance.entry wanted
        (known_row F mean.entry variance.entry list.new.items sum))) }
    ensures stored { IfOk result (λ found. IfSome found (λ sum. AreStoredTo F mean.entry variance.entry wanted
        (known_row F mean.entry variance.entry list.new.items sum))) }
    ensures first { IfOk result (λ found. IfSome found (λ sum. AreFirst F wanted list.new.items)) }
    ensures least { IfOk result (λ found. IfSome found (λ sum. 2 ^ F ≤ sum.lo)) }
{
    if mean.hi() == 0 {
        return Ok(None);
    }
    let excess = excess_of(mean, variance);
    first_weights(list, mean, excess, wanted as usize)
}

/// The first weights of a pipeline with this mean and variance, at least `wanted` of them, with `wanted` at most 64,
/// and the sum of all. None if the pipeline is always empty or its weights are unknown.
pub(crate) fn weigh<const F: u32>(
    alloc: Global,
    mean: Iv<F>,
    variance: Iv<F>,
    wanted: u32,
) -> Result<Option<Weighed<F>>, NoMemory>
    requires table { CanTable F mean variance }
    requires wanted { wanted ≤ 64 }
    ensures bare { IfOk result (λ found. IfNone found
        (AreRowsTo F mean.entry variance.entry 64 (bare_row F mean.entry variance.entry))) }
    ensures known { IfOk result (λ found. IfSome found (IsWeighed F mean.entry variance.entry wanted)) }
{
    if wanted == 64 {
        return weigh_all(alloc, mean, variance);
    }
    let mut list = Vec::with_capacity(alloc, wanted as usize)?;
    match weigh_to(&mut list, mean, variance, wanted)? {
        Some(sum) => Ok(Some(Weighed { list, sum })),
        None => Ok(None),
    }
}
