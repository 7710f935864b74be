//! Values that are kept of families: one or none for each, and all of them at once for a while.

ghost use Rattle.std.specs.Prelude.{◌≡◌, Some, None, All, length, map, replicate, IfOk, IsSome, OnErr};

use answers::NoMemory;
use std::alloc::Global;

/// `count` places with no value.
pub(crate) fn no_values<T: Drop>(alloc: Global, count: usize) -> Result<Vec<Option<T>>, NoMemory>
    ensures { IfOk result (λ kept. kept.items ≡ replicate count None) }
{
    let mut kept = Vec::new(alloc);
    for _k in 0..count {
        kept.push(None)?;
    }
    Ok(kept)
}

/// All values, taken out of their places. If memory is wanted, they stay there.
pub(crate) fn all_taken<T: Drop>(alloc: Global, kept: &mut [Option<T>]) -> Result<Vec<T>, NoMemory>
    requires { All IsSome kept.old }
    ensures values { IfOk result (λ values. map Some values.items ≡ kept.old) }
    ensures stay { OnErr result (kept.new ≡ kept.old) }
{
    let mut values = Vec::with_capacity(alloc, kept.len())?;
    for k in 0..kept.len() {
        values.push_reserved(kept[k].take().unwrap());
    }
    Ok(values)
}

/// Puts each value back to its place.
pub(crate) fn put_back<T: Drop>(kept: &mut [Option<T>], mut values: Vec<T>)
    requires { length values.items ≡ length kept.old }
    ensures { kept.new ≡ map Some values.items }
{
    while let Some(value) = values.pop() {
        kept[values.len()] = Some(value);
    }
}
