//! The vectors of a box, by number.

ghost use Rattle.std.specs.Prelude.{◌≡◌, ◌^◌, ◌<◌, ◌≤◌, IfOk};
ghost use Rattle.family_points.specs.Counts.{product, widths};
ghost use Rattle.family_points.specs.Boxes.{IsBox, nth};

use answers::NoMemory;
use std::alloc::Global;

/// The number of vectors from `low` to `high`.
pub fn count(low: &[u8], high: &[u8]) -> u64
    requires { IsBox low.now high.now }
    ensures count { result ≡ product (widths low.now high.now) }
    ensures most { result ≤ 64 ^ 9 }
{
    let mut count = 1;
    for i in 0..low.len() {
        count *= u64::from(high[i] - low[i]) + 1;
    }
    count
}

/// The `n`-th vector in dictionary order.
pub fn vector_at(alloc: Global, low: &[u8], high: &[u8], number: u64) -> Result<Vec<u8>, NoMemory>
    requires bounds { IsBox low.now high.now }
    requires within { number < product (widths low.now high.now) }
    ensures { IfOk result (λ v. v.items ≡ nth low.now high.now number) }
{
    let mut size = count(low, high);
    let mut rest = number;
    let mut vector = Vec::with_capacity(alloc, low.len())?;
    for i in 0..low.len() {
        size /= u64::from(high[i] - low[i]) + 1;
        vector.push(low[i] + (rest / size) as u8)?;
        rest %= size;
    }
    Ok(vector)
}
