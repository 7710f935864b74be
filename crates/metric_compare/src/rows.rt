//! The backorders of all pairs, by part and then by site.

ghost use Rattle.std.specs.Prelude.{◌≡◌, IfOk};
ghost use Rattle.metric_compare.specs.Levels.{poisson_numbers, shop_numbers};

use crate::lines::line_row;
use crate::shops::{row_of, shop_numbers};
use answers::NoMemory;
use family_items::inputs::Inputs;
use fixed_interval::Iv;
use spares_input::PartId;
use std::alloc::Global;

/// The backorders of all pairs, by part and then by site, from the backorders of all shop units.
fn all_numbers(
    alloc: Global,
    inputs: &Inputs<'_>,
    shops: &[Iv<48>],
) -> Result<Vec<Iv<48>>, NoMemory>
    requires { shops.now ≡ shop_numbers inputs.now.case inputs.now.stocks.list }
    ensures { IfOk result (λ v. v.items ≡ poisson_numbers inputs.now.case inputs.now.stocks.list) }
{
    inputs.invariant();
    let mut all = Vec::new(alloc);
    for p in 0..inputs.case().part_count() {
        let part = PartId(p);
        let mut row = if inputs.case().is_line(part) {
            line_row(alloc, inputs, part, shops)?
        } else {
            row_of(alloc, inputs, part, shops)?
        };
        all.append(&mut row)?;
    }
    Ok(all)
}

/// The Poisson backorders of all pairs, by part and then by site.
pub(crate) fn numbers_of(alloc: Global, inputs: &Inputs<'_>) -> Result<Vec<Iv<48>>, NoMemory>
    ensures { IfOk result (λ v. v.items ≡ poisson_numbers inputs.now.case inputs.now.stocks.list) }
{
    let shops = shop_numbers(alloc, inputs)?;
    all_numbers(alloc, inputs, shops.as_slice())
}
