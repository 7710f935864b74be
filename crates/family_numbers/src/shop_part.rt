//! The part of a line unit's pipeline at a base that its shop units make up.

ghost use Rattle.std.specs.Prelude.{◌≡◌, ◌-◌, ◌<◌, ◌≤◌, length, All};
ghost use Rattle.fixed_interval.specs.Ends.{InScale};
ghost use Rattle.spares_input.specs.Limits.{most_stock};
ghost use Rattle.family_numbers.specs.BaseTables.{HaveShops};
ghost use Rattle.family_numbers.specs.Numbers.{shop_part};

use crate::base_shops::{BaseShops, table_of};
use crate::numbers::Numbers;
use depot_pipeline::Moments;
use fixed_interval::Iv;
use spares_input::SiteId;

/// The sums of the means and of the variances of the shop units' backorders at a base, for which the line unit's
/// repairs there wait. The shop units have the stocks `depot` at the depot and `base` at the base.
pub fn shop_part<const F: u32>(
    numbers: &Numbers<F>,
    tables: &BaseShops<F>,
    depot: &[u8],
    site: SiteId,
    base: &[u8],
) -> Moments<F>
    requires scale { InScale F }
    requires tables { HaveShops F numbers.now depot.now tables.now }
    requires base { 0 < site.0 }
    requires site { site.0 < numbers.now.sites }
    requires count { length base.now ≡ length numbers.now.parts - 1 }
    requires stocks { All (λ n. n ≤ most_stock) base.now }
    ensures { result ≡ shop_part F numbers.now site.0 depot.now base.now }
{
    numbers.invariant();
    let mut mean = Iv::exact(0);
    let mut variance = Iv::exact(0);
    for i in 0..numbers.shops() {
        let table = table_of(tables, numbers, depot, site, i);
        let stock = base[i];
        mean = mean.add(table.ebo(stock));
        variance = variance.add(table.vbo(stock));
    }
    Moments { mean, variance }
}
