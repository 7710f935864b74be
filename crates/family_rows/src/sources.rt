//! The data of a family that doesn't depend on the depot's stocks.

ghost use Rattle.std.specs.Prelude.{◌≡◌, IfOk};
ghost use Rattle.family_rows.specs.Sources.{AreSources};
ghost use Rattle.family_rows.specs.Tabled.{box_numbers};

use answers::NoMemory;
use family_numbers::{BaseShops, Numbers, depot_shop_tables};
use family_points::family::{Family, shops_of};
use family_points::order::{Base, bases_of};
use moment_table::kinds::Table;
use spares_input::SiteId;
use std::alloc::Global;

/// The data of a family that doesn't depend on the depot's stocks: each is made once.
#[derive(Drop)]
pub struct Sources<'f> {
    /// The family.
    pub family: &'f Family<'f>,
    /// Its numbers, from which its tables are made.
    pub numbers: Numbers<48>,
    /// The choices at each base, the first base first.
    pub bases: Vec<Base>,
    /// The shop units' tables at the depot.
    pub depot_shops: Vec<Table<48>>,
    /// Their tables at the bases, for each of their stocks at the depot.
    pub base_shops: BaseShops<48>,
}

/// The numbers of a family.
fn numbers_of(alloc: Global, family: &Family<'_>) -> Result<Numbers<48>, NoMemory>
    ensures { IfOk result (λ n. n ≡ box_numbers family.now) }
{
    let case = family.case();
    Numbers::of(alloc, case, family.rates(), family.line())
}

impl<'f> Sources<'f> {
    /// The sources of a family.
    pub fn of(alloc: Global, family: &'f Family<'f>) -> Result<Sources<'f>, NoMemory>
        ensures are { IfOk result AreSources }
        ensures family { IfOk result (λ s. s.family.now ≡ family.now) }
    {
        family.invariant();
        let numbers = numbers_of(alloc, family)?;
        let bases = bases_of(alloc, family)?;
        let depot_shops = depot_shop_tables(alloc, &numbers)?;
        let low = shops_of(family.low(SiteId(0)));
        let high = shops_of(family.high(SiteId(0)));
        let base_shops = BaseShops::of(alloc, &numbers, depot_shops.as_slice(), low, high)?;
        Ok(Sources {
            family,
            numbers,
            bases,
            depot_shops,
            base_shops,
        })
    }
}
