//! A line unit at a base: the own part of its pipeline, which serves all stocks of its shop units there, and its
//! backorders.

ghost use Rattle.std.specs.Prelude.{◌≡◌, ◌+◌, ◌-◌, ◌*◌, ◌^◌, ◌<◌, ◌≤◌, OnOk, length, All};
ghost use Rattle.fixed_interval.specs.Ends.{InScale, IsWithinLimit, ends_add};
ghost use Rattle.spares_input.specs.Limits.{most_stock};
ghost use Rattle.depot_pipeline.specs.Profile.{capped_at};
ghost use Rattle.family_numbers.specs.Numbers.{AreBaseBackorders, base_line_place, depot_line_table, own_part, shop_part};

use crate::numbers::Numbers;
use crate::pair_tables::feed_from;
use answers::NoMemory;
use backorder_bounds::Walk;
use base_pipeline::base_own;
use depot_pipeline::Moments;
use moment_table::kinds::Table;
use moment_table::put_backorders;
use series_bounds::short::Iv64;
use spares_input::SiteId;

/// The own part of a line unit's pipeline at a base, which doesn't depend on the shop units' stocks there.
#[derive(Clone, Copy, Drop)]
pub struct OwnPart<const F: u32> {
    /// The mean and the variance of its direct part with the depot's feed.
    pub moments: Moments<F>,
    /// The largest possible mean and variance of its pipeline, in units of `2^-F`.
    pub cap: u128,
    /// The largest stock of the line unit there.
    pub limit: u8,
}

/// The own part of the line unit's pipeline at a base. The depot has `own` of it with the table `line`, and the shop
/// units' stocks `depot`.
pub fn own_part<const F: u32>(
    numbers: &Numbers<F>,
    line: &Table<F>,
    own: u8,
    depot: &[u8],
    site: SiteId,
) -> OwnPart<F>
    requires line { line.now ≡ depot_line_table F numbers.now depot.now }
    requires own { own ≤ most_stock }
    requires site { site.0 < numbers.now.sites }
    ensures { result ≡ own_part F numbers.now site.0 own depot.now }
{
    numbers.invariant();
    let pair = numbers.pair(0, site.0);
    let feed = feed_from(pair.share, line, own);
    OwnPart {
        moments: base_own(pair.direct, &feed),
        cap: pair.cap,
        limit: pair.limit,
    }
}

/// The pipeline of the line unit at a base, from its own part and from the shop units'.
fn line_moments<const F: u32>(part: &OwnPart<F>, shops: &Moments<F>) -> Moments<F>
    requires mean { part.now.moments.mean.hi + shops.now.mean.hi < 2 ^ 127 }
    requires variance { part.now.moments.variance.hi + shops.now.variance.hi < 2 ^ 127 }
    ensures { result ≡ capped_at F part.now.cap
        (ends_add part.now.moments.mean shops.now.mean)
        (ends_add part.now.moments.variance shops.now.variance) }
{
    let own = part.moments;
    Moments {
        mean: own.mean.add(shops.mean).capped(part.cap),
        variance: own.variance.add(shops.variance).capped(part.cap),
    }
}

/// Overwrites `found` with the line unit's backorders at a base, at each of its stocks there up to its limit. `part` is
/// its own part there, and `shops` the shop units'; the depot has `own` of it and the stocks `depot` of the shop units,
/// and the base has their stocks `base`.
pub fn put_line_backorders<const F: u32>(
    found: &mut Vec<Iv64<F>>,
    numbers: &Numbers<F>,
    part: &OwnPart<F>,
    own: u8,
    depot: &[u8],
    site: SiteId,
    shops: &Moments<F>,
    base: &[u8],
) -> Result<(), NoMemory>
    requires scale { InScale F }
    requires part { part.now ≡ own_part F numbers.now site.0 own depot.now }
    requires own { own ≤ most_stock }
    requires site { site.0 < numbers.now.sites }
    requires shops { shops.now ≡ shop_part F numbers.now site.0 depot.now base.now }
    requires count { length base.now ≡ length numbers.now.parts - 1 }
    requires stocks { All (λ n. n ≤ most_stock) base.now }
    ensures ends { OnOk result (AreBaseBackorders F numbers.now site.0 own depot.now base.now found.new.items) }
    ensures most { OnOk result (All (IsWithinLimit F) found.new.items) }
{
    numbers.invariant();
    let moments = line_moments(part, shops);
    put_backorders(found, moments.mean, moments.variance, part.limit)
}

/// A walk over the line unit's stocks at a base, at the stock 0, with lower bounds on its backorders there; the
/// arguments are as in [`put_line_backorders`].
pub fn line_walk<const F: u32>(
    numbers: &Numbers<F>,
    part: &OwnPart<F>,
    own: u8,
    depot: &[u8],
    site: SiteId,
    shops: &Moments<F>,
    base: &[u8],
) -> Walk<F>
    requires scale { InScale F }
    requires part { part.now ≡ own_part F numbers.now site.0 own depot.now }
    requires own { own ≤ most_stock }
    requires site { site.0 < numbers.now.sites }
    requires shops { shops.now ≡ shop_part F numbers.now site.0 depot.now base.now }
    requires count { length base.now ≡ length numbers.now.parts - 1 }
    requires stocks { All (λ n. n ≤ most_stock) base.now }
    ensures { result ≡ base_line_place F numbers.now site.0 own depot.now base.now 0 }
{
    numbers.invariant();
    let moments = line_moments(part, shops);
    Walk::of(moments.mean, moments.variance)
}
