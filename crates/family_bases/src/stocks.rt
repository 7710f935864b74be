//! Stocks at the depot: those with the least of the line unit, and their point.

ghost use Rattle.std.specs.Prelude.{◌≡◌, ◌<◌, ◌∷◌, [], IfOk, drop, get_or, length};
ghost use Rattle.hull.specs.Curves.{InRange};
ghost use Rattle.family_points.specs.Inputs.{AreShopsAt, IsAt, line_low, shop_vectors};
ghost use Rattle.family_points.specs.Separation.{depot_point};

use answers::{List, NoMemory};
use family_points::family::{Family, joined};
use hull::Point;
use spares_input::SiteId;
use std::alloc::Global;

/// Stocks at the depot: the least of the line unit, and the `number`-th vector of the shop units.
pub fn stocks_at(alloc: Global, family: &Family<'_>, number: u64) -> Result<Vec<u8>, NoMemory>
    requires { number < length (shop_vectors family.now 0) }
    ensures stocks { IfOk result (λ v. v.items ≡ line_low family.now 0 ∷ get_or (shop_vectors family.now 0) number []) }
    ensures within { IfOk result (λ v. IsAt family.now 0 v.items) }
    ensures shops { IfOk result (λ v. AreShopsAt family.now 0 (drop 1 v.items)) }
{
    family.invariant();
    let vector = family.shop_vector(alloc, SiteId(0), number)?;
    let line = family.line_low(SiteId(0));
    joined(alloc, line, vector.as_slice())
}

/// The point of stocks at the depot: their cost above the stocks held, and no score.
pub fn depot_point(family: &Family<'_>, stocks: Vec<u8>) -> Point
    requires { IsAt family.now 0 stocks.items }
    ensures point { result ≡ depot_point family.now stocks.items }
    ensures range { InRange result }
{
    family.invariant();
    Point {
        cost: family.cost(SiteId(0), stocks.as_slice()),
        lo: 0,
        hi: 0,
        stocks: List::of(stocks),
    }
}
