//! About what all units of families in pipelines cost without any stock, by which a sample of families stands for all.
//! No clause says how near it is.

ghost use Rattle.std.specs.Prelude.{◌<◌, All, length};
ghost use Rattle.demand_rates.specs.Rates.{AreRatesOf};
ghost use Rattle.family_items.specs.Inputs.{IsLine};

use demand_rates::Rated;
use demand_rates::kinds::Rates;
use spares_input::{Case, PartId, SiteId};

/// So many binary places of a numerator are left out, so that sums stay small.
const PLACES: u32 = 48;

/// About what the units of a part in its pipelines cost.
fn size_of_part(rated: &Rated<'_>, part: PartId) -> u128
    requires { part.0 < length rated.now.case.parts }
{
    rated.invariant();
    let (case, rates) = (rated.case(), rated.rates());
    let cost = u128::from(case.part(part).cost);
    let mut size: u128 = 0;
    for k in 0..case.site_count() {
        let units = rates.zero_stock(part, SiteId(k)) >> PLACES;
        size = size.saturating_add(units.saturating_mul(cost));
    }
    size
}

/// The same of some parts together.
fn size_of_parts(rated: &Rated<'_>, parts: &[PartId]) -> u128
    requires { All (λ p. p.0 < length rated.now.case.parts) parts.now }
{
    let mut size: u128 = 0;
    for part in parts {
        size = size.saturating_add(size_of_part(rated, *part));
    }
    size
}

/// About what the units of a line unit's family in their pipelines cost.
pub(crate) fn size_of(case: &Case, rates: &Rates, line: PartId) -> u128
    requires rates { AreRatesOf case.now rates.now }
    requires line { IsLine case.now line.0 }
{
    case.invariant();
    let rated = Rated::of(case, rates);
    size_of_parts(&rated, case.family(line))
}

/// The same of all families of some line units.
pub(crate) fn size_of_all(case: &Case, rates: &Rates, lines: &[PartId]) -> u128
    requires rates { AreRatesOf case.now rates.now }
    requires lines { All (λ p. IsLine case.now p.0) lines.now }
{
    let mut size: u128 = 0;
    for line in lines {
        size = size.saturating_add(size_of(case, rates, *line));
    }
    size
}
