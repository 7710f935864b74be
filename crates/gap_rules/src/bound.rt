//! The rule of the bound: at most the largest that the claimed floors show.

ghost use Rattle.std.specs.Prelude.{◌≡◌, ◌<◌, ◌≤◌, All, length, sum};
ghost use Rattle.spares_input.specs.Limits.{most_parts};
ghost use Rattle.spares_input.specs.Money.{most_budget};
ghost use Rattle.spares_input.specs.Building.{StopsAt};
ghost use Rattle.hull.specs.Limits.{most_price_units, most_floor};
ghost use Rattle.price_certificate.specs.Certificates.{IsWellFormed};
ghost use Rattle.price_bounds.specs.Sums.{bound_of};
ghost use Rattle.gap_rules.specs.Refusals.{bound_too_high};

use answers::Stop;
use check_answers::Reject;
use hull::Price;
use price_certificate::Certificate;

/// The sum of at most 2,000 floors.
fn sum_of(floors: &[u128]) -> u128
    requires few { length floors.now ≤ most_parts }
    requires most { All (λ floor. floor ≤ most_floor) floors.now }
    ensures { result ≡ sum floors.now }
{
    let mut sum = 0;
    for floor in floors {
        sum += *floor;
    }
    sum
}

/// The largest bound that these floors show at a price, under a budget.
pub fn largest_bound(price: Price, floors: &[u128], budget: u64) -> u128
    requires money { 0 < price.q }
    requires price { price.p ≤ most_price_units }
    requires budget { budget ≤ most_budget }
    requires few { length floors.now ≤ most_parts }
    requires most { All (λ floor. floor ≤ most_floor) floors.now }
    ensures { result ≡ bound_of price.p price.q (sum floors.now) budget }
{
    sum_of(floors).saturating_sub(price.p * u128::from(budget)) / u128::from(price.q)
}

/// The bound is at most the largest that the price and the floors show.
pub fn bound_kept(cert: &Certificate) -> Result<(), Stop<Reject>>
    requires { IsWellFormed cert.now }
    ensures { StopsAt (bound_too_high cert.now) result }
{
    cert.case.invariant();
    let largest = largest_bound(cert.price, cert.floors.as_slice(), cert.budget);
    if largest < cert.bound {
        return Err(Stop::Fault(Reject::BoundTooHigh {
            claimed: cert.bound,
            largest,
        }));
    }
    Ok(())
}
