//! A lower bound on the loss of a share, by the first terms of the series.

ghost use Rattle.std.specs.Prelude.{◌≡◌, ◌*◌, ◌/◌, ◌^◌, ◌≤◌};
ghost use Rattle.fixed_interval.specs.Ends.{Ends};
ghost use Rattle.log_loss.specs.Profile.{series_ends};

/// How many terms a lower bound adds.
const FIRST_TERMS: u64 = 6;

/// The product of a power and a share, both in units of 2^-48, rounded down.
fn product(power: u64, share: u64) -> u64
    requires power { power ≤ 2 ^ 48 }
    requires share { share ≤ 2 ^ 48 }
    ensures { result ≡ power * share / 2 ^ 48 }
{
    ((u128::from(power) * u128::from(share)) >> 48) as u64
}

/// A lower bound on the loss of each share that begins at `share` or above, in units of 2^-48.
pub(crate) fn low_series(share: u64) -> u64
    requires { share ≤ 7 * 2 ^ 45 }
    ensures low { (y : Ends) → share ≤ y.lo → result ≤ (series_ends 48 y).lo }
    ensures most { result ≤ 6 * 2 ^ 48 }
{
    let mut sum = 0;
    let mut power = share;
    for k in 0..FIRST_TERMS {
        sum += power / (k + 1);
        power = product(power, share);
    }
    sum
}
