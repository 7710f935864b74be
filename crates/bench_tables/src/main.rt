//! Times the making of tables, and checks their ends by a checksum.
//!
//! With the words `COUNT MEAN VARIANCE` it makes COUNT tables, number i with the mean MEAN + i mod 97 and the variance
//! VARIANCE + i mod 89, both in ten-thousandths, and prints the checksum. With a fourth word `timed` it also prints the
//! nanoseconds of a table. With no words it makes a few tables of each of five cases.
//!
//! With the words `backorders COUNT [timed]` it makes COUNT lists of the backorders at the stocks 0 to 5 instead.
#![tactic(auto)]

mod case;

use anyhow::{Context, anyhow};
use case::{Case, backorders_checksum};
use std::env;
use std::time::Instant;

/// The means and variances of a run with no words, in ten-thousandths, and the count of tables of each.
const MOMENTS: [(u32, u32); 5] = [
    (5_000, 5_000),
    (46_594, 60_000),
    (200_000, 200_000),
    (200_000, 800_000),
    (2_000_000, 2_000_000),
];

const FEW: u32 = 5;

/// Makes the tables of a case, and prints the checksum and, if it is asked for, the time of one.
fn report(rt: &HostRuntime, case: Case, timed: bool) -> anyhow::Result<()> {
    let start = Instant::now(rt)?;
    let sum = case.checksum(rt.alloc())?;
    let spent = start.elapsed(rt)?;
    print!(rt;
        "mean {} variance {} checksum {sum}",
        case.mean, case.variance
    )?;
    if timed {
        print!(rt;
            " nanoseconds {}",
            spent.as_nanos() / u128::from(case.count.max(1))
        )?;
    }
    println!(rt; "")?;
    Ok(())
}

/// Makes lists of backorders, and prints their checksum and, if it is asked for, the time of one.
fn report_backorders(rt: &HostRuntime, count: &str, timed: bool) -> anyhow::Result<()> {
    let count: u32 = count.parse().context("COUNT")?;
    let start = Instant::now(rt)?;
    let sum = backorders_checksum(rt.alloc(), count)?;
    let spent = start.elapsed(rt)?;
    print!(rt; "backorders checksum {sum}")?;
    if timed {
        let each = spent.as_nanos() / u128::from(count.max(1));
        print!(rt; " nanoseconds {each}")?;
    }
    println!(rt; "")?;
    Ok(())
}

fn main(rt: HostRuntime) -> anyhow::Result<()> {
    let words: Vec<String> = env::args(&rt)?.collect(rt.alloc())?;
    match words.as_slice() {
        [_] => {
            for (mean, variance) in MOMENTS {
                let count = FEW;
                report(
                    &rt,
                    Case {
                        count,
                        mean,
                        variance,
                    },
                    false,
                )?;
            }
            Ok(())
        }
        [_, kind, count] if kind.as_str() == "backorders" => report_backorders(&rt, count, false),
        [_, kind, count, timed] if kind.as_str() == "backorders" && timed.as_str() == "timed" => {
            report_backorders(&rt, count, true)
        }
        [_, count, mean, variance] => report(&rt, Case::read(count, mean, variance)?, false),
        [_, count, mean, variance, timed] if timed.as_str() == "timed" => {
            report(&rt, Case::read(count, mean, variance)?, true)
        }
        _ => Err(anyhow!("words: [COUNT MEAN VARIANCE [timed] | backorders COUNT [timed]]")),
    }
}
