//! Times the hull choice of many curves and its filling, and prints both.
//!
//! With the words `FAMILIES VERTICES WIDTHS DEAR BUDGET` it makes FAMILIES curves of VERTICES vertices, whose intervals
//! are less than WIDTHS units wide; the first curve is DEAR times as dear as the others. It prints their hull choice
//! under BUDGET and its filling, and with a sixth word `timed` also the nanoseconds of both. With no words it does so
//! for five cases.
#![tactic(auto)]

ghost use Rattle.std.specs.Prelude.{◌≡◌, ℕ, ◌<◌, length, IsTrue};
ghost use Rattle.step_walk.specs.Prefix.{vertex_at};

mod families;

use anyhow::{Context, anyhow};
use families::Families;
use hull::Curve;
use marginal_alloc::{allocate, fill};
use std::env;
use std::time::Instant;

/// The families, vertices, widths, dearness of the first, and budgets of a run with no words.
const CASES: [(u32, u32, u64, u32, u64); 5] = [
    (2_000, 64, 1_000, 1, 3_600_000),
    (2_000, 64, 1_000, 1_000_000, 3_600_000),
    (2_000, 64, 1_000_000_000_000, 1, 3_600_000),
    (2_000, 64, 1_000, 1, 1_000_000_000_000_000),
    (0, 1, 1, 1, 5),
];

/// Whether every curve begins at cost 0.
fn begin_free(curves: &[Curve]) -> bool
    ensures { IsTrue result → (f : ℕ) → f < length curves.now → (vertex_at curves.now f 0).cost ≡ 0 }
{
    for curve in curves {
        if curve.len() == 0 || curve.point(0).cost != 0 {
            return false;
        }
    }
    true
}

/// Prints the hull choice of some families and its filling.
fn report(rt: &HostRuntime, families: Families, budget: u64, timed: bool) -> anyhow::Result<()> {
    let curves = families.curves(rt.alloc())?;
    let curves = curves.as_slice();
    if curves.len() > 2000 || !begin_free(curves) {
        return Err(anyhow!("the curves are out of range"));
    }
    let start = Instant::now(rt)?;
    let Ok(chosen) = allocate(rt.alloc(), curves, budget) else {
        return Err(anyhow!("out of memory"));
    };
    let allocated = start.elapsed(rt)?;
    let hull_cost = chosen.cost;
    let price = chosen.price;
    print!(rt; "hull {hull_cost} price {}/{}", price.p, price.q)?;
    if let Some(critical) = chosen.critical {
        print!(rt; " critical {}:{}", critical.family, critical.vertex)?;
    }
    let mut picks = chosen.picks.into_vec();
    let start = Instant::now(rt)?;
    fill(curves, &mut picks, budget);
    let filled = start.elapsed(rt)?;
    let mut checksum: u64 = 0;
    for pick in picks.iter() {
        checksum = checksum.wrapping_mul(67).wrapping_add(u64::from(*pick));
    }
    print!(rt; " filling {checksum}")?;
    if timed {
        print!(rt;
            " nanoseconds {} {}",
            allocated.as_nanos(),
            filled.as_nanos()
        )?;
    }
    println!(rt; "")?;
    Ok(())
}

fn main(rt: HostRuntime) -> anyhow::Result<()> {
    let words: Vec<String> = env::args(&rt)?.collect(rt.alloc())?;
    let (list, timed) = match words.as_slice() {
        [_] => {
            for (count, vertices, widths, dear, budget) in CASES {
                report(
                    &rt,
                    Families {
                        count,
                        vertices,
                        widths,
                        dear,
                    },
                    budget,
                    false,
                )?;
            }
            return Ok(());
        }
        [_, list @ .., last] if last.as_str() == "timed" => (list, true),
        [_, list @ ..] => (list, false),
        [] => (&[][..], false),
    };
    let [count, vertices, widths, dear, budget] = list else {
        return Err(anyhow!("words: [FAMILIES VERTICES WIDTHS DEAR BUDGET [timed]]"));
    };
    let families = Families {
        count: count.parse().context("FAMILIES")?,
        vertices: vertices.parse().context("VERTICES")?,
        widths: widths.parse().context("WIDTHS")?,
        dear: dear.parse().context("DEAR")?,
    };
    report(&rt, families, budget.parse().context("BUDGET")?, timed)
}
