//! The bounds are near the ends of the table, of which no clause speaks.

ghost use Rattle.moment_table.specs.Inputs.{CanTable};

use backorder_bounds::Walk;
use fixed_interval::Iv;
use moment_table::row_at;
use std::alloc::Global;
use std::process::Abort;
use std::test::Fail;

/// A mean and a variance, in hundredths, and what a bound lacks at most, in parts of 2048 of a unit.
const MOMENTS: [(u16, u16, u16); 13] = [
    (1, 1, 1),
    (10, 10, 1),
    (10, 13, 1),
    (10, 40, 1),
    (50, 50, 1),
    (50, 100, 1),
    (90, 90, 1),
    (90, 180, 1),
    (100, 100, 1),
    (150, 300, 1),
    (200, 200, 1),
    (400, 600, 2),
    (790, 790, 20),
];

/// The bounds at the stocks 0 to 7 are at most this far below the table's ends, and none is above its end.
fn are_near(
    rt: &impl Abort,
    alloc: Global,
    mean: Iv<48>,
    variance: Iv<48>,
    lack: u128,
) -> Result<(), Fail>
    requires { CanTable 48 mean variance }
{
    let mut walk = Walk::of(mean, variance);
    for s in 0..8u8 {
        let end = row_at(alloc, mean, variance, s)?.ebo.lo();
        let low = u128::from(walk.low());
        assert!(rt; low <= end && end - low <= lack);
        walk.advance();
    }
    Ok(())
}

/// So many hundredths, from thirds of them: the ends of whole numbers too are apart.
fn in_thirds(hundredths: u16) -> Iv<48> {
    Iv::of_ratio(u128::from(hundredths), 300).times(3)
}

#[test]
fn bounds_are_near(rt: HostRuntime) -> Result<(), Fail> {
    let most = Iv::<48>::exact(256).hi();
    for (mean, variance, parts) in MOMENTS {
        let (mean, variance) = (in_thirds(mean), in_thirds(variance));
        assert!(rt; mean.hi() <= most && variance.hi() <= most);
        assert!(rt; mean.hi() / 2048 < mean.lo() && variance.hi() / 2048 < mean.lo());
        are_near(&rt, rt.alloc(), mean, variance, u128::from(parts) << 37)?;
    }
    Ok(())
}

/// The bounds at the stocks 0 to 3.
fn first_lows(mean: Iv<48>, variance: Iv<48>) -> [u64; 4]
    requires { CanTable 48 mean variance }
{
    let mut walk = Walk::of(mean, variance);
    let mut lows = [0; 4];
    for s in 0..4u8 {
        lows[usize::from(s)] = walk.low();
        walk.advance();
    }
    lows
}

#[test]
fn bounds_of_large_and_empty_pipelines_fall_by_one(rt: HostRuntime) -> Result<(), Fail> {
    let empty = first_lows(Iv::exact(0), Iv::exact(0));
    assert_eq!(rt; empty, [0, 0, 0, 0]);
    let large = first_lows(Iv::exact(9), Iv::exact(9));
    assert_eq!(rt; large, [9 << 48, 8 << 48, 7 << 48, 6 << 48]);
    Ok(())
}
