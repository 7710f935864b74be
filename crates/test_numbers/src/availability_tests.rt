//! Availabilities whose ends were computed apart from this code.

use availability::{Weighted, base_availability, factor, fleet};
use fixed_interval::Iv;
use std::test::Fail;

/// Each availability with its ends.
macro_rules! check_ends {
    ($rt:ident, $($found:expr => $ends:expr;)*) => {{
        $(
            let found = $found;
            assert_eq!($rt; (found.lo(), found.hi()), $ends);
        )*
    }};
}

#[test]
fn factors_at_forty_eight_places(rt: HostRuntime) -> Result<(), Fail> {
    let third = Iv::<48>::of_ratio(1, 3);
    let more = Iv::<48>::of_ratio(7, 5);
    check_ends! {
        rt,
        factor(third, 2, 1) => (234562480592213, 234562480592214);
        factor(more, 3, 2) => (165444736311040, 165444736311043);
        factor(more, 1, 3) => (42700796466919, 42700796466921);
        factor(third, 10000, 100) => (281465594366116, 281465594366315);
        factor(Iv::<48>::exact(4), 1, 3) => (0, 0);
        factor(Iv::<48>::exact(0), 1, 100) => (281474976710656, 281474976710656);
    }
    Ok(())
}

#[test]
fn bases_and_fleets_at_forty_eight_places(rt: HostRuntime) -> Result<(), Fail> {
    let factors = [
        factor(Iv::<48>::of_ratio(1, 3), 2, 1),
        factor(Iv::<48>::of_ratio(7, 5), 3, 2),
        factor(Iv::<48>::of_ratio(7, 5), 1, 3),
    ];
    let bases = [
        Weighted {
            systems: 2,
            value: factors[0],
        },
        Weighted {
            systems: 3,
            value: factors[1],
        },
        Weighted {
            systems: 10000,
            value: factors[2],
        },
    ];
    check_ends! {
        rt,
        base_availability(&factors[..0]) => (281474976710656, 281474976710656);
        base_availability(&factors[..1]) => (234562480592213, 234562480592214);
        base_availability(&factors[..2]) => (137870613592533, 137870613592537);
        base_availability(&factors) => (20915482713888, 20915482713891);
        fleet(&bases[..1]) => (234562480592213, 234562480592214);
        fleet(&bases[..2]) => (193091834023509, 193091834023512);
        fleet(&bases) => (42775954406727, 42775954406730);
    }
    Ok(())
}
