//! Depot pipelines whose ends were computed apart from this code.

use depot_pipeline::{Feed, depot_line, depot_shop};
use fixed_interval::Iv;
use std::test::Fail;

/// Each pipeline with the ends of its mean and of its variance.
macro_rules! check_ends {
    ($rt:ident, $($pipeline:expr => $mean:expr, $variance:expr;)*) => {{
        $(
            let found = $pipeline;
            assert_eq!($rt; (found.mean.lo(), found.mean.hi()), $mean);
            assert_eq!($rt; (found.variance.lo(), found.variance.hi()), $variance);
        )*
    }};
}

#[test]
fn pipelines_at_forty_eight_places(rt: HostRuntime) -> Result<(), Fail> {
    let direct = Iv::<48>::of_ratio(6, 5);
    let two = Iv::<48>::exact(2).hi();
    let feeds = [
        Feed {
            share: Iv::of_ratio(1, 3),
            backorders: Iv::of_ratio(7, 5),
            spread: Iv::of_ratio(9, 4),
        },
        Feed {
            share: Iv::of_ratio(2, 7),
            backorders: Iv::of_ratio(1, 10),
            spread: Iv::of_ratio(11, 3),
        },
    ];
    check_ends! {
        rt,
        depot_shop(direct, two) => (337769972052787, 337769972052788), (337769972052787, 337769972052788);
        depot_shop(direct, two / 2) => (281474976710656, 281474976710656), (281474976710656, 281474976710656);
        depot_line(direct, two, &feeds[..0]) => (337769972052787, 337769972052788), (337769972052787, 337769972052788);
        depot_line(direct, u128::MAX, &feeds[..1]) => (469124961184425, 469124961184429), (495708708984872, 495708708984882);
        depot_line(direct, u128::MAX, &feeds) => (477167103376157, 477167103376163), (585704109701883, 585704109701899);
        depot_line(direct, two, &feeds) => (477167103376157, 477167103376163), (562949953421312, 562949953421312);
    }
    Ok(())
}

#[test]
fn a_whole_share_at_thirty_two_places(rt: HostRuntime) -> Result<(), Fail> {
    let direct = Iv::<32>::of_ratio(6, 5);
    let whole = Feed {
        share: Iv::of_ratio(1, 1),
        backorders: Iv::of_ratio(5, 2),
        spread: Iv::of_ratio(7, 10),
    };
    check_ends! {
        rt,
        depot_line(direct, u128::MAX, &[whole]) => (15891378995, 15891378996), (8160437862, 8160437864);
    }
    Ok(())
}
