//! Base pipelines whose ends were computed apart from this code.

ghost use Rattle.depot_pipeline.specs.Exact.{IsSmallFeed};

use base_pipeline::{Held, base_line, base_shop};
use depot_pipeline::Feed;
use fixed_interval::Iv;
use std::test::Fail;

/// Each pipeline with the ends of its mean and of its variance.
macro_rules! check_ends {
    ($rt:ident, $($pipeline:expr => $mean:expr, $variance:expr;)*) => {{
        $(
            let found = $pipeline;
            assert_eq!($rt; (found.mean.lo(), found.mean.hi()), $mean);
            assert_eq!($rt; (found.variance.lo(), found.variance.hi()), $variance);
        )*
    }};
}

/// A third of backorders with the mean 7/5 and the variance 9/4.
fn depot() -> Feed<48>
    ensures { IsSmallFeed 48 result }
{
    Feed {
        share: Iv::of_ratio(1, 3),
        backorders: Iv::of_ratio(7, 5),
        spread: Iv::of_ratio(9, 4),
    }
}

#[test]
fn pipelines_at_forty_eight_places(rt: HostRuntime) -> Result<(), Fail> {
    let direct = Iv::<48>::of_ratio(6, 5);
    let three = Iv::<48>::exact(3).hi();
    let shops = [
        Held {
            backorders: Iv::of_ratio(1, 10),
            spread: Iv::of_ratio(11, 3),
        },
        Held {
            backorders: Iv::of_ratio(5, 2),
            spread: Iv::of_ratio(7, 10),
        },
    ];
    check_ends! {
        rt,
        base_shop(direct, u128::MAX, depot()) => (469124961184425, 469124961184429), (495708708984872, 495708708984882);
        base_shop(direct, three / 3, depot()) => (281474976710656, 281474976710656), (281474976710656, 281474976710656);
        base_line(direct, u128::MAX, depot(), &shops[..0]) => (469124961184425, 469124961184429), (495708708984872, 495708708984882);
        base_line(direct, u128::MAX, depot(), &shops) => (1200959900632130, 1200959900632135), (1724816107288069, 1724816107288081);
        base_line(direct, three, depot(), &shops) => (844424930131968, 844424930131968), (844424930131968, 844424930131968);
    }
    Ok(())
}
