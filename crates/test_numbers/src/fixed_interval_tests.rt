//! Ends and texts computed apart from this code, at four scales.

use fixed_interval::{Iv, ratio_down};
use std::test::Fail;

/// A third, 7/5 and results of these, at `$places` binary places: each call with its ends.
macro_rules! check_ends {
    ($rt:ident, $places:literal, $third:ident, $ratio:ident, $($answer:expr => $ends:expr;)*) => {{
        let $third = Iv::<$places>::of_ratio(1, 3);
        let $ratio = Iv::<$places>::of_ratio(7, 5);
        $(
            let answer = $answer;
            assert_eq!($rt; (answer.lo(), answer.hi()), $ends);
        )*
    }};
}

#[test]
fn rounds_outwards_at_twenty_four_places(rt: HostRuntime) -> Result<(), Fail> {
    check_ends! {
        rt, 24, third, ratio,
        third => (5592405, 5592406);
        third.mul(ratio) => (7829366, 7829369);
        third.div(ratio) => (3994574, 3994576);
        ratio.less(third) => (17895696, 17895698);
        ratio.over(3) => (7829367, 7829368);
    }
    Ok(())
}

#[test]
fn rounds_outwards_at_thirty_two_places(rt: HostRuntime) -> Result<(), Fail> {
    check_ends! {
        rt, 32, third, ratio,
        third => (1431655765, 1431655766);
        third.mul(ratio) => (2004318070, 2004318073);
        third.div(ratio) => (1022611260, 1022611262);
        ratio.less(third) => (4581298448, 4581298450);
        ratio.over(3) => (2004318071, 2004318072);
    }
    Ok(())
}

#[test]
fn rounds_outwards_at_forty_eight_places(rt: HostRuntime) -> Result<(), Fail> {
    check_ends! {
        rt, 48, third, ratio,
        third => (93824992236885, 93824992236886);
        third.mul(ratio) => (131354989131638, 131354989131641);
        third.div(ratio) => (67017851597774, 67017851597776);
        ratio.less(third) => (300239975158032, 300239975158034);
        ratio.over(3) => (131354989131639, 131354989131640);
    }
    Ok(())
}

#[test]
fn rounds_outwards_at_fifty_two_places(rt: HostRuntime) -> Result<(), Fail> {
    check_ends! {
        rt, 52, third, ratio,
        third => (1501199875790165, 1501199875790166);
        third.mul(ratio) => (2101679826106230, 2101679826106233);
        third.div(ratio) => (1072285625564403, 1072285625564405);
        ratio.less(third) => (4803839602528528, 4803839602528530);
        ratio.over(3) => (2101679826106231, 2101679826106232);
    }
    Ok(())
}

#[test]
fn prints_outwards(rt: HostRuntime) -> Result<(), Fail> {
    let third = Iv::<24>::of_ratio(1, 3);
    assert_eq!(rt; third.down_text(6).as_slice(), b"0.333333".as_slice());
    assert_eq!(rt; third.up_text(6).as_slice(), b"0.333334".as_slice());
    assert_eq!(rt;
        third.down_text(12).as_slice(),
        b"0.333333313465".as_slice()
    );
    assert_eq!(rt; third.up_text(12).as_slice(), b"0.333333373070".as_slice());
    let large = Iv::<52>::of_ratio(4096, 1);
    assert_eq!(rt;
        large.up_text(12).as_slice(),
        b"4096.000000000000".as_slice()
    );
    assert_eq!(rt; ratio_down(2, 3, 6).as_slice(), b"0.666666".as_slice());
    Ok(())
}

#[test]
fn keeps_whole_numbers_and_limits(rt: HostRuntime) -> Result<(), Fail> {
    let two = Iv::<32>::exact(2);
    let five = Iv::<32>::of_ends(5 << 32, 5 << 32);
    assert_eq!(rt; two.add(five), Iv::<32>::exact(7));
    assert_eq!(rt; two.times(3), Iv::<32>::exact(6));
    assert_eq!(rt; two.less(five), Iv::<32>::exact(0));
    assert_eq!(rt; two.max_of(five), five);
    assert_eq!(rt; five.capped(2 << 32), two);
    assert_eq!(rt; five.width(), 0);
    Ok(())
}
