//! Losses whose ends were computed apart from this code.

use fixed_interval::Iv;
use hull::Score;
use log_loss::{LogLoss, log_series};
use std::test::Fail;

/// Each answer with its ends.
macro_rules! check_ends {
    ($rt:ident, $($found:expr => $ends:expr;)*) => {{
        $(
            let found = $found;
            assert_eq!($rt; (found.lo(), found.hi()), $ends);
        )*
    }};
}

#[test]
fn sums_at_four_scales(rt: HostRuntime) -> Result<(), Fail> {
    check_ends! {
        rt,
        log_series(Iv::<24>::of_ratio(1, 3)) => (6802567, 6802825);
        log_series(Iv::<24>::of_ratio(7, 8)) => (34887184, 34887450);
        log_series(Iv::<32>::of_ratio(1, 2)) => (2977044461, 2977044713);
        log_series(Iv::<48>::of_ratio(1, 3)) => (114128281861716, 114128281861976);
        log_series(Iv::<48>::of_ratio(7, 8)) => (585310759515389, 585310759515650);
        log_series(Iv::<52>::of_ratio(1, 1000)) => (4505852929507, 4505852929764);
    }
    Ok(())
}

#[test]
fn sums_where_all_powers_are_small(rt: HostRuntime) -> Result<(), Fail> {
    check_ends! {
        rt,
        log_series(Iv::<48>::exact(0)) => (0, 0);
        log_series(Iv::<48>::of_ends(0, 1)) => (0, 257);
        log_series(Iv::<48>::of_ends(1, 1)) => (1, 257);
        log_series(Iv::<48>::of_ends(5, 9)) => (5, 265);
        log_series(Iv::<48>::of_ends(0, 7 << 45)) => (0, 585310759515650);
    }
    Ok(())
}

#[test]
fn scores_each_place(rt: HostRuntime) -> Result<(), Fail> {
    let third = Iv::<48>::of_ratio(1, 3);
    check_ends! {
        rt,
        LogLoss.of(1, 1, 1, third) => (114128281861716, 114128281861976);
        LogLoss.of(12, 1, 1, Iv::exact(3)) => (971703655721148, 971703655724172);
        LogLoss.of(3, 2, 100, Iv::of_ratio(7, 5)) => (448732754319810, 448732754321352);
        LogLoss.of(10000, 100, 1, third) => (93825007000000, 93825264000000);
        LogLoss.of(1, 1, 1, Iv::exact(4)) => (585310759515389, 585310759515650);
        LogLoss.of(10000, 100, 1, Iv::exact(0)) => (0, 0);
    }
    Ok(())
}
