//! The weights, against a program written apart from this one.

ghost use Rattle.std.specs.Prelude.{◌<◌, ◌≤◌, ◌*◌, ◌^◌};
ghost use Rattle.fixed_interval.specs.Ends.{InScale, IsWithinLimit};

use fixed_interval::Iv;
use series_bounds::kinds::Weights;
use series_bounds::short::Iv64;
use series_bounds::{heads, plain, weights};
use std::alloc::Global;
use std::process::Abort;
use std::test::Fail;

/// A row has the ends of a mean and of an excess, then the pivot, the last index and the ends of the sum, or nothing if
/// the weights are wide.
const AT_32: [&str; 8] = [
    "2147483648 2147483648 0 0 0 63 7081203934 7081203997",
    "4294967296 4294967297 0 3 0 63 11674931536 11674931621",
    "8589934592 8589934592 4294967296 4294967299 0 63 17179869105 17179869310",
    "85899345920 85899345922 12884901888 12884901893 16 115 90202057000 90202058369",
    "858993459200 858993459209 0 5 199 289 152316075332 152316081121",
    "2147483648 2147483648 339302416384 339302416584 0 1024 4415735146 4415802317",
    "4294967296 4294967296 0 12884901888",
    "1 1 0 4299262270 0 63 4294967296 4294967427",
];

const AT_48: [&str; 10] = [
    "140737488355328 140737488355328 0 0 0 63 464073781272674 464073781272740",
    "281474976710656 281474976710657 0 3 0 63 765128314358489 765128314358572",
    "562949953421312 562949953421312 281474976710656 281474976710659 0 63 1125899906842513 1125899906842749",
    "5629499534213120 5629499534213122 844424930131968 844424930131973 16 159 5911482056905952 5911482056907553",
    "56294995342131200 56294995342131209 0 5 199 315 9982186502606518 9982186502612312",
    "140737488355328 140737488355328 22236523160141824 22236523160142024 0 1024 289390762860242 289390763292689",
    "281474976710656 281474976710656 0 844424930131968",
    "72057594037927936 72057594037927936 0 0 256 386 11292525515796219 11292525515798135",
    "1 1 576460752303423488 576460752303423488 0 1024 281474976710656 281474976713729",
    "1 1 0 281756451687373 0 63 281474976710656 281474976710787",
];

const AT_52: [&str; 7] = [
    "2251799813685248 2251799813685248 0 0 0 63 7425180500362903 7425180500362966",
    "4503599627370496 4503599627370497 0 3 0 63 12242053029736124 12242053029736211",
    "9007199254740992 9007199254740992 4503599627370496 4503599627370499 0 63 18014398509481866 18014398509482108",
    "90071992547409920 90071992547409922 13510798882111488 13510798882111493 16 170 94583712910508942 94583712910510588",
    "900719925474099200 900719925474099209 0 5 199 321 159714984041748405 159714984041754298",
    "2251799813685248 2251799813685248 355784370562269184 355784370562269384 0 1024 4630252206248794 4630252212186871",
    "4503599627370496 4503599627370496 0 13510798882111488",
];

/// The numbers of a row.
fn numbers(alloc: Global, row: &str) -> Result<Vec<u128>, Fail> {
    let mut list = Vec::new(alloc);
    for word in row.split_whitespace() {
        list.push(word.parse()?)?;
    }
    Ok(list)
}

/// The first weights and the sum of all equal those of a walk from index to index.
fn begins_plainly<const F: u32>(
    rt: &impl Abort,
    alloc: Global,
    mean: Iv<F>,
    excess: Iv<F>,
) -> Result<(), Fail>
    requires positive { 0 < mean.lo }
    requires mean_top { IsWithinLimit F mean }
    requires excess_top { excess.hi ≤ 2048 * 2 ^ F }
{
    let mut list = vec![in alloc; Iv64::of(Iv::exact(1))]?;
    if let Some(sum) = heads::first_weights(&mut list, mean, excess, 20)? {
        assert!(rt; plain::sum_of_weights(mean, excess) == Some(sum));
        for (x, weight) in list.as_slice().iter().enumerate().take(20) {
            assert!(rt; plain::weight_at(mean, excess, x as u32) == Some(weight.open()));
        }
    }
    Ok(())
}

fn meets<const F: u32>(rt: &impl Abort, alloc: Global, rows: &[&str]) -> Result<(), Fail>
    requires { InScale F }
{
    let most_mean = Iv::<F>::exact(256).hi();
    let most_excess = Iv::<F>::exact(2048).hi();
    for row in rows {
        let row = numbers(alloc, row)?;
        assert!(rt; row.len() >= 4);
        assert!(rt; row[0] <= row[1] && row[1] < 1 << 120);
        assert!(rt; row[2] <= row[3] && row[3] < 1 << 120);
        let mean = Iv::<F>::of_ends(row[0], row[1]);
        let excess = Iv::<F>::of_ends(row[2], row[3]);
        assert!(rt; mean.lo() > 0 && mean.hi() <= most_mean && excess.hi() <= most_excess);
        begins_plainly(rt, alloc, mean, excess)?;
        let mut found = Vec::new(alloc);
        if let Weights::Known { pivot, list, sum } = weights(alloc, mean, excess)? {
            for (x, weight) in list.as_slice().iter().enumerate().take(64) {
                assert!(rt; plain::weight_at(mean, excess, x as u32) == Some(weight.open()));
            }
            assert!(rt; plain::sum_of_weights(mean, excess) == Some(sum));
            found.push(u128::from(pivot))?;
            found.push(list.as_slice().len() as u128 - 1)?;
            found.push(sum.lo())?;
            found.push(sum.hi())?;
        }
        assert_eq!(rt; found.as_slice(), &row[4..]);
    }
    Ok(())
}

#[test]
fn meets_known_numbers(rt: HostRuntime) -> Result<(), Fail> {
    meets::<32>(&rt, rt.alloc(), &AT_32)?;
    meets::<48>(&rt, rt.alloc(), &AT_48)?;
    meets::<52>(&rt, rt.alloc(), &AT_52)
}
