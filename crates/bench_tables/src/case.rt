//! A case: a count of tables, and their moments.

use anyhow::{Context, anyhow};
use fixed_interval::Iv;
use moment_table::{put_backorders, table};
use series_bounds::short::Iv64;
use std::alloc::Global;

/// The largest mean or variance, in ten-thousandths.
const MOST: u32 = 2_560_000;

/// The count of tables, and the mean and the variance of the first, in ten-thousandths.
#[derive(Clone, Copy, Drop)]
pub struct Case {
    pub count: u32,
    pub mean: u32,
    pub variance: u32,
}

impl Case {
    /// The case of three words.
    pub fn read(count: &str, mean: &str, variance: &str) -> anyhow::Result<Case> {
        Ok(Case {
            count: count.parse().context("COUNT")?,
            mean: mean.parse().context("MEAN")?,
            variance: variance.parse().context("VARIANCE")?,
        })
    }

    /// The checksum of all tables, from two ends of each: the lower end of the backorders at 7, and the upper end of
    /// their variance at 9.
    pub fn checksum(self, alloc: Global) -> anyhow::Result<u128> {
        let mut sum = 0;
        for i in 0..self.count {
            sum ^= ends(
                alloc,
                moment(self.mean, i % 97)?,
                moment(self.variance, i % 89)?,
            )?;
        }
        Ok(sum)
    }
}

/// The moment of `units` and `more` ten-thousandths.
fn moment(units: u32, more: u32) -> anyhow::Result<Iv<48>> {
    if units > MOST || more > MOST - units {
        return Err(anyhow!("a moment is at most {MOST}"));
    }
    Ok(Iv::of_ratio(u128::from(units + more), 10_000))
}

/// Two ends of one table, if a mean and a variance of these sizes have one.
fn ends(alloc: Global, mean: Iv<48>, variance: Iv<48>) -> anyhow::Result<u128> {
    let most = Iv::<48>::exact(256).hi();
    if mean.hi() > most || variance.hi() > most {
        return Err(anyhow!("the mean and the variance are at most 256"));
    }
    let room = mean.lo() * 2048;
    if mean.hi() > room || variance.hi() > room {
        return Err(anyhow!("the variance is at most 2048 times the mean"));
    }
    let table = table(alloc, mean, variance).map_err(|_| anyhow!("out of memory"))?;
    Ok(table.ebo(7).lo() ^ table.vbo(9).hi())
}

/// The checksum of `count` lists, from the ends of the last backorders of each. List number i has a mean from 0.3 to 6,
/// and a variance from 1 to 1.3 times the mean.
pub fn backorders_checksum(alloc: Global, count: u32) -> anyhow::Result<u128> {
    let mut sum = 0;
    let mut found = Vec::new(alloc);
    for i in 0..count {
        let mean = 3_000 + i % 7_919 * 7;
        let variance = mean / 10 * (10 + i % 4);
        sum ^= last_ends(&mut found, moment(mean, 1)?, moment(variance, 3)?)?;
    }
    Ok(sum)
}

/// The ends of the backorders at the stock 5, if a mean and a variance of these sizes have a table.
fn last_ends(found: &mut Vec<Iv64<48>>, mean: Iv<48>, variance: Iv<48>) -> anyhow::Result<u128> {
    let most = Iv::<48>::exact(256).hi();
    if mean.hi() > most || variance.hi() > most {
        return Err(anyhow!("the mean and the variance are at most 256"));
    }
    let room = mean.lo() * 2048;
    if mean.hi() > room || variance.hi() > room {
        return Err(anyhow!("the variance is at most 2048 times the mean"));
    }
    put_backorders(found, mean, variance, 5).map_err(|_| anyhow!("out of memory"))?;
    let last = found[5].open();
    Ok(last.lo() ^ (last.hi() % (1 << 64) * 8))
}
