//! A guess of the price at which a budget is spent. It may be wrong: no clause says more than its range.
//!
//! Prices are numbered, each about a fifth above the one before.

ghost use Rattle.std.specs.Prelude.{◌≡◌, ◌+◌, ◌*◌, ◌/◌, ◌%◌, ◌^◌, ◌<◌, ◌≤◌, All, IfOk, IfSome, map};
ghost use Rattle.family_items.specs.Inputs.{IsLine};
ghost use Rattle.family_points.specs.Vectors.{box_from};
ghost use Rattle.family_rows.specs.Sources.{AreSources};

use crate::families::HeldFamilies;
use crate::maker::CurveMaker;
use crate::sample::{bounds_of, families_of, sources_of};
use crate::size::{size_of, size_of_all};
use answers::NoMemory;
use family_points::Bounds;
use family_rows::sources::Sources;
use hull::Score;
use spares_input::PartId;
use std::alloc::Global;

/// The number of the lowest price that is tried.
const FIRST: u32 = 24;

/// The number of the highest price that is tried.
const LAST: u32 = 276;

/// The price of a number, in units of 2^-48 for whole money.
fn price_at(number: u32) -> u128
    requires first { 24 ≤ number }
    requires last { number ≤ 279 }
    ensures price { result ≡ (4 + number % 4) * 2 ^ (number / 4) }
    ensures least { 256 ≤ result }
    ensures most { result < 2 ^ 72 }
{
    u128::from(4 + number % 4) << (number / 4)
}

/// About what is best at a price costs in all, by each `every`-th of some families. `size` is about what all units of
/// all families in pipelines cost.
fn cost_of_all<S: Score, M: CurveMaker>(
    alloc: Global,
    sources: &[Sources<'_>],
    score: &S,
    maker: &M,
    every: usize,
    number: u32,
    size: u128,
) -> Result<u128, NoMemory>
    requires sources { All AreSources sources.now }
    requires every { 0 < every }
    requires first { 24 ≤ number }
    requires last { number ≤ 277 }
{
    let price = price_at(number);
    let mut cost: u128 = 0;
    let mut taken: u128 = 0;
    for k in 0..sources.len() {
        if k % every == every / 2 {
            let family = sources[k].family;
            cost = cost.saturating_add(maker.cost_near(alloc, &sources[k], score, price)?);
            taken = taken.saturating_add(size_of(family.case(), family.rates(), family.line()));
        }
    }
    Ok(cost.saturating_mul(size) / taken.max(1))
}

/// The number of about the highest price at which a quarter or so of the families suggests a cost above the budget.
fn guess_by_few<S: Score, M: CurveMaker>(
    alloc: Global,
    sources: &[Sources<'_>],
    score: &S,
    maker: &M,
    size: u128,
    budget: u64,
) -> Result<u32, NoMemory>
    requires sources { All AreSources sources.now }
    ensures first { IfOk result (λ number. 24 ≤ number) }
    ensures last { IfOk result (λ number. number ≤ 276) }
{
    let every = (sources.len() / 4).max(1);
    let mut number = FIRST;
    let mut above = LAST;
    for _ in 0..8 {
        let middle = (number + above) / 2;
        if cost_of_all(alloc, sources, score, maker, every, middle, size)? > u128::from(budget) {
            number = middle;
        } else {
            above = middle;
        }
    }
    Ok(number)
}

/// About the price at which the budget is spent, between that of a number and the next one: what is best at these costs
/// about `upper` and `lower` in all.
fn price_between(number: u32, upper: u128, lower: u128, budget: u64) -> u128
    requires first { 24 ≤ number }
    requires last { number ≤ 276 }
    ensures least { 256 ≤ result }
    ensures most { result < 2 ^ 72 }
{
    let (first, last) = (price_at(number), price_at(number + 1));
    let part = upper.saturating_sub(u128::from(budget));
    let whole = upper.saturating_sub(lower).max(1);
    let above = last.saturating_sub(first).saturating_mul(part) / whole;
    first.saturating_add(above).max(first).min(last.max(first))
}

/// About the price from that of `number` up at which the families suggest that the budget is spent.
fn step_up<S: Score, M: CurveMaker>(
    alloc: Global,
    sources: &[Sources<'_>],
    score: &S,
    maker: &M,
    number: u32,
    upper: u128,
    size: u128,
    budget: u64,
) -> Result<u128, NoMemory>
    requires sources { All AreSources sources.now }
    requires first { 24 ≤ number }
    requires last { number ≤ 276 }
    ensures least { IfOk result (λ price. 256 ≤ price) }
    ensures most { IfOk result (λ price. price < 2 ^ 72) }
{
    let mut upper = upper;
    for n in number..LAST {
        let lower = cost_of_all(alloc, sources, score, maker, 1, n + 1, size)?;
        if lower <= u128::from(budget) {
            return Ok(price_between(n, upper, lower, budget));
        }
        upper = lower;
    }
    Ok(price_at(LAST))
}

/// About the price from that of `number` down at which the families suggest that the budget is spent.
fn step_down<S: Score, M: CurveMaker>(
    alloc: Global,
    sources: &[Sources<'_>],
    score: &S,
    maker: &M,
    number: u32,
    lower: u128,
    size: u128,
    budget: u64,
) -> Result<u128, NoMemory>
    requires sources { All AreSources sources.now }
    requires first { 24 ≤ number }
    requires last { number ≤ 276 }
    ensures least { IfOk result (λ price. 256 ≤ price) }
    ensures most { IfOk result (λ price. price < 2 ^ 72) }
{
    let mut lower = lower;
    for down in 0..number - FIRST {
        let n = number - 1 - down;
        let upper = cost_of_all(alloc, sources, score, maker, 1, n, size)?;
        if upper > u128::from(budget) {
            return Ok(price_between(n, upper, lower, budget));
        }
        lower = upper;
    }
    Ok(price_at(FIRST))
}

/// About the price at which the budget is spent, by some families. None if nearly all is bought.
fn guess_by<S: Score, M: CurveMaker>(
    alloc: Global,
    sources: &[Sources<'_>],
    score: &S,
    maker: &M,
    size: u128,
    budget: u64,
) -> Result<Option<u128>, NoMemory>
    requires sources { All AreSources sources.now }
    ensures least { IfOk result (λ found. IfSome found (λ price. 256 ≤ price)) }
    ensures most { IfOk result (λ found. IfSome found (λ price. price < 2 ^ 72)) }
{
    let number = guess_by_few(alloc, sources, score, maker, size, budget)?;
    if number == FIRST {
        return Ok(None);
    }
    let cost = cost_of_all(alloc, sources, score, maker, 1, number, size)?;
    let price = if cost > u128::from(budget) {
        step_up(alloc, sources, score, maker, number, cost, size, budget)?
    } else {
        step_down(alloc, sources, score, maker, number, cost, size, budget)?
    };
    Ok(Some(price))
}

/// The same, by the families of line units within these bounds. Their sources are made once and serve all prices.
fn guess_within<S: Score, M: CurveMaker>(
    alloc: Global,
    families: &HeldFamilies<'_, S, M>,
    lines: &[PartId],
    bounds: &[Bounds],
    size: u128,
    budget: u64,
) -> Result<Option<u128>, NoMemory>
    requires lines { All (λ p. IsLine families.now.case p.0) lines.now }
    requires bounds { bounds.now ≡ map (λ p. box_from families.now.case p.0 families.now.held.list) lines.now }
    ensures least { IfOk result (λ found. IfSome found (λ price. 256 ≤ price)) }
    ensures most { IfOk result (λ found. IfSome found (λ price. price < 2 ^ 72)) }
{
    let (case, rates, held) = (families.case(), families.rates(), families.held());
    let sampled = families_of(alloc, case, rates, held, lines, bounds)?;
    let sources = sources_of(alloc, sampled.as_slice())?;
    guess_by(
        alloc,
        sources.as_slice(),
        families.score(),
        families.maker(),
        size,
        budget,
    )
}

/// About what all units of all families in pipelines cost.
fn size_of_families<S: Score, M: CurveMaker>(
    alloc: Global,
    families: &HeldFamilies<'_, S, M>,
) -> Result<u128, NoMemory> {
    let lines = families.sample(alloc, 1)?;
    Ok(size_of_all(families.case(), families.rates(), lines.as_slice()))
}

/// About the price at which the budget is spent, in units of 2^-48 for whole money, by a sample of the families. None
/// if nearly all is bought. Want of memory is the only error.
pub(crate) fn guess<S: Score, M: CurveMaker>(
    alloc: Global,
    families: &HeldFamilies<'_, S, M>,
    budget: u64,
) -> Result<Option<u128>, NoMemory>
    ensures least { IfOk result (λ found. IfSome found (λ price. 256 ≤ price)) }
    ensures most { IfOk result (λ found. IfSome found (λ price. price < 2 ^ 72)) }
{
    let count = families.count();
    let every = (count / (count / 20).max(16)).max(1);
    let size = size_of_families(alloc, families)?;
    let lines = families.sample(alloc, every)?;
    let bounds = bounds_of(alloc, families.case(), families.held(), lines.as_slice())?;
    guess_within(
        alloc,
        families,
        lines.as_slice(),
        bounds.as_slice(),
        size,
        budget,
    )
}
