//! The figures of a pipeline at one stock after another, from known weights.

ghost use Rattle.std.specs.Prelude.{◌≡◌, ℕ, ◌+◌, ◌*◌, ◌^◌, ◌<◌, ◌≤◌, List};
ghost use Rattle.fixed_interval.specs.Ends.{Ends, IsWithinLimit};
ghost use Rattle.series_bounds.specs.Answer.{at_place};
ghost use Rattle.moment_table.specs.Stored.{stored_row};
ghost use Rattle.moment_table.specs.Profile.{known_row, tail_ends};
ghost use Rattle.moment_table.specs.Running.{AreSmall, IsFalling, IsRunning};

use crate::kinds::Row;
use crate::shares::Shares;
use crate::stored::StoredRow;
use fixed_interval::Iv;
use series_bounds::short::Iv64;

/// The expected backorders at a stock before its tail is known, and the sums that its tail needs.
#[derive(Drop)]
pub(crate) struct Falling<const F: u32> {
    /// The expected backorders.
    expected: Iv64<F>,
    /// The probability of fewer units in the pipeline than the stock.
    below: Iv64<F>,
    /// The shares of the sum of all weights.
    shares: Shares<F>,
}

impl<const F: u32> Falling<F> {
    /// The start, at the stock 0.
    #[inline(always)]
    pub(crate) fn first(mean: Iv<F>, sum: Iv<F>) -> Falling<F>
        requires mean_top { IsWithinLimit F mean }
        requires sum { 2 ^ F ≤ sum.lo }
        ensures falling { (list : List Ends) → IsFalling F mean.entry list sum.entry 0 result }
        ensures small { AreSmall F 0 result }
    {
        Falling {
            expected: Iv64::of(mean),
            below: Iv64::of(Iv::exact(0)),
            shares: Shares::of(sum),
        }
    }

    /// The expected backorders at the stock, which don't depend on its weight.
    #[inline(always)]
    pub(crate) fn expected(&self) -> Iv64<F>
        ensures { result ≡ self.now.expected }
    {
        self.expected
    }

    /// The tail at the stock `s`, from the weight there. Moves on to the next stock.
    #[inline(always)]
    pub(crate) fn step(&mut self, weight: Iv64<F>, s: u32) -> Iv64<F>
        requires stock { s < 64 }
        requires top { weight.hi ≤ 8 * 2 ^ F }
        requires small { AreSmall F s self.old }
        ensures small { AreSmall F (s + 1) self.new }
        ensures part { result.hi ≤ 2 ^ F }
        ensures falling { (m sum : Ends) (list : List Ends) → weight.entry ≡ at_place list s
            → IsFalling F m list sum s self.old → IsFalling F m list sum (s + 1) self.new }
        ensures tail { (m sum : Ends) (list : List Ends) → weight.entry ≡ at_place list s
            → IsFalling F m list sum s self.old → result ≡ tail_ends F list sum s }
    {
        self.below = self.below.add(self.shares.share(weight));
        let tail = self.below.up_to_one().left_of_one();
        self.expected = self.expected.less(tail);
        tail
    }
}

/// The same, with the variance of the backorders.
#[derive(Drop)]
pub(crate) struct Running<const F: u32> {
    falling: Falling<F>,
    /// The variance of the backorders.
    spread: Iv64<F>,
}

impl<const F: u32> Running<F> {
    /// The start, at the stock 0.
    #[inline(always)]
    pub(crate) fn first(mean: Iv<F>, variance: Iv<F>, sum: Iv<F>) -> Running<F>
        requires mean_top { IsWithinLimit F mean }
        requires variance_top { IsWithinLimit F variance }
        requires sum { 2 ^ F ≤ sum.lo }
        ensures running { (list : List Ends) → IsRunning F mean.entry variance.entry list sum.entry 0 result }
        ensures small { AreSmall F 0 result.falling }
    {
        Running {
            falling: Falling::first(mean, sum),
            spread: Iv64::of(variance.max_of(mean)),
        }
    }

    /// The stored row at the stock, which doesn't depend on its weight.
    #[inline(always)]
    pub(crate) fn stored(&self) -> StoredRow<F>
        ensures { (m v sum : Ends) (list : List Ends) (s : ℕ) → IsRunning F m v list sum s self.now
            → result ≡ stored_row (known_row F m v list sum s) }
    {
        StoredRow {
            ebo: self.falling.expected(),
            vbo: self.spread,
        }
    }

    /// The tail at the stock `s`, from the weight there. Moves on to the next stock.
    #[inline(always)]
    pub(crate) fn step(&mut self, weight: Iv64<F>, s: u32) -> Iv64<F>
        requires stock { s < 64 }
        requires top { weight.hi ≤ 8 * 2 ^ F }
        requires small { AreSmall F s self.old.falling }
        ensures small { AreSmall F (s + 1) self.new.falling }
        ensures running { (m v sum : Ends) (list : List Ends) → weight.entry ≡ at_place list s
            → IsRunning F m v list sum s self.old → IsRunning F m v list sum (s + 1) self.new }
        ensures tail { (m v sum : Ends) (list : List Ends) → weight.entry ≡ at_place list s
            → IsRunning F m v list sum s self.old → result ≡ (known_row F m v list sum s).tail }
    {
        let tail = self.falling.step(weight, s);
        let twice = self.falling.expected().twice();
        let fall = twice.add(tail).times_part(tail.left_of_one());
        self.spread = self.spread.less(fall);
        tail
    }

    /// The row at the stock `s`, from the weight there. Moves on to the next stock.
    pub(crate) fn row(&mut self, weight: Iv64<F>, s: u32) -> Row<F>
        requires stock { s < 64 }
        requires top { weight.hi ≤ 8 * 2 ^ F }
        requires small { AreSmall F s self.old.falling }
        ensures { (m v sum : Ends) (list : List Ends) → weight.entry ≡ at_place list s
            → IsRunning F m v list sum s self.old → result ≡ known_row F m v list sum s }
    {
        let stored = self.stored();
        let tail = self.step(weight, s);
        Row {
            ebo: stored.ebo.open(),
            vbo: stored.vbo.open(),
            tail: tail.open(),
        }
    }
}
