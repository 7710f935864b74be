//! Shares of a sum for many weights, mostly without a division.

ghost use Rattle.std.specs.Prelude.{◌≡◌, ◌*◌, ◌^◌, ◌<◌, ◌≤◌};
ghost use Rattle.fixed_interval.specs.Ends.{ends_div};
ghost use Rattle.moment_table.specs.Shares.{AreEnds};

use fixed_interval::Iv;
use quotients::Divisor;
use series_bounds::short::Iv64;
use std::marker::Model;

/// The ends of a sum as divisors.
#[derive(Drop)]
pub(crate) struct Divisors<const F: u32> {
    lower: Divisor<F>,
    upper: Divisor<F>,
}

impl<const F: u32> Divisors<F> {
    /// The ends of a sum, each as a divisor.
    #[inline(always)]
    fn of(sum: Iv<F>) -> Divisors<F>
        requires least { 2 ^ F ≤ sum.lo }
        requires most { sum.hi < 2 ^ 63 }
        ensures { AreEnds F sum.entry result }
    {
        let upper = Divisor::of(sum.hi() as u64);
        let lower = upper.beside(sum.lo() as u64);
        Divisors { lower, upper }
    }
}

/// A sum as the divisor of many shares, with its ends as divisors if they have at most 63 bits. Contracts see the sum.
#[derive(Drop)]
pub(crate) struct Shares<const F: u32> {
    sum: Iv<F>,
    divisors: Option<Divisors<F>>,
}

impl<const F: u32> Model for Shares<F> {
    ghost use Rattle.std.specs.Prelude.{IfSome};
    ghost use Rattle.fixed_interval.specs.Ends.{Ends};
    ghost use Rattle.moment_table.specs.Shares.{AreEnds};

    ghost Value = { Ends };

    ghost view = { λ s. s.sum };

    ghost invariant = { λ s. IfSome s.divisors (AreEnds F s.sum) };
}

impl<const F: u32> Shares<F> {
    /// The shares of a sum.
    #[inline(always)]
    pub(crate) fn of(sum: Iv<F>) -> Shares<F>
        requires { 2 ^ F ≤ sum.lo }
        ensures { result ≡ sum.entry }
    {
        let divisors = if sum.hi() < 1 << 63 {
            Some(Divisors::of(sum))
        } else {
            None
        };
        Shares { sum, divisors }
    }

    /// `weight / sum`.
    #[inline(always)]
    pub(crate) fn share(&self, weight: Iv64<F>) -> Iv64<F>
        requires top { weight.hi ≤ 8 * 2 ^ F }
        requires least { 2 ^ F ≤ self.now.lo }
        ensures { result ≡ ends_div F weight.entry self.now }
    {
        match &self.divisors {
            Some(divisors) => weight.over(divisors.lower, divisors.upper),
            None => Iv64::of(weight.open().div(self.sum)),
        }
    }
}
