//! Numbers in parts: the quotient by a divisor, and the remainder.

ghost use Rattle.std.specs.Prelude.{ℕ, ◌+◌, ◌-◌, ◌*◌, ◌^◌, ◌<◌};
ghost use Rattle.quotients.specs.Parts.{AreParts};

/// A quotient and its remainder.
#[derive(Clone, Copy, Drop)]
pub struct Parts {
    /// The quotient, rounded down.
    pub whole: u64,
    /// The remainder, which is less than the divisor.
    pub rest: u64,
}

impl Parts {
    /// The parts of `num` by `den`, by a division.
    pub fn of(num: u128, den: u64) -> Parts
        requires divisor { 0 < den }
        requires room { num < 2 ^ 63 * den }
        ensures { AreParts num den result }
    {
        let whole = num / u128::from(den);
        let rest = num - whole * u128::from(den);
        Parts {
            whole: whole as u64,
            rest: rest as u64,
        }
    }

    /// The parts of a sum, from the parts of its terms.
    #[inline(always)]
    pub fn plus(self, step: Parts, den: u64) -> Parts
        requires whole_room { self.whole < 2 ^ 63 }
        requires step_room { step.whole < 2 ^ 63 }
        requires rest { self.rest < den }
        requires step_rest { step.rest < den }
        requires room { den < 2 ^ 63 }
        ensures { (n k : ℕ) → AreParts n den self → AreParts k den step → AreParts (n + k) den result }
    {
        let whole = self.whole + step.whole;
        let rest = self.rest + step.rest;
        if rest < den {
            Parts { whole, rest }
        } else {
            Parts {
                whole: whole + 1,
                rest: rest - den,
            }
        }
    }

    /// The parts of the number with the divisor added once.
    #[inline(always)]
    pub fn once_more(self) -> Parts
        requires { self.whole < 2 ^ 63 }
        ensures { (n d : ℕ) → AreParts n d self → AreParts (n + d) d result }
    {
        Parts {
            whole: self.whole + 1,
            rest: self.rest,
        }
    }

    /// The parts of the number with the divisor added `times` times, less 1. Divided by `times`, that is the number
    /// rounded up.
    #[inline(always)]
    pub fn raised(self, times: u32, den: u64) -> Parts
        requires from { 0 < times }
        requires room { self.whole < 2 ^ 63 }
        requires rest { self.rest < den }
        ensures { (n : ℕ) → AreParts n den self → AreParts (n + times * den - 1) den result }
    {
        if self.rest == 0 {
            Parts {
                whole: self.whole + u64::from(times - 1),
                rest: den - 1,
            }
        } else {
            Parts {
                whole: self.whole + u64::from(times),
                rest: self.rest - 1,
            }
        }
    }
}
