//! Scores: the figure that is added up over the bases.

ghost use Rattle.std.specs.Prelude.{◌≡◌, ℕ, ◌^◌, ◌<◌};
ghost use Rattle.exact_model.specs.Fraction.{Fraction};
ghost use Rattle.fixed_interval.specs.Ends.{Ends, ends_times};
ghost use Rattle.hull.specs.Scores.{InLimits, EnclosesValue, IsLowScore, LeavesRoom, weighted};

use fixed_interval::Iv;

/// The score of a line unit's backorders at a base. It has two meanings: an interval, which `of` returns, and a
/// fraction, which the interval encloses.
pub trait Score {
    /// The interval for a base's systems, the units per system, the line unit's weight, and an interval of backorders.
    ghost ends: { ℕ → ℕ → ℕ → Ends → Ends };

    /// The exact score for these numbers, a backorder value and a depth of the cut series.
    ghost value: { ℕ → ℕ → ℕ → Fraction → ℕ → Fraction };

    /// The score of an interval of backorders, in units of 2^-48, with an upper end of at most 2^56. `systems` is 1 to
    /// 10,000, `per_system` 1 to 100, `weight` 1 to 100. The upper end of the score is below 2^70.
    fn of(&self, systems: u32, per_system: u32, weight: u8, backorders: Iv<48>) -> Iv<48>
        requires { InLimits systems per_system weight backorders }
        ensures ends { result ≡ ends systems per_system weight backorders }
        ensures room { result.hi < 2 ^ 70 };

    /// A lower bound on the score, from a lower bound on the backorders: at most the lower end that `of` answers for
    /// each interval of backorders that begins at `low` or above. Both are in units of 2^-48.
    fn low(&self, systems: u32, per_system: u32, weight: u8, low: u64) -> u128
        ensures { IsLowScore ends systems per_system weight low result };

    /// The interval encloses the value, for each backorder value in the given one.
    ghost encloses: { EnclosesValue ends value };

    /// If the given interval is in order, so is the score, and its upper end is below 2^70.
    ghost leaves_room: { LeavesRoom ends };
}

/// The backorders, multiplied by the line unit's weight.
#[derive(Clone, Copy, Debug, Drop, PartialEq, Eq)]
pub struct Plain;

impl Score for Plain {
    ghost use Rattle.std.proofs.Common.{arith};
    ghost use Rattle.std.proofs.Math.Nat.{mul-le-mul_left};
    ghost use Rattle.fixed_interval.proofs.Public.{times_encloses};

    ghost ends = { λ _ _ weight backorders. ends_times backorders weight };

    ghost value = { λ _ _ weight x _. weighted weight x };

    fn of(&self, _systems: u32, _per_system: u32, weight: u8, backorders: Iv<48>) -> Iv<48> {
        backorders.times(u32::from(weight))
    }

    fn low(&self, _systems: u32, _per_system: u32, weight: u8, low: u64) -> u128 {
        u128::from(low) * u128::from(weight)
    }

    ghost encloses = { λ _ _ weight backorders x _ inside _ _. times_encloses 48 backorders weight x inside };

    ghost leaves_room = { λ _ _ weight backorders limits ordered. (
      Prim.omega (arith, mul-le-mul_left weight ordered),
      Prim.omega (arith, mul-le-mul_left weight limits.room, limits.most_weight),
    ) };
}
