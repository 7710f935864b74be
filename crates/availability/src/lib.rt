//! Availability: the expected share of systems with none of their line units missing, at a base and in the whole fleet.
//!
//! Base j has N systems, each with Z places for a line unit. Of these N Z places the line unit's expected backorders E
//! at the base leave E empty, so one is filled with the probability max(0, 1 - E / (N Z)), and all Z of a system with
//! its Zth power. Then
//!
//! ```text
//! availability of a base  = product over all line units of max(0, 1 - E / (N Z))^Z
//! availability of a fleet = (sum of N times availability of the base) / (sum of N)
//! ```
//!
//! These are the formulas of C. C. Sherbrooke, *Optimal Inventory Modeling of Systems*, 2nd edition. All numbers are
//! intervals. No call refuses, and none allocates memory.
#![tactic(auto)]

ghost use Rattle.std.specs.Prelude.{◌≡◌, ℕ, ◌*◌, ◌^◌, ◌≤◌, length};
ghost use Rattle.std.specs.List.{All};
ghost use Rattle.exact_model.specs.Fraction.{Fraction};
ghost use Rattle.exact_model.specs.Sums.{product_below};
ghost use Rattle.fixed_interval.specs.Ends.{In, InScale};
ghost use Rattle.availability.specs.Profile.{factor_ends, base_ends, fleet_ends};
ghost use Rattle.availability.specs.Exact.{
  AllIn,
  BasesIn,
  IsWeighted,
  factor_of,
  weighted_mean,
};

use fixed_interval::Iv;

/// A base's availability, from 0 to 1, and its weight in the fleet: the number of its systems, 1 to 10,000.
#[derive(Clone, Copy, Drop)]
pub struct Weighted<const F: u32> {
    pub systems: u32,
    pub value: Iv<F>,
}

/// The factor of a line unit in a base's availability: `max(0, 1 - E / (N Z))^Z`, from 0 to 1.
///
/// `backorders` is E, the line unit's expected backorders at the base; `systems` is N, the number of systems there, 1
/// to 10,000; and `per_system` is Z, the number of the line unit in a system, 1 to 100.
pub fn factor<const F: u32>(backorders: Iv<F>, systems: u32, per_system: u32) -> Iv<F>
    requires some_systems { 1 ≤ systems }
    requires few_systems { systems ≤ 10000 }
    requires some_units { 1 ≤ per_system }
    requires few_units { per_system ≤ 100 }
    ensures ends { result ≡ factor_ends F backorders.entry systems per_system }
    ensures encloses { (e : Fraction) → In F backorders.entry e → In F result (factor_of e systems per_system) }
    ensures most { result.hi ≤ 2 ^ F }
{
    let filled = Iv::exact(1).less(backorders.over(systems * per_system));
    let mut all = filled;
    for _k in 1..per_system {
        all = all.mul(filled);
    }
    all
}

/// A base's availability, from 0 to 1: the product of the factors of its line units, each at most 1, in this order.
pub fn base_availability<const F: u32>(factors: &[Iv<F>]) -> Iv<F>
    requires scale { InScale F }
    requires shares { All (λ x. x.hi ≤ 2 ^ F) factors.now }
    ensures ends { result ≡ base_ends F factors.now }
    ensures encloses { (q : ℕ → Fraction) → AllIn F factors.now q → In F result (product_below q (length factors.now)) }
    ensures most { result.hi ≤ 2 ^ F }
{
    let mut product = Iv::exact(1);
    for factor in factors {
        product = product.mul(*factor);
    }
    product
}

/// The availability of a fleet, from 0 to 1: the mean over its 1 to 15 bases, weighted by their systems.
pub fn fleet<const F: u32>(bases: &[Weighted<F>]) -> Iv<F>
    requires scale { InScale F }
    requires some { 1 ≤ length bases.now }
    requires few { length bases.now ≤ 15 }
    requires weighted { All (IsWeighted F) bases.now }
    ensures ends { result ≡ fleet_ends F bases.now }
    ensures encloses { (n : ℕ → ℕ) (q : ℕ → Fraction) → BasesIn F bases.now n q
        → In F result (weighted_mean n q (length bases.now)) }
    ensures most { result.hi ≤ 2 ^ F }
{
    let mut sum = Iv::exact(0);
    let mut systems = 0;
    for base in bases {
        sum = sum.add(base.value.times(base.systems));
        systems += base.systems;
    }
    sum.over(systems)
}
