//! The laws of every demonstration case.

ghost use Rattle.std.specs.Prelude.{◌≡◌, ◌≤◌, ◌*◌, ℕ, None};
ghost use Rattle.spares_input.specs.Cases.{CaseRows, IsCase};
ghost use Rattle.case_maker.specs.Demonstration.{made};
ghost use Rattle.case_maker.specs.Ranges.{IsDrawn};
ghost use Rattle.demand_rates.specs.Limits.{rate_fault_of};
ghost use Rattle.family_points.specs.Counts.{work_of};
ghost use Rattle.demo_accepts.specs.Tables.{HasFewTables, all_tables};

/// No pipeline of a demonstration case is refused, nor of any other case whose fields are all in the ranges of the
/// draws.
pub fn demonstrations_are_accepted()
    ensures drawn { (c : CaseRows) → IsCase c → IsDrawn c → rate_fault_of c ≡ None }
    ensures made { (number lines : ℕ) → lines ≤ 80 → rate_fault_of (made number lines) ≡ None }
{}

/// A family of a demonstration case takes at most 142 tables, and 80 families together at most 11,360, which is within
/// the limit of a plan's work.
pub fn demonstrations_take_few_tables()
    ensures family { (number lines : ℕ) → lines ≤ 80 → HasFewTables 142 (made number lines) }
    ensures all { (number lines : ℕ) → lines ≤ 80 → all_tables (made number lines) ≤ 142 * lines }
    ensures work { (number lines : ℕ) → lines ≤ 80 → work_of (made number lines) ≡ Ok (all_tables (made number lines)) }
{}
