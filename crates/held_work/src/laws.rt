//! Laws of work and curves if nothing is held.

ghost use Rattle.std.specs.Prelude.{◌≡◌, ℕ, List, [], sum_by};
ghost use Rattle.spares_input.specs.Cases.{CaseRows, IsCase};
ghost use Rattle.fleet_model.specs.Rows.{line_units};
ghost use Rattle.family_points.specs.Counts.{tables_of, work_of};
ghost use Rattle.family_points.specs.Points.{ScoreEnds};
ghost use Rattle.fleet_plan.specs.Families.{case_points};
ghost use Rattle.held_work.specs.Work.{held_work_of, tables_from, IsNothing};

/// If nothing is held, the tables, the work and the points are those of all vectors.
pub fn nothing_held_is_all()
    ensures tables { (c : CaseRows) (held : List ℕ) → IsCase c → IsNothing held
        → tables_from c held ≡ sum_by (tables_of c) (line_units c) }
    ensures work { (c : CaseRows) (held : List ℕ) → IsCase c → IsNothing held → held_work_of c held ≡ work_of c }
    ensures points { (ends : ScoreEnds) (c : CaseRows) (held : List ℕ) → IsNothing held
        → case_points ends c held ≡ case_points ends c [] }
{}
