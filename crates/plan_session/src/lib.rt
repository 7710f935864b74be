//! The command `session`: a session's plans, with the parts that `on_hand` makes of the families' curves.
#![tactic(auto)]

ghost use Rattle.std.specs.Prelude.{All, IfOk};
ghost use Rattle.std.specs.Result.{IsOk};
ghost use Rattle.family_points.specs.Counts.{work_of};
ghost use Rattle.plan_report.specs.Fits.{FitsPlan};
ghost use Rattle.case_edits.specs.Edits.{session_of};
ghost use Rattle.session_plans.specs.Answers.{AnswersEdits};

use answers::Stop;
use on_hand::FamilyCurves;
use session_plans::run_edits_by;
pub use session_plans::{EditFault, Session, SessionReport};
use spares_input::Case;
use std::alloc::Global;

/// The plans that an edits file asks for, or the file's first fault. The session begins with this case and a budget of
/// 0.
///
/// The lines are `budget,N`, `plan`, and `rate,` with the fields of a row of rates. They are taken in order, and each
/// plan is the plan of the case and the budget at that line. At each line the faults come in this order: line 4,001; a
/// line of no such form; the 65th plan; a plan with refused rates. The work of the case is within its limit.
pub fn run_edits(alloc: Global, case: Case, bytes: &[u8]) -> Result<SessionReport, Stop<EditFault>>
    requires work { IsOk (work_of case) }
    ensures answer { AnswersEdits (session_of case bytes.now) result }
    ensures fits { IfOk result (λ report. All FitsPlan report.plans) }
{
    run_edits_by(alloc, case, bytes, &FamilyCurves)
}
