//! An edits file: changes and plans, line by line.

ghost use Rattle.std.specs.Prelude.{◌≡◌, ◌≤◌, List, All, IfOk, OnOk};
ghost use Rattle.std.specs.List.{AllZip};
ghost use Rattle.std.specs.Result.{IsOk};
ghost use Rattle.spares_input.specs.Cases.{frame_rows};
ghost use Rattle.family_points.specs.Counts.{work_of};
ghost use Rattle.plan_report.specs.Fits.{FitsPlan};
ghost use Rattle.case_edits.specs.Lines.{IsEditOf};
ghost use Rattle.case_edits.specs.Edits.{PlanDue};
ghost use Rattle.case_edits.specs.Edits.{carried, most_lines, planned, session_of, taken};
ghost use Rattle.demand_rates.specs.Limits.{rate_fault_of};
ghost use Rattle.session_report.specs.Reports.{IsReportOf};
ghost use Rattle.session_plans.specs.Answers.{AnswersEdits};
ghost use Rattle.session_plans.specs.Following.{standing, Follows};
ghost use Rattle.session_plans.specs.Sessions.{started};

use crate::session::Session;
use answers::{List, NoMemory, Stop};
use case_edits::{Edit, EditFault, edit_in, first_line};
use held_plan::CurveMaker;
use plan_report::PlanReport;
use session_report::SessionReport;
use spares_input::Case;
use std::alloc::Global;

/// The largest count of lines in an edits file.
const MOST_LINES: u32 = 4000;

/// The largest count of plans in an edits file.
const MOST_PLANS: usize = 64;

/// The plans that an edits file asks for, or the file's first fault. The session begins with this case and a budget of
/// 0, and the maker makes the parts of its curves. The lines and the order of their faults are those of
/// `plan_session::run_edits`. The work of the case is within its limit.
pub fn run_edits_by<M: CurveMaker>(
    alloc: Global,
    case: Case,
    bytes: &[u8],
    maker: &M,
) -> Result<SessionReport, Stop<EditFault>>
    requires work { IsOk (work_of case) }
    ensures answer { AnswersEdits (session_of case bytes.now) result }
    ensures fits { IfOk result (λ report. All FitsPlan report.plans) }
{
    match Session::new(alloc, case, 0) {
        Ok(mut session) => followed(alloc, &mut session, bytes, maker),
        Err(NoMemory) => Err(Stop::NoMemory),
    }
}

/// The plans that the lines of an edits file ask for, in a new session.
fn followed<M: CurveMaker>(
    alloc: Global,
    session: &mut Session,
    bytes: &[u8],
    maker: &M,
) -> Result<SessionReport, Stop<EditFault>>
    requires { session.old ≡ started session.old.case 0 }
    ensures answer { AnswersEdits (session_of session.old.case bytes.now) result }
    ensures fits { IfOk result (λ report. All FitsPlan report.plans) }
{
    let mut plans = Vec::new(alloc);
    let mut rest = bytes;
    let mut line = 0;
    while !rest.is_empty() {
        let (text, left) = first_line(rest);
        line += 1;
        take(session, &mut plans, line, text, maker)?;
        rest = left;
    }
    Ok(SessionReport {
        plans: List::of(plans),
    })
}

/// Takes one line, empty or not.
fn take<M: CurveMaker>(
    session: &mut Session,
    plans: &mut Vec<PlanReport>,
    line: u32,
    text: &[u8],
    maker: &M,
) -> Result<(), Stop<EditFault>>
    ensures due { (due : List PlanDue) → AllZip IsReportOf due plans.old.items
        → Follows (taken line (standing session.old due) text.now) session.new plans.new.items result }
    ensures within { OnOk result (line ≤ most_lines) }
{
    if line > MOST_LINES {
        return Err(Stop::Fault(EditFault::TooManyLines));
    }
    if text.is_empty() {
        return Ok(());
    }
    match edit_in(session.frame(), text) {
        Some(edit) => carry_out(session, plans, line, edit, maker),
        None => Err(Stop::Fault(EditFault::BadLine(line))),
    }
}

/// Carries out the edit of a line.
fn carry_out<M: CurveMaker>(
    session: &mut Session,
    plans: &mut Vec<PlanReport>,
    line: u32,
    edit: Edit,
    maker: &M,
) -> Result<(), Stop<EditFault>>
    requires { IsEditOf (frame_rows session.old.case) edit }
    ensures { (due : List PlanDue) → AllZip IsReportOf due plans.old.items
        → Follows (carried line (standing session.old due) edit) session.new plans.new.items result }
{
    match edit {
        Edit::Budget(budget) => session.set_budget(budget),
        Edit::Rate(row) => session.set_rate(row),
        Edit::Plan => return put_plan(session, plans, line, maker),
    }
    Ok(())
}

/// Plans at this line.
fn put_plan<M: CurveMaker>(
    session: &mut Session,
    plans: &mut Vec<PlanReport>,
    line: u32,
    maker: &M,
) -> Result<(), Stop<EditFault>>
    ensures { (due : List PlanDue) → AllZip IsReportOf due plans.old.items
        → Follows (planned line (standing session.old due) (rate_fault_of session.old.case)) session.new plans.new.items
        result }
{
    if plans.len() >= MOST_PLANS {
        return Err(Stop::Fault(EditFault::TooManyPlans(line)));
    }
    match session.report(maker) {
        Ok(report) => {
            plans.push(report)?;
            Ok(())
        }
        Err(Stop::Fault(fault)) => Err(Stop::Fault(EditFault::Rate(line, fault))),
        Err(Stop::NoMemory) => Err(Stop::NoMemory),
    }
}
