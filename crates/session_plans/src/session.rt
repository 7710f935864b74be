//! The case and the budget of a session, with the kept curves, parts of curves and evaluations.

ghost use Rattle.std.specs.Prelude.{◌≡◌, ◌<◌, ◌≤◌, [], None, true, not, length, get_or, replicate, is_none, All, IfOk, IfSome, IsSome};
ghost use Rattle.std.specs.Result.{IsOk};
ghost use Rattle.spares_input.specs.Cases.{frame_rows, IsRateOf};
ghost use Rattle.fleet_model.specs.Rows.{line_units};
ghost use Rattle.demand_rates.specs.Rates.{AreRatesOf};
ghost use Rattle.family_points.specs.Counts.{work_of};
ghost use Rattle.held_work.specs.Curves.{IsFamilyCurve};
ghost use Rattle.spares_input.specs.Money.{most_budget};
ghost use Rattle.family_points.specs.Points.{plain_ends};
ghost use Rattle.session_report.specs.Reports.{IsReportOf};
ghost use Rattle.session_plans.specs.Sessions.{due, has_mark, started, with_budget, with_row, AnswersPlan, AreEvaluated, AreKept, ArePartsKept, IsLater};

use crate::evaluated::{Evaluated, nothing_evaluated, report_of};
use crate::kept::{chosen_by, chosen_by_parts, keep_all, nothing_kept, place_of};
use answers::{NoMemory, Stop};
use demand_rates::kinds::Rates;
use demand_rates::{RateFault, rates};
use held_plan::{CurveMaker, KeptParts};
use hull::{Curve, Price};
use plan_report::PlanReport;
use spares_input::{Case, Frame, RateRow};
use std::alloc::Global;
use std::marker::Model;

/// A case and a budget, with the curve of each marked family, the parts of curves that the last plans used, and the
/// evaluations of the last plan. The search for the next price begins a little above that of the last plan.
///
/// Its model is the case, the budget and one mark for each family. The mark is on if the family's curve is kept.
#[derive(Drop)]
pub struct Session {
    case: Case,
    budget: u64,
    curves: Vec<Option<Curve>>,
    parts: KeptParts,
    evaluated: Evaluated,
    near: u128,
}

impl Model for Session {
    ghost use Rattle.session_plans.specs.Sessions.{marks_of, SessionRows, IsSession};

    ghost Value = { SessionRows };

    ghost view = { λ s. record { case = s.case; budget = s.budget; marks = marks_of s.curves.items } };

    ghost invariant = { λ s. IsSession s.case s.budget s.curves.items s.parts s.evaluated };
}

/// A price a little above another, in units of 2^-48 for whole money.
fn above(price: Price) -> u128 {
    if price.q == 0 {
        return 0;
    }
    let whole = price.p / u128::from(price.q);
    whole.saturating_add(whole / 32)
}

/// What a session keeps before its first plan: no curve, no part of a curve, no evaluation.
fn nothing_known(
    alloc: Global,
    case: &Case,
) -> Result<(Vec<Option<Curve>>, KeptParts, Evaluated), NoMemory>
    ensures curves { IfOk result (λ known. known.0.items ≡ replicate (length (line_units case.now)) None) }
    ensures parts { IfOk result (λ known. ArePartsKept case.now known.1) }
    ensures evaluated { IfOk result (λ known. AreEvaluated case.now known.2) }
{
    let curves = nothing_kept(alloc, case)?;
    let parts = KeptParts::new(alloc, curves.len())?;
    let evaluated = nothing_evaluated(alloc, case)?;
    Ok((curves, parts, evaluated))
}

/// The report of the plan of these curves, which are all there. The search for the price begins near the last plan's,
/// and only the families whose stocks differ from its stocks are evaluated.
fn report_near(
    alloc: Global,
    case: &Case,
    rates: &Rates,
    curves: &mut [Option<Curve>],
    budget: u64,
    near: &mut u128,
    evaluated: &mut Evaluated,
) -> Result<PlanReport, NoMemory>
    requires rates { AreRatesOf case.now rates.now }
    requires budget { budget ≤ most_budget }
    requires all { All IsSome curves.old }
    requires curves { AreKept case.now curves.old }
    requires kept { AreEvaluated case.now evaluated.old }
    ensures curves { curves.new ≡ curves.old }
    ensures kept { AreEvaluated case.now evaluated.new }
    ensures report { IfOk result (IsReportOf (record { case = case.now; budget = budget })) }
{
    match chosen_by(alloc, case, curves, budget, *near) {
        Ok(chosen) => {
            *near = above(chosen.numbers.price);
            report_of(alloc, case, rates, chosen, budget, evaluated)
        }
        Err(no_memory) => Err(no_memory),
    }
}

/// The report of the plan that parts of the curves of all families choose, if some serve. Parts that were used and
/// evaluations at its stocks stay kept.
fn report_by_parts<M: CurveMaker>(
    alloc: Global,
    case: &Case,
    rates: &Rates,
    maker: &M,
    parts: &mut KeptParts,
    budget: u64,
    evaluated: &mut Evaluated,
) -> Result<Option<PlanReport>, NoMemory>
    requires rates { AreRatesOf case.now rates.now }
    requires work { IsOk (work_of case.now) }
    requires budget { budget ≤ most_budget }
    requires parts { ArePartsKept case.now parts.old }
    requires kept { AreEvaluated case.now evaluated.old }
    ensures parts { ArePartsKept case.now parts.new }
    ensures kept { AreEvaluated case.now evaluated.new }
    ensures report { IfOk result (λ found. IfSome found (IsReportOf (record { case = case.now; budget = budget }))) }
{
    match chosen_by_parts(alloc, case, rates, maker, parts, budget) {
        Ok(Some(chosen)) => match report_of(alloc, case, rates, chosen, budget, evaluated) {
            Ok(report) => Ok(Some(report)),
            Err(no_memory) => Err(no_memory),
        },
        Ok(None) => Ok(None),
        Err(no_memory) => Err(no_memory),
    }
}

/// Whether a whole curve is kept.
fn is_any_kept(curves: &[Option<Curve>]) -> bool {
    curves.iter().any(|curve| curve.is_some())
}

impl Session {
    /// A session with this case, whose work is within its limit, and this budget in whole money. No mark is on. Want of
    /// memory is the only error.
    pub fn new(alloc: Global, case: Case, budget: u64) -> Result<Session, NoMemory>
        requires work { IsOk (work_of case) }
        requires budget { budget ≤ most_budget }
        ensures { IfOk result (λ s. s ≡ started case budget) }
    {
        case.invariant();
        match nothing_known(alloc, &case) {
            Ok((curves, parts, evaluated)) => Ok(Session {
                case,
                budget,
                curves,
                parts,
                evaluated,
                near: 0,
            }),
            Err(no_memory) => Err(no_memory),
        }
    }

    /// Changes only the budget.
    pub fn set_budget(&mut self, budget: u64)
        requires { budget ≤ most_budget }
        ensures { self.new ≡ with_budget self.old budget }
    {
        self.budget = budget;
    }

    /// Replaces the row of this row's pair, and turns off the mark of its part's family. All else stays. The family's
    /// evaluation and the part of its curve are forgotten.
    pub fn set_rate(&mut self, row: RateRow)
        requires { IsRateOf (frame_rows self.old.case) row }
        ensures { self.new ≡ with_row self.old row }
    {
        let place = place_of(&self.case, row.part);
        self.case.set_rate(row);
        self.curves[place] = None;
        self.parts.forget(place);
        self.evaluated.families[place] = None;
    }

    /// The plan of the current case under the current budget, or the first rule that the rates break.
    ///
    /// A report turns every mark on, and this call never turns a mark off. Case and budget stay, so a later call may
    /// succeed after a want of memory.
    pub fn plan(&mut self) -> Result<PlanReport, Stop<RateFault>>
        ensures answer { AnswersPlan (due self.old) result }
        ensures later { IsLater self.old self.new }
        ensures marks { IfOk result (λ _. self.new.marks ≡ replicate (length (line_units self.old.case)) true) }
    {
        let alloc = *self.curves.allocator();
        let rates = rates(alloc, &self.case)?;
        let report = self.planned(alloc, &rates)?;
        Ok(report)
    }

    /// The plan of the current case under the current budget. Its rates break no rule.
    fn planned(&mut self, alloc: Global, rates: &Rates) -> Result<PlanReport, NoMemory>
        requires { AreRatesOf self.old.case rates.now }
        ensures report { IfOk result (IsReportOf (due self.old)) }
        ensures later { IsLater self.old self.new }
        ensures marks { IfOk result (λ _. self.new.marks ≡ replicate (length (line_units self.old.case)) true) }
    {
        keep_all(alloc, &self.case, rates, &mut self.curves)?;
        report_near(
            alloc,
            &self.case,
            rates,
            &mut self.curves,
            self.budget,
            &mut self.near,
            &mut self.evaluated,
        )
    }

    /// The same plan or rule, for an edits file. While no curve is kept it is made of parts of curves, if some serve,
    /// and no mark changes; else as [`Session::plan`] makes it.
    pub(crate) fn report<M: CurveMaker>(&mut self, maker: &M) -> Result<PlanReport, Stop<RateFault>>
        ensures answer { AnswersPlan (due self.old) result }
        ensures later { IsLater self.old self.new }
    {
        let alloc = *self.curves.allocator();
        let rates = rates(alloc, &self.case)?;
        let report = self.reported(alloc, &rates, maker)?;
        Ok(report)
    }

    /// The plan of the current case under the current budget, by parts of the curves or by whole ones. Its rates break
    /// no rule.
    fn reported<M: CurveMaker>(
        &mut self,
        alloc: Global,
        rates: &Rates,
        maker: &M,
    ) -> Result<PlanReport, NoMemory>
        requires { AreRatesOf self.old.case rates.now }
        ensures report { IfOk result (IsReportOf (due self.old)) }
        ensures later { IsLater self.old self.new }
    {
        match self.planned_by_parts(alloc, rates, maker) {
            Ok(Some(report)) => Ok(report),
            Ok(None) => self.planned(alloc, rates),
            Err(no_memory) => Err(no_memory),
        }
    }

    /// The same plan by parts of the curves. None if a whole curve is kept, or if no parts serve.
    fn planned_by_parts<M: CurveMaker>(
        &mut self,
        alloc: Global,
        rates: &Rates,
        maker: &M,
    ) -> Result<Option<PlanReport>, NoMemory>
        requires { AreRatesOf self.old.case rates.now }
        ensures report { IfOk result (λ found. IfSome found (IsReportOf (due self.old))) }
        ensures later { IsLater self.old self.new }
    {
        if is_any_kept(&self.curves) {
            return Ok(None);
        }
        report_by_parts(
            alloc,
            &self.case,
            rates,
            maker,
            &mut self.parts,
            self.budget,
            &mut self.evaluated,
        )
    }

    /// The count of families.
    pub fn family_count(&self) -> usize
        ensures { result ≡ length (line_units self.now.case) }
    {
        self.curves.len()
    }

    /// The curve of a family, by its index among the families: the curve of its weighted backorders, over all its
    /// vectors, in the current case. None exactly if its mark is off. No command calls it.
    pub fn curve(&self, family: u32) -> Option<&Curve>
        requires { family < length (line_units self.now.case) }
        ensures mark { is_none result ≡ not (has_mark self.now.marks family) }
        ensures curve { IfSome result (λ c. IsFamilyCurve plain_ends self.now.case []
            (get_or (line_units self.now.case) family 0) c.now) }
    {
        self.curves[family as usize].as_ref()
    }

    /// The frame of the case.
    pub(crate) fn frame(&self) -> &Frame
        ensures { result.now ≡ frame_rows self.now.case }
    {
        self.case.frame()
    }
}
