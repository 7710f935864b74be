//! A demonstration, from its number to its summary.

ghost use Rattle.std.specs.Prelude.{◌≡◌, ◌≤◌, IfOk};
ghost use Rattle.std.specs.Result.{IsOk};
ghost use Rattle.case_figures.specs.Spans.{places};
ghost use Rattle.certified_plan.specs.Inputs.{IsPlanOn};
ghost use Rattle.demo_accepts.specs.Demonstrations.{IsDemonstrated, demo_terms};
ghost use Rattle.held_work.specs.Work.{held_work_of};
ghost use Rattle.plan_report.specs.Fits.{FitsSummary};
ghost use Rattle.spares_input.specs.Stocks.{nothing_held};
ghost use Rattle.plan_commands.specs.Summaries.{summary_in};

use crate::confirming::confirm;
use answers::NoMemory;
use case_plan::{Outcome, Request};
use certified_plan::certificate;
use demo_accepts::demonstration;
use hull::Plain;
use on_hand::plan_case;
use plan_report::Summary;
use price_certificate::{Objective, Terms};
use spares_input::{Case, Stocks, nothing_held};
use std::alloc::Global;

/// The budget for each line unit of a demonstration, in whole money.
const MONEY: u64 = 2_000;

/// The summary of a plan; its case has `parts` parts.
fn summary_of(number: u32, lines: u16, parts: u16, plan: &Outcome) -> Summary
    requires { places plan.now.report.figures.total ≡ 48 }
    ensures { result ≡ summary_in number lines parts plan.now }
{
    let report = &plan.report;
    Summary {
        number,
        lines,
        parts: u32::from(parts),
        budget: report.budget,
        cost: report.figures.cost,
        total: report.figures.total.interval(),
        bound: report.bound,
        gap: report.gap,
    }
}

/// Makes the certificate of a plan under a budget with nothing held, writes it, reads it back and checks it.
fn confirm_plan(
    alloc: Global,
    case: Case,
    held: &Stocks,
    budget: u64,
    plan: Outcome,
) -> Result<(), NoMemory>
    requires plan { IsPlanOn case held.now (demo_terms budget) plan }
    requires nothing { held.now ≡ nothing_held case }
    requires work { IsOk (held_work_of case held.now.list) }
{
    let terms = Terms {
        budget,
        format: 1,
        objective: Objective::Backorders,
    };
    let made = certificate(alloc, case, held, terms, plan)?;
    confirm(alloc, &made.certificate)
}

/// The summary of a demonstration. It plans the case of a number with 1 to 80 line units under 2,000 of money for each
/// of them, writes the plan's certificate, reads it back and checks it, all in memory (no clause says so). Want of
/// memory is the only error.
pub(crate) fn demonstrate(alloc: Global, number: u32, lines: u16) -> Result<Summary, NoMemory>
    requires some { 1 ≤ lines }
    requires few { lines ≤ 80 }
    ensures summary { IfOk result (IsDemonstrated number lines) }
    ensures fits { IfOk result FitsSummary }
{
    let (case, rates) = demonstration(alloc, number, lines)?;
    let parts = case.part_count();
    let held = nothing_held(alloc, &case)?;
    let budget = MONEY * u64::from(lines);
    let request = Request {
        budget,
        loss: false,
        on_hand: None,
    };
    let plan = plan_case(alloc, &case, &rates, &held, &Plain, request)?;
    let summary = summary_of(number, lines, parts, &plan);
    confirm_plan(alloc, case, &held, budget, plan).and(Ok(summary))
}
