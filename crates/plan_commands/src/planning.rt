//! `plan`: the best stocks of a case for a budget, with a certificate.
//!
//! - Reads sites, parts, rates, and the stocks on hand if a table of them is named.
//! - Refuses, in this order: the first fault of the tables; a pipeline beyond the limits of the model; too much work.
//! - Makes the report, and the certificate under its name.
ghost use Rattle.std.specs.Prelude.{◌≡◌, IfOk, IfSome, Some, Ok, option_map};
ghost use Rattle.certified_plan.specs.Inputs.{AreTerms};
ghost use Rattle.order_inputs.specs.Given.{bytes_of};
ghost use Rattle.command_outcomes.specs.Making.{Is, IsMade, MakesBy};
ghost use Rattle.plan_commands.specs.Planning.{IsGround, IsPlanFor, TellsGround, planning_on};
ghost use Rattle.command_outcomes.specs.Plans.{held_stocks_of, is_loss, plan_request, planning_of};
ghost use Rattle.command_outcomes.specs.Task.{make_plan, plan_task};

use answers::{NoMemory, Stop};
use case_plan::Request;
use case_tables::{AcceptedCase, Stocked};
use certified_plan::{certificate, certificate_text};
use command_outcomes::{Done, TaskOutcome, Written, cost_of, held_in};
use held_work::held_work;
use hull::Plain;
use log_loss::LogLoss;
use on_hand::plan_case;
use order_inputs::{Table, Tables, case_within_work, few_tables, stocked};
use price_certificate::{Objective, Terms};
use refusals::{Failure, File};
use spares_input::Stocks;
use spares_io::Text;
use std::alloc::Global;

/// The ground of a plan: a case with its rates, the stocks on hand if there is a table of them, and the terms.
#[derive(Drop)]
pub(crate) struct Ground {
    pub(crate) given: AcceptedCase,
    pub(crate) on_hand: Option<Stocks>,
    pub(crate) terms: Terms,
}

/// The ground of a plan with no stocks on hand.
fn plain_ground(alloc: Global, tables: &Tables<'_>, terms: Terms) -> Result<Ground, Stop<Failure>>
    requires { AreTerms terms }
    ensures answer { TellsGround (planning_of (bytes_of tables.now) None terms) result }
    ensures ground { IfOk result IsGround }
{
    let given = case_within_work(alloc, tables)?;
    Ok(Ground {
        given,
        on_hand: None,
        terms,
    })
}

/// The ground of a plan with stocks on hand.
fn held_ground(
    alloc: Global,
    tables: &Tables<'_>,
    stocks: &Table<'_>,
    terms: Terms,
) -> Result<Ground, Stop<Failure>>
    requires terms { AreTerms terms }
    requires format { terms.format ≡ 2 }
    ensures answer { TellsGround (planning_of (bytes_of tables.now) (Some stocks.now.bytes.now) terms) result }
    ensures ground { IfOk result IsGround }
{
    let Stocked {
        case,
        stocks,
        rates,
    } = stocked(alloc, tables, File::OnHand, stocks)?;
    case.invariant();
    few_tables(held_work(&case, &stocks)).and(Ok(Ground {
        given: AcceptedCase { case, rates },
        on_hand: Some(stocks),
        terms,
    }))
}

/// The ground of a plan, if its curves take few enough tables.
fn ground_of(
    alloc: Global,
    tables: &Tables<'_>,
    on_hand: &Option<Table<'_>>,
    terms: Terms,
) -> Result<Ground, Stop<Failure>>
    requires terms { AreTerms terms }
    requires format { IfSome on_hand.now (λ _. terms.format ≡ 2) }
    ensures answer { TellsGround (planning_of (bytes_of tables.now) (option_map (λ t. t.bytes.now) on_hand.now) terms)
        result }
    ensures ground { IfOk result IsGround }
{
    match on_hand {
        Some(stocks) => held_ground(alloc, tables, stocks, terms),
        None => plain_ground(alloc, tables, terms),
    }
}

/// Whether an objective is the loss.
fn is_loss(objective: Objective) -> bool
    ensures { result ≡ is_loss objective }
{
    match objective {
        Objective::Backorders => false,
        Objective::LogAvailability => true,
    }
}

/// What is asked for on a ground.
fn request_of(ground: &Ground) -> Request
    requires { IsGround ground.now }
    ensures { result ≡ plan_request (planning_on ground.now) }
{
    Request {
        budget: ground.terms.budget,
        loss: is_loss(ground.terms.objective),
        on_hand: cost_of(&ground.given.case, &ground.on_hand),
    }
}

/// The plan of a ground from its held stocks.
fn plan_of(alloc: Global, ground: &Ground, held: &Stocks) -> Result<case_plan::Outcome, NoMemory>
    requires ground { IsGround ground.now }
    requires held { held.now ≡ held_stocks_of (planning_on ground.now) }
    ensures { IfOk result (IsPlanFor ground.now) }
{
    let AcceptedCase { case, rates } = &ground.given;
    let request = request_of(ground);
    match ground.terms.objective {
        Objective::Backorders => plan_case(alloc, case, rates, held, &Plain, request),
        Objective::LogAvailability => plan_case(alloc, case, rates, held, &LogLoss, request),
    }
}

/// The outcome of a ground's plan: its report, and the text of its certificate under this name.
fn certified_outcome(
    alloc: Global,
    ground: Ground,
    held: &Stocks,
    plan: case_plan::Outcome,
    name: &Text,
) -> Result<TaskOutcome, NoMemory>
    requires ground { IsGround ground }
    requires held { held.now ≡ held_stocks_of (planning_on ground) }
    requires plan { IsPlanFor ground plan }
    ensures { IfOk result (IsMade (Is (Ok (make_plan (planning_on ground) name.now)))) }
{
    let Ground {
        given,
        on_hand,
        terms,
    } = ground;
    let made = certificate(alloc, given.case, held, terms, plan)?;
    let bytes = certificate_text(alloc, made.certificate, on_hand)?;
    let written = Written::new(alloc, name, bytes)?;
    Ok(TaskOutcome {
        done: Done::Planned(made.report),
        writes: Some(written),
    })
}

/// The plan of a ground from its held stocks, and the text of its certificate under this name.
fn planned_from(
    alloc: Global,
    ground: Ground,
    held: Stocks,
    name: &Text,
) -> Result<TaskOutcome, NoMemory>
    requires ground { IsGround ground }
    requires held { held ≡ held_stocks_of (planning_on ground) }
    ensures { IfOk result (IsMade (Is (Ok (make_plan (planning_on ground) name.now)))) }
{
    match plan_of(alloc, &ground, &held) {
        Ok(plan) => certified_outcome(alloc, ground, &held, plan, name),
        Err(no_memory) => {
            drop(ground);
            drop(held);
            Err(no_memory)
        }
    }
}

/// The plan of a ground, and the text of its certificate under this name.
fn planned(alloc: Global, ground: Ground, name: &Text) -> Result<TaskOutcome, NoMemory>
    requires { IsGround ground }
    ensures { IfOk result (IsMade (Is (Ok (make_plan (planning_on ground) name.now)))) }
{
    match held_in(alloc, &ground.given.case, &ground.on_hand) {
        Ok(held) => planned_from(alloc, ground, held, name),
        Err(no_memory) => {
            drop(ground);
            Err(no_memory)
        }
    }
}

/// Carries out `plan` on the tables of a case and on the table of stocks on hand, if there is one: the report and,
/// under the name, the certificate; or the first refusal. Want of memory may always come.
pub fn plan(
    alloc: Global,
    tables: &Tables<'_>,
    on_hand: &Option<Table<'_>>,
    terms: Terms,
    name: &Text,
) -> Result<TaskOutcome, Stop<Failure>>
    requires terms { AreTerms terms }
    requires format { IfSome on_hand.now (λ _. terms.format ≡ 2) }
    ensures { MakesBy (Is (plan_task (bytes_of tables.now) (option_map (λ t. t.bytes.now) on_hand.now) terms name.now))
        result }
{
    let ground = ground_of(alloc, tables, on_hand, terms)?;
    let outcome = planned(alloc, ground, name)?;
    Ok(outcome)
}
