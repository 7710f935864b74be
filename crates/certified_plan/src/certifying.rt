//! The certificate of a plan.

ghost use Rattle.std.specs.Prelude.{◌≡◌, ◌+◌, ◌<◌, ◌≤◌, IfOk, length, map};
ghost use Rattle.spares_input.specs.Stocks.{AreStocksOf};
ghost use Rattle.fleet_model.specs.Rows.{line_units};
ghost use Rattle.family_items.specs.Inputs.{IsLine};
ghost use Rattle.hull.specs.Limits.{most_price_units};
ghost use Rattle.price_certificate.specs.Certificates.{IsWellFormed};
ghost use Rattle.certified_plan.specs.Inputs.{IsPlanOn};
ghost use Rattle.certified_plan.specs.Certificates.{certificate_of, trimmed_cover, covers_in, covers_of};

use answers::{List, NoMemory};
use case_plan::Outcome;
use family_points::vector_of;
use hull::Price;
use plan_report::PlanReport;
use price_certificate::{Certificate, Node, Terms, trim};
use spares_input::{Case, PartId, Stocks};
use std::alloc::Global;

/// The report of a plan with its certificate.
#[derive(Drop)]
pub struct Certified {
    pub report: PlanReport,
    pub certificate: Certificate,
}

/// The cover of a family at a price and its floor, from the held stocks.
fn cover_of(
    alloc: Global,
    case: &Case,
    held: &Stocks,
    price: Price,
    floor: u128,
    line: PartId,
) -> Result<List<Node>, NoMemory>
    requires held { AreStocksOf case.now held.now }
    requires price { price.p ≤ most_price_units }
    requires line { IsLine case.now line.0 }
    ensures { IfOk result (λ nodes. nodes ≡ trimmed_cover case.now held.now.list price.p floor line.0) }
{
    case.invariant();
    let vector = vector_of(alloc, case, line, held)?;
    let nodes = trim(alloc, case, line, vector.as_slice(), price, floor)?;
    Ok(List::of(nodes))
}

/// The covers of all families, in the order of `lines`, the case's line units.
fn covers_along(
    alloc: Global,
    case: &Case,
    held: &Stocks,
    price: Price,
    floors: &[u128],
    lines: &[PartId],
) -> Result<Vec<List<Node>>, NoMemory>
    requires held { AreStocksOf case.now held.now }
    requires price { price.p ≤ most_price_units }
    requires floors { length floors.now ≡ length (line_units case.now) }
    requires lines { map (λ p. p.0) lines.now ≡ line_units case.now }
    ensures { IfOk result (λ covers. covers.items ≡ covers_of case.now held.now.list price.p floors.now) }
{
    let mut covers = Vec::new(alloc);
    for f in 0..lines.len() {
        covers.push(cover_of(alloc, case, held, price, floors[f], lines[f])?)?;
    }
    Ok(covers)
}

/// The covers of all families, in the order of their line units.
fn covers_of(
    alloc: Global,
    case: &Case,
    held: &Stocks,
    price: Price,
    floors: &[u128],
) -> Result<Vec<List<Node>>, NoMemory>
    requires held { AreStocksOf case.now held.now }
    requires price { price.p ≤ most_price_units }
    requires floors { length floors.now ≡ length (line_units case.now) }
    ensures { IfOk result (λ covers. covers.items ≡ covers_of case.now held.now.list price.p floors.now) }
{
    covers_along(alloc, case, held, price, floors, case.line_units())
}

/// The covers of a plan, which only format 2 has.
fn covers_in(
    alloc: Global,
    case: &Case,
    held: &Stocks,
    terms: Terms,
    plan: &Outcome,
) -> Result<List<List<Node>>, NoMemory>
    requires { IsPlanOn case.now held.now terms plan.now }
    ensures { IfOk result (λ covers. covers ≡ covers_in case.now held.now.list terms.format plan.now.price.p
        plan.now.floors) }
{
    if terms.format == 2 {
        let covers = covers_of(alloc, case, held, plan.price, plan.floors.as_slice())?;
        Ok(List::of(covers))
    } else {
        Ok(List::of(Vec::new(alloc)))
    }
}

/// The report of a plan, with its certificate on these terms. In format 2 each cover is trimmed: it leaves to cost the
/// boxes whose cost alone shows the floor.
///
/// `plan` is the plan of the accepted case on these terms, from `held`: a list for the case, within its limits. The
/// terms are in their ranges. Want of memory is the only error.
pub fn certificate(
    alloc: Global,
    case: Case,
    held: &Stocks,
    terms: Terms,
    plan: Outcome,
) -> Result<Certified, NoMemory>
    requires { IsPlanOn case held.now terms plan }
    ensures report { IfOk result (λ made. made.report ≡ plan.report) }
    ensures certificate { IfOk result (λ made. made.certificate ≡ certificate_of case held.now terms plan) }
    ensures formed { IfOk result (λ made. IsWellFormed made.certificate) }
{
    let covers = covers_in(alloc, &case, held, terms, &plan)?;
    let Outcome {
        report,
        stocks,
        price,
        floors,
        upper,
    } = plan;
    let bound = report.bound;
    Ok(Certified {
        report,
        certificate: Certificate {
            format: terms.format,
            objective: terms.objective,
            case,
            budget: terms.budget,
            price,
            floors,
            covers,
            stocks,
            upper,
            bound,
        },
    })
}
