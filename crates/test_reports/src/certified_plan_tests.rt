//! Certificates of plans, against those of another program.

ghost use Rattle.std.specs.Prelude.{◌≡◌, ◌≤◌, IfOk, IfSome};
ghost use Rattle.spares_input.specs.Stocks.{AreStocksOf};
ghost use Rattle.demand_rates.specs.Rates.{AreRatesOf};
ghost use Rattle.price_certificate.specs.declared.certificate.Objective.TheVariants.{Backorders};
ghost use Rattle.price_certificate.specs.Certificates.{IsWellFormed};
ghost use Rattle.certified_plan.specs.Inputs.{AreTerms, IsPlanOn, IsWithinWork};

use answers::NoMemory;
use case_plan::{Outcome, Request};
use certified_plan::{certificate, certificate_text};
use demand_rates::kinds::Rates;
use demand_rates::rates;
use held_certificate::HeldCertificate;
use held_work::held_work;
use hull::Plain;
use log_loss::LogLoss;
use on_hand::plan_case;
use price_certificate::{Certificate, Objective, Terms};
use spares_input::{Case, Stocks, nothing_held};
use std::alloc::Global;
use std::test::*;

/// A line unit at the depot and a base that may hold 9, under a budget of 250.
const FIRST: &[u8] =
    b"spares-certificate,1\nsites,2\nD,depot,,\nB,base,12,10.00\nparts,1\nL,,100,1,2,9\n\
rates,2\nL,D,,,,20.00\nL,B,36.5000,0.0000,,0.00\nbudget,250\nprice,162357558481304,100\nfloors,1\n\
67625916321994100\nstocks,2\n0\n2\nupper,351544046257340\nbound,270365267016681\nend\n";

/// The same with a cover: five units at the base cost more than the floor.
const SECOND: &[u8] =
    b"spares-certificate,2\nobjective,backorders\nsites,2\nD,depot,,\nB,base,12,10.00\nparts,1\n\
L,,100,1,2,9\nrates,2\nL,D,,,,20.00\nL,B,36.5000,0.0000,,0.00\nbudget,250\nprice,162357558481304,100\nfloors,1\n\
67625916321994100\ncovers,1\ncover,3\nsplit,1,5\nwhole\ncost\nstocks,2\n0\n2\nupper,351544046257340\n\
bound,270365267016681\nend\n";

/// The same for the loss of availability.
const LOSS: &[u8] =
    b"spares-certificate,2\nobjective,log-availability\nsites,2\nD,depot,,\nB,base,12,10.00\n\
parts,1\nL,,100,1,2,9\nrates,2\nL,D,,,,20.00\nL,B,36.5000,0.0000,,0.00\nbudget,250\nprice,176524252841808,100\n\
floors,1\n72426399475250400\ncovers,1\ncover,3\nsplit,1,5\nwhole\ncost\nstocks,2\n0\n2\nupper,371215489071972\n\
bound,282953362647984\nend\n";

/// The same with one unit held at the base.
const HELD: &[u8] =
    b"spares-held,1\nspares-certificate,2\nobjective,backorders\nsites,2\nD,depot,,\n\
B,base,12,10.00\nparts,1\nL,,100,1,2,9\nrates,2\nL,D,,,,20.00\nL,B,36.5000,0.0000,,0.00\nbudget,250\n\
price,99295395889294,100\nfloors,1\n38777727955461700\ncovers,1\ncover,3\nsplit,1,5\nwhole\ncost\nstocks,2\n0\n3\n\
upper,189186487776046\nbound,139538789831382\nend\nheld,2\n0\n1\nend\n";

/// The plan of a case from held stocks on these terms.
fn plan_on(
    alloc: Global,
    case: &Case,
    rates: &Rates,
    held: &Stocks,
    terms: Terms,
) -> Result<Outcome, NoMemory>
    requires rates { AreRatesOf case.now rates.now }
    requires held { AreStocksOf case.now held.now }
    requires work { IsWithinWork case.now held.now.list }
    requires terms { AreTerms terms }
    ensures { IfOk result (IsPlanOn case.now held.now terms) }
{
    case.invariant();
    let request = Request {
        budget: terms.budget,
        loss: false,
        on_hand: None,
    };
    match terms.objective {
        Objective::Backorders => plan_case(alloc, case, rates, held, &Plain, request),
        Objective::LogAvailability => plan_case(alloc, case, rates, held, &LogLoss, request),
    }
}

/// The certificate of the plan from held stocks of a certificate's case, under its budget and objective, in this
/// format.
fn remade(alloc: Global, read: Certificate, held: &Stocks, format: u8) -> Option<Certificate>
    requires formed { IsWellFormed read }
    requires held { AreStocksOf read.case held.now }
    requires fewest { 1 ≤ format }
    requires most { format ≤ 2 }
    requires first { format ≡ 1 → read.objective ≡ Backorders }
    ensures formed { IfSome result IsWellFormed }
    ensures case { IfSome result (λ cert. cert.case ≡ read.case) }
    ensures format { IfSome result (λ cert. cert.format ≡ format) }
{
    let terms = Terms {
        budget: read.budget,
        format,
        objective: read.objective,
    };
    let Ok(rates) = rates(alloc, &read.case) else {
        return None;
    };
    if held_work(&read.case, held).is_err() {
        return None;
    }
    let Ok(plan) = plan_on(alloc, &read.case, &rates, held, terms) else {
        return None;
    };
    let Ok(made) = certificate(alloc, read.case, held, terms, plan) else {
        return None;
    };
    Some(made.certificate)
}

/// The text of this certificate, made again in this format with nothing held.
fn again(alloc: Global, bytes: &[u8], format: u8) -> Option<Vec<u8>> {
    if bytes.len() > 16_777_216 || format < 1 || format > 2 {
        return None;
    }
    let Ok(read) = price_certificate::read(alloc, bytes) else {
        return None;
    };
    if format == 1 && read.objective != Objective::Backorders {
        return None;
    }
    let Ok(held) = nothing_held(alloc, &read.case) else {
        return None;
    };
    let Some(certificate) = remade(alloc, read, &held, format) else {
        return None;
    };
    certificate_text(alloc, certificate, None).ok()
}

/// The text of this held certificate, made again.
fn held_again(alloc: Global, bytes: &[u8]) -> Option<Vec<u8>> {
    if bytes.len() > 16_777_216 {
        return None;
    }
    let Ok(read) = held_certificate::read(alloc, bytes) else {
        return None;
    };
    let HeldCertificate { certificate, held } = read;
    let Some(certificate) = remade(alloc, certificate, &held, 2) else {
        return None;
    };
    certificate_text(alloc, certificate, Some(held)).ok()
}

fn is_text(made: Option<Vec<u8>>, text: &[u8]) -> bool {
    match made {
        Some(made) => made.as_slice() == text,
        None => false,
    }
}

#[test]
fn makes_the_certificates_of_another_program(rt: HostRuntime) -> Result<(), Fail> {
    assert_eq!(&rt; is_text(again(rt.alloc(), FIRST, 1), FIRST), true);
    assert_eq!(&rt; is_text(again(rt.alloc(), FIRST, 2), SECOND), true);
    assert_eq!(&rt; is_text(again(rt.alloc(), LOSS, 2), LOSS), true);
    assert_eq!(&rt; is_text(held_again(rt.alloc(), HELD), HELD), true);
    Ok(())
}
