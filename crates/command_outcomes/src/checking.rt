//! `check`: whether a certificate shows its claims.
//!
//! - Reads a certificate.
//! - Refuses, in this order: bytes that are no certificate; the first rule that the certificate breaks.
//! - Makes the report of the claims.
ghost use Rattle.std.specs.Prelude.{◌≡◌, ◌≤◌, IfOk, Ok, length};
ghost use Rattle.held_certificate.specs.Held.{held_of};
ghost use Rattle.price_certificate.specs.Certificates.{cert_of, certificate_limit};
ghost use Rattle.answers.specs.Answers.{Gives};
ghost use Rattle.refusals.specs.Causes.{or_refuse};
ghost use Rattle.refusals.specs.Lines.{no_names};
ghost use Rattle.refusals.specs.declared.refusal.Refusal.TheVariants as refusal;
ghost use Rattle.command_outcomes.specs.Checks.{check_of, form_of, judged_of, with_held, with_nothing};
ghost use Rattle.command_outcomes.specs.Checking.{IsClaim, confirmed_of};
ghost use Rattle.command_outcomes.specs.Making.{Is, MakesBy};
ghost use Rattle.command_outcomes.specs.Task.{check_task};

use crate::done::{Done, TaskOutcome};
use crate::held::{cost_of, held_in};
use answers::Stop;
use check_answers::{Accepted, Reject};
use gap_checker::check_within;
use hull::Plain;
use log_loss::LogLoss;
use plan_report::CheckReport;
use price_certificate::{CertFault, Certificate, Objective};
use refusals::{Failure, Refusal};
use spares_input::Stocks;
use std::alloc::Global;

/// A certificate with the stocks on hand, if it begins with them.
#[derive(Drop)]
pub struct Claim {
    /// What the certificate claims of its case.
    pub certificate: Certificate,
    /// The stocks on hand.
    pub on_hand: Option<Stocks>,
}

/// The claim of a certificate with stocks on hand.
fn held_claim(alloc: Global, bytes: &[u8]) -> Result<Claim, Stop<CertFault>>
    requires { length bytes.now ≤ certificate_limit }
    ensures answer { Gives (with_held (held_of bytes.now)) result }
    ensures claim { IfOk result IsClaim }
{
    let read = held_certificate::read(alloc, bytes)?;
    Ok(Claim {
        certificate: read.certificate,
        on_hand: Some(read.held),
    })
}

/// The claim of a certificate without stocks on hand.
fn plain_claim(alloc: Global, bytes: &[u8]) -> Result<Claim, Stop<CertFault>>
    requires { length bytes.now ≤ certificate_limit }
    ensures answer { Gives (with_nothing (cert_of bytes.now)) result }
    ensures claim { IfOk result IsClaim }
{
    let certificate = price_certificate::read(alloc, bytes)?;
    Ok(Claim {
        certificate,
        on_hand: None,
    })
}

/// The claim of the bytes of a certificate, whose first line decides the form.
fn read_claim(alloc: Global, bytes: &[u8]) -> Result<Claim, Stop<CertFault>>
    requires { length bytes.now ≤ certificate_limit }
    ensures answer { Gives (form_of bytes.now) result }
    ensures claim { IfOk result IsClaim }
{
    if held_certificate::is_held_form(bytes) {
        held_claim(alloc, bytes)
    } else {
        plain_claim(alloc, bytes)
    }
}

/// The claim of the bytes of a certificate, or the refusal of bytes that are no certificate.
fn claim_of(alloc: Global, bytes: &[u8]) -> Result<Claim, Stop<Failure>>
    requires { length bytes.now ≤ certificate_limit }
    ensures answer { Gives (or_refuse no_names refusal.Cert (form_of bytes.now)) result }
    ensures claim { IfOk result IsClaim }
{
    match read_claim(alloc, bytes) {
        Ok(claim) => Ok(claim),
        Err(Stop::NoMemory) => Err(Stop::NoMemory),
        Err(Stop::Fault(fault)) => Err(Stop::Fault(Failure::of(Refusal::Cert(fault)))),
    }
}

/// The answer of the checker to a claim, by the score of its objective.
fn judged(alloc: Global, claim: &Claim) -> Result<Accepted, Stop<Reject>>
    requires { IsClaim claim.now }
    ensures { Gives (judged_of claim.now) result }
{
    let certificate = &claim.certificate;
    let held = held_in(alloc, &certificate.case, &claim.on_hand)?;
    match certificate.objective {
        Objective::Backorders => check_within(alloc, certificate, &held, &Plain),
        Objective::LogAvailability => check_within(alloc, certificate, &held, &LogLoss),
    }
}

/// The report of an accepted claim.
fn report_of(claim: &Claim, accepted: Accepted) -> CheckReport
    requires claim { IsClaim claim.now }
    requires accepted { judged_of claim.now ≡ Ok accepted }
    ensures { result ≡ check_of claim.now }
{
    let certificate = &claim.certificate;
    CheckReport {
        format: certificate.format,
        budget: certificate.budget,
        cost: accepted.cost,
        on_hand: cost_of(&certificate.case, &claim.on_hand),
        upper: accepted.upper,
        bound: accepted.bound,
    }
}

/// The report of a claim, or the refusal of the first rule that it breaks.
fn confirmed(alloc: Global, claim: &Claim) -> Result<CheckReport, Stop<Failure>>
    requires { IsClaim claim.now }
    ensures { Gives (confirmed_of claim.now) result }
{
    match judged(alloc, claim) {
        Ok(accepted) => Ok(report_of(claim, accepted)),
        Err(Stop::NoMemory) => Err(Stop::NoMemory),
        Err(Stop::Fault(reject)) => {
            let frame = claim.certificate.case.frame();
            Err(Stop::Fault(Failure::at(frame, Refusal::Rejected(reject))))
        }
    }
}

/// Carries out `check` on the bytes of a certificate: its claims, or the first refusal. Want of memory may always come.
pub fn check(alloc: Global, bytes: &[u8]) -> Result<TaskOutcome, Stop<Failure>>
    requires { length bytes.now ≤ certificate_limit }
    ensures { MakesBy (Is (check_task bytes.now)) result }
{
    let claim = claim_of(alloc, bytes)?;
    let report = confirmed(alloc, &claim);
    drop(claim);
    Ok(TaskOutcome::printed(Done::Checked(report?)))
}
