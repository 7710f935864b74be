//! The certificate of a plan, written, read back and checked.

ghost use Rattle.std.specs.Prelude.{◌≡◌, ◌≤◌, None, IfOk, length};
ghost use Rattle.gap_rules.specs.Refusals.{reject_of};
ghost use Rattle.price_certificate.specs.Certificates.{IsWellFormed, cert_text, certificate_limit};
ghost use Rattle.price_certificate.specs.declared.certificate.Objective.TheVariants as objective;
ghost use Rattle.family_points.specs.Points.{plain_ends};
ghost use Rattle.spares_input.specs.Stocks.{nothing_held};

use answers::{NoMemory, Stop};
use gap_checker::check;
use price_certificate::{Certificate, read, text};
use std::alloc::Global;

/// A certificate, written and read back.
fn read_back(alloc: Global, certificate: &Certificate) -> Result<Certificate, NoMemory>
    requires formed { IsWellFormed certificate.now }
    requires short { length (cert_text certificate.now) ≤ certificate_limit }
    ensures { IfOk result (λ back. back ≡ certificate.now) }
{
    let bytes = text(alloc, certificate)?;
    match read(alloc, bytes.as_slice()) {
        Ok(back) => Ok(back),
        Err(Stop::NoMemory) => Err(NoMemory),
        Err(Stop::Fault(_)) => unreachable!(),
    }
}

/// Checks a certificate that breaks no rule.
fn check_sound(alloc: Global, certificate: &Certificate) -> Result<(), NoMemory>
    requires formed { IsWellFormed certificate.now }
    requires objective { certificate.now.objective ≡ objective.Backorders }
    requires accepted { reject_of plain_ends certificate.now (nothing_held certificate.now.case) ≡ None }
{
    match check(alloc, certificate) {
        Ok(_) => Ok(()),
        Err(Stop::NoMemory) => Err(NoMemory),
        Err(Stop::Fault(_)) => unreachable!(),
    }
}

/// Writes a certificate that breaks no rule, reads it back and checks it.
pub(crate) fn confirm(alloc: Global, certificate: &Certificate) -> Result<(), NoMemory>
    requires formed { IsWellFormed certificate.now }
    requires objective { certificate.now.objective ≡ objective.Backorders }
    requires short { length (cert_text certificate.now) ≤ certificate_limit }
    requires accepted { reject_of plain_ends certificate.now (nothing_held certificate.now.case) ≡ None }
{
    let back = read_back(alloc, certificate)?;
    check_sound(alloc, &back)
}
