//! Reading a held certificate.

ghost use Rattle.std.specs.Prelude.{◌≡◌, ◌*◌, ◌≤◌, ◌<◌, length, true, None, Ok, Err, IfOk, MatchResult};
ghost use Rattle.line_text.specs.Formats.{each};
ghost use Rattle.line_text.specs.Files.{lines_of};
ghost use Rattle.line_text.specs.Texts.{numbers_from};
ghost use Rattle.line_text.specs.Reading.{Reads, Gathers};
ghost use Rattle.answers.specs.Answers.{Gives};
ghost use Rattle.price_certificate.specs.Reading.{draft_of};
ghost use Rattle.held_certificate.specs.Held.{
  IsWellHeld,
  case_fault,
  front,
  held_line,
  held_lines,
  held_of,
  held_text,
  rest,
  rest_of,
};
ghost use Rattle.price_certificate.specs.Certificates.{IsWellFormed, certificate_limit};
ghost use Rattle.held_certificate.specs.declared.held.HeldCertificate.{HeldCertificate};
ghost use Rattle.price_certificate.specs.Grammar.{certificate_format};

use crate::held::HeldCertificate;
use answers::Stop;
use line_text::{BadLine, Lines, count_line, number_line, word_line};
use price_certificate::{
    CertFault, Certificate, CertificateLines, certificate_lines, certificate_of, line_number,
};
use spares_input::{Case, Stocks, pair_at};
use std::alloc::Global;

/// Reads the lines up to the first `end`.
fn front_lines(alloc: Global, lines: &mut Lines<'_>) -> Result<CertificateLines, Stop<BadLine>>
    ensures { Gathers draft_of result lines.new (front.read lines.old) }
{
    let _form = count_line(lines, b"spares-held", 1, 1)?;
    let found = certificate_lines(alloc, lines, 2)?;
    Ok(found)
}

/// Reads the held stock of pair `i`.
fn held_line(lines: &mut Lines<'_>, case: &Case, i: usize) -> Result<u8, BadLine>
    requires { i < length case.now.parts * length case.now.sites }
    ensures { Reads (λ n. n) result lines.new ((held_line case.now i).read lines.old) }
{
    let sites = case.site_count() as usize;
    let (part, site) = pair_at(i, sites);
    let limit = case.limit(part, site);
    let stock = number_line(lines, limit as u128)?;
    Ok(stock as u8)
}

/// Reads the held stocks of `count` pairs.
fn each_held(
    alloc: Global,
    lines: &mut Lines<'_>,
    case: &Case,
    count: usize,
) -> Result<Vec<u8>, Stop<BadLine>>
    requires { count ≤ length case.now.parts * length case.now.sites }
    ensures { Gathers (λ v. v.items) result lines.new
        ((each (numbers_from 0 count) (held_line case.now)).read lines.old) }
{
    let mut found = Vec::new(alloc);
    for i in 0..count {
        let stock = held_line(lines, case, i)?;
        found.push(stock)?;
    }
    Ok(found)
}

/// Reads the line that counts the pairs, then the held stock of each pair.
fn held_stocks(alloc: Global, lines: &mut Lines<'_>, case: &Case) -> Result<Vec<u8>, Stop<BadLine>>
    ensures { Gathers (λ v. v.items) result lines.new ((held_lines case.now).read lines.old) }
{
    let pairs = case.part_count() as u128 * case.site_count() as u128;
    let count = count_line(lines, b"held", pairs, pairs)?;
    let found = each_held(alloc, lines, case, count as usize)?;
    Ok(found)
}

/// Reads the lines after the first `end`.
fn rest_lines(alloc: Global, lines: &mut Lines<'_>, case: &Case) -> Result<Vec<u8>, Stop<BadLine>>
    ensures { Gathers (rest_of (length case.now.sites)) result lines.new ((rest case.now).read lines.old) }
{
    let found = held_stocks(alloc, lines, case)?;
    word_line(lines, b"end")?;
    Ok(found)
}

/// The held stocks after the first `end`, if the lines after it are in the grammar and nothing follows them.
fn held_after(
    alloc: Global,
    bytes: &[u8],
    lines: &mut Lines<'_>,
    certificate: &Certificate,
) -> Result<Stocks, Stop<CertFault>>
    requires size { length bytes.now ≤ certificate_limit }
    requires front { front.read (lines_of bytes.now) ≡ Ok (certificate.now, lines.old) }
    requires no_fault { case_fault (front.read (lines_of bytes.now)) ≡ None }
    ensures { MatchResult result
        (λ held. held_of bytes.now ≡ Ok (record { certificate = certificate.now; held = held }))
        (λ stop. Gives {T = HeldCertificate} (held_of bytes.now) (Err stop)) }
{
    let sites = certificate.case.site_count();
    match rest_lines(alloc, lines, &certificate.case) {
        Ok(held) => {
            if lines.is_empty() {
                Ok(Stocks::of(held, sites))
            } else {
                Err(Stop::Fault(CertFault::BadLine(line_number(bytes, lines))))
            }
        }
        Err(Stop::NoMemory) => Err(Stop::NoMemory),
        Err(Stop::Fault(BadLine)) => Err(Stop::Fault(CertFault::BadLine(line_number(
            bytes, lines,
        )))),
    }
}

/// The held certificate, if the lines up to the first `end` are its certificate.
fn after_front(
    alloc: Global,
    bytes: &[u8],
    lines: &mut Lines<'_>,
    found: CertificateLines,
) -> Result<HeldCertificate, Stop<CertFault>>
    requires size { length bytes.now ≤ certificate_limit }
    requires front { front.read (lines_of bytes.now) ≡ Ok (draft_of found, lines.old) }
    requires fits { (certificate_format 1).fits (draft_of found) ≡ true }
    ensures answer { Gives (held_of bytes.now) result }
    ensures well_formed { IfOk result (λ h. IsWellFormed h.certificate) }
{
    let certificate = certificate_of(alloc, found)?;
    let held = held_after(alloc, bytes, lines, &certificate)?;
    Ok(HeldCertificate { certificate, held })
}

/// The held certificate with this text, or the reason why there is none.
fn read_text(alloc: Global, bytes: &[u8]) -> Result<HeldCertificate, Stop<CertFault>>
    requires { length bytes.now ≤ certificate_limit }
    ensures answer { Gives (held_of bytes.now) result }
    ensures well_formed { IfOk result (λ h. IsWellFormed h.certificate) }
{
    let mut lines = Lines::of(bytes);
    match front_lines(alloc, &mut lines) {
        Ok(found) => after_front(alloc, bytes, &mut lines, found),
        Err(Stop::NoMemory) => Err(Stop::NoMemory),
        Err(Stop::Fault(BadLine)) => Err(Stop::Fault(CertFault::BadLine(line_number(
            bytes, &lines,
        )))),
    }
}

/// The held certificate with this text. `BadCase` comes if all lines up to the first `end` are in the grammar, before a
/// bad line after this `end`; `BadLine` counts from the first line of the file.
pub fn read(alloc: Global, bytes: &[u8]) -> Result<HeldCertificate, Stop<CertFault>>
    requires { length bytes.now ≤ certificate_limit }
    ensures answer { Gives (held_of bytes.now) result }
    ensures found { IfOk result (λ h. IsWellHeld h × (bytes.now ≡ held_text h)) }
    ensures only { (h : HeldCertificate) → IsWellHeld h → bytes.now ≡ held_text h → Gives (Ok h) result }
{
    read_text(alloc, bytes)
}
