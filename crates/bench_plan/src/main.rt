//! Times the curves of a case's families, and the reading and the check of a certificate.
//!
//! With the words `SITES PARTS RATES CERTIFICATE` it reads the three tables of a case and prints the counts of tables
//! of pipelines and of vertices for the curves of its families. Then it reads a certificate, which may be of another
//! case, checks it, and prints the accepted claims. With a fifth word `timed` it also prints nanoseconds: of all
//! curves, made in turn; of the reading; and of reading and check together.
#![tactic(auto)]

ghost use Rattle.std.specs.Prelude.{◌≤◌, length};
ghost use Rattle.demand_rates.specs.Rates.{AreRatesOf};
ghost use Rattle.price_certificate.specs.Certificates.{certificate_limit};

mod inputs;

use anyhow::anyhow;
use check_answers::Accepted;
use demand_rates::kinds::Rates;
use demand_rates::rates;
use family_curve::curve;
use family_points::{tables, work};
use gap_checker::check;
use hull::Plain;
use inputs::{bytes_of, case_of};
use price_certificate::{CERTIFICATE_LIMIT, Objective, read};
use spares_input::{Case, PartId};
use std::alloc::Global;
use std::env;
use std::time::Instant;

/// The count of vertices of the curves of all families.
fn vertices(alloc: Global, case: &Case, rates: &Rates) -> Option<u64>
    requires { AreRatesOf case.now rates.now }
{
    let mut count: u64 = 0;
    for p in 0..case.part_count() {
        let part = PartId(p);
        if case.is_line(part) && tables(case, part) <= 1_000_000 {
            let curve = curve(alloc, case, rates, part, &Plain).ok()?;
            count = count.wrapping_add(u64::from(curve.len()));
        }
    }
    Some(count)
}

/// Makes the curve of each family, and prints the counts of their tables and vertices.
fn report_curves(rt: &HostRuntime, case: &Case, timed: bool) -> anyhow::Result<()> {
    let Ok(count) = work(case) else {
        return Err(anyhow!("the case has too many tables"));
    };
    let Ok(rates) = rates(rt.alloc(), case) else {
        return Err(anyhow!("a rate is refused"));
    };
    let start = Instant::now(rt)?;
    let Some(found) = vertices(rt.alloc(), case, &rates) else {
        return Err(anyhow!("out of memory"));
    };
    let spent = start.elapsed(rt)?;
    print!(rt; "tables {count} vertices {found}")?;
    if timed {
        print!(rt; " nanoseconds {}", spent.as_nanos())?;
    }
    println!(rt; "")?;
    Ok(())
}

/// Whether the bytes are a certificate.
fn is_read(alloc: Global, bytes: &[u8]) -> bool
    requires { length bytes.now ≤ certificate_limit }
{
    read(alloc, bytes).is_ok()
}

/// The accepted claims of these bytes, if their objective is backorders.
fn accepted(alloc: Global, bytes: &[u8]) -> Option<Accepted>
    requires { length bytes.now ≤ certificate_limit }
{
    let certificate = match read(alloc, bytes) {
        Ok(certificate) => certificate,
        Err(_) => return None,
    };
    let Objective::Backorders = certificate.objective else {
        return None;
    };
    check(alloc, &certificate).ok()
}

/// Reads and checks a certificate, and prints its accepted claims.
fn report_certificate(rt: &HostRuntime, name: &str, timed: bool) -> anyhow::Result<()> {
    let bytes = bytes_of(rt, name, CERTIFICATE_LIMIT)?;
    let start = Instant::now(rt)?;
    let reads = is_read(rt.alloc(), bytes.as_slice());
    let reading = start.elapsed(rt)?;
    let start = Instant::now(rt)?;
    let checked = accepted(rt.alloc(), bytes.as_slice());
    let checking = start.elapsed(rt)?;
    let Some(found) = checked else {
        return Err(anyhow!("the certificate isn't accepted (read: {reads})"));
    };
    print!(rt; "accepted cost {} bound {}", found.cost, found.bound)?;
    if timed {
        print!(rt;
            " nanoseconds {} {}",
            reading.as_nanos(),
            checking.as_nanos()
        )?;
    }
    println!(rt; "")?;
    Ok(())
}

fn main(rt: HostRuntime) -> anyhow::Result<()> {
    let words: Vec<String> = env::args(&rt)?.collect(rt.alloc())?;
    let (files, timed) = match words.as_slice() {
        [_, files @ .., last] if last.as_str() == "timed" => (files, true),
        [_, files @ ..] => (files, false),
        [] => (&[][..], false),
    };
    let [sites, parts, rates, certificate] = files else {
        return Err(anyhow!("words: SITES PARTS RATES CERTIFICATE [timed]"));
    };
    let case = case_of(&rt, sites.as_str(), parts.as_str(), rates.as_str())?;
    report_curves(&rt, &case, timed)?;
    report_certificate(&rt, certificate.as_str(), timed)
}
