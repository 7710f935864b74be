//! Held certificates, read, and the work from their held stocks.

use answers::Stop;
use held_certificate::read;
use held_work::held_work;
use price_certificate::CertFault;
use spares_input::CaseFault;
use std::alloc::Global;
use std::process::Abort;
use std::test::*;

const HELD: &[u8] =
    b"spares-held,1\nspares-certificate,2\nobjective,backorders\nsites,2\nD,depot,,\nB,base,12,10.00\n\
parts,1\nL,,100,1,2,3\nrates,2\nL,D,,,,20.00\nL,B,36.5000,0.0000,,0.00\nbudget,0\nprice,281474976710656,100\n\
floors,1\n84442493013196800\ncovers,1\ncover,3\nsplit,1,3\nwhole\ncost\nstocks,2\n0\n0\nupper,844424930131968\n\
bound,844424930131968\nend\nheld,2\n0\n0\nend\n";

#[derive(Clone, Copy, Debug, PartialEq, Eq)]
enum Outcome {
    /// The bytes are read, and the held stocks have this sum.
    Read(u32),
    BadLine(u32),
    BadCase(CaseFault),
    /// No memory, or too many bytes.
    Else,
}

/// The sum of some stocks.
fn sum_of(stocks: &[u8]) -> u32 {
    let mut sum: u32 = 0;
    for stock in stocks {
        sum = sum.saturating_add(*stock as u32);
    }
    sum
}

fn read_held(alloc: Global, bytes: &[u8]) -> Outcome {
    if bytes.len() > 16_777_216 {
        return Outcome::Else;
    }
    match read(alloc, bytes) {
        Ok(certificate) => Outcome::Read(sum_of(certificate.held.as_slice())),
        Err(Stop::NoMemory) => Outcome::Else,
        Err(Stop::Fault(CertFault::BadLine(line))) => Outcome::BadLine(line),
        Err(Stop::Fault(CertFault::BadCase(fault))) => Outcome::BadCase(fault),
    }
}

/// The text with line `number`, counted from 1, replaced by another.
fn with_line(alloc: Global, text: &[u8], number: usize, line: &[u8]) -> Result<Vec<u8>, Fail> {
    let mut changed = Vec::new(alloc);
    let mut at = 1;
    for b in text {
        if at != number || *b == b'\n' {
            if at == number {
                changed.extend_from_slice(line)?;
            }
            changed.push(*b)?;
        }
        if *b == b'\n' {
            at = at.saturating_add(1);
        }
    }
    Ok(changed)
}

/// The number of a line, its replacement, and the outcome.
const CHANGED: [(usize, &[u8], Outcome); 6] = [
    (1, b"spares-held,2", Outcome::BadLine(1)),
    (2, b"spares-certificate,1", Outcome::BadLine(2)),
    (28, b"2", Outcome::Read(2)),
    (28, b"3", Outcome::BadLine(28)),
    (29, b"3", Outcome::Read(3)),
    (30, b"End", Outcome::BadLine(30)),
];

fn come_out(rt: &impl Abort, alloc: Global, rows: &[(usize, &[u8], Outcome)]) -> Result<(), Fail> {
    for (number, line, due) in rows {
        let changed = with_line(alloc, HELD, *number, line)?;
        assert_eq!(rt; read_held(alloc, changed.as_slice()), *due);
    }
    Ok(())
}

#[test]
fn reads_what_is_held_and_names_the_first_bad_line(rt: HostRuntime) -> Result<(), Fail> {
    assert_eq!(&rt; read_held(rt.alloc(), HELD), Outcome::Read(0));
    come_out(&rt, rt.alloc(), CHANGED.as_slice())
}

#[test]
fn a_case_fault_stands_before_a_bad_line_after_the_first_end(rt: HostRuntime) -> Result<(), Fail> {
    let changed = with_line(rt.alloc(), HELD, 30, b"End")?;
    let changed = with_line(rt.alloc(), changed.as_slice(), 6, b"D,base,12,10.00")?;
    let double = with_line(
        rt.alloc(),
        changed.as_slice(),
        11,
        b"L,D,36.5000,0.0000,,0.00",
    )?;
    assert_eq!(&rt;
        read_held(rt.alloc(), double.as_slice()),
        Outcome::BadCase(CaseFault::DoubleSite(3))
    );
    Ok(())
}

/// The work of a held certificate's case from the held stocks.
fn work_read(alloc: Global, bytes: &[u8]) -> Result<u64, u64> {
    if bytes.len() > 16_777_216 {
        return Err(0);
    }
    match read(alloc, bytes) {
        Ok(certificate) => held_work(&certificate.certificate.case, &certificate.held),
        Err(_) => Err(0),
    }
}

/// The number of a line, its replacement, and the work.
const WORKS: [(usize, &[u8], u64); 4] = [
    (28, b"0", 4),
    (28, b"1", 3),
    (28, b"2", 2),
    (29, b"3", 4),
];

fn work_out(rt: &impl Abort, alloc: Global, rows: &[(usize, &[u8], u64)]) -> Result<(), Fail> {
    for (number, line, due) in rows {
        let changed = with_line(alloc, HELD, *number, line)?;
        assert_eq!(rt; work_read(alloc, changed.as_slice()), Ok(*due));
    }
    Ok(())
}

#[test]
fn counts_one_table_for_each_stock_at_the_depot(rt: HostRuntime) -> Result<(), Fail> {
    work_out(&rt, rt.alloc(), WORKS.as_slice())
}
