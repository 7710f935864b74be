//! Certificates, written and read.

use answers::Stop;
use price_certificate::{CertFault, read, text};
use spares_input::CaseFault;
use std::alloc::Global;
use std::process::Abort;
use std::test::*;

const FIRST: &[u8] =
    b"spares-certificate,1\nsites,2\nD,depot,,\nB,base,12,10.00\nparts,1\nL,,100,1,2,3\nrates,2\n\
L,D,,,,20.00\nL,B,36.5000,0.0000,,0.00\nbudget,0\nprice,281474976710656,100\nfloors,1\n84442493013196800\n\
stocks,2\n0\n0\nupper,844424930131968\nbound,844424930131968\nend\n";

const SECOND: &[u8] =
    b"spares-certificate,2\nobjective,backorders\nsites,2\nD,depot,,\nB,base,12,10.00\nparts,1\n\
L,,100,1,2,3\nrates,2\nL,D,,,,20.00\nL,B,36.5000,0.0000,,0.00\nbudget,0\nprice,281474976710656,100\nfloors,1\n\
84442493013196800\ncovers,1\ncover,3\nsplit,1,3\nwhole\ncost\nstocks,2\n0\n0\nupper,844424930131968\n\
bound,844424930131968\nend\n";

#[derive(Clone, Copy, Debug, PartialEq, Eq)]
enum Outcome {
    /// The bytes are read, and written again unchanged.
    Read,
    BadLine(u32),
    BadCase(CaseFault),
    /// No memory, too many bytes, or another text.
    Else,
}

fn read_again(alloc: Global, bytes: &[u8]) -> Outcome {
    if bytes.len() > 16_777_216 {
        return Outcome::Else;
    }
    match read(alloc, bytes) {
        Ok(certificate) => {
            let again = text(alloc, &certificate);
            drop(certificate);
            match again {
                Ok(again) if again.as_slice() == bytes => Outcome::Read,
                _ => Outcome::Else,
            }
        }
        Err(Stop::NoMemory) => Outcome::Else,
        Err(Stop::Fault(CertFault::BadLine(line))) => Outcome::BadLine(line),
        Err(Stop::Fault(CertFault::BadCase(fault))) => Outcome::BadCase(fault),
    }
}

/// The text with line `number`, counted from 1, replaced by another.
fn with_line(alloc: Global, text: &[u8], number: usize, line: &[u8]) -> Result<Vec<u8>, Fail> {
    let mut changed = Vec::new(alloc);
    let mut at = 1;
    for b in text {
        if at != number || *b == b'\n' {
            if at == number {
                changed.extend_from_slice(line)?;
            }
            changed.push(*b)?;
        }
        if *b == b'\n' {
            at = at.saturating_add(1);
        }
    }
    Ok(changed)
}

#[test]
fn names_the_line_that_is_missing(rt: HostRuntime) -> Result<(), Fail> {
    for text in [FIRST, SECOND] {
        let mut lines: u32 = 1;
        for (i, b) in text.iter().enumerate() {
            if i < text.len() {
                let (front, _rest) = text.split_at(i);
                assert_eq!(&rt; read_again(rt.alloc(), front), Outcome::BadLine(lines));
            }
            if *b == b'\n' {
                lines = lines.saturating_add(1);
            }
        }
        assert_eq!(&rt; read_again(rt.alloc(), text), Outcome::Read);
    }
    Ok(())
}

/// A text, the number of a line, its replacement, and the outcome.
const CHANGED: [(&[u8], usize, &[u8], Outcome); 16] = [
    (FIRST, 1, b"spares-certificate,3", Outcome::BadLine(1)),
    (FIRST, 1, b"spares-certificate,1\r", Outcome::BadLine(1)),
    (FIRST, 4, b"B,base,12,0.00", Outcome::Read),
    (FIRST, 7, b"rates,3", Outcome::BadLine(7)),
    (FIRST, 8, b"K,D,,,,20.00", Outcome::BadLine(8)),
    (FIRST, 8, b"L,D,1.0000,,,20.00", Outcome::BadLine(8)),
    (FIRST, 11, b"price,1,0", Outcome::BadLine(11)),
    (
        FIRST,
        13,
        b"41538374868278621028243970633760768",
        Outcome::Read,
    ),
    (
        FIRST,
        13,
        b"41538374868278621028243970633760769",
        Outcome::BadLine(13),
    ),
    (FIRST, 16, b"00", Outcome::BadLine(16)),
    (SECOND, 1, b"spares-certificate,1", Outcome::BadLine(2)),
    (SECOND, 2, b"objective,log-availability", Outcome::Read),
    (SECOND, 2, b"objective,loss", Outcome::BadLine(2)),
    (SECOND, 16, b"cover,2", Outcome::BadLine(19)),
    (SECOND, 17, b"split,1,0", Outcome::BadLine(17)),
    (SECOND, 18, b"half", Outcome::BadLine(18)),
];

fn come_out(
    rt: &impl Abort,
    alloc: Global,
    rows: &[(&[u8], usize, &[u8], Outcome)],
) -> Result<(), Fail> {
    for (text, number, line, due) in rows {
        let changed = with_line(alloc, text, *number, line)?;
        assert_eq!(rt; read_again(alloc, changed.as_slice()), *due);
    }
    Ok(())
}

#[test]
fn names_the_line_that_breaks_a_rule(rt: HostRuntime) -> Result<(), Fail> {
    come_out(&rt, rt.alloc(), CHANGED.as_slice())
}

#[test]
fn a_text_ends_with_its_end(rt: HostRuntime) -> Result<(), Fail> {
    for end in [b"end\nx".as_slice(), b"end\nx\n", b"end\n\n"] {
        let mut longer = with_line(rt.alloc(), FIRST, 19, end)?;
        longer.pop();
        assert_eq!(&rt;
            read_again(rt.alloc(), longer.as_slice()),
            Outcome::BadLine(20)
        );
    }
    Ok(())
}

#[test]
fn reads_weights(rt: HostRuntime) -> Result<(), Fail> {
    let weighted = with_line(rt.alloc(), FIRST, 5, b"parts,1,weights")?;
    for (line, due) in [
        (b"L,,100,1,2,3,3".as_slice(), Outcome::Read),
        (b"L,,100,1,2,3,1", Outcome::BadLine(6)),
        (b"L,,100,1,2,3,101", Outcome::BadLine(6)),
    ] {
        let text = with_line(rt.alloc(), weighted.as_slice(), 6, line)?;
        assert_eq!(&rt; read_again(rt.alloc(), text.as_slice()), due);
    }
    Ok(())
}

#[test]
fn a_case_fault_comes_where_all_lines_are_in_the_grammar(rt: HostRuntime) -> Result<(), Fail> {
    let double = with_line(rt.alloc(), FIRST, 4, b"D,base,12,10.00")?;
    assert_eq!(&rt;
        read_again(rt.alloc(), double.as_slice()),
        Outcome::BadLine(9)
    );
    let double = with_line(
        rt.alloc(),
        double.as_slice(),
        9,
        b"L,D,36.5000,0.0000,,0.00",
    )?;
    assert_eq!(&rt;
        read_again(rt.alloc(), double.as_slice()),
        Outcome::BadCase(CaseFault::DoubleSite(3))
    );
    let later = with_line(rt.alloc(), double.as_slice(), 19, b"End")?;
    assert_eq!(&rt;
        read_again(rt.alloc(), later.as_slice()),
        Outcome::BadLine(19)
    );
    Ok(())
}
