use crate::helpers::{Ended, compare, empty_shelf, ends_alone, refused, sink, words_of};
use spares_io::{MemShelf, MemSink, Text};
use spares_top::{Refusal, run, status};
use std::alloc::Global;
use std::process::Abort;
use std::test::Fail;

/// Words, separated by spaces, and their report.
const PRINTED: [(&str, &str); 18] = [
    (
        "single 1 1",
        "backorders,0.367879,0.367880\nvariance,0.496785,0.496786\n",
    ),
    (
        "single -- 1 1",
        "backorders,0.367879,0.367880\nvariance,0.496785,0.496786\n",
    ),
    (
        "single 1 0",
        "backorders,1.000000,1.000000\nvariance,1.000000,1.000000\n",
    ),
    (
        "single .5 1",
        "backorders,0.106530,0.106531\nvariance,0.132120,0.132121\n",
    ),
    (
        "single 1 1 --variance 2",
        "backorders,0.499999,0.500001\nvariance,1.249999,1.250001\n",
    ),
    (
        "single --variance=2 1 1",
        "backorders,0.499999,0.500001\nvariance,1.249999,1.250001\n",
    ),
    (
        "single 1 --variance 2 1",
        "backorders,0.499999,0.500001\nvariance,1.249999,1.250001\n",
    ),
    (
        "single 0 0",
        "backorders,0.000000,0.000000\nvariance,0.000000,0.000000\n",
    ),
    (
        "single 0 5",
        "backorders,0.000000,0.000000\nvariance,0.000000,0.000000\n",
    ),
    (
        "single 256 0",
        "backorders,256.000000,256.000000\nvariance,256.000000,256.000000\n",
    ),
    (
        "single 256 63 --variance 256",
        "backorders,193.000000,193.000001\nvariance,255.999999,256.000000\n",
    ),
    (
        "single 200 63",
        "backorders,137.000000,137.000001\nvariance,199.999999,200.000000\n",
    ),
    (
        "single 2 1",
        "backorders,1.135335,1.135336\nvariance,1.575678,1.575679\n",
    ),
    (
        "single 2 1 --variance 1.5",
        "backorders,1.135335,1.135336\nvariance,1.575678,1.575679\n",
    ),
    (
        "single 0.5 1 --variance 40",
        "backorders,0.472646,0.472647\nvariance,39.053958,39.053959\n",
    ),
    (
        "single 0.0001 0 --variance 0.1024",
        "backorders,0.000099,0.000101\nvariance,0.102399,0.102401\n",
    ),
    (
        "single 1 1 --variance 256",
        "backorders,0.978485,0.978504\nvariance,254.064010,254.064097\n",
    ),
    (
        "single 1 1.0",
        "backorders,0.367879,0.367880\nvariance,0.496785,0.496786\n",
    ),
];

/// Words, separated by spaces, with the line of their refusal and the exit status.
const REFUSED: [(&str, &str, u8); 19] = [
    ("", "fault,words\n", 2),
    ("help", "fault,words\n", 2),
    ("plan", "fault,words\n", 2),
    ("single 1", "fault,words\n", 2),
    ("single 1 1 1", "fault,words\n", 2),
    ("single --help", "fault,words\n", 2),
    ("single 1 1 --variance", "fault,words\n", 2),
    ("single 1 1 --variance -1", "fault,words\n", 2),
    ("single 1 1 --variance 2 --variance 2", "fault,words\n", 2),
    ("single x 1", "fault,number,mean\n", 2),
    ("single 1.00001 0", "fault,number,mean\n", 2),
    ("single 1 1 --variance=-1", "fault,number,variance\n", 2),
    ("single 1 64", "fault,range,stock\n", 2),
    ("single 257 64", "fault,range,stock\n", 2),
    ("single 256.0001 0", "fault,pipeline-too-large,single\n", 3),
    (
        "single 1 1 --variance 256.0001",
        "fault,pipeline-too-large,single\n",
        3,
    ),
    (
        "single 0 0 --variance 300",
        "fault,pipeline-too-large,single\n",
        3,
    ),
    (
        "single 0 0 --variance 1",
        "fault,pipeline-ratio,single\n",
        3,
    ),
    (
        "single 0.0001 0 --variance 0.1025",
        "fault,pipeline-ratio,single\n",
        3,
    ),
];

/// Each line is carried out, and prints its report.
fn prints(rt: &impl Abort, alloc: Global, rows: &[(&str, &str)]) -> Result<(), Fail> {
    for (line, report) in rows {
        let shelf = empty_shelf(alloc)?;
        let wanted = Ended {
            status: 0,
            out: report,
            err: "",
        };
        ends_alone(rt, alloc, line, shelf, &[], wanted)?;
    }
    Ok(())
}

/// Each line is refused, with this line and this status.
fn refuses(rt: &impl Abort, alloc: Global, rows: &[(&str, &str, u8)]) -> Result<(), Fail> {
    for (line, refusal, code) in rows {
        let shelf = empty_shelf(alloc)?;
        let wanted = Ended {
            status: *code,
            out: "",
            err: refusal,
        };
        ends_alone(rt, alloc, line, shelf, &[], wanted)?;
    }
    Ok(())
}

#[test]
fn prints_the_worked_rows(rt: HostRuntime) -> Result<(), Fail> {
    prints(&rt, rt.alloc(), &PRINTED)
}

#[test]
fn refuses_the_worked_rows(rt: HostRuntime) -> Result<(), Fail> {
    refuses(&rt, rt.alloc(), &REFUSED)
}

/// The room of an output and its puts that fail, and its contents after a report of 56 bytes that it doesn't take whole.
const PREFIXES: [(usize, &[u32], &str); 3] = [
    (100, &[1], "backorders,0.367879,0.367880"),
    (20, &[], "backorders,0.367879,"),
    (0, &[], ""),
];

/// Whether the report isn't written, and the exit status.
fn write_fault_of(
    alloc: Global,
    words: &[Text],
    shelf: MemShelf,
    out: &mut MemSink,
    err: &mut MemSink,
) -> (bool, u8) {
    let mut shelf = shelf;
    let answer = run(alloc, words, &mut shelf, out, err);
    let found = (matches!(&answer, Err(Refusal::WriteFault)), status(&answer));
    drop(answer);
    drop(shelf);
    found
}

/// The output keeps these contents, and the line says so.
fn keeps(
    rt: &impl Abort,
    alloc: Global,
    words: &[Text],
    rows: &[(usize, &[u32], &str)],
) -> Result<(), Fail> {
    for (room, fails, held) in rows {
        let shelf = empty_shelf(alloc)?;
        let mut out = sink(alloc, *room, fails)?;
        let mut err = sink(alloc, 100, &[])?;
        let (is_write_fault, code) = write_fault_of(alloc, words, shelf, &mut out, &mut err);
        assert!(rt; is_write_fault);
        let wanted = Ended {
            status: 6,
            out: held,
            err: "fault,write\n",
        };
        compare(rt, "single 1 1", code, &out, &err, wanted);
    }
    Ok(())
}

#[test]
fn keeps_a_prefix_of_the_report(rt: HostRuntime) -> Result<(), Fail> {
    let words = words_of(rt.alloc(), "single 1 1")?;
    keeps(&rt, rt.alloc(), words.as_slice(), PREFIXES.as_slice())
}

/// A refusal stays the same if its line can't be put.
#[test]
fn refuses_without_a_line(rt: HostRuntime) -> Result<(), Fail> {
    let alloc = rt.alloc();
    let words = words_of(alloc, "single 1 64")?;
    let shelf = empty_shelf(alloc)?;
    let mut out = sink(alloc, 100, &[])?;
    let mut err = sink(alloc, 8, &[])?;
    let (is_write_fault, code) = write_fault_of(alloc, words.as_slice(), shelf, &mut out, &mut err);
    assert!(rt; !is_write_fault);
    compare(&rt, "single 1 64", code, &out, &err, refused(2, "fault,ra"));
    Ok(())
}
