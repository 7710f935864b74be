use crate::helpers::{Ended, empty_shelf, ends, ends_alone, printed, refused, shelf_with};
use spares_io::MemShelf;
use std::alloc::Global;
use std::process::Abort;
use std::test::*;

/// The report of the seventh case with 40 line units.
const REPORT: &str =
    "demo,7,40\nparts,82\nbudget,80000\ncost,79990\ntotal,27.548090,27.548091\nbound,27.534063\ngap,0.014027\naccepted\n";

/// Its first half.
const HALF: &str = "demo,7,40\nparts,82\nbudget,80000\ncost,79990\ntotal,27.5";

/// Words, and the line of the refusal.
const REFUSED: [(&str, &str); 6] = [
    ("demo", "fault,words\n"),
    ("demo 7 40 1", "fault,words\n"),
    ("demo x 40", "fault,number,number\n"),
    ("demo 4294967296 x", "fault,range,number\n"),
    ("demo 7 0", "fault,range,lines\n"),
    ("demo 7 81", "fault,range,lines\n"),
];

/// Words are refused.
fn refuses(rt: &impl Abort, alloc: Global, rows: &[(&str, &str)]) -> Result<(), Fail> {
    for (words, line) in rows {
        let shelf = empty_shelf(alloc)?;
        ends_alone(rt, alloc, words, shelf, &[], refused(2, line))?;
    }
    Ok(())
}

#[test]
fn refuses_words_of_demonstrations(rt: HostRuntime) -> Result<(), Fail> {
    refuses(&rt, rt.alloc(), &REFUSED)
}

/// It prints the same at each run, even with a shelf whose first call would fail, and half if the output fails.
fn shows(rt: &impl Abort, alloc: Global, shelf: &mut MemShelf) -> Result<(), Fail> {
    let half = Ended {
        status: 6,
        out: HALF,
        err: "fault,write\n",
    };
    ends(rt, alloc, "demo 7 40", shelf, &[], printed(REPORT))?;
    ends(rt, alloc, "demo 7 40", shelf, &[], printed(REPORT))?;
    ends(rt, alloc, "demo 7 40", shelf, &[1], half)
}

#[test]
fn demonstrates(rt: HostRuntime) -> Result<(), Fail> {
    let mut shelf = shelf_with(rt.alloc(), &[], &[1])?;
    let ended = shows(&rt, rt.alloc(), &mut shelf);
    drop(shelf);
    ended
}
