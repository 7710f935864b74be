//! Helpers of the tests of the worked rows.
use answers::{List, NoMemory};
use spares_io::{MemShelf, MemSink, Text};
use spares_top::{run, status};
use std::alloc::Global;
use std::process::Abort;
use std::test::*;

/// Words, separated by spaces.
pub(crate) fn words_of(alloc: Global, line: &str) -> Result<Vec<Text>, NoMemory> {
    let mut words = Vec::new(alloc);
    for word in line.split(' ') {
        if !word.is_empty() {
            words.push(Text::from_str(alloc, word)?)?;
        }
    }
    Ok(words)
}

/// A sink of this room, whose puts fail as listed.
pub(crate) fn sink(alloc: Global, room: usize, fails: &[u32]) -> Result<MemSink, NoMemory> {
    MemSink::new(alloc, room, fails.to_vec(alloc)?)
}

/// A shelf with no names.
pub(crate) fn empty_shelf(alloc: Global) -> Result<MemShelf, NoMemory> {
    MemShelf::new(alloc, Vec::new(alloc), Vec::new(alloc))
}

/// These files, and the numbers of the calls that fail.
pub(crate) fn shelf_with(
    alloc: Global,
    held: &[(&str, &[u8])],
    fails: &[u32],
) -> Result<MemShelf, NoMemory> {
    let mut files = Vec::new(alloc);
    for (name, bytes) in held {
        files.push((Text::from_str(alloc, name)?, List::of(bytes.to_vec(alloc)?)))?;
    }
    if !MemShelf::are_distinct(files.as_slice()) {
        return Err(NoMemory);
    }
    MemShelf::new(alloc, files, fails.to_vec(alloc)?)
}

/// The tables of a text, which has a bar between two: sites, parts, rates and stocks.
pub(crate) fn tables_of(text: &str) -> [&str; 4] {
    let mut tables = [""; 4];
    let mut place: usize = 0;
    for table in text.split('|') {
        if let Some(here) = tables.get_mut(place) {
            *here = table;
        }
        place = place.saturating_add(1);
    }
    tables
}

/// The files of the tables of a text, and the numbers of the calls that fail.
pub(crate) fn shelf_of(alloc: Global, text: &str, fails: &[u32]) -> Result<MemShelf, NoMemory> {
    shelf_of_tables(alloc, tables_of(text), fails)
}

/// The files `sites`, `parts`, `rates` and `stocks`, and the numbers of the calls that fail.
pub(crate) fn shelf_of_tables(
    alloc: Global,
    tables: [&str; 4],
    fails: &[u32],
) -> Result<MemShelf, NoMemory> {
    let held = [
        ("sites", tables[0].as_bytes()),
        ("parts", tables[1].as_bytes()),
        ("rates", tables[2].as_bytes()),
        ("stocks", tables[3].as_bytes()),
    ];
    shelf_with(alloc, &held, fails)
}

/// The exit status of a run, and the contents of its two outputs.
#[derive(Clone, Copy)]
pub(crate) struct Ended<'a> {
    pub(crate) status: u8,
    pub(crate) out: &'a str,
    pub(crate) err: &'a str,
}

/// A report, and nothing else.
pub(crate) fn printed(report: &str) -> Ended {
    Ended {
        status: 0,
        out: report,
        err: "",
    }
}

/// A refusal with nothing printed.
pub(crate) fn refused(status: u8, line: &str) -> Ended {
    Ended {
        status,
        out: "",
        err: line,
    }
}

/// The exit status of a run.
fn status_of(
    alloc: Global,
    words: &[Text],
    shelf: &mut MemShelf,
    out: &mut MemSink,
    err: &mut MemSink,
) -> u8 {
    let answer = run(alloc, words, shelf, out, err);
    let code = status(&answer);
    drop(answer);
    code
}

/// Compares the status and the outputs of a line's run.
pub(crate) fn compare(
    rt: &impl Abort,
    line: &str,
    code: u8,
    out: &MemSink,
    err: &MemSink,
    wanted: Ended,
) {
    assert_eq!(rt; err.bytes(), wanted.err.as_bytes(), "{line}");
    assert_eq!(rt; out.bytes(), wanted.out.as_bytes(), "{line}");
    assert_eq!(rt; code, wanted.status, "{line}");
}

/// Runs words separated by spaces, with puts of the output that fail as listed, and compares its end.
pub(crate) fn ends(
    rt: &impl Abort,
    alloc: Global,
    line: &str,
    shelf: &mut MemShelf,
    fails: &[u32],
    wanted: Ended,
) -> Result<(), Fail> {
    let words = words_of(alloc, line)?;
    let mut out = sink(alloc, 2000, fails)?;
    let mut err = sink(alloc, 200, &[])?;
    let code = status_of(alloc, words.as_slice(), shelf, &mut out, &mut err);
    compare(rt, line, code, &out, &err, wanted);
    Ok(())
}

/// The same on a shelf that serves this run alone.
pub(crate) fn ends_alone(
    rt: &impl Abort,
    alloc: Global,
    line: &str,
    shelf: MemShelf,
    fails: &[u32],
    wanted: Ended,
) -> Result<(), Fail> {
    let mut shelf = shelf;
    let ended = ends(rt, alloc, line, &mut shelf, fails, wanted);
    drop(shelf);
    ended
}
