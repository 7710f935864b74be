//! Texts and lists, shelves and sinks: their contents, and their failures.

use answers::{List, NoMemory};
use spares_io::{FileShelf, MemShelf, MemSink, Shelf, ShelfError, Sink, SinkFailed, StdSink, Text};
use std::alloc::Global;
use std::fs;
use std::io::{self, Error, ErrorKind, Write};
use std::process::Abort;
use std::test::Fail;

/// Whether two texts are equal, and whether they differ.
fn compare_texts(alloc: Global, text: &str, other: &str) -> Result<(bool, bool), NoMemory> {
    let (text, other) = (Text::from_str(alloc, text)?, Text::from_str(alloc, other)?);
    Ok((text == other, text != other))
}

/// Whether two lists are equal, and whether they differ.
fn compare_lists(alloc: Global, list: &[u8], other: &[u8]) -> Result<(bool, bool), NoMemory> {
    let (list, other) = (
        List::of(list.to_vec(alloc)?),
        List::of(other.to_vec(alloc)?),
    );
    Ok((list == other, list != other))
}

#[test]
fn texts_keep_what_they_are_made_of(rt: HostRuntime) -> Result<(), Fail> {
    let alloc = rt.alloc();
    assert_eq!(rt; Text::from_str(alloc, "Straße")?.as_str(), "Straße");
    assert!(rt; compare_texts(alloc, "Straße", "Straße")? == (true, false));
    assert!(rt; compare_texts(alloc, "Straße", "Strasse")? == (false, true));
    Ok(())
}

#[test]
fn lists_keep_what_they_are_made_of(rt: HostRuntime) -> Result<(), Fail> {
    let alloc = rt.alloc();
    assert!(rt; List::of([3, 1, 2].to_vec(alloc)?).as_slice() == [3, 1, 2].as_slice());
    assert!(rt; compare_lists(alloc, &[3, 1, 2], &[3, 1, 2])? == (true, false));
    assert!(rt; compare_lists(alloc, &[3, 1, 2], &[3, 1])? == (false, true));
    Ok(())
}

#[derive(Clone, Copy)]
enum Call {
    Read(&'static str, usize),
    Write(&'static str, &'static [u8]),
}

type Row = (Call, Result<(), ShelfError>, Option<&'static [u8]>);

/// Each call with its answer, and the content of its name afterwards.
const CALLS: [Row; 9] = [
    (Call::Read("sites", 3), Ok(()), Some(b"abc")),
    (
        Call::Read("sites", 3),
        Err(ShelfError::Failed),
        Some(b"abc"),
    ),
    (Call::Read("rates", 3), Err(ShelfError::Failed), None),
    (
        Call::Write("sites", b"vwxyz"),
        Err(ShelfError::Failed),
        Some(b"vw"),
    ),
    (Call::Write("sites", b"vwxyz"), Ok(()), Some(b"vwxyz")),
    (
        Call::Read("sites", 4),
        Err(ShelfError::TooLong),
        Some(b"vwxyz"),
    ),
    (Call::Write("rates", b""), Ok(()), Some(b"")),
    (
        Call::Write("plan", b"x"),
        Err(ShelfError::Failed),
        Some(b""),
    ),
    (Call::Read("parts", 2), Ok(()), Some(b"de")),
];

/// A name has this content, or none.
fn holds(rt: &impl Abort, shelf: &MemShelf, name: &str, held: Option<&[u8]>) {
    match (shelf.file(name), held) {
        (Some(found), Some(bytes)) => assert_eq!(rt; found, bytes),
        (found, none) => assert!(rt; found.is_none() && none.is_none()),
    }
}

/// A successful read returns the content of the name; any other returns nothing.
fn gives(rt: &impl Abort, into: &[u8], is_ok: bool, held: Option<&[u8]>) {
    match held {
        Some(bytes) if is_ok => assert_eq!(rt; into, bytes),
        _ => assert!(rt; !is_ok && into.is_empty()),
    }
}

/// The shelf answers each call as in its row. `into` gets the bytes of a read.
fn answers(rt: &impl Abort, shelf: &mut MemShelf, into: &mut Vec<u8>, rows: &[Row]) {
    for (call, answer, held) in rows {
        match *call {
            Call::Read(name, limit) => {
                assert_eq!(rt; shelf.read(name, limit, into), *answer, "reading {name}");
                holds(rt, shelf, name, *held);
                gives(rt, into.as_slice(), answer.is_ok(), *held);
            }
            Call::Write(name, bytes) => {
                assert_eq!(rt; shelf.write(name, bytes), *answer, "writing {name}");
                holds(rt, shelf, name, *held);
            }
        }
    }
}

/// Files by their names and contents.
fn files_of(alloc: Global, held: &[(&str, &[u8])]) -> Result<Vec<(Text, List<u8>)>, NoMemory> {
    let mut files = Vec::new(alloc);
    for (name, bytes) in held {
        files.push((Text::from_str(alloc, name)?, List::of(bytes.to_vec(alloc)?)))?;
    }
    Ok(files)
}

#[test]
fn a_shelf_in_memory_fails_at_the_listed_calls_alone(rt: HostRuntime) -> Result<(), Fail> {
    let alloc = rt.alloc();
    let files = files_of(alloc, &[("sites", b"abc"), ("parts", b"de")])?;
    assert!(rt; MemShelf::are_distinct(files.as_slice()));
    let mut shelf = MemShelf::new(alloc, files, [2, 4, 8].to_vec(alloc)?)?;
    let mut into = b"left over".to_vec(alloc)?;
    answers(&rt, &mut shelf, &mut into, CALLS.as_slice());
    drop(shelf);
    Ok(())
}

#[test]
fn names_that_stand_twice_are_seen(rt: HostRuntime) -> Result<(), Fail> {
    let alloc = rt.alloc();
    let files = files_of(alloc, &[])?;
    assert!(rt; MemShelf::are_distinct(files.as_slice()));
    let files = files_of(alloc, &[("a", b""), ("b", b""), ("a", b"")])?;
    assert!(rt; !MemShelf::are_distinct(files.as_slice()));
    Ok(())
}

/// Each piece with its answer, and the content of the sink afterwards.
const PUTS: [(&[u8], Result<(), SinkFailed>, &[u8]); 6] = [
    (b"ab", Ok(()), b"ab"),
    (b"cde", Err(SinkFailed), b"abc"),
    (b"", Ok(()), b"abc"),
    (b"vwxy", Err(SinkFailed), b"abcvwx"),
    (b"yz", Err(SinkFailed), b"abcvwx"),
    (b"", Ok(()), b"abcvwx"),
];

fn keeps(rt: &impl Abort, sink: &mut MemSink, rows: &[(&[u8], Result<(), SinkFailed>, &[u8])]) {
    for (piece, answer, bytes) in rows {
        assert_eq!(rt; sink.put(piece), *answer);
        assert_eq!(rt; sink.bytes(), *bytes);
    }
}

#[test]
fn a_sink_in_memory_keeps_what_fits(rt: HostRuntime) -> Result<(), Fail> {
    let alloc = rt.alloc();
    let mut sink = MemSink::new(alloc, 6, [2, 5].to_vec(alloc)?)?;
    keeps(&rt, &mut sink, PUTS.as_slice());
    Ok(())
}

/// Whether a shelf takes bytes and gives them back, up to a limit.
fn gives_back(
    shelf: &mut impl Shelf,
    name: &str,
    bytes: &[u8],
    limit: u32,
    into: &mut Vec<u8>,
) -> bool {
    shelf.write(name, bytes).is_ok()
        && shelf.read(name, limit as usize, into).is_ok()
        && into.as_slice() == bytes
}

#[test]
fn a_real_file_gives_back_what_was_written(rt: HostRuntime) -> Result<(), Fail> {
    let alloc = rt.alloc();
    let name = "spares_io_test.csv";
    let long = [7u8; 300_000].to_vec(alloc)?;
    let mut into = Vec::new(alloc);
    let mut shelf = FileShelf::new(&rt);
    assert!(rt; gives_back(&mut shelf, name, long.as_slice(), 300_000, &mut into));
    assert!(rt; shelf.read(name, 299_999, &mut into) == Err(ShelfError::TooLong));
    assert!(rt; into.is_empty());
    assert!(rt; gives_back(&mut shelf, name, b"abc", 3, &mut into));
    fs::remove_file(&rt, name)?;
    Ok(())
}

#[test]
fn a_folder_that_is_not_there_has_no_files(rt: HostRuntime) {
    let mut into = Vec::new(rt.alloc());
    let mut shelf = FileShelf::new(&rt);
    assert!(rt; shelf.read("no/such/file", 9, &mut into) == Err(ShelfError::Failed));
    assert!(rt; shelf.write("no/such/file", b"x") == Err(ShelfError::Failed));
}

/// A writer that takes two bytes at a time, and fails at a write or at its flush.
#[derive(Drop)]
struct Faulty {
    taken: Vec<u8>,
    writes_left: u32,
    is_flushing: bool,
}

impl Write for Faulty {
    fn write(&mut self, buf: &[u8]) -> io::Result<usize> {
        if self.writes_left == 0 {
            return Err(Error::from(ErrorKind::BrokenPipe));
        }
        self.writes_left -= 1;
        let count = buf.len().min(2);
        self.taken.extend_from_slice(&buf[..count])?;
        Ok(count)
    }

    fn flush(&mut self) -> io::Result<()> {
        if self.is_flushing {
            Ok(())
        } else {
            Err(Error::from(ErrorKind::BrokenPipe))
        }
    }
}

/// How many writes a writer takes, whether it flushes, the answer to a put, and what it has taken then.
const FAULTY: [(u32, bool, Result<(), SinkFailed>, &[u8]); 3] = [
    (3, true, Ok(()), b"abcde"),
    (2, true, Err(SinkFailed), b"abcd"),
    (3, false, Err(SinkFailed), b"abcde"),
];

fn puts(rt: &impl Abort, alloc: Global, rows: &[(u32, bool, Result<(), SinkFailed>, &[u8])]) {
    for (writes_left, is_flushing, answer, taken) in rows {
        let mut writer = Faulty {
            taken: Vec::new(alloc),
            writes_left: *writes_left,
            is_flushing: *is_flushing,
        };
        assert_eq!(rt; StdSink::new(&mut writer).put(b"abcde"), *answer);
        assert_eq!(rt; writer.taken.as_slice(), *taken);
    }
}

#[test]
fn a_put_fails_where_its_writer_does(rt: HostRuntime) {
    puts(&rt, rt.alloc(), FAULTY.as_slice());
}
