//! The planner over the real files, the standard output and the standard error.
#![tactic(auto)]

use spares_io::{FileShelf, StdSink};
use spares_top::{refuse, run, status};
use spares_words::words;
use std::process::ExitCode;

fn main(rt: HostRuntime) -> ExitCode {
    let mut shelf = FileShelf::new(&rt);
    let mut out = StdSink::new(rt.stdout());
    let mut err = StdSink::new(rt.stderr());
    let answer = match words(&rt) {
        Ok(words) => run(rt.alloc(), words.as_slice(), &mut shelf, &mut out, &mut err),
        Err(stop) => Err(refuse(stop, &mut err)),
    };
    ExitCode::from(status(&answer))
}
