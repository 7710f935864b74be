//! The line of a refusal, and the refusal of words that can't be read.
ghost use Rattle.std.specs.Prelude.{◌≡◌};
ghost use Rattle.refusals.specs.Lines.{line_of_refusal, no_names};
ghost use Rattle.command_outcomes.specs.Answer.{words_refusal};
ghost use Rattle.command_outcomes.specs.Promises.{PutsLine};

use answers::Stop;
use refusals::{Failure, Line, Refusal};
use spares_io::Sink;
use spares_words::WordsFault;

/// Puts a line, by one put. If the put fails, it does nothing else.
pub fn put_line<E: Sink>(line: &Line, err: &mut E)
    ensures { PutsLine line.now (E.bytes err.old) (E.faults err.old) (E.bytes err.new) (E.faults err.new) }
{
    let _ = err.put(line.as_slice());
}

/// The refusal of words that are no order, or of want of memory.
pub fn refusal_of(stop: Stop<WordsFault>) -> Refusal
    ensures { result ≡ words_refusal stop }
{
    match stop {
        Stop::NoMemory => Refusal::NoMemory,
        Stop::Fault(fault) => Refusal::Words(fault),
    }
}

/// Refuses words that can't be read: puts the line of the refusal, by one put, and returns the refusal. If the put
/// fails, it does nothing else.
pub fn refuse<E: Sink>(stop: Stop<WordsFault>, err: &mut E) -> Refusal
    ensures refusal { result ≡ words_refusal stop }
    ensures line { PutsLine (line_of_refusal no_names result) (E.bytes err.old) (E.faults err.old) (E.bytes err.new)
        (E.faults err.new) }
{
    let failure = Failure::of(refusal_of(stop));
    put_line(&failure.line, err);
    failure.refusal
}
