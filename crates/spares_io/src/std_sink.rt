//! A sink over a writer of the standard library.
ghost use Rattle.std.specs.Prelude.{◌≡◌, None, OnOk, OnErr};
ghost use Rattle.std.specs.Io.KnownBytes.{Appends};
ghost use Rattle.std.proofs.Common.{arith};
ghost use Rattle.answers.specs.Counts.{count64};
ghost use Rattle.spares_io.specs.Causes.{Rose};
ghost use Rattle.spares_io.specs.Sink.{Gains, GainsPart};

use crate::{Sink, SinkFailed};
use std::io;
use std::io::Write;

/// A writer, such as the standard output. Its bytes are unknown to contracts.
#[derive(Drop)]
pub struct StdSink<W: Write + Drop> {
    writer: W,
    faults: u64,
}

impl<W: Write + Drop> StdSink<W> {
    /// A sink over this writer, before any failed put.
    pub fn new(writer: W) -> StdSink<W>
        ensures faults { ⟦<StdSink<W> as Sink>⟧.faults result ≡ 0 }
        ensures writer { result.writer ≡ writer }
    {
        StdSink { writer, faults: 0 }
    }
}

/// Writes all these bytes, and flushes the writer.
pub(crate) fn write_and_flush<W: Write>(writer: &mut W, bytes: &[u8]) -> io::Result<()>
    ensures { OnOk result (Appends (W.contents writer.old) (W.contents writer.new) bytes.now) }
{
    writer.write_all(bytes)?;
    writer.flush()
}

impl<W: Write + Drop> Sink for StdSink<W> {
    ghost bytes = { λ _. None };

    ghost faults = { λ s. count64 s.faults };

    ghost end = { λ s. Prim.omega arith };

    /// Writes these bytes, and flushes the writer before it returns Ok.
    ///
    /// # Errors
    ///
    /// `SinkFailed` if the writer or its flush fails, which is counted.
    fn put(&mut self, piece: &[u8]) -> Result<(), SinkFailed>
        ensures whole { OnOk result (Gains None None piece.now) }
        ensures part { OnErr result (GainsPart None None piece.now) }
        ensures failed { OnErr result (Rose (count64 self.old.faults) (count64 self.new.faults)) }
        ensures still { OnOk result (count64 self.new.faults ≡ count64 self.old.faults) }
        ensures written { OnOk result
            (Appends (W.contents self.old.writer) (W.contents self.new.writer) piece.now) }
    {
        if write_and_flush(&mut self.writer, piece).is_ok() {
            return Ok(());
        }
        self.faults = self.faults.saturating_add(1);
        Err(SinkFailed)
    }
}
