//! A place to put bytes.
ghost use Rattle.std.specs.Prelude.{◌≡◌, List, ℕ, Option, OnOk, OnErr};
ghost use Rattle.std.specs.Io.KnownBytes.{append_known};
ghost use Rattle.spares_io.specs.Causes.{Rose, Fits64};
ghost use Rattle.spares_io.specs.Sink.{Gains, GainsPart};

/// A put failed. A prefix of its bytes was put.
#[derive(Clone, Copy, Debug, PartialEq, Eq)]
pub struct SinkFailed;

/// A place to put bytes, such as a report. Contracts may know its bytes; if they do, they know them after each call.
/// Its count of failed puts rises only at those.
pub trait Sink {
    /// All bytes that were put, if contracts know them.
    ghost bytes: { Self → Option (List ℕ) };

    /// The number of failed puts, up to `u64::MAX`.
    ghost faults: { Self → ℕ };

    /// Appends these bytes. Needs no memory that could be refused.
    ///
    /// # Errors
    ///
    /// `SinkFailed` if the outside fails, which is counted: a prefix of the bytes may be there.
    fn put(&mut self, piece: &[u8]) -> Result<(), SinkFailed>
        ensures whole { OnOk result (Gains (bytes self.old) (bytes self.new) piece.now) }
        ensures part { OnErr result (GainsPart (bytes self.old) (bytes self.new) piece.now) }
        ensures failed { OnErr result (Rose (faults self.old) (faults self.new)) }
        ensures still { OnOk result (faults self.new ≡ faults self.old) };

    /// The count of failed puts is at most `u64::MAX`.
    ghost end: { (s : Self) → Fits64 (faults s) };
}
