//! The delivery of an outcome: first the write to the shelf, then the report.
ghost use Rattle.std.specs.Prelude.{◌≡◌, None, IfErr, IfOk, OnOk, OnErr};
ghost use Rattle.spares_io.specs.Causes.{Rose};
ghost use Rattle.spares_io.specs.Sink.{Gains, GainsPart};
ghost use Rattle.refusals.specs.declared.refusal.Refusal.TheVariants as refusal;
ghost use Rattle.refusals.specs.Causes.{plain_failure};
ghost use Rattle.order_inputs.specs.Files.{StandStill};
ghost use Rattle.command_outcomes.specs.Making.{Delivers, WriteRefused};
ghost use Rattle.command_outcomes.specs.State.{after_write, scene};
ghost use Rattle.command_outcomes.specs.Texts.{CanPrint};

use crate::done::{Done, TaskOutcome, Written};
use refusals::{Failure, Refusal};
use spares_io::{Shelf, ShelfError, Sink, SinkFailed};
use std::alloc::Global;

/// Makes the write of an outcome, if it has one.
fn write<H: Shelf>(writes: &Option<Written>, shelf: &mut H) -> Result<(), Failure>
    ensures held { OnOk result (H.held shelf.new ≡ after_write writes.now (H.held shelf.old)) }
    ensures still { OnOk result (StandStill (H.write_faults shelf.old) (H.write_faults shelf.new)) }
    ensures refused { IfErr result (WriteRefused writes.now (H.held shelf.old) (H.held shelf.new)
        (H.write_faults shelf.old) (H.write_faults shelf.new)) }
    ensures nothing { writes.now ≡ None → StandStill (H.write_faults shelf.old) (H.write_faults shelf.new) }
    ensures reads { StandStill (H.read_faults shelf.old) (H.read_faults shelf.new) }
{
    let Some(written) = writes else {
        return Ok(());
    };
    match shelf.write(written.name.as_str(), written.bytes.as_slice()) {
        Ok(()) => Ok(()),
        Err(ShelfError::NoMemory) => Err(Failure::of(Refusal::NoMemory)),
        Err(_) => Err(Failure::of(Refusal::WriteFault)),
    }
}

/// Puts the text of a report to the output.
fn print<W: Sink>(out: &mut W, text: &[u8]) -> Result<(), Failure>
    ensures ok { OnOk result (Gains (W.bytes out.old) (W.bytes out.new) text.now) }
    ensures err { OnErr result (GainsPart (W.bytes out.old) (W.bytes out.new) text.now) }
    ensures cause { OnErr result (Rose (W.faults out.old) (W.faults out.new)) }
    ensures still { OnOk result (W.faults out.new ≡ W.faults out.old) }
    ensures fault { IfErr result (λ failure. failure ≡ plain_failure refusal.WriteFault) }
{
    match out.put(text) {
        Ok(()) => Ok(()),
        Err(SinkFailed) => Err(Failure::of(Refusal::WriteFault)),
    }
}

/// Delivers an outcome. Its text is complete before any write.
fn deliver<H: Shelf, W: Sink>(
    alloc: Global,
    outcome: &TaskOutcome,
    shelf: &mut H,
    out: &mut W,
) -> Result<(), Failure>
    requires { CanPrint outcome.now.done }
    ensures delivers { Delivers outcome.now
        (scene (H.held shelf.old) (H.read_faults shelf.old) (H.write_faults shelf.old)
        (W.bytes out.old) (W.faults out.old))
        (scene (H.held shelf.new) (H.read_faults shelf.new) (H.write_faults shelf.new)
        (W.bytes out.new) (W.faults out.new)) result }
    ensures nothing { outcome.now.writes ≡ None → StandStill (H.write_faults shelf.old) (H.write_faults shelf.new) }
    ensures reads { StandStill (H.read_faults shelf.old) (H.read_faults shelf.new) }
{
    let Ok(text) = outcome.done.text(alloc) else {
        return Err(Failure::of(Refusal::NoMemory));
    };
    write(&outcome.writes, shelf)?;
    print(out, text.as_slice())
}

/// Delivers an outcome, and hands out its report: first its write, if it has one, then the report's text. The text is
/// complete before any write. It fails for want of memory, with nothing written, or at the write or the put.
pub fn finish<H: Shelf, W: Sink>(
    alloc: Global,
    outcome: TaskOutcome,
    shelf: &mut H,
    out: &mut W,
) -> Result<Done, Failure>
    requires { CanPrint outcome.done }
    ensures delivers { Delivers outcome
        (scene (H.held shelf.old) (H.read_faults shelf.old) (H.write_faults shelf.old)
        (W.bytes out.old) (W.faults out.old))
        (scene (H.held shelf.new) (H.read_faults shelf.new) (H.write_faults shelf.new)
        (W.bytes out.new) (W.faults out.new)) result }
    ensures report { IfOk result (λ done. done ≡ outcome.done) }
    ensures nothing { outcome.writes ≡ None → StandStill (H.write_faults shelf.old) (H.write_faults shelf.new) }
    ensures reads { StandStill (H.read_faults shelf.old) (H.read_faults shelf.new) }
{
    deliver(alloc, &outcome, shelf, out).and(Ok(outcome.done))
}
