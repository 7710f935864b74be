//! The top call.
ghost use Rattle.command_outcomes.specs.Promises.{Runs, errors};
ghost use Rattle.command_outcomes.specs.State.{scene};

use crate::work::work;
use command_outcomes::{Done, put_line};
use refusals::Refusal;
use spares_io::{Shelf, Sink, Text};
use std::alloc::Global;

/// Carries out the words after the program's name, over a shelf, an output and a place for refusals.
///
/// All texts are made before the first put, and the report is put to `out` by one put. For a refusal `err` gets one
/// line, which takes no memory.
///
/// # Errors
///
/// In this order:
///
/// - `Words` if the words are no order;
/// - `ReadFault` or `TooLong` at the first file that isn't read;
/// - the first `Table` or `Case` of sites, parts and rates, and then `Table` or `Stock` of the stocks;
/// - `Rate` if a pipeline is beyond the model's limits;
/// - `Work` if the curves of a case take too many tables;
/// - of `check`, `Cert` if its file is no certificate, and `Rejected` if the certificate breaks a rule;
/// - of `session`, `Edit` at the first line that is wrong or whose plan isn't made. It looks at rates only if its edits
///   ask for a plan;
/// - `WriteFault` if the certificate isn't written or the put of the report fails.
///
/// After `WriteFault` the output holds a prefix of the report, and after the others it is as before. `NoMemory` may
/// come at any step before the put.
pub fn run<H: Shelf, W: Sink, E: Sink>(
    alloc: Global,
    words: &[Text],
    shelf: &mut H,
    out: &mut W,
    err: &mut E,
) -> Result<Done, Refusal>
    ensures { Runs words.now
        (scene (H.held shelf.old) (H.read_faults shelf.old) (H.write_faults shelf.old)
        (W.bytes out.old) (W.faults out.old))
        (scene (H.held shelf.new) (H.read_faults shelf.new) (H.write_faults shelf.new)
        (W.bytes out.new) (W.faults out.new))
        (errors (E.bytes err.old) (E.faults err.old)) (errors (E.bytes err.new) (E.faults err.new)) result }
{
    match work(alloc, words, shelf, out) {
        Ok(done) => Ok(done),
        Err(failure) => {
            put_line(&failure.line, err);
            Err(failure.refusal)
        }
    }
}
