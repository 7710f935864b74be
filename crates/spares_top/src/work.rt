//! An order, from the shelf to the output.
ghost use Rattle.std.specs.Prelude.{◌≡◌, [], Ok};
ghost use Rattle.spares_words.specs.Order.{IsInRange, order_of};
ghost use Rattle.order_inputs.specs.Files.{StandStill, inputs};
ghost use Rattle.order_inputs.specs.Reading.{AreWithin};
ghost use Rattle.command_outcomes.specs.Making.{ComesOf, Is, MakesBy};
ghost use Rattle.command_outcomes.specs.Promises.{Performs};
ghost use Rattle.command_outcomes.specs.State.{scene};
ghost use Rattle.command_outcomes.specs.Task.{task_on};

use crate::session::session;
use answers::{List, Stop};
use command_outcomes::{Done, TaskOutcome, check, compare, eval, finish, refusal_of, single};
use order_inputs::{files_of, fourth_of, table_at, tables_of};
use plan_commands::{demo, plan, sweep, target};
use price_certificate::Terms;
use refusals::Failure;
use spares_io::{Shelf, Sink, Text};
use spares_words::{Order, read_words};
use std::alloc::Global;

/// The outcome of an order on the bytes of its inputs.
fn outcome_on(
    alloc: Global,
    order: &Order,
    files: &[List<u8>],
) -> Result<TaskOutcome, Stop<Failure>>
    requires order { IsInRange order.now }
    requires files { AreWithin (inputs order.now) files.now }
    ensures { MakesBy (Is (task_on order.now files.now)) result }
{
    match order {
        Order::Single {
            mean,
            variance,
            stock,
        } => single(alloc, *mean, *variance, *stock),
        Order::Eval { bits, .. } => eval(alloc, &tables_of(files), &table_at(files, 3), *bits),
        Order::Plan {
            on_hand,
            budget,
            format,
            objective,
            certificate,
            ..
        } => {
            let terms = Terms {
                budget: *budget,
                format: *format,
                objective: *objective,
            };
            let stocks = fourth_of(files, on_hand);
            plan(alloc, &tables_of(files), &stocks, terms, certificate)
        }
        Order::Check { .. } => check(alloc, files[0].as_slice()),
        Order::Demo { number, lines } => demo(alloc, *number, *lines),
        Order::Sweep { .. } => sweep(alloc, &tables_of(files)),
        Order::Target { backorders, .. } => target(alloc, &tables_of(files), *backorders),
        Order::Session { .. } => session(alloc, &tables_of(files), files[3].as_slice()),
        Order::Compare { .. } => compare(alloc, &tables_of(files), &table_at(files, 3)),
    }
}

/// The outcome of an order, before any write.
fn outcome_of<H: Shelf>(
    alloc: Global,
    order: &Order,
    shelf: &mut H,
) -> Result<TaskOutcome, Stop<Failure>>
    requires { IsInRange order.now }
    ensures makes { MakesBy (ComesOf order.now (H.held shelf.old) (H.read_faults shelf.old) (H.read_faults shelf.new))
        result }
    ensures held { H.held shelf.new ≡ H.held shelf.old }
    ensures writes { StandStill (H.write_faults shelf.old) (H.write_faults shelf.new) }
    ensures reads { inputs order.now ≡ [] → StandStill (H.read_faults shelf.old) (H.read_faults shelf.new) }
{
    let files = files_of(alloc, order, shelf)?;
    outcome_on(alloc, order, files.as_slice())
}

/// Carries out an order. Its outcome is complete before any write.
fn perform<H: Shelf, W: Sink>(
    alloc: Global,
    order: &Order,
    shelf: &mut H,
    out: &mut W,
) -> Result<Done, Failure>
    requires { IsInRange order.now }
    ensures { Performs (Ok order.now)
        (scene (H.held shelf.old) (H.read_faults shelf.old) (H.write_faults shelf.old)
        (W.bytes out.old) (W.faults out.old))
        (scene (H.held shelf.new) (H.read_faults shelf.new) (H.write_faults shelf.new)
        (W.bytes out.new) (W.faults out.new)) result }
{
    let outcome = outcome_of(alloc, order, shelf)?;
    finish(alloc, outcome, shelf, out)
}

/// Reads the words, and carries out their order.
pub(crate) fn work<H: Shelf, W: Sink>(
    alloc: Global,
    words: &[Text],
    shelf: &mut H,
    out: &mut W,
) -> Result<Done, Failure>
    ensures { Performs (order_of words.now)
        (scene (H.held shelf.old) (H.read_faults shelf.old) (H.write_faults shelf.old)
        (W.bytes out.old) (W.faults out.old))
        (scene (H.held shelf.new) (H.read_faults shelf.new) (H.write_faults shelf.new)
        (W.bytes out.new) (W.faults out.new)) result }
{
    match read_words(alloc, words) {
        Ok(order) => {
            let done = perform(alloc, &order, shelf, out);
            drop(order);
            done
        }
        Err(stop) => Err(Failure::of(refusal_of(stop))),
    }
}
