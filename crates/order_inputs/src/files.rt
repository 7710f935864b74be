//! The files that an order reads.
ghost use Rattle.std.specs.Prelude.{◌≡◌, ◌<◌, ◌^◌, ◌++◌, ◌∷◌, [], All, IfOk, IfErr, OnOk};
ghost use Rattle.std.specs.Option.{option_map};
ghost use Rattle.order_inputs.specs.Files.{Gave, Reads, StandStill, case_in, certificate_in, inputs, if_named, table_in};
ghost use Rattle.order_inputs.specs.Reading.{AreWithin, IsReadable, ReadsGive, ReadsMore, Unread};

use answers::{List, NoMemory, Stop};
use csv_tables::TABLE_LIMIT;
use price_certificate::CERTIFICATE_LIMIT;
use refusals::{Failure, File, Refusal};
use spares_io::{Shelf, ShelfError, Text};
use spares_words::Order;
use std::alloc::Global;

/// A file that an order reads: its kind, its name, and the most bytes that it may have.
#[derive(Drop)]
pub struct Input {
    pub file: File,
    pub name: Text,
    pub limit: usize,
}

impl Input {
    /// The input of a certificate.
    fn certificate(alloc: Global, name: &Text) -> Result<Input, NoMemory>
        ensures { IfOk result (λ input. input ≡ certificate_in name.now) }
    {
        Ok(Input {
            file: File::Certificate,
            name: Text::from_str(alloc, name.as_str())?,
            limit: CERTIFICATE_LIMIT,
        })
    }
}

/// Adds the input of a table.
fn add_table(
    alloc: Global,
    inputs: &mut Vec<Input>,
    file: File,
    name: &Text,
) -> Result<(), NoMemory>
    ensures { OnOk result (inputs.new.items ≡ inputs.old.items ++ table_in file name.now ∷ []) }
{
    inputs.push(Input {
        file,
        name: Text::from_str(alloc, name.as_str())?,
        limit: TABLE_LIMIT,
    })?;
    Ok(())
}

/// The tables of a case.
fn case_tables(
    alloc: Global,
    sites: &Text,
    parts: &Text,
    rates: &Text,
) -> Result<Vec<Input>, NoMemory>
    ensures { IfOk result (λ tables. tables.items ≡ case_in sites.now parts.now rates.now []) }
{
    let mut tables = Vec::new(alloc);
    add_table(alloc, &mut tables, File::Sites, sites)?;
    add_table(alloc, &mut tables, File::Parts, parts)?;
    add_table(alloc, &mut tables, File::Rates, rates)?;
    Ok(tables)
}

/// The tables of a case, then one more file, if one is named.
fn tables_and(
    alloc: Global,
    sites: &Text,
    parts: &Text,
    rates: &Text,
    file: File,
    more: Option<&Text>,
) -> Result<Vec<Input>, NoMemory>
    ensures { IfOk result (λ tables. tables.items ≡ case_in sites.now parts.now rates.now
        (if_named file (option_map (λ t. t.now) more.entry))) }
{
    let mut tables = case_tables(alloc, sites, parts, rates)?;
    if let Some(name) = more {
        add_table(alloc, &mut tables, file, name)?;
    }
    Ok(tables)
}

/// The inputs of an order that reads a further file after the tables of a case.
fn tables_and_file(alloc: Global, order: &Order) -> Result<Vec<Input>, NoMemory>
    requires { ReadsMore order.now }
    ensures { IfOk result (λ v. v.items ≡ inputs order.now) }
{
    match order {
        Order::Eval {
            sites,
            parts,
            rates,
            stocks,
            ..
        } => tables_and(alloc, sites, parts, rates, File::Stocks, Some(stocks)),
        Order::Plan {
            sites,
            parts,
            rates,
            on_hand,
            ..
        } => tables_and(alloc, sites, parts, rates, File::OnHand, on_hand.as_ref()),
        Order::Session {
            sites,
            parts,
            rates,
            edits,
        } => tables_and(alloc, sites, parts, rates, File::Edits, Some(edits)),
        Order::Compare {
            sites,
            parts,
            rates,
            stocks,
        } => tables_and(alloc, sites, parts, rates, File::Stocks, Some(stocks)),
        _ => Ok(Vec::new(alloc)),
    }
}

/// The files that an order reads, in the order of reading.
fn inputs_of(alloc: Global, order: &Order) -> Result<Vec<Input>, NoMemory>
    ensures { IfOk result (λ v. v.items ≡ inputs order.now) }
{
    match order {
        Order::Single { .. } | Order::Demo { .. } => Ok(Vec::new(alloc)),
        Order::Sweep {
            sites,
            parts,
            rates,
        } => case_tables(alloc, sites, parts, rates),
        Order::Target {
            sites,
            parts,
            rates,
            ..
        } => case_tables(alloc, sites, parts, rates),
        Order::Check { certificate } => {
            let mut inputs = Vec::new(alloc);
            inputs.push(Input::certificate(alloc, certificate)?)?;
            Ok(inputs)
        }
        _ => tables_and_file(alloc, order),
    }
}

/// Reads one input.
fn read_file<H: Shelf>(
    alloc: Global,
    shelf: &mut H,
    input: &Input,
) -> Result<List<u8>, Stop<Failure>>
    requires { IsReadable input.now }
    ensures held { H.held shelf.new ≡ H.held shelf.old }
    ensures bytes { IfOk result (Gave (H.held shelf.old) input.now) }
    ensures still { OnOk result (StandStill (H.read_faults shelf.old) (H.read_faults shelf.new)) }
    ensures stops { IfErr result (Unread (H.held shelf.old) (H.read_faults shelf.old)
        (H.read_faults shelf.new) input.now) }
    ensures writes { StandStill (H.write_faults shelf.old) (H.write_faults shelf.new) }
{
    let mut bytes = Vec::new(alloc);
    match shelf.read(input.name.as_str(), input.limit, &mut bytes) {
        Ok(()) => Ok(List::of(bytes)),
        Err(ShelfError::NoMemory) => Err(Stop::NoMemory),
        Err(ShelfError::Failed) => Err(Stop::Fault(Failure::of(Refusal::ReadFault(input.file)))),
        Err(ShelfError::TooLong) => Err(Stop::Fault(Failure::of(Refusal::TooLong(input.file)))),
    }
}

/// Reads the inputs in order. The first unreadable input is refused.
fn read_files<H: Shelf>(
    alloc: Global,
    shelf: &mut H,
    inputs: &[Input],
) -> Result<List<List<u8>>, Stop<Failure>>
    requires { All IsReadable inputs.now }
    ensures held { H.held shelf.new ≡ H.held shelf.old }
    ensures reads { ReadsGive (H.held shelf.old) (H.read_faults shelf.old) (H.read_faults shelf.new) inputs.now result }
    ensures nothing { inputs.now ≡ [] → StandStill (H.read_faults shelf.old) (H.read_faults shelf.new) }
    ensures writes { StandStill (H.write_faults shelf.old) (H.write_faults shelf.new) }
{
    let mut files = Vec::new(alloc);
    for input in inputs {
        let bytes = read_file(alloc, shelf, input)?;
        files.push(bytes)?;
    }
    Ok(List::of(files))
}

/// Reads the files of an order in turn. The first that can't be read is refused: `ReadFault`, or `TooLong` if it has
/// more bytes than its limit.
pub fn files_of<H: Shelf>(
    alloc: Global,
    order: &Order,
    shelf: &mut H,
) -> Result<List<List<u8>>, Stop<Failure>>
    ensures held { H.held shelf.new ≡ H.held shelf.old }
    ensures reads { ReadsGive (H.held shelf.old) (H.read_faults shelf.old) (H.read_faults shelf.new) (inputs order.now)
        result }
    ensures within { IfOk result (AreWithin (inputs order.now)) }
    ensures nothing { inputs order.now ≡ [] → StandStill (H.read_faults shelf.old) (H.read_faults shelf.new) }
    ensures writes { StandStill (H.write_faults shelf.old) (H.write_faults shelf.new) }
{
    let inputs = inputs_of(alloc, order)?;
    read_files(alloc, shelf, inputs.as_slice())
}
