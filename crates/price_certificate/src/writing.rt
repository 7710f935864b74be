//! The text of a certificate.

ghost use Rattle.std.specs.Prelude.{◌≡◌, ℕ, ◌++◌, length, OnOk, IfOk};
ghost use Rattle.std.specs.List.{concat};
ghost use Rattle.line_text.specs.Formats.{each, and_then, one};
ghost use Rattle.line_text.specs.Files.{line, file_text};
ghost use Rattle.case_lines.specs.Grammar.{case_format};
ghost use Rattle.line_text.specs.Texts.{counted, numbers_from, word, number};
ghost use Rattle.spares_input.specs.Stocks.{IsFor};
ghost use Rattle.hull.specs.Limits.{most_floor};
ghost use Rattle.price_certificate.specs.Grammar.{objective_fields, objective_line, price_fields, floors, node_line, cover, covers, stocks};
ghost use Rattle.line_text.specs.Texts.{number_line};
ghost use Rattle.price_certificate.specs.Certificates.{IsWellFormed, cert_text};
ghost use lib.Chars.{codes};

use crate::certificate::{Certificate, Node, Objective};
use answers::{List, NoMemory};
use case_lines::write_case;
use hull::Price;
use line_text::{put_count_line, put_number, put_number_line};
use spares_input::{Case, Stocks};
use std::alloc::Global;

/// Writes `objective,NAME`.
fn put_objective(out: &mut Vec<u8>, objective: &Objective) -> Result<(), NoMemory>
    ensures { OnOk result (out.new.items ≡ out.old.items ++ (line objective_fields).print objective.now) }
{
    out.extend_from_slice(b"objective,")?;
    out.extend_from_slice(objective.word())?;
    out.push(b'\n')?;
    Ok(())
}

/// Writes the line of the objective, which only format 2 has.
#[tactic(auto, using(line_text::proofs::Loops::one_text, case_lines::proofs::Written::nothing_more))]
fn put_objective_of(out: &mut Vec<u8>, format: u8, objective: &Objective) -> Result<(), NoMemory>
    ensures { OnOk result (out.new.items ≡ out.old.items ++ concat ((objective_line format).print objective.now)) }
{
    if format == 2 {
        put_objective(out, objective)
    } else {
        Ok(())
    }
}

/// Writes the lines of a case.
fn put_case(alloc: Global, out: &mut Vec<u8>, case: &Case) -> Result<(), NoMemory>
    ensures { OnOk result (out.new.items ≡ out.old.items ++ file_text case_format case.now) }
{
    let lines = write_case(alloc, case)?;
    out.extend_from_slice(lines.as_slice())?;
    Ok(())
}

/// Writes `NAME,FIRST,SECOND`.
fn put_two(out: &mut Vec<u8>, name: &[u8], first: u128, second: u128) -> Result<(), NoMemory>
    ensures { OnOk result (out.new.items ≡ out.old.items ++ (line (and_then (word name.now)
        (λ _. and_then (one (number 0 first)) (λ _. one (number 0 second))))).print (tt, (first, second))) }
{
    out.extend_from_slice(name)?;
    out.push(b',')?;
    put_number(out, first)?;
    out.push(b',')?;
    put_number(out, second)?;
    out.push(b'\n')?;
    Ok(())
}

/// Writes `price,P,Q`.
fn put_price(out: &mut Vec<u8>, price: &Price) -> Result<(), NoMemory>
    ensures { OnOk result (out.new.items ≡ out.old.items ++ (line price_fields).print price.now) }
{
    put_two(out, b"price", price.p, price.q as u128)
}

/// Writes a line for each floor.
fn put_each_floor(out: &mut Vec<u8>, list: &[u128]) -> Result<(), NoMemory>
    ensures { OnOk result (out.new.items ≡ out.old.items
        ++ concat ((each (numbers_from 0 (length list.now)) (λ _. number_line most_floor)).print list.now)) }
{
    for k in 0..list.len() {
        put_number_line(out, list[k])?;
    }
    Ok(())
}

/// Writes the lines of the floors.
fn put_floors(out: &mut Vec<u8>, list: &[u128]) -> Result<(), NoMemory>
    ensures { OnOk result ((families : ℕ) → out.new.items ≡ out.old.items
        ++ concat ((floors families).print list.now)) }
{
    put_count_line(out, b"floors", list.len() as u128)?;
    put_each_floor(out, list)
}

/// Writes `split,AT,FROM`, `cost` or `whole`.
fn put_node(out: &mut Vec<u8>, node: &Node) -> Result<(), NoMemory>
    ensures { OnOk result (out.new.items ≡ out.old.items ++ concat (node_line.print node.now)) }
{
    match node {
        Node::Split { at, from } => put_two(out, b"split", *at as u128, *from as u128)?,
        Node::Cost => out.extend_from_slice(b"cost\n")?,
        Node::Whole => out.extend_from_slice(b"whole\n")?,
    }
    Ok(())
}

/// Writes a line for each node.
fn put_each_node(out: &mut Vec<u8>, nodes: &[Node]) -> Result<(), NoMemory>
    ensures { OnOk result (out.new.items ≡ out.old.items
        ++ concat ((each (numbers_from 0 (length nodes.now)) (λ _. node_line)).print nodes.now)) }
{
    for k in 0..nodes.len() {
        put_node(out, &nodes[k])?;
    }
    Ok(())
}

/// Writes the lines of a cover.
fn put_cover(out: &mut Vec<u8>, nodes: &List<Node>) -> Result<(), NoMemory>
    ensures { OnOk result (out.new.items ≡ out.old.items ++ concat (cover.print nodes.now)) }
{
    let nodes = nodes.as_slice();
    put_count_line(out, b"cover", nodes.len() as u128)?;
    put_each_node(out, nodes)
}

/// Writes each cover.
fn put_each_cover(out: &mut Vec<u8>, list: &[List<Node>]) -> Result<(), NoMemory>
    ensures { OnOk result (out.new.items ≡ out.old.items
        ++ concat ((each (numbers_from 0 (length list.now)) (λ _. cover)).print list.now)) }
{
    for k in 0..list.len() {
        put_cover(out, &list[k])?;
    }
    Ok(())
}

/// Writes the lines of the covers.
fn put_covers(out: &mut Vec<u8>, list: &[List<Node>]) -> Result<(), NoMemory>
    ensures { OnOk result ((families : ℕ) → out.new.items ≡ out.old.items
        ++ concat ((counted (codes "covers") families families (λ _. cover)).print list.now)) }
{
    put_count_line(out, b"covers", list.len() as u128)?;
    put_each_cover(out, list)
}

/// Writes the covers, which only format 2 has.
#[tactic(auto, using(case_lines::proofs::Written::nothing_more))]
fn put_covers_of(out: &mut Vec<u8>, format: u8, list: &[List<Node>]) -> Result<(), NoMemory>
    ensures { OnOk result ((families : ℕ) → out.new.items ≡ out.old.items
        ++ concat ((covers format families).print list.now)) }
{
    if format == 2 {
        put_covers(out, list)
    } else {
        Ok(())
    }
}

/// Writes a line for each stock. After want of memory a part of them may be written.
pub fn put_each_stock(out: &mut Vec<u8>, list: &[u8]) -> Result<(), NoMemory>
    ensures { OnOk result ((most : ℕ → ℕ) → out.new.items ≡ out.old.items
        ++ concat ((each (numbers_from 0 (length list.now)) (λ i. number_line (most i))).print list.now)) }
{
    for k in 0..list.len() {
        put_number_line(out, list[k] as u128)?;
    }
    Ok(())
}

/// Writes the lines of the stocks.
fn put_stocks(out: &mut Vec<u8>, case: &Case, list: &Stocks) -> Result<(), NoMemory>
    requires { IsFor case.now list.now }
    ensures { OnOk result (out.new.items ≡ out.old.items ++ concat ((stocks case.now).print list.now)) }
{
    let pairs = case.part_count() as u128 * case.site_count() as u128;
    put_count_line(out, b"stocks", pairs)?;
    put_each_stock(out, list.as_slice())
}

/// Writes the lines of a certificate.
fn put_certificate(
    alloc: Global,
    out: &mut Vec<u8>,
    certificate: &Certificate,
) -> Result<(), NoMemory>
    requires { IsWellFormed certificate.now }
    ensures { OnOk result (out.new.items ≡ out.old.items ++ cert_text certificate.now) }
{
    put_count_line(out, b"spares-certificate", certificate.format as u128)?;
    put_objective_of(out, certificate.format, &certificate.objective)?;
    put_case(alloc, out, &certificate.case)?;
    put_count_line(out, b"budget", certificate.budget as u128)?;
    put_price(out, &certificate.price)?;
    put_floors(out, certificate.floors.as_slice())?;
    put_covers_of(out, certificate.format, certificate.covers.as_slice())?;
    put_stocks(out, &certificate.case, &certificate.stocks)?;
    put_count_line(out, b"upper", certificate.upper)?;
    put_count_line(out, b"bound", certificate.bound)?;
    out.extend_from_slice(b"end\n")?;
    Ok(())
}

/// The text of a certificate: its lines, with no needless leading zeros and nothing after the last line. Want of memory
/// is the only error.
pub fn text(alloc: Global, certificate: &Certificate) -> Result<Vec<u8>, NoMemory>
    requires { IsWellFormed certificate.now }
    ensures { IfOk result (λ bytes. bytes.items ≡ cert_text certificate.now) }
{
    // Most lines belong to pairs, with 20 to 60 bytes each and a stock.
    let pairs = certificate.case.part_count() as usize * certificate.case.site_count() as usize;
    let mut out = Vec::with_capacity(alloc, 64 * pairs + 1_024)?;
    put_certificate(alloc, &mut out, certificate)?;
    Ok(out)
}
