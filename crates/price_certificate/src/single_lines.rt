//! Reading single lines.

ghost use Rattle.std.specs.Prelude.{◌^◌, ◌<◌};
ghost use Rattle.line_text.specs.Formats.{one};
ghost use Rattle.line_text.specs.Files.{line};
ghost use Rattle.line_text.specs.Texts.{number};
ghost use Rattle.line_text.specs.Reading.{Reads, Takes};
ghost use Rattle.price_certificate.specs.Reading.{leaf_text, leaf_named};
ghost use Rattle.price_certificate.specs.Grammar.{objective_word, objective_fields, objective_line, price_fields, price_line, split_fields, node_line};

use crate::LAST_PLACE;
use crate::certificate::{Node, Objective};
use hull::{MOST_PRICE_MONEY, MOST_PRICE_UNITS, Price};
use line_text::{BadLine, Fields, Lines, word_line};
use spares_input::MOST_STOCK;

/// Takes the name of an objective.
#[tactic(auto, using(line_text::proofs::Cursors::field_read, line_text::proofs::Cursors::field_refused, line_text::proofs::Cursors::none_left))]
fn objective_in(fields: &mut Fields<'_>) -> Option<Objective>
    ensures { Takes (λ o. o) result fields.new ((one objective_word).read fields.old) }
{
    let Some(name) = fields.next() else {
        return None;
    };
    Objective::named(name)
}

/// Takes `objective,NAME`.
fn aim_of(fields: &mut Fields<'_>) -> Option<Objective>
    ensures { Takes (λ o. o) result fields.new (objective_fields.read fields.old) }
{
    fields.word(b"objective")?;
    objective_in(fields)
}

/// Reads the line of the objective.
#[tactic(auto, using(line_text::proofs::Cursors::line_missing))]
fn aim_line(lines: &mut Lines<'_>) -> Result<Objective, BadLine>
    ensures { Reads (λ o. o) result lines.new ((one (line objective_fields)).read lines.old) }
{
    let mut fields = lines.fields()?;
    let objective = aim_of(&mut fields);
    lines.row(objective, &fields)
}

/// Reads the line of the objective, which only format 2 has.
pub(crate) fn objective_line(lines: &mut Lines<'_>, format: u8) -> Result<Objective, BadLine>
    ensures { Reads (λ o. o) result lines.new ((objective_line format).read lines.old) }
{
    if format == 2 {
        aim_line(lines)
    } else {
        Ok(Objective::Backorders)
    }
}

/// Takes `price,P,Q`.
fn price_of(fields: &mut Fields<'_>) -> Option<Price>
    ensures { Takes (λ p. p) result fields.new (price_fields.read fields.old) }
{
    fields.word(b"price")?;
    let p = fields.number(0, MOST_PRICE_UNITS)?;
    let q = fields.number(1, MOST_PRICE_MONEY as u128)?;
    Some(Price { p, q: q as u64 })
}

/// Reads the line of the price.
#[tactic(auto, using(line_text::proofs::Cursors::line_missing))]
pub(crate) fn price_line(lines: &mut Lines<'_>) -> Result<Price, BadLine>
    ensures { Reads (λ p. p) result lines.new (price_line.read lines.old) }
{
    let mut fields = lines.fields()?;
    let price = price_of(&mut fields);
    lines.row(price, &fields)
}

/// Takes `split,AT,FROM`.
fn split_of(fields: &mut Fields<'_>) -> Option<(u128, u128)>
    ensures { Takes (λ s. s) result fields.new (split_fields.read fields.old) }
{
    fields.word(b"split")?;
    let at = fields.number(0, LAST_PLACE)?;
    let from = fields.number(1, MOST_STOCK as u128)?;
    Some((at, from))
}

/// Reads the line of a split.
#[tactic(auto, using(line_text::proofs::Cursors::line_missing))]
fn split_line(lines: &mut Lines<'_>) -> Result<(u128, u128), BadLine>
    ensures { Reads (λ s. s) result lines.new ((one (line split_fields)).read lines.old) }
{
    let mut fields = lines.fields()?;
    let split = split_of(&mut fields);
    lines.row(split, &fields)
}

/// Reads the line of a leaf: true for `whole`, false for `cost`.
fn leaf_line(lines: &mut Lines<'_>) -> Result<bool, BadLine>
    ensures { Reads leaf_named result lines.new ((one leaf_text).read lines.old) }
{
    match word_line(lines, b"cost") {
        Ok(()) => Ok(false),
        Err(BadLine) => {
            word_line(lines, b"whole")?;
            Ok(true)
        }
    }
}

/// Reads the line of a node.
pub(crate) fn node_line(lines: &mut Lines<'_>) -> Result<Node, BadLine>
    ensures { Reads (λ n. n) result lines.new (node_line.read lines.old) }
{
    match split_line(lines) {
        Ok((at, from)) => Ok(Node::Split {
            at: at as u16,
            from: from as u8,
        }),
        Err(BadLine) => {
            if leaf_line(lines)? {
                Ok(Node::Whole)
            } else {
                Ok(Node::Cost)
            }
        }
    }
}
