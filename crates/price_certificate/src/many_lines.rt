//! Reading a line with a count, and then this count of lines.

ghost use Rattle.std.specs.Prelude.{◌^◌};
ghost use Rattle.line_text.specs.Formats.{each};
ghost use Rattle.line_text.specs.Texts.{counted, numbers_from};
ghost use Rattle.line_text.specs.Reading.{Gathers};
ghost use Rattle.spares_input.specs.Limits.{most_stock};
ghost use Rattle.hull.specs.Limits.{most_floor};
ghost use Rattle.price_certificate.specs.Grammar.{floors, node_line, cover, covers, stock_lines};
ghost use Rattle.line_text.specs.Texts.{number_line};
ghost use lib.Chars.{codes};

use crate::MOST_NODES;
use crate::certificate::Node;
use crate::single_lines::node_line;
use answers::{List, Stop};
use hull::MOST_FLOOR;
use line_text::{BadLine, Lines, count_line, number_line};
use spares_input::MOST_STOCK;
use std::alloc::Global;

/// Reads `count` floors.
fn each_floor(
    alloc: Global,
    lines: &mut Lines<'_>,
    count: usize,
) -> Result<Vec<u128>, Stop<BadLine>>
    ensures { Gathers (λ v. v.items) result lines.new
        ((each (numbers_from 0 count) (λ _. number_line most_floor)).read lines.old) }
{
    let mut found = Vec::new(alloc);
    for k in 0..count {
        let floor = number_line(lines, MOST_FLOOR)?;
        found.push(floor)?;
    }
    Ok(found)
}

/// Reads the lines of the floors, one for each family.
pub(crate) fn floors(
    alloc: Global,
    lines: &mut Lines<'_>,
    families: usize,
) -> Result<Vec<u128>, Stop<BadLine>>
    ensures { Gathers (λ v. v.items) result lines.new ((floors families).read lines.old) }
{
    let count = count_line(lines, b"floors", families as u128, families as u128)?;
    each_floor(alloc, lines, count as usize)
}

/// Reads `count` nodes.
fn each_node(alloc: Global, lines: &mut Lines<'_>, count: usize) -> Result<Vec<Node>, Stop<BadLine>>
    ensures { Gathers (λ v. v.items) result lines.new ((each (numbers_from 0 count) (λ _. node_line)).read lines.old) }
{
    let mut found = Vec::new(alloc);
    for k in 0..count {
        let node = node_line(lines)?;
        found.push(node)?;
    }
    Ok(found)
}

/// Reads the lines of a cover.
fn cover(alloc: Global, lines: &mut Lines<'_>) -> Result<List<Node>, Stop<BadLine>>
    ensures { Gathers (λ v. v) result lines.new (cover.read lines.old) }
{
    let count = count_line(lines, b"cover", 1, MOST_NODES)?;
    let found = each_node(alloc, lines, count as usize)?;
    Ok(List::of(found))
}

/// Reads `count` covers.
fn each_cover(
    alloc: Global,
    lines: &mut Lines<'_>,
    count: usize,
) -> Result<Vec<List<Node>>, Stop<BadLine>>
    ensures { Gathers (λ v. v.items) result lines.new ((each (numbers_from 0 count) (λ _. cover)).read lines.old) }
{
    let mut found = Vec::new(alloc);
    for k in 0..count {
        let nodes = cover(alloc, lines)?;
        found.push(nodes)?;
    }
    Ok(found)
}

/// Reads the lines of the covers, one for each family.
fn all_covers(
    alloc: Global,
    lines: &mut Lines<'_>,
    families: usize,
) -> Result<Vec<List<Node>>, Stop<BadLine>>
    ensures { Gathers (λ v. v.items) result lines.new
        ((counted (codes "covers") families families (λ _. cover)).read lines.old) }
{
    let count = count_line(lines, b"covers", families as u128, families as u128)?;
    each_cover(alloc, lines, count as usize)
}

/// Reads the covers, which only format 2 has.
pub(crate) fn covers(
    alloc: Global,
    lines: &mut Lines<'_>,
    format: u8,
    families: usize,
) -> Result<Vec<List<Node>>, Stop<BadLine>>
    ensures { Gathers (λ v. v.items) result lines.new ((covers format families).read lines.old) }
{
    if format == 2 {
        all_covers(alloc, lines, families)
    } else {
        Ok(Vec::new(alloc))
    }
}

/// Reads `count` stocks.
fn each_stock(alloc: Global, lines: &mut Lines<'_>, count: usize) -> Result<Vec<u8>, Stop<BadLine>>
    ensures { Gathers (λ v. v.items) result lines.new
        ((each (numbers_from 0 count) (λ _. number_line most_stock)).read lines.old) }
{
    let mut found = Vec::new(alloc);
    for k in 0..count {
        let stock = number_line(lines, MOST_STOCK as u128)?;
        found.push(stock as u8)?;
    }
    Ok(found)
}

/// Reads the lines of the stocks, one for each pair.
pub(crate) fn stocks(
    alloc: Global,
    lines: &mut Lines<'_>,
    pairs: usize,
) -> Result<Vec<u8>, Stop<BadLine>>
    ensures { Gathers (λ v. v.items) result lines.new ((stock_lines pairs).read lines.old) }
{
    let count = count_line(lines, b"stocks", pairs as u128, pairs as u128)?;
    each_stock(alloc, lines, count as usize)
}
