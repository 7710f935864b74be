//! The lines of the parts.

ghost use Rattle.std.specs.Prelude.{◌≡◌, ◌≤◌, ◌<◌, ◌&&◌};
ghost use Rattle.line_text.specs.Formats.{accepted, read_all, one};
ghost use Rattle.line_text.specs.Files.{line};
ghost use Rattle.line_text.specs.Texts.{only};
ghost use Rattle.line_text.specs.Reading.{Reads, Gathers, Takes};
ghost use Rattle.spares_input.specs.Limits.{most_parts};
ghost use Rattle.case_lines.specs.Grammar.{weight_field, part_fields, is_owed, may_stand, part_lines, weights_fields, parts_line, header, parts};

use crate::parts::are_weighted;
use crate::read_fields::{name_in, number_if, parent_in};
use answers::Stop;
use line_text::{BadLine, Fields, Lines, count_line};
use spares_input::{MOST_PART_COST, MOST_PARTS, MOST_STOCK, PartRow};
use std::alloc::Global;

/// Takes the weight if weights are written; otherwise a line unit has 1 and a shop unit 0.
fn weight_in(fields: &mut Fields<'_>, weighted: bool, is_line: bool) -> Option<u128>
    ensures { Takes (λ n. n) result fields.new ((weight_field weighted is_line).read fields.old) }
{
    if weighted {
        return number_if(fields, is_line, 1, 100);
    }
    if is_line { Some(1) } else { Some(0) }
}

/// Takes `NAME,PARENT,COST,PER_SYSTEM,MAX_DEPOT,MAX_BASE`, and `,WEIGHT` if weights are written.
fn part_of(fields: &mut Fields<'_>, weighted: bool) -> Option<PartRow>
    ensures { Takes (λ p. p) result fields.new ((part_fields weighted).read fields.old) }
{
    let name = name_in(fields)?;
    let parent = parent_in(fields)?;
    let is_line = parent.is_none();
    let cost = fields.number(1, MOST_PART_COST as u128)?;
    let per_system = number_if(fields, is_line, 1, 100)?;
    let max_depot = fields.number(0, MOST_STOCK as u128)?;
    let max_base = fields.number(0, MOST_STOCK as u128)?;
    let weight = weight_in(fields, weighted, is_line)?;
    Some(PartRow {
        name,
        parent,
        cost: cost as u32,
        per_system: per_system as u32,
        max_depot: max_depot as u8,
        max_base: max_base as u8,
        weight: weight as u8,
    })
}

/// The part, if no field is left over.
#[tactic(auto, using(line_text::proofs::Cursors::whole_read, line_text::proofs::Cursors::whole_left, line_text::proofs::Cursors::whole_refused))]
fn part_all(mut fields: Fields<'_>, weighted: bool) -> Option<PartRow>
    ensures { result ≡ accepted (read_all (part_fields weighted) fields.entry) }
{
    let part = part_of(&mut fields, weighted)?;
    if fields.is_empty() { Some(part) } else { None }
}

/// Whether a part has a weight other than 1, if one is owed.
fn may_stand(part: &PartRow, owed: bool) -> bool
    ensures { result ≡ may_stand owed part.now }
{
    !owed || part.weight >= 2
}

/// Reads the line of a part, which must have a weight other than 1 if one is owed.
#[tactic(auto, using(line_text::proofs::Cursors::line_refused, line_text::proofs::Cursors::line_missing))]
fn part_line(lines: &mut Lines<'_>, weighted: bool, owed: bool) -> Result<PartRow, BadLine>
    ensures { Reads (λ p. p) result lines.new
        ((one (only (may_stand owed) (line (part_fields weighted)))).read lines.old) }
{
    let fields = lines.fields()?;
    match part_all(fields, weighted) {
        Some(part) => {
            if may_stand(&part, owed) {
                lines.pass();
                Ok(part)
            } else {
                Err(BadLine)
            }
        }
        None => Err(BadLine),
    }
}

/// Whether the part at `place` must have a weight other than 1: weights are written, it is the last, and all before it
/// have 1.
fn is_owed(weighted: bool, before: &[PartRow], place: usize, count: usize) -> bool
    requires { place < count }
    ensures { result ≡ (weighted && is_owed count before.now place) }
{
    weighted && place + 1 == count && !are_weighted(before)
}

/// Reads `count` parts.
fn each_part(
    alloc: Global,
    lines: &mut Lines<'_>,
    weighted: bool,
    count: usize,
) -> Result<Vec<PartRow>, Stop<BadLine>>
    requires { count ≤ most_parts }
    ensures { Gathers (λ v. v.items) result lines.new ((part_lines weighted count).read lines.old) }
{
    let mut found = Vec::new(alloc);
    for k in 0..count {
        let owed = is_owed(weighted, found.as_slice(), k, count);
        let part = part_line(lines, weighted, owed)?;
        found.push(part)?;
    }
    Ok(found)
}

/// Takes `parts,N,weights`.
fn weights_of(fields: &mut Fields<'_>) -> Option<u128>
    ensures { Takes (λ n. n) result fields.new (weights_fields.read fields.old) }
{
    fields.word(b"parts")?;
    let count = fields.number(1, MOST_PARTS as u128)?;
    fields.word(b"weights")?;
    Some(count)
}

/// Reads the line `parts,N,weights`.
#[tactic(auto, using(line_text::proofs::Cursors::line_missing))]
fn weights_line(lines: &mut Lines<'_>) -> Result<u128, BadLine>
    ensures { Reads (λ n. n) result lines.new ((one (line weights_fields)).read lines.old) }
{
    let mut fields = lines.fields()?;
    let count = weights_of(&mut fields);
    lines.row(count, &fields)
}

/// Reads the line before the parts: whether weights are written, and the number of parts.
fn parts_line(lines: &mut Lines<'_>) -> Result<(bool, u128), BadLine>
    ensures { Reads (λ h. header h.0 h.1) result lines.new (parts_line.read lines.old) }
{
    match count_line(lines, b"parts", 0, MOST_PARTS as u128) {
        Ok(count) => Ok((false, count)),
        Err(BadLine) => {
            let count = weights_line(lines)?;
            Ok((true, count))
        }
    }
}

/// Reads the lines of the parts.
pub(crate) fn parts(alloc: Global, lines: &mut Lines<'_>) -> Result<Vec<PartRow>, Stop<BadLine>>
    ensures { Gathers (λ v. v.items) result lines.new (parts.read lines.old) }
{
    let (weighted, count) = parts_line(lines)?;
    each_part(alloc, lines, weighted, count as usize)
}
