//! The lines of the parts.

ghost use Rattle.std.specs.Prelude.{◌≡◌, ◌++◌, length, OnOk};
ghost use Rattle.std.specs.List.{concat};
ghost use Rattle.line_text.specs.Formats.{one};
ghost use Rattle.line_text.specs.Files.{line, file_text};
ghost use Rattle.case_lines.specs.Grammar.{part_fields, part_lines, parts_line, weights_fields, header, are_weighted, parts};
ghost use Rattle.case_lines.specs.Fields.{parent_text, weight_text};

use crate::fields::{put_name, put_number_before, put_number_if};
use answers::NoMemory;
use line_text::{put_count_line, put_number};
use spares_input::{Case, Name, PartId, PartRow};

/// Writes the name of a parent, if there is one.
fn put_parent(out: &mut Vec<u8>, parent: &Option<Name>) -> Result<(), NoMemory>
    ensures { OnOk result (out.new.items ≡ out.old.items ++ parent_text parent.now) }
{
    match parent {
        Some(name) => {
            out.extend_from_slice(name.as_bytes())?;
            Ok(())
        }
        None => Ok(()),
    }
}

/// Writes the last field with the comma before it, if weights are written.
fn put_weight(out: &mut Vec<u8>, weighted: bool, is_line: bool, weight: u8) -> Result<(), NoMemory>
    ensures { OnOk result (out.new.items ≡ out.old.items ++ weight_text weighted is_line weight) }
{
    if !weighted {
        return Ok(());
    }
    out.push(b',')?;
    put_number_if(out, is_line, weight as u128)
}

/// Writes NAME,PARENT,COST,PER_SYSTEM,MAX_DEPOT,MAX_BASE, and ,WEIGHT if weights are written.
fn put_part(out: &mut Vec<u8>, weighted: bool, part: &PartRow) -> Result<(), NoMemory>
    ensures { OnOk result (out.new.items ≡ out.old.items ++ (line (part_fields weighted)).print part.now) }
{
    let is_line = part.parent.is_none();
    put_name(out, &part.name)?;
    put_parent(out, &part.parent)?;
    out.push(b',')?;
    put_number_before(out, part.cost as u128)?;
    put_number_if(out, is_line, part.per_system as u128)?;
    out.push(b',')?;
    put_number_before(out, part.max_depot as u128)?;
    put_number(out, part.max_base as u128)?;
    put_weight(out, weighted, is_line, part.weight)?;
    out.push(b'\n')?;
    Ok(())
}

/// Writes a line for each part.
fn put_each_part(out: &mut Vec<u8>, weighted: bool, case: &Case) -> Result<(), NoMemory>
    ensures { OnOk result (out.new.items ≡ out.old.items
        ++ concat ((part_lines weighted (length case.now.parts)).print case.now.parts)) }
{
    let count = case.part_count();
    for p in 0..count {
        put_part(out, weighted, case.part(PartId(p)))?;
    }
    Ok(())
}

/// Whether some weight isn't 1: then the lines of the parts have weights.
pub fn are_weighted(parts: &[PartRow]) -> bool
    ensures { result ≡ are_weighted parts.now }
{
    parts.iter().any(|part| part.weight >= 2)
}

/// Writes parts,N,weights
fn put_weights_line(out: &mut Vec<u8>, count: u128) -> Result<(), NoMemory>
    ensures { OnOk result (out.new.items ≡ out.old.items ++ file_text (one (line weights_fields)) count) }
{
    out.extend_from_slice(b"parts,")?;
    put_number(out, count)?;
    out.extend_from_slice(b",weights\n")?;
    Ok(())
}

/// Writes parts,N or parts,N,weights
fn put_parts_line(out: &mut Vec<u8>, weighted: bool, count: u128) -> Result<(), NoMemory>
    ensures { OnOk result (out.new.items ≡ out.old.items ++ file_text parts_line (header weighted count)) }
{
    if weighted {
        put_weights_line(out, count)
    } else {
        put_count_line(out, b"parts", count)
    }
}

/// Writes the lines of the parts.
pub(crate) fn put_parts(out: &mut Vec<u8>, case: &Case) -> Result<(), NoMemory>
    ensures { OnOk result (out.new.items ≡ out.old.items ++ file_text parts case.now.parts) }
{
    let weighted = are_weighted(case.frame().parts());
    put_parts_line(out, weighted, case.part_count() as u128)?;
    put_each_part(out, weighted, case)
}
