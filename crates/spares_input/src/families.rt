//! The line units and the family of each part, each found in one pass over the parts.

ghost use Rattle.std.specs.Prelude.{◌≡◌, ◌≤◌, IfOk, bytes_eq, length, map};
ghost use Rattle.std.specs.List.{IsDistinct};
ghost use Rattle.spares_input.specs.Frames.{part_names, line_units};
ghost use Rattle.spares_input.specs.Building.{AreParents, AreFamilies, AreFamiliesBelow, ids};
ghost use Rattle.spares_input.specs.Limits.{most_parts};

use crate::rows::{PartId, PartRow};
use answers::NoMemory;
use std::alloc::Global;

/// The line units, in part order.
pub(crate) fn line_units_of(alloc: Global, parts: &[PartRow]) -> Result<Vec<PartId>, NoMemory>
    requires { length parts.now ≤ most_parts }
    ensures { IfOk result (λ lines. ids lines.items ≡ line_units parts.now) }
{
    let mut lines = Vec::new(alloc);
    for p in 0..parts.len() {
        let part = parts[p];
        if part.parent.is_none() {
            lines.push(PartId(p as u16))?;
        }
    }
    Ok(lines)
}

/// Each part alone.
fn each_alone(alloc: Global, parts: &[PartRow]) -> Result<Vec<Vec<PartId>>, NoMemory>
    requires { length parts.now ≤ most_parts }
    ensures { IfOk result (λ rows. AreFamiliesBelow parts.now 0 (map (λ v. ids v.items) rows.items)) }
{
    let mut families = Vec::with_capacity(alloc, parts.len())?;
    for p in 0..parts.len() {
        let mut family = Vec::new(alloc);
        family.push(PartId(p as u16))?;
        families.push(family)?;
    }
    Ok(families)
}

/// The family of each part, by its number: a line unit, and then its shop units in part order.
pub(crate) fn families_of(
    alloc: Global,
    parts: &[PartRow],
    parents: &[Option<PartId>],
) -> Result<Vec<Vec<PartId>>, NoMemory>
    requires few { length parts.now ≤ most_parts }
    requires distinct { IsDistinct bytes_eq (part_names parts.now) }
    requires parents { AreParents parts.now parents.now }
    ensures { IfOk result (λ rows. AreFamilies parts.now (map (λ v. ids v.items) rows.items)) }
{
    let mut families = each_alone(alloc, parts)?;
    for p in 0..parts.len() {
        if let Some(line) = parents[p] {
            let family = &mut families[line.0 as usize];
            family.push(PartId(p as u16))?;
        }
    }
    Ok(families)
}
