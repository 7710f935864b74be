//! The work of a cover: whether its nodes are a tree, and the count of tables for its whole leaves.

ghost use Rattle.std.specs.Prelude.{◌≡◌, ◌∷◌, [], IfOk};
ghost use Rattle.std.specs.Option.{option_map};
ghost use Rattle.answers.specs.Counts.{count64};
ghost use Rattle.family_items.specs.Inputs.{IsLine};
ghost use Rattle.gap_rules.specs.Boxes.{IsOrdered};
ghost use Rattle.gap_rules.specs.Covers.{leaves, box_of};
ghost use Rattle.gap_rules.specs.Values.{leaf_tables, cover_tables};

use crate::leaf::Leaf;
use crate::reading::{Read, read_node};
use answers::NoMemory;
use family_points::{Bounds, tables_within};
use price_certificate::Node;
use spares_input::{Case, PartId};
use std::alloc::Global;

/// The tables of a leaf, or 2^64 - 1 if it takes more.
fn leaf_tables(case: &Case, line: PartId, leaf: Leaf) -> u64
    requires line { IsLine case.now line.0 }
    requires ordered { IsOrdered case.now line.0 (box_of leaf) }
    ensures { result ≡ count64 (leaf_tables case.now line.0 leaf) }
{
    match leaf {
        Leaf::Cost(_) => 0,
        Leaf::Whole(bounds) => tables_within(case, line, &bounds),
    }
}

/// The tables of all leaves of a box's nodes, or None if the nodes aren't a tree.
pub fn cover_tables(
    alloc: Global,
    case: &Case,
    line: PartId,
    bounds: Bounds,
    nodes: &[Node],
) -> Result<Option<u64>, NoMemory>
    requires line { IsLine case.now line.0 }
    requires ordered { IsOrdered case.now line.0 bounds }
    ensures { IfOk result (λ tables. tables ≡ option_map (λ ls. count64 (cover_tables case.now line.0 ls))
        (leaves nodes.now (bounds ∷ []))) }
{
    let mut waiting = Vec::new(alloc);
    waiting.push(bounds)?;
    let mut tables: u64 = 0;
    for node in nodes {
        match read_node(alloc, &mut waiting, *node)? {
            Read::Gap => return Ok(None),
            Read::Inner => {}
            Read::Leaf(leaf) => {
                tables = tables.saturating_add(leaf_tables(case, line, leaf));
            }
        }
    }
    if waiting.is_empty() {
        Ok(Some(tables))
    } else {
        Ok(None)
    }
}
