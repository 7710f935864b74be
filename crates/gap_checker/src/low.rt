//! The first leaf of a cover whose value is below the claimed floor.

ghost use Rattle.std.specs.Prelude.{◌≡◌, ◌∷◌, [], ◌<◌, ◌≤◌, true, is_some, unwrap_or, IfOk, length, map};
ghost use Rattle.family_items.specs.Inputs.{IsLine};
ghost use Rattle.hull.specs.Limits.{most_price_units, most_price_money};
ghost use Rattle.price_certificate.specs.Grammar.{most_nodes};
ghost use Rattle.gap_rules.specs.Boxes.{IsOrdered};
ghost use Rattle.family_points.specs.Counts.{most_tables};
ghost use Rattle.family_points.specs.Vectors.{places};
ghost use Rattle.gap_rules.specs.Covers.{leaves};
ghost use Rattle.gap_rules.specs.Values.{cover_tables, value_of_leaf};
ghost use Rattle.gap_rules.specs.Refusals.{low_leaf};

use crate::value::low_value;
use answers::NoMemory;
use demand_rates::Rated;
use family_points::Bounds;
use gap_rules::reading::{Read, read_node};
use hull::{Price, Score};
use price_certificate::Node;
use spares_input::PartId;
use std::alloc::Global;

/// The first leaf whose value is below the floor: its number and its value. The nodes are a tree of the box.
pub(crate) fn low_leaf<S: Score>(
    alloc: Global,
    rated: &Rated<'_>,
    line: PartId,
    parts: &[PartId],
    price: Price,
    bounds: Bounds,
    nodes: &[Node],
    floor: u128,
    score: &S,
) -> Result<Option<(u32, u128)>, NoMemory>
    requires line { IsLine rated.now.case line.0 }
    requires parts { map (λ p. p.0) parts.now ≡ map (λ x. x.part) (places rated.now.case line.0) }
    requires ordered { IsOrdered rated.now.case line.0 bounds }
    requires few { length nodes.now ≤ most_nodes }
    requires tree { is_some (leaves nodes.now (bounds ∷ [])) ≡ true }
    requires work { cover_tables rated.now.case line.0 (unwrap_or (leaves nodes.now (bounds ∷ [])) []) ≤ most_tables }
    requires money { 0 < price.q }
    requires most_money { price.q ≤ most_price_money }
    requires price { price.p ≤ most_price_units }
    ensures { IfOk result (λ low. low ≡ low_leaf (value_of_leaf rated.now.case line.0 S.ends price) floor 0
        (unwrap_or (leaves nodes.now (bounds ∷ [])) [])) }
{
    let mut waiting = Vec::new(alloc);
    waiting.push(bounds)?;
    let mut number: u32 = 0;
    for node in nodes {
        match read_node(alloc, &mut waiting, *node)? {
            Read::Gap => return Ok(None),
            Read::Inner => {}
            Read::Leaf(leaf) => {
                match low_value(alloc, rated, line, parts, price, leaf, floor, score)? {
                    Some(value) => return Ok(Some((number, value))),
                    None => number += 1,
                }
            }
        }
    }
    Ok(None)
}
