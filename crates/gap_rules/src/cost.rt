//! The cost of a vector above the held stocks.

ghost use Rattle.std.specs.Prelude.{◌≡◌, ◌≤◌, map};
ghost use Rattle.family_items.specs.Inputs.{IsLine};
ghost use Rattle.gap_rules.specs.Boxes.{AtMost};
ghost use Rattle.family_points.specs.Points.{added_cost};
ghost use Rattle.family_points.specs.Vectors.{limits, places};

use spares_input::{Case, PartId};

/// The cost of a vector of a family above the held stocks. The parts are the parts of the family's places.
pub fn added_cost(case: &Case, line: PartId, parts: &[PartId], held: &[u8], vector: &[u8]) -> u64
    requires line { IsLine case.now line.0 }
    requires parts { map (λ p. p.0) parts.now ≡ map (λ x. x.part) (places case.now line.0) }
    requires order { AtMost held.now vector.now }
    requires limit { AtMost vector.now (limits case.now line.0) }
    ensures cost { result ≡ added_cost case.now line.0 held.now vector.now }
    ensures most { result ≤ 4000000000000 }
{
    case.invariant();
    let mut cost = 0;
    for i in 0..parts.len() {
        let added = u64::from(vector[i] - held[i]);
        cost += added * u64::from(case.part(parts[i]).cost);
    }
    cost
}
