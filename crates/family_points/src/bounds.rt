//! Bounds of vectors.

ghost use Rattle.std.specs.Prelude.{◌≡◌, IfOk};
ghost use Rattle.spares_input.specs.Stocks.{IsFor};
ghost use Rattle.family_items.specs.Inputs.{IsLine};
ghost use Rattle.family_points.specs.Vectors.{box_from};

use crate::places::{limits_of, vector_of};
use answers::{List, NoMemory};
use spares_input::{Case, PartId, Stocks};
use std::alloc::Global;

/// The vectors of a family that a curve considers, and the stocks that are held already and cost nothing. The lists are
/// in the order of a vector: site by site, the depot first, and at each site the line unit and then its shop units in
/// part order.
#[derive(Drop)]
pub struct Bounds {
    /// The stocks held already.
    pub held: List<u8>,
    /// The least stock of each place.
    pub low: List<u8>,
    /// The most stock of each place.
    pub high: List<u8>,
}

impl Bounds {
    /// The vectors of the family of a line unit from the held stocks to the limits. The held stocks are a list for the
    /// case.
    pub fn from_held(
        alloc: Global,
        case: &Case,
        line: PartId,
        held: &Stocks,
    ) -> Result<Bounds, NoMemory>
        requires line { IsLine case.now line.0 }
        requires held { IsFor case.now held.now }
        ensures { IfOk result (λ bounds. bounds ≡ box_from case.now line.0 held.now.list) }
    {
        Ok(Bounds {
            held: vector_of(alloc, case, line, held)?,
            low: vector_of(alloc, case, line, held)?,
            high: limits_of(alloc, case, line)?,
        })
    }
}
