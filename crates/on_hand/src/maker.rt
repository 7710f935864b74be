//! The maker of curves and their parts.

use answers::NoMemory;
use demand_rates::kinds::Rates;
use family_points::Bounds;
use family_rows::sources::Sources;
use held_plan::CurveMaker;
use hull::{Curve, Price, Score};
use spares_input::{Case, PartId};
use std::alloc::Global;

/// The maker whose curves are those of `family_curve`, and whose parts are those of `family_parts`.
#[derive(Clone, Copy, Debug, Drop)]
pub struct FamilyCurves;

impl CurveMaker for FamilyCurves {
    fn curve_from<S: Score>(
        &self,
        alloc: Global,
        sources: &Sources<'_>,
        score: &S,
    ) -> Result<Curve, NoMemory> {
        family_curve::curve_from(alloc, sources, score)
    }

    fn part_within<S: Score>(
        &self,
        alloc: Global,
        case: &Case,
        rates: &Rates,
        line: PartId,
        bounds: &Bounds,
        low: Price,
        high: Price,
        score: &S,
    ) -> Result<(Curve, u128), NoMemory> {
        family_parts::part_within(alloc, case, rates, line, bounds, low, high, score)
    }

    fn cost_near<S: Score>(
        &self,
        alloc: Global,
        sources: &Sources<'_>,
        score: &S,
        price: u128,
    ) -> Result<u128, NoMemory> {
        family_parts::cost_near(alloc, sources, score, price)
    }
}
