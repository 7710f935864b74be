//! The curves of a case with nothing held.
ghost use Rattle.std.specs.Prelude.{◌≤◌, IfOk, length};
ghost use Rattle.hull.specs.Limits.{most_curves};
ghost use Rattle.family_points.specs.Points.{plain_ends};
ghost use Rattle.fleet_plan.specs.Families.{case_points};
ghost use Rattle.marginal_alloc.specs.Choice.{AreCurves};
ghost use Rattle.spares_input.specs.Stocks.{nothing_held};
ghost use Rattle.order_inputs.specs.Given.{CanPlan};

use answers::NoMemory;
use case_tables::AcceptedCase;
use hull::{Curve, Plain};
use on_hand::held_curves;
use spares_input::nothing_held;
use std::alloc::Global;

/// The curves of all families of a case with nothing held.
pub(crate) fn curves_of(alloc: Global, given: &AcceptedCase) -> Result<Vec<Curve>, NoMemory>
    requires { CanPlan given.now }
    ensures few { IfOk result (λ curves. length curves.items ≤ most_curves) }
    ensures curves { IfOk result (λ curves. AreCurves
        (case_points plain_ends given.now.case (nothing_held given.now.case).list) curves.items) }
{
    let held = nothing_held(alloc, &given.case)?;
    let curves = held_curves(alloc, &given.case, &given.rates, &held, &Plain)?;
    Ok(curves)
}
