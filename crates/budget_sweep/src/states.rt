//! The sweep.
ghost use Rattle.std.specs.Prelude.{ℕ, ◌≤◌, List, length, IfOk, OnOk};
ghost use Rattle.spares_input.specs.Cases.{CaseRows};
ghost use Rattle.hull.specs.Limits.{most_curves};
ghost use Rattle.family_points.specs.Points.{ScoreEnds};
ghost use Rattle.step_walk.specs.Prefix.{HaveShapes};
ghost use Rattle.marginal_alloc.specs.Choice.{AreCurves};
ghost use Rattle.fleet_plan.specs.Families.{case_points};
ghost use Rattle.budget_sweep.specs.Sweep.{IsSweep};
ghost use Rattle.budget_sweep.specs.Cases.{IsCaseSweep};
ghost use Rattle.budget_sweep.specs.Fits.{IsSmallSweep, SweepFits};

use crate::report::SweepReport;
use crate::sums::{sums_after, sums_at};
use answers::{List, NoMemory};
use hull::Curve;
use std::alloc::Global;
use step_walk::Walk;

/// The states of at most 2,000 curves after each number of steps, from none to all of them.
///
/// If these are the curves of all families of a case, one for each line unit in order, it is the sweep of this case.
/// Want of memory is the only error.
pub fn sweep(alloc: Global, curves: &[Curve]) -> Result<SweepReport, NoMemory>
    requires { length curves.now ≤ most_curves }
    ensures states { IfOk result (λ report. IsSweep curves.now report.points) }
    ensures case { (ends : ScoreEnds) (c : CaseRows) (held : List ℕ) → AreCurves (case_points ends c held) curves.now
        → IfOk result (IsCaseSweep ends c held) }
    ensures small { IfOk result IsSmallSweep }
    ensures fits { IfOk result SweepFits }
    ensures shapes { OnOk result (HaveShapes curves.now) }
{
    let mut walk = Walk::begin(alloc, curves)?;
    let mut sums = sums_at(curves, walk.picks());
    let mut points = Vec::new(alloc);
    'steps: while let Some(next) = walk.next() {
        points.push(sums.at_price(Some(next.price)))?;
        sums = sums_after(curves, &walk, sums, next);
        walk = walk.take()?;
    }
    points.push(sums.at_price(None))?;
    Ok(SweepReport {
        points: List::of(points),
    })
}
