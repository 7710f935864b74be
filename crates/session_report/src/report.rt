//! The plans of a session.

ghost use Rattle.std.specs.Prelude.{◌≡◌, ◌++◌, All, IfOk, OnOk};
ghost use Rattle.std.specs.List.{flat_map};
ghost use Rattle.plan_report.specs.Fits.{FitsPlan};
ghost use Rattle.plan_report.specs.Texts.{plan_text};

use answers::{List, NoMemory};
use plan_report::PlanReport;
use std::alloc::Global;

/// The plans of a session, in order.
#[derive(Drop)]
pub struct SessionReport {
    pub plans: List<PlanReport>,
}

/// The bytes to reserve for the texts of plans.
fn room_of(plans: &[PlanReport]) -> usize {
    let mut room: usize = 0;
    for plan in plans {
        room = room.saturating_add(plan.room());
    }
    room
}

/// Appends the texts of plans.
fn put_plans(text: &mut Vec<u8>, plans: &[PlanReport]) -> Result<(), NoMemory>
    requires { All FitsPlan plans.now }
    ensures { OnOk result (text.new.items ≡ text.old.items ++ flat_map plan_text plans.now) }
{
    for plan in plans {
        plan.put_text(text)?;
    }
    Ok(())
}

impl SessionReport {
    /// The texts of the plans in order. Want of memory is the only error.
    pub fn text(&self, alloc: Global) -> Result<Vec<u8>, NoMemory>
        requires { All FitsPlan self.now.plans }
        ensures { IfOk result (λ text. text.items ≡ flat_map plan_text self.now.plans) }
    {
        let plans = self.plans.as_slice();
        let mut text = Vec::with_capacity(alloc, room_of(plans))?;
        put_plans(&mut text, plans)?;
        Ok(text)
    }
}
