//! The results of the commands.
ghost use Rattle.std.specs.Prelude.{◌≡◌, IfOk};
ghost use Rattle.command_outcomes.specs.Task.{printed};
ghost use Rattle.command_outcomes.specs.Texts.{CanPrint, done_text};

use answers::{List, NoMemory};
use budget_sweep::{SweepReport, TargetReport};
use metric_compare::CompareReport;
use plan_report::{CheckReport, EvalReport, PlanReport, SingleReport, Summary};
use session_report::SessionReport;
use spares_io::Text;
use std::alloc::Global;

/// The report of a command that was carried out.
#[derive(Drop)]
pub enum Done {
    /// The backorders of one pipeline, and their variance.
    Single(SingleReport),
    /// The figures of a case at given stocks.
    Evaluated(EvalReport),
    /// The plan of a case under a budget.
    Planned(PlanReport),
    /// The claims of an accepted certificate.
    Checked(CheckReport),
    /// The plan of a demonstration case, whose certificate was accepted.
    Demo(Summary),
    /// The best backorders of a case for every budget.
    Swept(SweepReport),
    /// The cost of a target for a case.
    Targeted(TargetReport),
    /// The plans that a file of edits asks for.
    Session(SessionReport),
    /// The backorders of a case at given stocks, beside those with Poisson pipelines.
    Compared(CompareReport),
}

impl Done {
    /// The text of the report.
    pub(crate) fn text(&self, alloc: Global) -> Result<Vec<u8>, NoMemory>
        requires { CanPrint self.now }
        ensures { IfOk result (λ text. text.items ≡ done_text self.now) }
    {
        match self {
            Done::Single(report) => report.text(alloc),
            Done::Evaluated(report) => report.text(alloc),
            Done::Planned(report) => report.text(alloc),
            Done::Checked(report) => report.text(alloc),
            Done::Demo(summary) => summary.text(alloc),
            Done::Swept(report) => report.text(alloc),
            Done::Targeted(report) => report.text(alloc),
            Done::Session(report) => report.text(alloc),
            Done::Compared(report) => report.text(alloc),
        }
    }
}

/// Bytes that a command writes under a name.
#[derive(Drop)]
pub struct Written {
    /// The name.
    pub name: Text,
    /// The bytes.
    pub bytes: List<u8>,
}

impl Written {
    /// These bytes under a copy of a name. The only error is want of memory.
    pub fn new(alloc: Global, name: &Text, bytes: Vec<u8>) -> Result<Written, NoMemory>
        ensures { IfOk result (λ written. written ≡ record { name = name.now; bytes = bytes.items }) }
    {
        let name = Text::from_str(alloc, name.as_str())?;
        Ok(Written {
            name,
            bytes: List::of(bytes),
        })
    }
}

/// The result of a command: its report, and the write that comes before it.
#[derive(Drop)]
pub struct TaskOutcome {
    /// The report.
    pub done: Done,
    /// The write.
    pub writes: Option<Written>,
}

impl TaskOutcome {
    /// A report with no write before it.
    pub fn printed(done: Done) -> TaskOutcome
        ensures { result ≡ printed done }
    {
        TaskOutcome { done, writes: None }
    }
}
