//! The lines of refused edits.
ghost use Rattle.std.specs.Prelude.{◌≡◌, ◌≤◌, ◌++◌, length};
ghost use Rattle.refusals.specs.Lines.{edit_text};

use crate::line::Line;
use case_edits::EditFault;

impl Line {
    /// Appends the reason why edits are refused. If the rates of a plan are refused, it names only the line of the
    /// plan.
    pub(crate) fn put_edit(&mut self, fault: EditFault)
        requires { length self.old ≤ 6 }
        ensures text { self.new ≡ self.old ++ edit_text fault }
        ensures short { length self.new ≤ 159 }
    {
        match fault {
            EditFault::TooManyLines => self.put(b"edit-lines"),
            EditFault::BadLine(line) => self.put_at_row(b"edit", line),
            EditFault::TooManyPlans(line) => self.put_at_row(b"edit-plans", line),
            EditFault::Rate(line, _) => self.put_at_row(b"edit-rate", line),
        }
    }
}
