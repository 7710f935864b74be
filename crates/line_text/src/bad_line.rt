//! Why reading stopped.

ghost use Rattle.std.specs.Prelude.{◌≡◌};
ghost use Rattle.answers.specs.declared.stop.Stop.TheVariants as stop;

use answers::Stop;

/// The next line doesn't belong to the format. The cursor stays before it.
#[derive(Clone, Copy, Debug, PartialEq, Eq)]
pub struct BadLine;

impl From<BadLine> for Stop<BadLine> {
    ghost from_gives = { λ bad e. e ≡ stop.Fault bad };

    fn from(bad: BadLine) -> Self {
        Stop::Fault(bad)
    }
}
