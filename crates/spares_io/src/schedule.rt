//! The calls of a shelf or a sink in memory that are to fail.
ghost use Rattle.std.specs.Prelude.{◌≡◌};
ghost use Rattle.spares_io.specs.Causes.{next_count};
ghost use Rattle.spares_io.specs.Memory.{is_listed};

/// The numbers of the calls that are to fail, and the number of calls so far.
#[derive(Drop)]
pub(crate) struct Schedule {
    fails: Vec<u32>,
    calls: u64,
}

impl Schedule {
    /// A schedule by which the calls of these numbers fail, before the first call.
    pub(crate) fn new(fails: Vec<u32>) -> Schedule
        ensures fails { result.fails.items ≡ fails.items }
        ensures calls { result.calls ≡ 0 }
    {
        Schedule { fails, calls: 0 }
    }

    /// Numbers the next call, and returns whether it is to fail. The number stops at `u64::MAX`, after all that can be
    /// listed.
    pub(crate) fn begin_call(&mut self) -> bool
        ensures fails { self.new.fails.items ≡ self.old.fails.items }
        ensures calls { self.new.calls ≡ next_count self.old.calls }
        ensures listed { result ≡ is_listed self.old.fails.items (next_count self.old.calls) }
    {
        let number = self.calls.saturating_add(1);
        self.calls = number;
        self.fails.iter().any(|listed| u64::from(*listed) == number)
    }
}
