//! The work of the curves of a case that begin at the held stocks.

ghost use Rattle.std.specs.Prelude.{◌≡◌};
ghost use Rattle.spares_input.specs.Stocks.{AreStocksOf};
ghost use Rattle.held_work.specs.Work.{held_work_of};

use family_points::{MOST_TABLES, held_tables};
use spares_input::{Case, Stocks};

/// The count of tables of all families over their vectors from the held stocks to the limits, if it is at most
/// 1,000,000. A larger count is the refusal, capped at 2^64 - 1. `held` has a number for each pair of the case, at most
/// its limit. It takes no memory.
pub fn held_work(case: &Case, held: &Stocks) -> Result<u64, u64>
    requires held { AreStocksOf case.now held.now }
    ensures { result ≡ held_work_of case.now held.now.list }
{
    let mut work: u64 = 0;
    let lines = case.line_units();
    for line in lines {
        work = work.saturating_add(held_tables(case, *line, held));
    }
    if work <= MOST_TABLES {
        Ok(work)
    } else {
        Err(work)
    }
}
