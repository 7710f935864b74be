//! The stocks that a plan or a check begins with.
ghost use Rattle.std.specs.Prelude.{◌≡◌, IfOk};
ghost use Rattle.std.specs.Option.{option_map};
ghost use Rattle.spares_input.specs.Stocks.{AreStocksOf, IsFor, cost_of_stocks};
ghost use Rattle.command_outcomes.specs.Held.{held_in};

use answers::NoMemory;
use spares_input::{Case, Stocks, nothing_held};
use std::alloc::Global;

/// A copy of stocks of a case.
fn copied(alloc: Global, case: &Case, stocks: &Stocks) -> Result<Stocks, NoMemory>
    requires { IsFor case.now stocks.now }
    ensures { IfOk result (λ copy. copy ≡ stocks.now) }
{
    let sites = case.site_count();
    let mut list = Vec::new(alloc);
    list.extend_from_slice(stocks.as_slice())?;
    Ok(Stocks::of(list, sites))
}

/// The stocks on hand of a case, or zeros for each pair if there are none. The only error is want of memory.
pub fn held_in(alloc: Global, case: &Case, on_hand: &Option<Stocks>) -> Result<Stocks, NoMemory>
    requires { AreStocksOf case.now (held_in case.now on_hand.now) }
    ensures { IfOk result (λ held. held ≡ held_in case.now on_hand.now) }
{
    match on_hand {
        Some(stocks) => copied(alloc, case, stocks),
        None => nothing_held(alloc, case),
    }
}

/// The cost of the stocks on hand of a case in whole money, if there are any.
pub fn cost_of(case: &Case, on_hand: &Option<Stocks>) -> Option<u64>
    requires { AreStocksOf case.now (held_in case.now on_hand.now) }
    ensures { result ≡ option_map (cost_of_stocks case.now) on_hand.now }
{
    match on_hand {
        Some(stocks) => Some(stocks.cost(case)),
        None => None,
    }
}
