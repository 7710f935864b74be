//! Helpers of the rows: a family's evaluator, and its figures at the stocks of a table.
ghost use Rattle.std.specs.Prelude.{◌≡◌, [], IfSome};
ghost use Rattle.spares_input.specs.Stocks.{AreStocksOf};
ghost use Rattle.demand_rates.specs.Rates.{AreRatesOf};
ghost use Rattle.family_items.specs.Inputs.{IsLine};
ghost use Rattle.family_numbers.specs.Numbers.{numbers_of};

use demand_rates::kinds::Rates;
use family_items::FamilyResult;
use family_tables::Evaluator;
use spares_input::{Case, PartId, Stocks};
use std::alloc::Global;
use test_inputs::stocks_of;

/// The evaluator of a case's first family, which keeps no table yet.
pub(crate) fn evaluator_of(alloc: Global, case: &Case, rates: &Rates) -> Option<Evaluator<48>>
    requires rates { AreRatesOf case.now rates.now }
    requires line { IsLine case.now 0 }
    ensures { IfSome result (λ e. e ≡ record { numbers = numbers_of 48 case.now 0; keys = [] }) }
{
    Evaluator::new(alloc, case, rates, PartId(0)).ok()
}

/// The first family at these stocks.
fn at_stocks(
    evaluator: &mut Evaluator<48>,
    case: &Case,
    rates: &Rates,
    stocks: &Stocks,
) -> Option<FamilyResult<48>>
    requires rates { AreRatesOf case.now rates.now }
    requires line { IsLine case.now 0 }
    requires stocks { AreStocksOf case.now stocks.now }
    requires numbers { evaluator.old.numbers ≡ numbers_of 48 case.now 0 }
    ensures { evaluator.new.numbers ≡ numbers_of 48 case.now 0 }
{
    case.invariant();
    evaluator.evaluate(case, rates, stocks).ok()
}

/// The first family at the stocks of a table, or None if it has no such stocks.
pub(crate) fn evaluated(
    alloc: Global,
    evaluator: &mut Evaluator<48>,
    case: &Case,
    rates: &Rates,
    table: &str,
) -> Option<FamilyResult<48>>
    requires rates { AreRatesOf case.now rates.now }
    requires line { IsLine case.now 0 }
    requires numbers { evaluator.old.numbers ≡ numbers_of 48 case.now 0 }
    ensures { evaluator.new.numbers ≡ numbers_of 48 case.now 0 }
{
    let stocks = stocks_of(alloc, case, table)?;
    at_stocks(evaluator, case, rates, &stocks)
}
