//! A case together with its rates.

ghost use Rattle.std.specs.Prelude.{◌≡◌};
ghost use Rattle.demand_rates.specs.Rates.{AreRatesOf};

use crate::kinds::Rates;
use spares_input::Case;
use std::marker::Model;

/// A case and its rates, which the functions behind a public call hand on as one value.
#[derive(Drop)]
pub struct Rated<'a> {
    case: &'a Case,
    rates: &'a Rates,
}

impl<'a> Model for Rated<'a> {
    ghost use Rattle.demand_rates.specs.Rates.{RatedCase, AreRatesOf};

    ghost Value = { RatedCase };

    ghost view = { λ r. record { case = r.case.now; rates = r.rates.now } };

    ghost invariant = { λ r. AreRatesOf r.case.now r.rates.now };
}

impl<'a> Rated<'a> {
    /// A case with its rates: they must be those of this case.
    pub fn of(case: &'a Case, rates: &'a Rates) -> Rated<'a>
        requires { AreRatesOf case.now rates.now }
        ensures { result ≡ record { case = case.now; rates = rates.now } }
    {
        Rated { case, rates }
    }

    /// The case.
    pub fn case(&self) -> &'a Case
        ensures { result.now ≡ self.now.case }
    {
        self.case
    }

    /// The rates of the case.
    pub fn rates(&self) -> &'a Rates
        ensures { result.now ≡ self.now.rates }
    {
        self.rates
    }

    /// The rule of a rated case, for a proof.
    pub fn invariant(&self)
        ensures { AreRatesOf self.now.case self.now.rates }
    {
        let _opened = &self.case;
    }
}
