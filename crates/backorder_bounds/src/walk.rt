//! Lower bounds on expected backorders, from stock to stock.

ghost use Rattle.std.specs.Prelude.{◌≡◌, ◌+◌, ◌<◌, ◌≤◌};
ghost use Rattle.moment_table.specs.Inputs.{CanTable};
ghost use Rattle.backorder_bounds.specs.Places.{low_end, next_place};

use crate::falling::Falling;
use crate::lead::{Lead, lead_of};
use crate::sums::Rising;
use fixed_interval::Iv;
use std::marker::Model;

/// The lead that bounds no chance: one more unit in stock takes off a whole backorder.
const NO_LEAD: Lead = Lead {
    start: 0,
    under: Rising { first: 0, step: 0 },
    inverse: 0,
};

/// A walk over the stocks of a pipeline's table, from 0 on, with a lower bound on the backorders at each.
#[derive(Drop)]
pub struct Walk<const F: u32> {
    mean: Iv<F>,
    variance: Iv<F>,
    stock: u8,
    lead: Lead,
    falling: Falling,
}

impl<const F: u32> Model for Walk<F> {
    ghost use Rattle.backorder_bounds.specs.Places.{Place};
    ghost use Rattle.backorder_bounds.specs.Falling.{IsWalk};

    ghost Value = { Place };

    ghost view = { λ w. record { mean = w.mean; variance = w.variance; stock = w.stock } };

    ghost invariant = { λ w. IsWalk F w.mean w.variance w.stock w.lead w.falling };
}

impl<const F: u32> Walk<F> {
    /// A walk at the stock 0, for a mean and a variance as `table` takes them.
    pub fn of(mean: Iv<F>, variance: Iv<F>) -> Walk<F>
        requires table { CanTable F mean variance }
        ensures { result ≡ record { mean = mean.entry; variance = variance.entry; stock = 0 } }
    {
        Walk {
            mean,
            variance,
            stock: 0,
            lead: NO_LEAD,
            falling: Falling::first::<F>(mean.lo() as u64, NO_LEAD),
        }
    }

    /// A lower bound on the backorders at the stock at hand, in units of 2^-F: it is at most the lower end that the
    /// table has there. It is near this end if the mean is small, and else may be far below it: no clause says how far.
    pub fn low(&self) -> u64
        ensures { result ≤ low_end F self.now }
    {
        self.falling.low
    }

    /// The bounds on the weights, of which the bound at the stock 0 has no need.
    fn begin(&mut self)
        requires { self.old.stock ≡ 0 }
        ensures { self.new ≡ self.old }
    {
        let mean = self.mean.lo() as u64;
        match lead_of(self.mean, self.variance) {
            Some(lead) => {
                self.lead = lead;
                self.falling = Falling::first::<F>(mean, lead);
            }
            None => {}
        }
    }

    /// Steps to the next stock, which is at most 63.
    pub fn advance(&mut self)
        requires { self.old.stock < 63 }
        ensures { self.new ≡ next_place self.old }
    {
        if self.stock == 0 {
            self.begin();
        }
        self.falling = self.falling.next::<F>(self.lead, self.stock);
        self.stock += 1;
    }
}
