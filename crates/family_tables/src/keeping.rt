//! Evaluators, which keep tables.

ghost use Rattle.std.specs.Prelude.{◌≡◌, ◌+◌, ◌-◌, ◌*◌, ◌^◌, ◌<◌, [], IfOk, IfSome, is_some, length, get_or, map, All};
ghost use Rattle.fixed_interval.specs.Ends.{InScale};
ghost use Rattle.demand_rates.specs.Rates.{AreRatesOf};
ghost use Rattle.family_items.specs.Inputs.{IsLine};
ghost use Rattle.family_items.specs.Profile.{family_of};
ghost use Rattle.family_items.specs.Encloses.{CanEvaluate, EnclosesFamily, IsSmallFamily};
ghost use Rattle.family_tables.specs.Kept.{Grows, Has, depot_stocks, is_kept, keys_of, table_kept, with_keys};
ghost use Rattle.family_numbers.specs.Numbers.{numbers_of};

use crate::items::{family_of, kept_items};
use crate::keys::{Kept, kept_at};
use answers::NoMemory;
use demand_rates::kinds::Rates;
use family_items::FamilyResult;
use family_numbers::numbers::Numbers;
use moment_table::kinds::Table;
use spares_input::{Case, PartId, SiteId, Stocks};
use std::alloc::Global;
use std::marker::Model;

/// The numbers of a family, and the tables made of them so far. Contracts see the numbers and the keys of the kept
/// tables.
#[derive(Drop)]
pub struct Evaluator<const F: u32> {
    alloc: Global,
    family: Numbers<F>,
    tables: Vec<Kept<F>>,
}

impl<const F: u32> Model for Evaluator<F> {
    ghost use Rattle.std.specs.Prelude.{map};
    ghost use Rattle.std.specs.List.{All};
    ghost use Rattle.family_tables.specs.Kept.{Evaluation, IsKept};

    ghost Value = { Evaluation F };

    ghost view = { λ x. record { numbers = x.family; keys = map (λ y. y.key) x.tables.items } };

    ghost invariant = { λ x. All (IsKept F x.family) x.tables.items };
}

impl<const F: u32> Evaluator<F> {
    /// The evaluator of a family, without any table yet. The rates are those of the case, and `line` is one of its line
    /// units. Want of memory is the only error.
    pub fn new(
        alloc: Global,
        case: &Case,
        rates: &Rates,
        line: PartId,
    ) -> Result<Evaluator<F>, NoMemory>
        requires scale { InScale F }
        requires rates { AreRatesOf case.now rates.now }
        requires line { IsLine case.now line.0 }
        ensures { IfOk result (λ e. e ≡ record { numbers = numbers_of F case.now line.0; keys = [] }) }
    {
        let family = Numbers::of(alloc, case, rates, line)?;
        Ok(Evaluator {
            alloc,
            family,
            tables: Vec::new(alloc),
        })
    }

    /// The kept table of a part of the family at a site, or None. `key` has the stocks on which the pair's pipeline
    /// depends: empty for a shop unit at the depot, the shop units' stocks there for the line unit at the depot, and
    /// its own stock at the depot for a shop unit at a base.
    pub fn kept(&self, part: PartId, site: SiteId, key: &[u8]) -> Option<&Table<F>>
        ensures kept { is_some result ≡ is_kept self.now part.0 site.0 key.now }
        ensures table { IfSome result (λ t. t.now ≡ table_kept F self.now part.0 site.0 key.now) }
    {
        let place = self.family.place_of(part)?;
        let kept = kept_at(&self.family, self.tables.as_slice(), place, site, key)?;
        Some(&kept.table)
    }

    /// The number of kept tables.
    pub fn kept_count(&self) -> usize
        ensures { result ≡ length self.now.keys }
    {
        self.tables.len()
    }

    /// The same result as [`family_eval::evaluate`] at these stocks, from kept tables: only those that are missing are
    /// made, and kept. Afterwards the tables of the stocks are kept, each once.
    ///
    /// The case and the rates are the evaluator's own. No kept table is removed, and after `NoMemory` only tables of
    /// these stocks may have been added.
    pub fn evaluate(
        &mut self,
        case: &Case,
        rates: &Rates,
        stocks: &Stocks,
    ) -> Result<FamilyResult<F>, NoMemory>
        requires inputs { CanEvaluate F case.now stocks.now }
        requires rates { AreRatesOf case.now rates.now }
        requires line { IsLine case.now (get_or self.old.numbers.parts 0 0) }
        requires numbers { self.old.numbers ≡ numbers_of F case.now (get_or self.old.numbers.parts 0 0) }
        ensures ends { IfOk result (λ r. r ≡ family_of F case.now (get_or self.old.numbers.parts 0 0) stocks.now) }
        ensures encloses { IfOk result (EnclosesFamily F case.now stocks.now.list (get_or self.old.numbers.parts 0 0)) }
        ensures small { IfOk result (IsSmallFamily F case.now (get_or self.old.numbers.parts 0 0)) }
        ensures numbers { self.new.numbers ≡ self.old.numbers }
        ensures grows { Grows (keys_of self.old.numbers (depot_stocks self.old.numbers stocks.now)) self.old.keys
            self.new.keys }
        ensures has { IfOk result (λ _. Has (keys_of self.old.numbers (depot_stocks self.old.numbers stocks.now))
            self.new.keys) }
        ensures keys { IfOk result (λ _. self.new.keys ≡ with_keys self.old.keys
            (keys_of self.old.numbers (depot_stocks self.old.numbers stocks.now))) }
    {
        let items = kept_items(self.alloc, &self.family, &mut self.tables, stocks)?;
        let line = self.family.part(0);
        family_of(self.alloc, case, rates, line, stocks, items.as_slice())
    }
}
