//! The families of a case with stocks held, of which parts of the curves can be made.

ghost use Rattle.std.specs.Prelude.{◌≡◌, ◌<◌, ◌≤◌, IfOk, All, get_or, length};
ghost use Rattle.std.specs.Result.{IsOk};
ghost use Rattle.demand_rates.specs.Rates.{AreRatesOf};
ghost use Rattle.spares_input.specs.Limits.{most_parts};
ghost use Rattle.spares_input.specs.Stocks.{AreStocksOf};
ghost use Rattle.fleet_model.specs.Rows.{line_units};
ghost use Rattle.family_items.specs.Inputs.{IsLine};
ghost use Rattle.fleet_plan.specs.Families.{case_points};
ghost use Rattle.held_work.specs.Work.{held_work_of};
ghost use Rattle.held_plan.specs.Held.{IsHeldCase};

use crate::maker::CurveMaker;
use answers::NoMemory;
use demand_rates::kinds::Rates;
use family_points::Bounds;
use hull::{Curve, Price, Score};
use part_filling::Families;
use spares_input::{Case, PartId, Stocks};
use std::alloc::Global;
use std::marker::Model;

/// The families of a case's line units, with their vectors from the held stocks to the limits. A maker makes their
/// curves and the parts of these.
#[derive(Drop)]
pub(crate) struct HeldFamilies<'a, S: Score, M: CurveMaker> {
    case: &'a Case,
    rates: &'a Rates,
    held: &'a Stocks,
    score: &'a S,
    maker: &'a M,
}

impl<'a, S: Score, M: CurveMaker> Model for HeldFamilies<'a, S, M> {
    ghost use Rattle.held_plan.specs.Held.{HeldCase, IsHeldCase};

    ghost Value = { HeldCase };

    ghost view = { λ x. record { case = x.case.now; rates = x.rates.now; held = x.held.now } };

    ghost invariant = { λ x. IsHeldCase (record { case = x.case.now; rates = x.rates.now; held = x.held.now }) };
}

impl<'a, S: Score, M: CurveMaker> HeldFamilies<'a, S, M> {
    /// The families of a case. The rates are the case's; the held stocks are for the case and within its limits, and
    /// the work from them is within its limit.
    pub(crate) fn of(
        case: &'a Case,
        rates: &'a Rates,
        held: &'a Stocks,
        score: &'a S,
        maker: &'a M,
    ) -> HeldFamilies<'a, S, M>
        requires rates { AreRatesOf case.now rates.now }
        requires held { AreStocksOf case.now held.now }
        requires work { IsOk (held_work_of case.now held.now.list) }
        ensures { result ≡ record { case = case.now; rates = rates.now; held = held.now } }
    {
        case.invariant();
        HeldFamilies {
            case,
            rates,
            held,
            score,
            maker,
        }
    }

    /// The rules of these families, for a proof.
    pub(crate) fn invariant(&self)
        ensures { IsHeldCase self.now }
    {
        let _opened = &self.case;
    }

    /// The case.
    pub(crate) fn case(&self) -> &'a Case
        ensures case { result.now ≡ self.now.case }
        ensures valid { IsHeldCase self.now }
    {
        self.case
    }

    /// The rates of the case.
    pub(crate) fn rates(&self) -> &'a Rates
        ensures { result.now ≡ self.now.rates }
    {
        self.rates
    }

    /// The number of families, at most 2,000.
    pub(crate) fn count(&self) -> u32
        ensures count { result ≡ length (line_units self.now.case) }
        ensures few { result ≤ most_parts }
    {
        let lines = self.case.line_units();
        lines.len() as u32
    }

    /// The line unit of a family.
    fn line(&self, family: u32) -> PartId
        requires { family < length (line_units self.now.case) }
        ensures line { result.0 ≡ get_or (line_units self.now.case) family 0 }
        ensures is_line { IsLine self.now.case result.0 }
    {
        let lines = self.case.line_units();
        lines[family as usize]
    }

    /// The held stocks.
    pub(crate) fn held(&self) -> &'a Stocks
        ensures { result.now ≡ self.now.held }
    {
        self.held
    }

    /// The score.
    pub(crate) fn score(&self) -> &'a S {
        self.score
    }

    /// What makes the curves and the parts.
    pub(crate) fn maker(&self) -> &'a M {
        self.maker
    }

    /// The line unit of each `every`-th family, from half of that on. Want of memory is the only error.
    pub(crate) fn sample(&self, alloc: Global, every: u32) -> Result<Vec<PartId>, NoMemory>
        requires { 0 < every }
        ensures lines { IfOk result (λ v. All (λ p. IsLine self.now.case p.0) v.items) }
        ensures few { IfOk result (λ v. length v.items ≤ most_parts) }
    {
        let mut lines = Vec::new(alloc);
        for family in 0..self.count() {
            if family % every == every / 2 {
                lines.push(self.line(family))?;
            }
        }
        Ok(lines)
    }
}

impl<'a, S: Score, M: CurveMaker> Families for HeldFamilies<'a, S, M> {
    ghost points = { λ x. case_points S.ends x.case x.held.list };

    fn part(
        &self,
        alloc: Global,
        family: u32,
        low: Price,
        high: Price,
    ) -> Result<(Curve, u128), NoMemory> {
        let line = self.line(family);
        let bounds = Bounds::from_held(alloc, self.case, line, self.held)?;
        let maker = self.maker;
        maker.part_within(
            alloc, self.case, self.rates, line, &bounds, low, high, self.score,
        )
    }
}
