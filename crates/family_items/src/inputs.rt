//! The numbers that pipelines are computed from.

ghost use Rattle.std.specs.Prelude.{◌≡◌, ◌*◌, ◌^◌, ◌<◌, ◌≤◌, length, map};
ghost use Rattle.fixed_interval.specs.Ends.{InScale};
ghost use Rattle.spares_input.specs.Stocks.{AreStocksOf};
ghost use Rattle.demand_rates.specs.Rates.{AreRatesOf};
ghost use Rattle.fleet_model.specs.Rows.{shop_units, weight};
ghost use Rattle.family_items.specs.Profile.{pipeline_of, share_of};
ghost use Rattle.family_items.specs.Inputs.{IsPipeline, IsSound};

use crate::pipeline::Pipeline;
use crate::ratios::{pipeline_ends, share_ends};
use demand_rates::kinds::Rates;
use fixed_interval::Iv;
use spares_input::{Case, PartId, SiteId, Stocks};
use std::marker::Model;

/// A case, its rates, and stocks of it within its limits.
#[derive(Drop)]
pub struct Inputs<'a> {
    case: &'a Case,
    rates: &'a Rates,
    stocks: &'a Stocks,
}

impl<'a> Model for Inputs<'a> {
    ghost use Rattle.family_items.specs.Inputs.{InputRows, AreInputs};

    ghost Value = { InputRows };

    ghost view = { λ x. record { case = x.case.now; rates = x.rates.now; stocks = x.stocks.now } };

    ghost invariant = { λ x. AreInputs (record { case = x.case.now; rates = x.rates.now; stocks = x.stocks.now }) };
}

impl<'a> Inputs<'a> {
    /// A case, rates of it, and stocks of it within its limits.
    pub fn of(case: &'a Case, rates: &'a Rates, stocks: &'a Stocks) -> Inputs<'a>
        requires rates { AreRatesOf case.now rates.now }
        requires stocks { AreStocksOf case.now stocks.now }
        ensures { result ≡ record { case = case.now; rates = rates.now; stocks = stocks.now } }
    {
        case.invariant();
        Inputs {
            case,
            rates,
            stocks,
        }
    }

    /// The case.
    pub fn case(&self) -> &Case
        ensures { result.now ≡ self.now.case }
    {
        self.case
    }

    /// The rules of these inputs, for a proof.
    pub fn invariant(&self)
        ensures valid { IsSound self.now.case self.now.stocks.list }
    {
        let _opened = &self.case;
    }

    /// The number of sites.
    pub fn sites(&self) -> u8
        ensures count { result ≡ length self.now.case.sites }
        ensures valid { IsSound self.now.case self.now.stocks.list }
    {
        self.case.site_count()
    }

    /// The shop units of a line unit, in part order.
    pub fn shop_units(&self, line: PartId) -> &[PartId]
        requires { line.0 < length self.now.case.parts }
        ensures { map (λ p. p.0) result.now ≡ shop_units self.now.case line.0 }
    {
        &self.case.family(line)[1..]
    }

    /// The weight of a backorder of a line unit, 1 to 100.
    pub fn weight(&self, line: PartId) -> u32
        requires { line.0 < length self.now.case.parts }
        ensures weight { result ≡ weight self.now.case line.0 }
        ensures most { result ≤ 100 }
    {
        u32::from(self.case.part(line).weight)
    }

    /// A pair's own numbers of its pipeline.
    pub fn pipeline<const F: u32>(&self, part: PartId, site: SiteId) -> Pipeline<F>
        requires scale { InScale F }
        requires part { part.0 < length self.now.case.parts }
        requires site { site.0 < length self.now.case.sites }
        ensures pipeline { result ≡ pipeline_of F self.now.case self.now.stocks.list part.0 site.0 }
        ensures valid { IsPipeline F result }
    {
        Pipeline {
            part,
            site,
            stock: self.stocks.get(part, site),
            direct: pipeline_ends(self.rates.direct(part, site)),
            cap: pipeline_ends::<F>(self.rates.zero_stock(part, site)).hi(),
        }
    }

    /// The share of a pair in the backorders at the depot, at most 1.
    pub fn share<const F: u32>(&self, part: PartId, site: SiteId) -> Iv<F>
        requires scale { InScale F }
        requires part { part.0 < length self.now.case.parts }
        requires site { site.0 < length self.now.case.sites }
        ensures share { result ≡ share_of F self.now.case part.0 site.0 }
        ensures most { result.hi ≤ 2 ^ F }
    {
        let share = self.rates.share(part, site);
        share_ends(share.num, share.den)
    }
}
