//! The results of `rates`.

ghost use Rattle.std.specs.Prelude.{◌≡◌};
ghost use Rattle.demand_rates.specs.RateLists.{rates_at, HasRates};

use exact_ratio::Ratio;
use spares_input::{PartId, SiteId};
use std::marker::Model;

/// The denominator of pipelines: 365 days, in units of 10^-18.
pub const PIPELINE_SCALE: u128 = 365_000_000_000_000_000_000;

/// The rates of a pair.
#[derive(Clone, Copy, PartialEq, Eq)]
pub struct PairRates {
    /// Demands a year.
    pub demand: Ratio,
    /// The pair's part of the demand at the depot.
    pub share: Ratio,
    /// The direct pipeline, a numerator over [`PIPELINE_SCALE`].
    pub direct: u128,
    /// The pipeline's mean without any stock, a numerator over [`PIPELINE_SCALE`].
    pub zero_stock: u128,
}

/// The rates of each pair of a case, by part and then by site.
#[derive(Drop)]
pub struct Rates {
    sites: u8,
    pairs: Vec<PairRates>,
}

impl Model for Rates {
    ghost use Rattle.demand_rates.specs.RateLists.{RateList};

    ghost Value = { RateList };

    ghost view = { λ r. record { sites = r.sites; pairs = r.pairs.items } };
}

impl Rates {
    /// The rates of these pairs, by part and then by site.
    pub(crate) fn of(sites: u8, pairs: Vec<PairRates>) -> Rates
        ensures { result ≡ record { sites = sites; pairs = pairs.items } }
    {
        Rates { sites, pairs }
    }

    /// The rates of a pair.
    fn at(&self, part: PartId, site: SiteId) -> &PairRates
        requires { HasRates self.now part.0 site.0 }
        ensures { result.now ≡ rates_at self.now part.0 site.0 }
    {
        &self.pairs[part.0 as usize * self.sites as usize + site.0 as usize]
    }

    /// The demand of a pair, in demands a year. Its denominator depends on the level: 10^4 for a line unit at a base,
    /// 10^8 for a line unit at the depot, 10^12 for a shop unit at a base, 10^16 for a shop unit at the depot.
    pub fn demand(&self, part: PartId, site: SiteId) -> Ratio
        requires { HasRates self.now part.0 site.0 }
        ensures { result ≡ (rates_at self.now part.0 site.0).demand }
    {
        self.at(part, site).demand
    }

    /// The share of a pair in the demand at the depot: for a shop unit at the depot, the demand by the depot's own
    /// repairs of its line unit; for a part at a base, the demand that the base sends on. It isn't reduced, and is 0/1
    /// if its denominator is 0. A line unit at the depot has no share: the result is 1/1.
    pub fn share(&self, part: PartId, site: SiteId) -> Ratio
        requires { HasRates self.now part.0 site.0 }
        ensures { result ≡ (rates_at self.now part.0 site.0).share }
    {
        self.at(part, site).share
    }

    /// The direct pipeline of a pair, a numerator over [`PIPELINE_SCALE`].
    pub fn direct(&self, part: PartId, site: SiteId) -> u128
        requires { HasRates self.now part.0 site.0 }
        ensures { result ≡ (rates_at self.now part.0 site.0).direct }
    {
        self.at(part, site).direct
    }

    /// The mean of a pair's pipeline without any stock, a numerator over [`PIPELINE_SCALE`].
    pub fn zero_stock(&self, part: PartId, site: SiteId) -> u128
        requires { HasRates self.now part.0 site.0 }
        ensures { result ≡ (rates_at self.now part.0 site.0).zero_stock }
    {
        self.at(part, site).zero_stock
    }
}
