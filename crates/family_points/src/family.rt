//! A family with the bounds of its vectors.

ghost use Rattle.std.specs.Prelude.{◌≡◌, ◌+◌, ◌*◌, ◌<◌, ◌≤◌, IfOk, length, map, take, drop, get_or, [], ◌∷◌};
ghost use Rattle.spares_input.specs.Limits.{most_sites, most_family, most_stock};
ghost use Rattle.spares_input.specs.Frames.{part_at};
ghost use Rattle.fleet_model.specs.Laws.{IsBase};
ghost use Rattle.fleet_model.specs.Fleet.{family};
ghost use Rattle.fleet_model.specs.Rows.{systems};
ghost use Rattle.demand_rates.specs.Rates.{AreRatesOf};
ghost use Rattle.family_items.specs.Inputs.{IsLine};
ghost use Rattle.family_points.specs.Points.{AreOrdered, cost_above};
ghost use Rattle.family_points.specs.Boxes.{IsBox};
ghost use Rattle.family_points.specs.Inputs.{AreShopsAt, IsFamilyBox, IsAt, low_at, high_at, held_at, line_high, line_low, shop_vectors};

use crate::bounds::Bounds;
use crate::vectors::{count, vector_at};
use answers::NoMemory;
use demand_rates::kinds::Rates;
use spares_input::{Case, PartId, PartRow, SiteId};
use std::alloc::Global;
use std::marker::Model;

/// A family of a case, with the stocks held and the bounds of its vectors.
#[derive(Drop)]
pub struct Family<'a> {
    case: &'a Case,
    rates: &'a Rates,
    line: PartId,
    bounds: &'a Bounds,
    members: &'a [PartId],
}

impl<'a> Model for Family<'a> {
    ghost use Rattle.std.specs.Prelude.{◌≡◌, map};
    ghost use Rattle.fleet_model.specs.Fleet.{family};
    ghost use Rattle.family_points.specs.Inputs.{FamilyBox, IsFamilyBox};

    ghost Value = { FamilyBox };

    ghost view = { λ x. record {
      case = x.case.now;
      rates = x.rates.now;
      line = x.line.0;
      held = x.bounds.now.held;
      low = x.bounds.now.low;
      high = x.bounds.now.high;
    } };

    ghost invariant = { λ x. IsFamilyBox (record {
      case = x.case.now;
      rates = x.rates.now;
      line = x.line.0;
      held = x.bounds.now.held;
      low = x.bounds.now.low;
      high = x.bounds.now.high;
    })
        × (map (λ p. p.0) x.members.now ≡ family x.case.now x.line.0) };
}

/// The part of a vector that belongs to a site; `size` is the number of parts of the family.
pub fn part_of(vector: &[u8], site: SiteId, size: usize) -> &[u8]
    requires few { size ≤ most_family }
    requires within { site.0 * size + size ≤ length vector.now }
    ensures { result.now ≡ take size (drop (site.0 * size) vector.now) }
{
    let from = usize::from(site.0) * size;
    &vector[from..from + size]
}

/// The stocks of the shop units, among the stocks of a site.
pub fn shops_of(stocks: &[u8]) -> &[u8]
    requires { 0 < length stocks.now }
    ensures { result.now ≡ drop 1 stocks.now }
{
    &stocks[1..]
}

/// The stocks of a site: the line unit's, then the shop units'.
pub fn joined(alloc: Global, line: u8, shops: &[u8]) -> Result<Vec<u8>, NoMemory>
    ensures { IfOk result (λ v. v.items ≡ line ∷ shops.now) }
{
    let mut stocks = Vec::with_capacity(alloc, shops.len() + 1)?;
    stocks.push(line)?;
    stocks.extend_from_slice(shops)?;
    Ok(stocks)
}

impl<'a> Family<'a> {
    /// The family of a line unit.
    pub fn of(case: &'a Case, rates: &'a Rates, line: PartId, bounds: &'a Bounds) -> Family<'a>
        requires rates { AreRatesOf case.now rates.now }
        requires line { IsLine case.now line.0 }
        requires ordered { AreOrdered case.now line.0 bounds.now.held bounds.now.low bounds.now.high }
        ensures { result ≡ record {
          case = case.now;
          rates = rates.now;
          line = line.0;
          held = bounds.now.held;
          low = bounds.now.low;
          high = bounds.now.high;
        } }
    {
        case.invariant();
        Family {
            case,
            rates,
            line,
            bounds,
            members: case.family(line),
        }
    }

    /// The rules of a family and its bounds, for a proof.
    pub fn invariant(&self)
        ensures few { length (family self.now.case self.now.line) ≤ most_family }
        ensures valid { IsFamilyBox self.now }
    {
        let _opened = &self.case;
    }

    /// The rules of the line unit's bounds at a site, for a proof.
    pub fn invariant_at(&self, site: SiteId)
        requires { site.0 < length self.now.case.sites }
        ensures order { line_low self.now site.0 ≤ line_high self.now site.0 }
        ensures most { line_high self.now site.0 ≤ most_stock }
    {
        let _high = self.line_high(site);
    }

    /// The case.
    pub fn case(&self) -> &'a Case
        ensures case { result.now ≡ self.now.case }
        ensures valid { IsFamilyBox self.now }
    {
        self.case
    }

    /// The rates of the case.
    pub fn rates(&self) -> &'a Rates
        ensures { result.now ≡ self.now.rates }
    {
        self.rates
    }

    /// The line unit.
    pub fn line(&self) -> PartId
        ensures { result.0 ≡ self.now.line }
    {
        self.line
    }

    /// The number of parts, at most 9.
    pub fn size(&self) -> usize
        ensures size { result ≡ length (family self.now.case self.now.line) }
        ensures few { result ≤ most_family }
        ensures valid { IsFamilyBox self.now }
    {
        self.members.len()
    }

    /// The number of sites.
    pub fn sites(&self) -> u8
        ensures sites { result ≡ length self.now.case.sites }
        ensures fewest { 2 ≤ result }
        ensures most { result ≤ most_sites }
    {
        self.case.site_count()
    }

    /// The least stocks of a site.
    pub fn low(&self, site: SiteId) -> &[u8]
        requires { site.0 < length self.now.case.sites }
        ensures { result.now ≡ low_at self.now site.0 }
    {
        self.case.invariant();
        part_of(self.bounds.low.as_slice(), site, self.members.len())
    }

    /// The most stocks of a site.
    pub fn high(&self, site: SiteId) -> &[u8]
        requires { site.0 < length self.now.case.sites }
        ensures high { result.now ≡ high_at self.now site.0 }
        ensures bounds { IsBox (low_at self.now site.0) (high_at self.now site.0) }
    {
        self.case.invariant();
        part_of(self.bounds.high.as_slice(), site, self.members.len())
    }

    /// The least stock of the line unit at a site.
    pub fn line_low(&self, site: SiteId) -> u8
        requires { site.0 < length self.now.case.sites }
        ensures { result ≡ line_low self.now site.0 }
    {
        self.invariant();
        self.low(site)[0]
    }

    /// The most stock of the line unit at a site.
    pub fn line_high(&self, site: SiteId) -> u8
        requires { site.0 < length self.now.case.sites }
        ensures high { result ≡ line_high self.now site.0 }
        ensures order { line_low self.now site.0 ≤ result }
        ensures most { result ≤ most_stock }
    {
        self.invariant();
        self.high(site)[0]
    }

    /// The number of vectors of the shop units' stocks at a site.
    pub fn shop_count(&self, site: SiteId) -> u64
        requires { site.0 < length self.now.case.sites }
        ensures count { result ≡ length (shop_vectors self.now site.0) }
        ensures some { 0 < result }
    {
        self.invariant();
        let low = shops_of(self.low(site));
        let high = shops_of(self.high(site));
        count(low, high)
    }

    /// The shop units' `n`-th vector at a site, in dictionary order.
    pub fn shop_vector(&self, alloc: Global, site: SiteId, number: u64) -> Result<Vec<u8>, NoMemory>
        requires site { site.0 < length self.now.case.sites }
        requires within { number < length (shop_vectors self.now site.0) }
        ensures vector { IfOk result (λ v. v.items ≡ get_or (shop_vectors self.now site.0) number []) }
        ensures within { IfOk result (λ v. AreShopsAt self.now site.0 v.items) }
    {
        self.invariant();
        let low = shops_of(self.low(site));
        let high = shops_of(self.high(site));
        vector_at(alloc, low, high, number)
    }

    /// The cost of stocks at a site, as far as they exceed those held.
    pub fn cost(&self, site: SiteId, stocks: &[u8]) -> u64
        requires site { site.0 < length self.now.case.sites }
        requires stocks { IsAt self.now site.0 stocks.now }
        ensures cost { result ≡ cost_above self.now.case (family self.now.case self.now.line)
            (held_at self.now site.0) stocks.now }
        ensures most { result ≤ 9 * 6300000000 }
    {
        let size = self.size();
        let held = part_of(self.bounds.held.as_slice(), site, size);
        let mut cost = 0;
        for i in 0..size {
            let each = u64::from(self.case.part(self.members[i]).cost);
            cost += u64::from(stocks[i] - held[i]) * each;
        }
        cost
    }

    /// The row of the line unit.
    pub fn line_row(&self) -> &PartRow
        ensures { result.now ≡ part_at self.now.case.parts self.now.line }
    {
        self.case.invariant();
        self.case.part(self.line)
    }

    /// The unit cost of the line unit.
    pub fn line_cost(&self) -> u64
        ensures { result ≡ (part_at self.now.case.parts self.now.line).cost }
    {
        u64::from(self.line_row().cost)
    }

    /// The number of systems at a base.
    pub fn systems(&self, site: SiteId) -> u32
        requires { IsBase self.now.case site.0 }
        ensures { result ≡ systems self.now.case site.0 }
    {
        self.case.invariant();
        self.case.site(site).systems
    }
}
