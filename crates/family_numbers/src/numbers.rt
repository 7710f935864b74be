//! The numbers of a family.

ghost use Rattle.std.specs.Prelude.{◌≡◌, ◌==◌, position, ◌-◌, ◌<◌, IfOk, length, get_or, map, flat_map, All};
ghost use Rattle.fixed_interval.specs.Ends.{InScale};
ghost use Rattle.fleet_model.specs.Fleet.{family};
ghost use Rattle.fleet_model.specs.Rows.{all_sites};
ghost use Rattle.demand_rates.specs.Rates.{AreRatesOf};
ghost use Rattle.family_items.specs.Inputs.{IsLine};
ghost use Rattle.family_numbers.specs.Numbers.{AreNumbers, ArePairNumbers, numbers_of, pair_at, pair_numbers};

use answers::NoMemory;
use demand_rates::Rated;
use demand_rates::kinds::Rates;
use family_items::ratios::{pipeline_ends, share_ends};
use fixed_interval::Iv;
use spares_input::{Case, PartId, SiteId};
use std::alloc::Global;
use std::marker::Model;

/// The numbers of a pair, in units of `2^-F`.
#[derive(Clone, Copy, Drop)]
pub struct PairNumbers<const F: u32> {
    /// The direct part of its pipeline.
    pub direct: Iv<F>,
    /// The largest possible mean and variance of its pipeline.
    pub cap: u128,
    /// Its share in the depot's backorders.
    pub share: Iv<F>,
    /// The largest stock.
    pub limit: u8,
}

/// The numbers of a family: its parts, the line unit first, and the numbers of each pair, by part and then by site.
#[derive(Drop)]
pub struct Numbers<const F: u32> {
    members: Vec<PartId>,
    site_count: u8,
    own: Vec<PairNumbers<F>>,
    line_weight: u32,
}

impl<const F: u32> Model for Numbers<F> {
    ghost use Rattle.std.specs.Prelude.{map};
    ghost use Rattle.family_numbers.specs.Numbers.{FamilyNumbers, AreNumbers};

    ghost Value = { FamilyNumbers F };

    ghost view = { λ x. record {
      parts = map (λ p. p.0) x.members.items;
      sites = x.site_count;
      pairs = x.own.items;
      weight = x.line_weight;
    } };

    ghost invariant = { λ x. AreNumbers F (record {
      parts = map (λ p. p.0) x.members.items;
      sites = x.site_count;
      pairs = x.own.items;
      weight = x.line_weight;
    }) };
}

/// The index of a part among `members`.
fn place_in(members: &[PartId], part: PartId) -> Option<usize>
    ensures { result ≡ position (λ q. q.0 == part.0) members.now }
{
    members.iter().position(|q| q.0 == part.0)
}

/// The numbers of a pair of a case.
fn pair_numbers<const F: u32>(rated: &Rated<'_>, part: PartId, site: SiteId) -> PairNumbers<F>
    requires scale { InScale F }
    requires part { part.0 < length rated.now.case.parts }
    requires site { site.0 < length rated.now.case.sites }
    ensures { result ≡ pair_numbers F rated.now.case part.0 site.0 }
{
    rated.invariant();
    let rates = rated.rates();
    let share = rates.share(part, site);
    PairNumbers {
        direct: pipeline_ends(rates.direct(part, site)),
        cap: pipeline_ends::<F>(rates.zero_stock(part, site)).hi(),
        share: share_ends(share.num, share.den),
        limit: rated.case().limit(part, site),
    }
}

/// The numbers of a part at each site.
fn part_numbers<const F: u32>(
    alloc: Global,
    rated: &Rated<'_>,
    part: PartId,
) -> Result<Vec<PairNumbers<F>>, NoMemory>
    requires scale { InScale F }
    requires part { part.0 < length rated.now.case.parts }
    ensures { IfOk result (λ v. v.items ≡ map (pair_numbers F rated.now.case part.0) (all_sites rated.now.case)) }
{
    let mut numbers = Vec::with_capacity(alloc, usize::from(rated.case().site_count()))?;
    for k in 0..rated.case().site_count() {
        numbers.push(pair_numbers(rated, part, SiteId(k)))?;
    }
    Ok(numbers)
}

/// The numbers of these parts, by part and then by site.
fn all_numbers<const F: u32>(
    alloc: Global,
    rated: &Rated<'_>,
    parts: &[PartId],
) -> Result<Vec<PairNumbers<F>>, NoMemory>
    requires scale { InScale F }
    requires parts { All (λ p. p.0 < length rated.now.case.parts) parts.now }
    ensures { IfOk result (λ v. v.items ≡ flat_map
        (λ p. map (pair_numbers F rated.now.case p.0) (all_sites rated.now.case)) parts.now) }
{
    let sites = usize::from(rated.case().site_count());
    let mut numbers = Vec::with_capacity(alloc, parts.len().saturating_mul(sites))?;
    for part in parts {
        let mut row = part_numbers(alloc, rated, *part)?;
        numbers.append(&mut row)?;
    }
    Ok(numbers)
}

impl<const F: u32> Numbers<F> {
    /// The numbers of the family of a line unit of a case.
    pub fn of(
        alloc: Global,
        case: &Case,
        rates: &Rates,
        line: PartId,
    ) -> Result<Numbers<F>, NoMemory>
        requires scale { InScale F }
        requires rates { AreRatesOf case.now rates.now }
        requires line { IsLine case.now line.0 }
        ensures { IfOk result (λ x. x ≡ numbers_of F case.now line.0) }
    {
        let site_count = case.site_count();
        let members = case.family(line).to_vec(alloc)?;
        let rated = Rated::of(case, rates);
        let own = all_numbers(alloc, &rated, members.as_slice())?;
        Ok(Numbers {
            members,
            site_count,
            own,
            line_weight: u32::from(case.part(line).weight),
        })
    }

    /// The number of parts.
    pub fn size(&self) -> usize
        ensures size { result ≡ length self.now.parts }
        ensures valid { AreNumbers F self.now }
    {
        self.members.len()
    }

    /// The part at a place.
    pub fn part(&self, place: usize) -> PartId
        requires { place < length self.now.parts }
        ensures { result.0 ≡ get_or self.now.parts place 0 }
    {
        self.members[place]
    }

    /// The place of a part in the family.
    pub fn place_of(&self, part: PartId) -> Option<usize>
        ensures { result ≡ position (λ q. q == part.0) self.now.parts }
    {
        place_in(self.members.as_slice(), part)
    }

    /// The number of shop units.
    pub fn shops(&self) -> usize
        ensures shops { result ≡ length self.now.parts - 1 }
        ensures valid { AreNumbers F self.now }
    {
        self.members.len() - 1
    }

    /// The rules of a family's numbers, for a proof.
    pub fn invariant(&self)
        ensures valid { AreNumbers F self.now }
    {
        let _opened = &self.own;
    }

    /// The number of sites.
    pub fn sites(&self) -> u8
        ensures sites { result ≡ self.now.sites }
        ensures valid { AreNumbers F self.now }
    {
        self.site_count
    }

    /// The numbers of the part at a place, at a site.
    pub fn pair(&self, place: usize, site: u8) -> PairNumbers<F>
        requires place { place < length self.now.parts }
        requires site { site < self.now.sites }
        ensures is { result ≡ pair_at self.now place site }
        ensures valid { ArePairNumbers F result }
    {
        self.own[place * usize::from(self.site_count) + usize::from(site)]
    }
}
