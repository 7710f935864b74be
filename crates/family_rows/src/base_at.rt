//! A base at given stocks of the depot.

ghost use Rattle.std.specs.Prelude.{◌≡◌, ◌^◌, ◌<◌, ◌≤◌};
ghost use Rattle.fixed_interval.specs.Ends.{Ends, IsWithinLimit};
ghost use Rattle.fleet_model.specs.Laws.{IsBase};
ghost use Rattle.fleet_model.specs.Rows.{systems, per_system, weight};
ghost use Rattle.family_points.specs.Inputs.{IsAt};
ghost use Rattle.family_points.specs.Choices.{IsBaseOf};
ghost use Rattle.family_rows.specs.Spots.{IsBaseAt};

use family_points::family::Family;
use family_points::order::Base;
use fixed_interval::Iv;
use hull::Score;
use spares_input::SiteId;

/// A base of a family at given stocks of the depot.
#[derive(Drop)]
pub struct BaseAt<'f, 'b> {
    /// The family.
    pub family: &'f Family<'f>,
    /// The stocks at the depot, the line unit's first.
    pub depot: &'f [u8],
    /// The base.
    pub site: SiteId,
    /// The choices at the base, which don't depend on the depot's stocks.
    pub base: &'b Base,
    /// The base's systems, from 1 to 10,000.
    pub systems: u32,
    /// The number of this line unit in a system, from 1 to 100.
    pub per_system: u32,
    /// The weight of a backorder of the line unit, from 1 to 100.
    pub weight: u8,
}

impl<'f, 'b> BaseAt<'f, 'b> {
    /// A base with these stocks at the depot.
    pub fn of(
        family: &'f Family<'f>,
        depot: &'f [u8],
        site: SiteId,
        base: &'b Base,
    ) -> BaseAt<'f, 'b>
        requires depot { IsAt family.now 0 depot.now }
        requires site { IsBase family.now.case site.0 }
        requires base { IsBaseOf family.now site.0 base.now }
        ensures is { IsBaseAt result }
        ensures family { result.family.now ≡ family.now }
        ensures depot { result.depot.now ≡ depot.now }
        ensures site { result.site.0 ≡ site.0 }
    {
        family.invariant();
        let line = family.line_row();
        BaseAt {
            family,
            depot,
            site,
            base,
            systems: family.systems(site),
            per_system: line.per_system,
            weight: line.weight,
        }
    }

    /// The score of the line unit's backorders at the base, which are at most 256.
    pub fn score<S: Score>(&self, score: &S, backorders: Iv<48>) -> Iv<48>
        requires is { IsBaseAt self.now }
        requires small { IsWithinLimit 48 backorders }
        ensures { result ≡ S.ends (systems self.now.family.now.case self.now.site.0)
            (per_system self.now.family.now.case self.now.family.now.line)
            (weight self.now.family.now.case self.now.family.now.line) backorders }
    {
        score.of(self.systems, self.per_system, self.weight, backorders)
    }

    /// A lower bound on the score of the line unit's backorders there, if these are `low` or more.
    pub fn low<S: Score>(&self, score: &S, low: u64) -> u128
        requires is { IsBaseAt self.now }
        ensures { (backorders : Ends) → IsWithinLimit 48 backorders → low ≤ backorders.lo
            → result ≤ (S.ends (systems self.now.family.now.case self.now.site.0)
            (per_system self.now.family.now.case self.now.family.now.line)
            (weight self.now.family.now.case self.now.family.now.line) backorders).lo }
    {
        score.low(self.systems, self.per_system, self.weight, low)
    }
}
