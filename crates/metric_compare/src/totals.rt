//! The weighted total of the line units' backorders at the bases.

ghost use Rattle.std.specs.Prelude.{◌≡◌, ◌*◌, ◌^◌, ◌<◌, ◌≤◌, length};
ghost use Rattle.fixed_interval.specs.Ends.{IsWithinLimit};
ghost use Rattle.family_items.specs.Inputs.{IsLine};
ghost use Rattle.metric_compare.specs.Levels.{poisson_numbers};
ghost use Rattle.metric_compare.specs.Profile.{poisson_family_total_of, poisson_of, poisson_total_of};

use family_items::inputs::Inputs;
use fixed_interval::Iv;
use spares_input::{PartId, SiteId, pair_place};

/// The backorders of a part at a site, looked up in the numbers of all pairs.
fn number_at(inputs: &Inputs<'_>, all: &[Iv<48>], part: PartId, site: SiteId) -> Iv<48>
    requires part { part.0 < length inputs.now.case.parts }
    requires site { site.0 < length inputs.now.case.sites }
    requires all { all.now ≡ poisson_numbers inputs.now.case inputs.now.stocks.list }
    ensures ends { result ≡ poisson_of 48 inputs.now.case inputs.now.stocks.list part.0 site.0 }
    ensures small { IsWithinLimit 48 result }
{
    let sites = usize::from(inputs.sites());
    let parts = usize::from(inputs.case().part_count());
    all[pair_place(part, site, sites, parts)]
}

/// The total of a line unit, from the backorders of all pairs.
fn family_total(inputs: &Inputs<'_>, all: &[Iv<48>], line: PartId) -> Iv<48>
    requires line { IsLine inputs.now.case line.0 }
    requires all { all.now ≡ poisson_numbers inputs.now.case inputs.now.stocks.list }
    ensures total { result ≡ poisson_family_total_of 48 inputs.now.case inputs.now.stocks.list line.0 }
    ensures most { result.hi ≤ 16 * (25600 * 2 ^ 48) }
{
    let weight = inputs.weight(line);
    let mut total = Iv::exact(0);
    for j in 1..inputs.sites() {
        let base = number_at(inputs, all, line, SiteId(j));
        total = total.add(base.times(weight));
    }
    total
}

/// The sum of all line units' totals, from the backorders of all pairs.
pub(crate) fn poisson_total(inputs: &Inputs<'_>, all: &[Iv<48>]) -> Iv<48>
    requires { all.now ≡ poisson_numbers inputs.now.case inputs.now.stocks.list }
    ensures { result ≡ poisson_total_of 48 inputs.now.case inputs.now.stocks.list }
{
    inputs.invariant();
    let mut total = Iv::exact(0);
    for p in 0..inputs.case().part_count() {
        let part = PartId(p);
        if inputs.case().is_line(part) {
            total = total.add(family_total(inputs, all, part));
        }
    }
    total
}
