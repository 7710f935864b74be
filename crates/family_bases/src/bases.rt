//! The bases of a family by their numbers.

ghost use Rattle.std.specs.Prelude.{◌≡◌};
ghost use Rattle.fleet_model.specs.Laws.{IsBase};
ghost use Rattle.family_points.specs.Inputs.{IsAt};
ghost use Rattle.family_rows.specs.Sources.{AreSources};
ghost use Rattle.family_rows.specs.Spots.{IsBaseAt};

use family_rows::base_at::BaseAt;
use family_rows::sources::Sources;
use spares_input::SiteId;

/// The base at site `j` with these stocks at the depot.
#[inline(always)]
pub fn base_of<'f, 'b: 'f>(sources: &'b Sources<'_>, depot: &'f [u8], j: u8) -> BaseAt<'f, 'b>
    requires sources { AreSources sources.now }
    requires depot { IsAt sources.now.family.now 0 depot.now }
    requires base { IsBase sources.now.family.now.case j }
    ensures is { IsBaseAt result }
    ensures family { result.family.now ≡ sources.now.family.now }
    ensures depot { result.depot.now ≡ depot.now }
    ensures site { result.site.0 ≡ j }
{
    let base = &sources.bases[usize::from(j) - 1];
    BaseAt::of(sources.family, depot, SiteId(j), base)
}
