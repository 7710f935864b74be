//! Pairs of a part and a site, and their places: by part and then by site.

ghost use Rattle.std.specs.Prelude.{◌≡◌, ◌*◌, ◌≤◌, ◌<◌};
ghost use Rattle.spares_input.specs.Limits.{most_sites, most_parts};
ghost use Rattle.spares_input.specs.Pairs.{pair_place, part_of_place, site_of_place};

use crate::rows::{PartId, SiteId};

/// The place of a pair, with this number of sites.
pub(crate) fn place_in(sites: u8, part: PartId, site: SiteId) -> usize
    ensures { result ≡ pair_place sites part.0 site.0 }
{
    part.0 as usize * sites as usize + site.0 as usize
}

/// The place of a pair.
pub fn pair_place(part: PartId, site: SiteId, sites: usize, parts: usize) -> usize
    requires few_sites { sites ≤ most_sites }
    requires few_parts { parts ≤ most_parts }
    requires part { part.0 < parts }
    requires site { site.0 < sites }
    ensures place { result ≡ pair_place sites part.0 site.0 }
    ensures within { result < parts * sites }
{
    place_in(sites as u8, part, site)
}

/// The pair at a place.
pub fn pair_at(place: usize, sites: usize) -> (PartId, SiteId)
    requires some_sites { 0 < sites }
    requires few_sites { sites ≤ most_sites }
    requires within { place < most_parts * sites }
    ensures part { result.0 ≡ part_of_place sites place }
    ensures site { result.1 ≡ site_of_place sites place }
{
    (
        PartId((place / sites) as u16),
        SiteId((place % sites) as u8),
    )
}
