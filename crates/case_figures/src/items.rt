//! The items of all families, by part and then by site, and the names of parts and sites.
ghost use Rattle.std.specs.Prelude.{◌≡◌, ◌*◌, ◌<◌, All, IfOk, length, vec_len};
ghost use Rattle.fixed_interval.specs.Ends.{InScale};
ghost use Rattle.spares_input.specs.Frames.{part_names, site_names};
ghost use Rattle.family_items.specs.Encloses.{no_item};
ghost use Rattle.fixed_interval.specs.Widths.{IsWidth};
ghost use Rattle.case_figures.specs.Gathering.{IsFamilyOf, IsItemOf, compact_by_pair, placed_compact};
ghost use Rattle.case_figures.specs.Compact.{compact_of};
ghost use Rattle.case_figures.specs.Spans.{span_of};

use crate::compact::CompactItem;
use crate::figures::Span;
use answers::NoMemory;
use family_items::{FamilyResult, Item};
use fixed_interval::Iv;
use spares_input::{Case, Name, PartId, SiteId, pair_place};
use std::alloc::Global;

/// An interval as one of the three kinds of [`Span`].
pub(crate) fn span_of<const F: u32>(interval: Iv<F>) -> Span
    requires { IsWidth F }
    ensures { result ≡ span_of F interval.entry }
{
    let (lo, hi) = (interval.lo(), interval.hi());
    if F == 32 {
        Span::Bits32(Iv::of_ends(lo, hi))
    } else if F == 48 {
        Span::Bits48(Iv::of_ends(lo, hi))
    } else {
        Span::Bits52(Iv::of_ends(lo, hi))
    }
}

/// A placeholder item.
fn no_item<const F: u32>() -> CompactItem
    requires { InScale F }
    ensures { result ≡ compact_of (no_item F) }
{
    CompactItem::of::<F>(&Item {
        part: PartId(0),
        site: SiteId(0),
        stock: 0,
        mean: Iv::exact(0),
        variance: Iv::exact(0),
        backorders: Iv::exact(0),
        spread: Iv::exact(0),
    })
}

/// Writes each item to the place of its pair.
fn place_items<const F: u32>(places: &mut [CompactItem], case: &Case, items: &[Item<F>])
    requires scale { InScale F }
    requires pairs { All (IsItemOf F case.now) items.now }
    requires room { length places.old ≡ length case.now.parts * length case.now.sites }
    ensures { places.new ≡ placed_compact case.now places.old items.now }
{
    let (parts, sites) = (case.part_count() as usize, case.site_count() as usize);
    for item in items {
        places[pair_place(item.part, item.site, sites, parts)] = CompactItem::of(item);
    }
}

/// The items of all families, by part and then by site.
pub(crate) fn compact_by_pair<const F: u32>(
    alloc: Global,
    case: &Case,
    families: &[FamilyResult<F>],
) -> Result<Vec<CompactItem>, NoMemory>
    requires scale { InScale F }
    requires families { All (IsFamilyOf F case.now) families.now }
    ensures { IfOk result (λ v. v.items ≡ compact_by_pair case.now families.now) }
{
    let pairs = case.part_count() as usize * case.site_count() as usize;
    let mut places = vec![in alloc; no_item::<F>(); pairs]?;
    for family in families {
        place_items(places.as_mut_slice(), case, family.items.as_slice());
    }
    Ok(places)
}

/// The names of the parts, in order.
pub(crate) fn part_names(alloc: Global, case: &Case) -> Result<Vec<Name>, NoMemory>
    ensures { IfOk result (λ v. v.items ≡ part_names case.now.parts) }
{
    let mut names = Vec::with_capacity(alloc, case.part_count() as usize)?;
    for p in 0..case.part_count() {
        names.push(case.part(PartId(p)).name)?;
    }
    Ok(names)
}

/// The names of the sites, in order.
pub(crate) fn site_names(alloc: Global, case: &Case) -> Result<Vec<Name>, NoMemory>
    ensures { IfOk result (λ v. v.items ≡ site_names case.now.sites) }
{
    let mut names = Vec::with_capacity(alloc, case.site_count() as usize)?;
    for k in 0..case.site_count() {
        names.push(case.site(SiteId(k)).name)?;
    }
    Ok(names)
}
