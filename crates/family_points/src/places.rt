//! The places of a family's vectors: site by site, the depot first, and at each site the line unit and then its shop
//! units in part order.

ghost use Rattle.std.specs.Prelude.{◌≡◌, ◌<◌, ◌++◌, IfOk, All, length, map};
ghost use Rattle.spares_input.specs.Stocks.{HasPair, IsFor, limit_at, stock_at};
ghost use Rattle.family_items.specs.Inputs.{IsLine};
ghost use Rattle.family_points.specs.Vectors.{limits, places, vector_of};

use answers::{List, NoMemory};
use spares_input::{Case, PartId, SiteId, Stocks};
use std::alloc::Global;

/// The number of places of a vector of a family with these members.
fn places_of(case: &Case, members: &[PartId]) -> usize {
    members.len().saturating_mul(usize::from(case.site_count()))
}

/// The part at each place of a family's vectors. Want of memory is the only error.
pub fn place_parts(alloc: Global, case: &Case, line: PartId) -> Result<Vec<PartId>, NoMemory>
    requires { IsLine case.now line.0 }
    ensures { IfOk result (λ v. map (λ p. p.0) v.items ≡ map (λ x. x.part) (places case.now line.0)) }
{
    let members = case.family(line);
    let mut parts = Vec::with_capacity(alloc, places_of(case, members))?;
    for _k in 0..case.site_count() {
        parts.extend_from_slice(members)?;
    }
    Ok(parts)
}

/// Appends the limits of a family's parts at a site.
fn put_limits(
    list: &mut Vec<u8>,
    case: &Case,
    members: &[PartId],
    site: SiteId,
) -> Result<(), NoMemory>
    requires members { All (λ p. p.0 < length case.now.parts) members.now }
    requires site { site.0 < length case.now.sites }
    ensures { IfOk result (λ _. list.new.items ≡ list.old.items
        ++ map (λ p. limit_at case.now.parts p.0 site.0) members.now) }
{
    for part in members {
        list.push(case.limit(*part, site))?;
    }
    Ok(())
}

/// The largest stock of each place of a family's vectors. Want of memory is the only error.
pub fn limits_of(alloc: Global, case: &Case, line: PartId) -> Result<List<u8>, NoMemory>
    requires { IsLine case.now line.0 }
    ensures { IfOk result (λ v. v ≡ limits case.now line.0) }
{
    let members = case.family(line);
    let mut list = Vec::with_capacity(alloc, places_of(case, members))?;
    for k in 0..case.site_count() {
        put_limits(&mut list, case, members, SiteId(k))?;
    }
    Ok(List::of(list))
}

/// Appends the stocks of a family's parts at a site.
fn put_stocks(
    list: &mut Vec<u8>,
    stocks: &Stocks,
    members: &[PartId],
    site: SiteId,
) -> Result<(), NoMemory>
    requires { All (λ p. HasPair stocks.now p.0 site.0) members.now }
    ensures { IfOk result (λ _. list.new.items ≡ list.old.items
        ++ map (λ p. stock_at stocks.now p.0 site.0) members.now) }
{
    for part in members {
        list.push(stocks.get(*part, site))?;
    }
    Ok(())
}

/// The vector of a family in the stocks of a case: the stock at each of its places. Want of memory is the only error.
pub fn vector_of(
    alloc: Global,
    case: &Case,
    line: PartId,
    stocks: &Stocks,
) -> Result<List<u8>, NoMemory>
    requires line { IsLine case.now line.0 }
    requires stocks { IsFor case.now stocks.now }
    ensures { IfOk result (λ v. v ≡ vector_of case.now line.0 stocks.now.list) }
{
    let members = case.family(line);
    let mut list = Vec::with_capacity(alloc, places_of(case, members))?;
    for k in 0..case.site_count() {
        put_stocks(&mut list, stocks, members, SiteId(k))?;
    }
    Ok(List::of(list))
}
