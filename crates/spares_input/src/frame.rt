//! The frame of a case: its sites and its parts.

ghost use Rattle.std.specs.Prelude.{◌≡◌, ◌==◌, ◌+◌, ◌≤◌, ◌<◌, true, length, map, position, All, Some, None, IfSome, IfOk, OnOk, MatchResult, is_none, vec_len, bytes_eq};
ghost use Rattle.std.specs.List.{list_any};
ghost use Rattle.std.specs.Option.{option_map, option_and_then};
ghost use Rattle.std.specs.HashMap.{Updates, get};
ghost use Rattle.answers.specs.Answers.{Gives};
ghost use Rattle.spares_input.specs.First.{first};
ghost use Rattle.spares_input.specs.Limits.{most_sites, most_parts, most_stock};
ghost use Rattle.spares_input.specs.Rows.{is_line, IsSiteRow, IsPartRow};
ghost use Rattle.spares_input.specs.Frames.{site_at, part_at, site_names, part_names, place_of, line_of, is_depot, is_base, site_fault, kinds_fault, double_part, shop_fault, parent_fault, frame_fault, frame_of, line_units, family_of_line, IsFrame};
ghost use Rattle.spares_input.specs.Stocks.{limit_at};
ghost use Rattle.spares_input.specs.Building.{AreCounts, AreLinked, AreParents, ArePlaces, AreDistinct, IsNumbered, StopsAt, ids, to_front};

use crate::MOST_SHOP_UNITS;
use crate::families::{families_of, line_units_of};
use crate::fault::CaseFault;
use crate::name::Name;
use crate::rows::{PartId, PartRow, SiteId, SiteRow};
use answers::{NoMemory, Stop};
use std::alloc::Global;
use std::collections::HashMap;
use std::marker::Model;

/// The sites and the parts of a case: the depot and then the bases in file order, and the parts in file order.
#[derive(Drop)]
pub struct Frame {
    sites: Vec<SiteRow>,
    parts: Vec<PartRow>,
    parents: Vec<Option<PartId>>,
    lines: Vec<PartId>,
    families: Vec<Vec<PartId>>,
    places: HashMap<Name, PartId>,
}

impl Model for Frame {
    ghost use Rattle.std.specs.Prelude.{◌≡◌, map};
    ghost use Rattle.spares_input.specs.Frames.{FrameRows, IsFrame, line_units};
    ghost use Rattle.spares_input.specs.Building.{AreParents, AreFamilies, ArePlaces, ids};

    ghost Value = { FrameRows };

    ghost view = { λ f. record { sites = f.sites.items; parts = f.parts.items } };

    ghost invariant = { λ f. IsFrame (record { sites = f.sites.items; parts = f.parts.items })
        × ArePlaces f.places f.parts.items
        × AreParents f.parts.items f.parents.items
        × (ids f.lines.items ≡ line_units f.parts.items)
        × AreFamilies f.parts.items (map (λ v. ids v.items) f.families.items) };
}

impl Frame {
    /// The frame of rows of sites and parts. A fault is the first rule that they break: the sites row by row, the sites
    /// as a whole, the names of the parts row by row, and then the parents row by row.
    pub fn build(
        alloc: Global,
        sites: Vec<SiteRow>,
        parts: Vec<PartRow>,
    ) -> Result<Frame, Stop<CaseFault>>
        requires few_sites { length sites.items ≤ most_sites }
        requires few_parts { length parts.items ≤ most_parts }
        requires site_rows { All IsSiteRow sites.items }
        requires part_rows { All IsPartRow parts.items }
        ensures { Gives (frame_of sites.items parts.items) result }
    {
        let mut sites = sites;
        let links = links_of(alloc, &mut sites, parts.as_slice())?;
        Ok(Frame {
            sites,
            parts,
            parents: links.parents,
            lines: links.lines,
            families: links.families,
            places: links.places,
        })
    }

    /// The rules of a frame, for a proof.
    pub fn invariant(&self)
        ensures valid { IsFrame self.now }
    {
        let _opened = &self.sites;
    }

    /// The number of sites.
    pub fn site_count(&self) -> u8
        ensures count { result ≡ length self.now.sites }
        ensures valid { IsFrame self.now }
    {
        self.sites.len() as u8
    }

    /// The number of parts.
    pub fn part_count(&self) -> u16
        ensures count { result ≡ length self.now.parts }
        ensures valid { IsFrame self.now }
    {
        self.parts.len() as u16
    }

    /// The rows of the parts, in file order.
    pub fn parts(&self) -> &[PartRow]
        ensures rows { result.now ≡ self.now.parts }
        ensures valid { IsFrame self.now }
    {
        self.parts.as_slice()
    }

    /// The row of a site.
    pub fn site(&self, site: SiteId) -> &SiteRow
        requires { site.0 < length self.now.sites }
        ensures row { result.now ≡ site_at self.now.sites site.0 }
        ensures fields { IsSiteRow result.now }
        ensures depot { result.now.depot ≡ (site.0 == 0) }
    {
        &self.sites[site.0 as usize]
    }

    /// The row of a part.
    pub fn part(&self, part: PartId) -> &PartRow
        requires { part.0 < length self.now.parts }
        ensures row { result.now ≡ part_at self.now.parts part.0 }
        ensures fields { IsPartRow result.now }
    {
        &self.parts[part.0 as usize]
    }

    /// The line unit of a shop unit; None exactly for a line unit.
    pub fn parent(&self, part: PartId) -> Option<PartId>
        requires { part.0 < length self.now.parts }
        ensures line { option_map (λ p. p.0) result ≡ line_of self.now.parts part.0 }
        ensures row { IfSome result (λ p. (p.0 < length self.now.parts)
            × (is_line (part_at self.now.parts p.0) ≡ true)) }
        ensures none { is_none result ≡ is_line (part_at self.now.parts part.0) }
    {
        self.parents[part.0 as usize]
    }

    /// The line units, in part order.
    pub fn line_units(&self) -> &[PartId]
        ensures { map (λ p. p.0) result.now ≡ line_units self.now.parts }
    {
        self.lines.as_slice()
    }

    /// The family of a line unit: the line unit, and then its shop units in part order. Of a shop unit, it alone.
    pub fn family(&self, line: PartId) -> &[PartId]
        requires { line.0 < length self.now.parts }
        ensures { map (λ p. p.0) result.now ≡ family_of_line self.now.parts line.0 }
    {
        self.families[line.0 as usize].as_slice()
    }

    /// Whether a part is a line unit.
    pub fn is_line(&self, part: PartId) -> bool
        requires { part.0 < length self.now.parts }
        ensures { result ≡ is_line (part_at self.now.parts part.0) }
    {
        self.parts[part.0 as usize].parent.is_none()
    }

    /// The largest stock of a part at a site, 0 to 63.
    pub fn limit(&self, part: PartId, site: SiteId) -> u8
        requires part { part.0 < length self.now.parts }
        requires site { site.0 < length self.now.sites }
        ensures limit { result ≡ limit_at self.now.parts part.0 site.0 }
        ensures most { result ≤ most_stock }
    {
        let row = self.part(part);
        if site.0 == 0 {
            row.max_depot
        } else {
            row.max_base
        }
    }

    /// The part of this name; None exactly if no row has it.
    pub fn find_part(&self, name: &Name) -> Option<PartId>
        ensures place { option_map (λ p. p.0) result ≡ place_of name.now (part_names self.now.parts) }
        ensures row { IfSome result (λ p. (p.0 < length self.now.parts)
            × ((part_at self.now.parts p.0).name ≡ name.now)) }
    {
        place_among(&self.places, name)
    }

    /// The site of this name; None exactly if no row has it.
    pub fn find_site(&self, name: &Name) -> Option<SiteId>
        ensures place { option_map (λ s. s.0) result ≡ place_of name.now (site_names self.now.sites) }
        ensures row { IfSome result (λ s. (s.0 < length self.now.sites)
            × ((site_at self.now.sites s.0).name ≡ name.now)) }
    {
        match site_place(self.sites.as_slice(), name) {
            Some(place) => Some(SiteId(place as u8)),
            None => None,
        }
    }
}

/// How the rows of parts belong together.
#[derive(Drop)]
struct Links {
    parents: Vec<Option<PartId>>,
    lines: Vec<PartId>,
    families: Vec<Vec<PartId>>,
    places: HashMap<Name, PartId>,
}

/// The links of the parts, if no rule is broken. Moves the depot before the other sites.
fn links_of(
    alloc: Global,
    sites: &mut Vec<SiteRow>,
    parts: &[PartRow],
) -> Result<Links, Stop<CaseFault>>
    requires sites { length sites.old.items ≤ most_sites }
    requires parts { length parts.now ≤ most_parts }
    ensures fault { StopsAt (frame_fault sites.old.items parts.now) result }
    ensures linked { IfOk result (λ l. AreLinked sites.old.items sites.new.items parts.now
        l.parents.items (ids l.lines.items) (map (λ v. ids v.items) l.families.items)) }
    ensures placed { IfOk result (λ l. ArePlaces l.places parts.now) }
{
    let (places, depot) = number_rows(alloc, sites.as_slice(), parts)?;
    let Ok(()) = put_first(sites, depot) else {
        return Err(Stop::NoMemory);
    };
    let parents = parents_of(alloc, &places, parts)?;
    let lines = line_units_of(alloc, parts)?;
    let families = families_of(alloc, parts, parents.as_slice())?;
    Ok(Links {
        parents,
        lines,
        families,
        places,
    })
}

/// The place of each part by its name, and the depot's place, if no rule is broken.
fn number_rows(
    alloc: Global,
    sites: &[SiteRow],
    parts: &[PartRow],
) -> Result<(HashMap<Name, PartId>, usize), Stop<CaseFault>>
    requires sites { length sites.now ≤ most_sites }
    requires parts { length parts.now ≤ most_parts }
    ensures fault { StopsAt (frame_fault sites.now parts.now) result }
    ensures numbered { IfOk result (λ n. IsNumbered sites.now parts.now n.1) }
    ensures placed { IfOk result (λ n. ArePlaces n.0 parts.now) }
{
    if let Some(fault) = sites_fault(sites) {
        return Err(Stop::Fault(fault));
    }
    let depot = match depot_place(sites) {
        Ok(depot) => depot,
        Err(fault) => return Err(Stop::Fault(fault)),
    };
    let places = places_of(alloc, parts)?;
    if let Some(fault) = parents_fault(alloc, &places, parts)? {
        return Err(Stop::Fault(fault));
    }
    Ok((places, depot))
}

/// The first rule that a row of sites breaks.
fn sites_fault(sites: &[SiteRow]) -> Option<CaseFault>
    requires { length sites.now ≤ most_sites }
    ensures { result ≡ first (site_fault sites.now) (length sites.now) }
{
    for k in 0..sites.len() {
        if let Some(fault) = site_fault(sites, k) {
            return Some(fault);
        }
    }
    None
}

/// The rule that row k of the sites breaks.
fn site_fault(sites: &[SiteRow], k: usize) -> Option<CaseFault>
    requires few { length sites.now ≤ most_sites }
    requires within { k < length sites.now }
    ensures { result ≡ site_fault sites.now k }
{
    let row = k as u32 + 2;
    let site = sites[k];
    let before = &sites[..k];
    if is_named(before, &site.name) {
        return Some(CaseFault::DoubleSite(row));
    }
    if site.depot && has_depot(before) {
        return Some(CaseFault::TwoDepots(row));
    }
    None
}

/// Whether a site has this name.
fn has_name(site: &SiteRow, name: &Name) -> bool
    ensures { result ≡ bytes_eq name.now site.now.name }
{
    *name == site.name
}

/// Whether one of the sites has this name.
fn is_named(sites: &[SiteRow], name: &Name) -> bool
    ensures { result ≡ list_any (λ s. bytes_eq name.now s.name) sites.now }
{
    sites.iter().any(|site| has_name(site, name))
}

/// The place of the first site of this name.
fn site_place(sites: &[SiteRow], name: &Name) -> Option<usize>
    ensures { result ≡ position (λ s. bytes_eq name.now s.name) sites.now }
{
    sites.iter().position(|site| has_name(site, name))
}

/// Whether one of the sites is a depot.
fn has_depot(sites: &[SiteRow]) -> bool
    ensures { result ≡ list_any is_depot sites.now }
{
    sites.iter().any(|site| site.depot)
}

/// The place of the part of this name; None exactly if it has none.
fn place_among(places: &HashMap<Name, PartId>, name: &Name) -> Option<PartId>
    ensures { result ≡ get bytes_eq places.now name.now }
{
    places.get(name).copied()
}

/// Notes the place of a name, and returns whether it had none.
fn put_place(
    places: &mut HashMap<Name, PartId>,
    name: Name,
    place: PartId,
) -> Result<bool, NoMemory>
    ensures fresh { IfOk result (λ fresh. fresh ≡ is_none (get bytes_eq places.old name)) }
    ensures placed { OnOk result (Updates bytes_eq places.old places.new name (Some place)) }
{
    match places.insert(name, place) {
        Ok(before) => Ok(before.is_none()),
        Err(_) => Err(NoMemory),
    }
}

/// The place of the depot, if there are a depot and a base.
fn depot_place(sites: &[SiteRow]) -> Result<usize, CaseFault>
    ensures { MatchResult result
        (λ d. (kinds_fault sites.now ≡ None) × (position is_depot sites.now ≡ Some d))
        (λ e. kinds_fault sites.now ≡ Some e) }
{
    let Some(depot) = first_depot(sites) else {
        return Err(CaseFault::NoDepot);
    };
    if !has_base(sites) {
        return Err(CaseFault::NoBase);
    }
    Ok(depot)
}

/// The place of the first depot.
fn first_depot(sites: &[SiteRow]) -> Option<usize>
    ensures { result ≡ position is_depot sites.now }
{
    sites.iter().position(|site| site.depot)
}

/// Whether one of the sites is a base.
fn has_base(sites: &[SiteRow]) -> bool
    ensures { result ≡ list_any is_base sites.now }
{
    sites.iter().any(|site| !site.depot)
}

/// Moves one row before all others.
fn put_first(sites: &mut Vec<SiteRow>, place: usize) -> Result<(), NoMemory>
    requires { place < vec_len sites.old }
    ensures { OnOk result (sites.new.items ≡ to_front sites.old.items place) }
{
    let row = sites.remove(place);
    sites.insert(0, row)?;
    Ok(())
}

/// The place of each part by its name, if no row repeats a name.
fn places_of(alloc: Global, parts: &[PartRow]) -> Result<HashMap<Name, PartId>, Stop<CaseFault>>
    requires { length parts.now ≤ most_parts }
    ensures fault { StopsAt (first (double_part parts.now) (length parts.now)) result }
    ensures placed { IfOk result (λ places. ArePlaces places parts.now) }
    ensures distinct { IfOk result (λ _. AreDistinct parts.now) }
{
    let mut places = HashMap::new(alloc);
    for k in 0..parts.len() {
        let part = parts[k];
        let fresh = put_place(&mut places, part.name, PartId(k as u16))?;
        if !fresh {
            return Err(Stop::Fault(CaseFault::DoublePart(k as u32 + 2)));
        }
    }
    Ok(places)
}

/// The place of the line unit of each shop unit.
fn parents_of(
    alloc: Global,
    places: &HashMap<Name, PartId>,
    parts: &[PartRow],
) -> Result<Vec<Option<PartId>>, NoMemory>
    requires { ArePlaces places.now parts.now }
    ensures { IfOk result (λ v. AreParents parts.now v.items) }
{
    let mut parents = Vec::new(alloc);
    for part in parts {
        parents.push(parent_of(places, part))?;
    }
    Ok(parents)
}

/// The place of the part named as the parent of this one.
fn parent_of(places: &HashMap<Name, PartId>, part: &PartRow) -> Option<PartId>
    ensures { result ≡ option_and_then (get bytes_eq places.now) part.now.parent }
{
    place_among(places, &part.parent?)
}

/// The first rule that a row breaks by its parent.
fn parents_fault(
    alloc: Global,
    places: &HashMap<Name, PartId>,
    parts: &[PartRow],
) -> Result<Option<CaseFault>, NoMemory>
    requires few { length parts.now ≤ most_parts }
    requires distinct { AreDistinct parts.now }
    requires placed { ArePlaces places.now parts.now }
    ensures { IfOk result (λ fault. fault ≡ first (parent_fault parts.now) (length parts.now)) }
{
    let mut counts = vec![in alloc; 0; parts.len()]?;
    for k in 0..parts.len() {
        if let Some(fault) = parent_fault(places, parts, counts.as_mut_slice(), k) {
            return Ok(Some(fault));
        }
    }
    Ok(None)
}

/// The rule that row k breaks by its parent. A shop unit that breaks none is counted.
fn parent_fault(
    places: &HashMap<Name, PartId>,
    parts: &[PartRow],
    counts: &mut [u8],
    k: usize,
) -> Option<CaseFault>
    requires few { length parts.now ≤ most_parts }
    requires within { k < length parts.now }
    requires distinct { AreDistinct parts.now }
    requires placed { ArePlaces places.now parts.now }
    requires counts { AreCounts parts.now k counts.old }
    ensures fault { result ≡ parent_fault parts.now k }
    ensures counted { result ≡ None → AreCounts parts.now (k + 1) counts.new }
{
    let part = parts[k];
    match part.parent {
        Some(line) => shop_fault(parts, counts, k, place_among(places, &line)),
        None => None,
    }
}

/// The rule that row k breaks as a shop unit; `line` is its parent's place, or None if no part has that name. If it
/// breaks none, it is counted at that place.
fn shop_fault(
    parts: &[PartRow],
    counts: &mut [u8],
    k: usize,
    line: Option<PartId>,
) -> Option<CaseFault>
    requires few { length parts.now ≤ most_parts }
    requires within { k < length parts.now }
    requires distinct { AreDistinct parts.now }
    requires line { option_map (λ l. l.0) line ≡ line_of parts.now k }
    requires counts { AreCounts parts.now k counts.old }
    ensures fault { result ≡ shop_fault parts.now k (line_of parts.now k) }
    ensures counted { result ≡ None → AreCounts parts.now (k + 1) counts.new }
{
    let row = k as u32 + 2;
    let Some(place) = line else {
        return Some(CaseFault::UnknownParent(row));
    };
    let line = place.0 as usize;
    if parts[line].parent.is_some() {
        return Some(CaseFault::ParentNotLine(row));
    }
    if counts[line] as usize >= MOST_SHOP_UNITS {
        return Some(CaseFault::TooManyShopUnits(row));
    }
    counts[line] += 1;
    None
}
