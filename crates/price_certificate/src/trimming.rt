//! The trimmed cover of a family: boxes whose cost alone shows the floor, and one whole box.

ghost use Rattle.std.specs.Prelude.{◌≡◌, ◌+◌, ◌≤◌, ◌<◌, All, List, ℕ, length, map, true, false, nat_le, replicate, MatchOption, IfOk, OnOk, ◌++◌};
ghost use Rattle.spares_input.specs.Limits.{most_family};
ghost use Rattle.spares_input.specs.Rows.{is_line};
ghost use Rattle.spares_input.specs.Frames.{part_at};
ghost use Rattle.spares_input.specs.Stocks.{limit_at};
ghost use Rattle.hull.specs.Limits.{most_price_units};
ghost use Rattle.price_certificate.specs.declared.place.Place.{Place};
ghost use Rattle.price_certificate.specs.declared.certificate.Node.TheVariants as node;
ghost use Rattle.price_certificate.specs.Covers.{CutsAt, AreWithinMost, parts_of_family, place_for, place_count, places_of, IsPlace, IsTrim, nodes_of, reach, trimmed_from, trimmed};

use crate::certificate::Node;
use crate::place::Place;
use answers::NoMemory;
use hull::Price;
use spares_input::{Case, PartId, PartRow, SiteId};
use std::alloc::Global;

/// The least stock above the held one whose cost at this place alone reaches the floor; None if the place may not have
/// it.
fn reach(p: u128, floor: u128, place: &Place) -> Option<u8>
    requires some { 1 ≤ p }
    requires most { p ≤ most_price_units }
    requires place { IsPlace place.now }
    ensures { MatchOption result (nat_le (reach p floor place.now) place.now.most ≡ false)
        (λ from. (nat_le (reach p floor place.now) place.now.most ≡ true) × (from ≡ reach p floor place.now)) }
{
    let price = p * place.cost as u128;
    let step = floor.div_ceil(price).max(1);
    let room = (place.most - place.held) as u128;
    if step <= room {
        Some(place.held + step as u8)
    } else {
        None
    }
}

/// Writes the cut at a place if there is one, and returns the count of cuts written.
fn push_cut(
    nodes: &mut Vec<Node>,
    p: u128,
    floor: u128,
    at: usize,
    place: &Place,
) -> Result<usize, NoMemory>
    requires some { 1 ≤ p }
    requires most { p ≤ most_price_units }
    requires few { at < 144 }
    requires place { IsPlace place.now }
    ensures { IfOk result (λ n. CutsAt p floor at place.now nodes.old.items nodes.new.items n) }
{
    match reach(p, floor, place) {
        Some(from) => {
            nodes.push(Node::Split {
                at: at as u16,
                from,
            })?;
            Ok(1)
        }
        None => Ok(0),
    }
}

/// Writes `count` leaves that are shown by their cost.
fn push_costs(nodes: &mut Vec<Node>, count: usize) -> Result<(), NoMemory>
    ensures { OnOk result (nodes.new.items ≡ nodes.old.items ++ replicate count node.Cost) }
{
    for _k in 0..count {
        nodes.push(Node::Cost)?;
    }
    Ok(())
}

/// The nodes of the trimmed cover at a price above 0.
fn trim_places(alloc: Global, places: &[Place], p: u128, floor: u128) -> Result<Vec<Node>, NoMemory>
    requires some { 1 ≤ p }
    requires most { p ≤ most_price_units }
    requires few { length places.now ≤ 144 }
    requires places { All IsPlace places.now }
    ensures { IfOk result (λ v. v.items ≡ nodes_of (trimmed_from p floor 0 places.now)) }
{
    let mut nodes = Vec::new(alloc);
    let mut cuts: usize = 0;
    for at in 0..places.len() {
        cuts += push_cut(&mut nodes, p, floor, at, &places[at])?;
    }
    nodes.push(Node::Whole)?;
    push_costs(&mut nodes, cuts)?;
    Ok(nodes)
}

/// A part at a site with this held stock.
fn place_of(case: &Case, part: PartId, site: SiteId, held: u8) -> Place
    requires part { part.0 < length case.now.parts }
    requires site { site.0 < length case.now.sites }
    requires held { held ≤ limit_at case.now.parts part.0 site.0 }
    ensures place { result ≡ place_for case.now part.0 site.0 held }
    ensures valid { IsPlace result }
{
    Place {
        held,
        most: case.limit(part, site),
        cost: case.part(part).cost,
    }
}

/// The places of a family with these parts.
fn places(
    alloc: Global,
    case: &Case,
    line: PartId,
    parts: &[PartId],
    held: &[u8],
) -> Result<Vec<Place>, NoMemory>
    requires parts { map (λ p. p.0) parts.now ≡ parts_of_family case.now line.0 }
    requires few { length parts.now ≤ most_family }
    requires ids { All (λ p. p.0 < length case.now.parts) parts.now }
    requires count { length held.now ≡ place_count case.now line.0 }
    requires within { AreWithinMost case.now line.0 held.now }
    ensures places { IfOk result (λ v. v.items ≡ places_of case.now line.0 held.now) }
    ensures valid { IfOk result (λ v. All IsPlace v.items) }
{
    let mut found = Vec::new(alloc);
    case.invariant();
    let count = parts.len();
    for m in 0..held.len() {
        let part = parts[m % count];
        let site = SiteId((m / count) as u8);
        found.push(place_of(case, part, site, held[m]))?;
    }
    Ok(found)
}

/// The trimmed cover of a family at a price above 0.
fn trim_family(
    alloc: Global,
    case: &Case,
    line: PartId,
    held: &[u8],
    p: u128,
    floor: u128,
) -> Result<Vec<Node>, NoMemory>
    requires line { line.0 < length case.now.parts }
    requires few { length (parts_of_family case.now line.0) ≤ most_family }
    requires count { length held.now ≡ place_count case.now line.0 }
    requires within { AreWithinMost case.now line.0 held.now }
    requires some { 1 ≤ p }
    requires most { p ≤ most_price_units }
    ensures { IfOk result (λ v. v.items ≡ nodes_of (trimmed_from p floor 0 (places_of case.now line.0 held.now))) }
{
    case.invariant();
    let parts = case.family(line);
    let places = places(alloc, case, line, parts, held)?;
    trim_places(alloc, places.as_slice(), p, floor)
}

/// The trimmed cover of a family. For each place in turn, take the least stock above the held one whose cost at this
/// place alone reaches the floor. If the place may have this stock, the cover has a cut there, and the second part is
/// shown by its cost. The rest is shown whole; at the price 0 there are no cuts. Want of memory is the only error.
pub fn trim(
    alloc: Global,
    case: &Case,
    line: PartId,
    held: &[u8],
    price: Price,
    floor: u128,
) -> Result<Vec<Node>, NoMemory>
    requires line { line.0 < length case.now.parts }
    requires is_line { is_line (part_at case.now.parts line.0) ≡ true }
    requires count { length held.now ≡ place_count case.now line.0 }
    requires within { AreWithinMost case.now line.0 held.now }
    requires price { price.p ≤ most_price_units }
    ensures nodes { IfOk result (λ v. v.items ≡ nodes_of (trimmed price.p floor (places_of case.now line.0 held.now))) }
    ensures shown { IsTrim price.p floor (places_of case.now line.0 held.now)
        (trimmed price.p floor (places_of case.now line.0 held.now)) }
{
    case.invariant();
    if price.p == 0 {
        let mut nodes = Vec::new(alloc);
        nodes.push(Node::Whole)?;
        return Ok(nodes);
    }
    trim_family(alloc, case, line, held, price.p, floor)
}

/// The trimmed cover is lawful, each box shown by its cost costs at least the floor, and the whole box begins at the
/// held stocks.
pub fn trimmed_covers()
    ensures { (p floor : ℕ) (places : List Place) → All IsPlace places
        → IsTrim p floor places (trimmed p floor places) }
{}
