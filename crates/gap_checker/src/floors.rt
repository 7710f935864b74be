//! The claimed floors, against the leaves of each family's cover.

ghost use Rattle.std.specs.Prelude.{◌≡◌, ◌<◌, ◌≤◌, true, is_some, None, IfOk, length, map};
ghost use Rattle.spares_input.specs.First.{first};
ghost use Rattle.spares_input.specs.Building.{StopsAt};
ghost use Rattle.spares_input.specs.Limits.{most_parts};
ghost use Rattle.spares_input.specs.Stocks.{AreStocksOf};
ghost use Rattle.fleet_model.specs.Rows.{line_units};
ghost use Rattle.demand_rates.specs.Rates.{AreRatesOf};
ghost use Rattle.family_items.specs.Inputs.{IsLine};
ghost use Rattle.family_points.specs.Counts.{most_tables};
ghost use Rattle.price_certificate.specs.Certificates.{IsWellFormed};
ghost use Rattle.gap_rules.specs.Refusals.{line_at, case_family_count, cover_of, gap_at, family_tables, check_work_of, too_low, low_reject_at};

use crate::low::low_leaf;
use answers::{NoMemory, Stop};
use check_answers::Reject;
use demand_rates::Rated;
use demand_rates::kinds::Rates;
use family_points::{Bounds, place_parts};
use gap_rules::family::nodes_of;
use hull::Score;
use price_certificate::{Certificate, Node};
use spares_input::{PartId, Stocks};
use std::alloc::Global;

/// The refusal of a leaf, or in format 1 of a family.
fn too_low(format: u8, family: u32, leaf: u32, floor: u128, least: u128) -> Reject
    ensures { result ≡ too_low format family leaf floor least }
{
    if format == 2 {
        Reject::LeafTooLow {
            family,
            leaf,
            floor,
            least,
        }
    } else {
        Reject::FloorTooHigh {
            family,
            floor,
            least,
        }
    }
}

/// The first leaf of a family whose value is below the claimed floor.
fn family_low<S: Score>(
    alloc: Global,
    cert: &Certificate,
    held: &Stocks,
    rates: &Rates,
    family: u32,
    line: PartId,
    score: &S,
) -> Result<Option<Reject>, NoMemory>
    requires formed { IsWellFormed cert.now }
    requires held { AreStocksOf cert.now.case held.now }
    requires rates { AreRatesOf cert.now.case rates.now }
    requires family { family < case_family_count cert.now.case }
    requires line { line.0 ≡ line_at cert.now.case family }
    requires is_line { IsLine cert.now.case line.0 }
    requires tree { is_some (cover_of cert.now held.now family) ≡ true }
    requires work { family_tables cert.now held.now family ≤ most_tables }
    ensures { IfOk result (λ low. low ≡ low_reject_at S.ends cert.now held.now family) }
{
    let one = [Node::Whole];
    let nodes = nodes_of(cert, family as usize, &one);
    let bounds = Bounds::from_held(alloc, &cert.case, line, held)?;
    let parts = place_parts(alloc, &cert.case, line)?;
    let floor = cert.floors.as_slice()[family as usize];
    let rated = Rated::of(&cert.case, rates);
    let low = low_leaf(
        alloc,
        &rated,
        line,
        parts.as_slice(),
        cert.price,
        bounds,
        nodes,
        floor,
        score,
    )?;
    match low {
        Some((leaf, least)) => Ok(Some(too_low(cert.format, family, leaf, floor, least))),
        None => Ok(None),
    }
}

/// No leaf's value is below the claimed floor of its family.
pub(crate) fn floors_kept<S: Score>(
    alloc: Global,
    cert: &Certificate,
    held: &Stocks,
    rates: &Rates,
    lines: &[PartId],
    score: &S,
) -> Result<(), Stop<Reject>>
    requires formed { IsWellFormed cert.now }
    requires held { AreStocksOf cert.now.case held.now }
    requires rates { AreRatesOf cert.now.case rates.now }
    requires lines { map (λ p. p.0) lines.now ≡ line_units cert.now.case }
    requires few { length lines.now ≤ most_parts }
    requires trees { first (gap_at cert.now held.now) (case_family_count cert.now.case) ≡ None }
    requires work { check_work_of cert.now held.now ≤ most_tables }
    ensures { StopsAt (first (low_reject_at S.ends cert.now held.now) (case_family_count cert.now.case)) result }
{
    for f in 0..lines.len() {
        if let Some(reject) = family_low(alloc, cert, held, rates, f as u32, lines[f], score)? {
            return Err(Stop::Fault(reject));
        }
    }
    Ok(())
}
