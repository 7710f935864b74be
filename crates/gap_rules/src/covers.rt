//! The rule of covers: the nodes of each family are a tree, and their whole leaves take few tables.

ghost use Rattle.std.specs.Prelude.{◌≡◌, ◌∷◌, [], ◌<◌, ◌≤◌, IfOk, length, map};
ghost use Rattle.std.specs.Option.{option_map};
ghost use Rattle.answers.specs.Counts.{count64};
ghost use Rattle.spares_input.specs.First.{first, first_of};
ghost use Rattle.spares_input.specs.Building.{StopsAt};
ghost use Rattle.spares_input.specs.Limits.{most_parts};
ghost use Rattle.spares_input.specs.Stocks.{AreStocksOf};
ghost use Rattle.fleet_model.specs.Rows.{line_units};
ghost use Rattle.family_items.specs.Inputs.{IsLine};
ghost use Rattle.price_certificate.specs.Certificates.{IsWellFormed};
ghost use Rattle.gap_rules.specs.Values.{cover_tables};
ghost use Rattle.gap_rules.specs.Refusals.{line_at, case_family_count, cover_of, gap_at, too_much_work};

use crate::family::nodes_of;
use crate::work::cover_tables;
use answers::{NoMemory, Stop};
use check_answers::Reject;
use family_points::{Bounds, MOST_TABLES};
use price_certificate::{Certificate, Node};
use spares_input::{PartId, Stocks};
use std::alloc::Global;

/// The tables of a family's whole leaves, or None if its nodes aren't a tree.
fn family_work(
    alloc: Global,
    cert: &Certificate,
    held: &Stocks,
    family: u32,
    line: PartId,
) -> Result<Option<u64>, NoMemory>
    requires formed { IsWellFormed cert.now }
    requires held { AreStocksOf cert.now.case held.now }
    requires family { family < case_family_count cert.now.case }
    requires line { line.0 ≡ line_at cert.now.case family }
    requires is_line { IsLine cert.now.case line.0 }
    ensures { IfOk result (λ work. work ≡ option_map
        (λ ls. count64 (cover_tables cert.now.case (line_at cert.now.case family) ls))
        (cover_of cert.now held.now family)) }
{
    let one = [Node::Whole];
    let nodes = nodes_of(cert, family as usize, &one);
    let bounds = Bounds::from_held(alloc, &cert.case, line, held)?;
    cover_tables(alloc, &cert.case, line, bounds, nodes)
}

/// Each family's nodes are a tree, and all trees together take at most 1,000,000 tables.
pub fn covers_kept(
    alloc: Global,
    cert: &Certificate,
    held: &Stocks,
    lines: &[PartId],
) -> Result<(), Stop<Reject>>
    requires formed { IsWellFormed cert.now }
    requires held { AreStocksOf cert.now.case held.now }
    requires lines { map (λ p. p.0) lines.now ≡ line_units cert.now.case }
    requires few { length lines.now ≤ most_parts }
    ensures { StopsAt (first_of (first (gap_at cert.now held.now) (case_family_count cert.now.case)
        ∷ too_much_work cert.now held.now ∷ [])) result }
{
    let mut work: u64 = 0;
    for f in 0..lines.len() {
        let family = f as u32;
        match family_work(alloc, cert, held, family, lines[f])? {
            Some(tables) => work = work.saturating_add(tables),
            None => return Err(Stop::Fault(Reject::CoverGap { family })),
        }
    }
    if MOST_TABLES < work {
        return Err(Stop::Fault(Reject::WorkTooLarge(work)));
    }
    Ok(())
}
