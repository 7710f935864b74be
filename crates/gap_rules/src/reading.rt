//! The reading of a cover, node by node, with the boxes that wait for their nodes.
//!
//! Each split leaves both of its parts fewer vectors, so at most 9,073 boxes wait at once.

ghost use Rattle.std.specs.Prelude.{◌≡◌, ◌<◌, ◌∷◌, ◌++◌, [], IfOk, OnOk, get_or, set};
ghost use Rattle.gap_rules.specs.Covers.{fewer, as_many};
ghost use Rattle.gap_rules.specs.Reading.{parts_at, Reads, KeepsOrder};

use crate::leaf::Leaf;
use answers::{List, NoMemory};
use family_points::Bounds;
use price_certificate::Node;
use std::alloc::Global;

/// The kind of a node in its cover: a gap (no part of a tree), a split, or a leaf.
#[derive(Drop)]
pub enum Read {
    Gap,
    Inner,
    Leaf(Leaf),
}

/// The stock at a place, and 0 past the last place.
fn stock_at(vector: &[u8], at: usize) -> u8
    ensures { result ≡ get_or vector.now at 0 }
{
    if at < vector.len() { vector[at] } else { 0 }
}

/// A copy of these stocks.
fn same(alloc: Global, vector: &[u8]) -> Result<List<u8>, NoMemory>
    ensures { IfOk result (λ v. v ≡ vector.now) }
{
    let copy = Vec::from_slice(alloc, vector)?;
    Ok(List::of(copy))
}

/// These stocks with another stock at one place.
fn with(alloc: Global, vector: &[u8], at: usize, stock: u8) -> Result<List<u8>, NoMemory>
    ensures { IfOk result (λ v. v ≡ set vector.now at stock) }
{
    let mut copy = Vec::from_slice(alloc, vector)?;
    if at < copy.len() {
        copy[at] = stock;
    }
    Ok(List::of(copy))
}

/// The vectors of a box with fewer than `from` at a place.
fn fewer(alloc: Global, bounds: &Bounds, at: usize, from: u8) -> Result<Bounds, NoMemory>
    requires { 0 < from }
    ensures { IfOk result (λ part. part ≡ fewer bounds.now at from) }
{
    Ok(Bounds {
        held: same(alloc, bounds.held.as_slice())?,
        low: same(alloc, bounds.low.as_slice())?,
        high: with(alloc, bounds.high.as_slice(), at, from - 1)?,
    })
}

/// The vectors of a box with `from` or more at a place.
fn as_many(alloc: Global, bounds: Bounds, at: usize, from: u8) -> Result<Bounds, NoMemory>
    ensures { IfOk result (λ part. part ≡ as_many bounds at from) }
{
    let low = with(alloc, bounds.low.as_slice(), at, from)?;
    Ok(Bounds {
        held: bounds.held,
        low,
        high: bounds.high,
    })
}

/// The vectors with fewer than `from` at a place, and those with `from` or more.
fn split(alloc: Global, bounds: Bounds, at: usize, from: u8) -> Result<(Bounds, Bounds), NoMemory>
    requires { 0 < from }
    ensures { IfOk result (λ parts. parts ≡ (fewer bounds at from, as_many bounds at from)) }
{
    let fewer = fewer(alloc, &bounds, at, from)?;
    let as_many = as_many(alloc, bounds, at, from)?;
    Ok((fewer, as_many))
}

/// The two parts of a box at a place, if both have vectors.
fn parts(
    alloc: Global,
    bounds: Bounds,
    at: usize,
    from: u8,
) -> Result<Option<(Bounds, Bounds)>, NoMemory>
    ensures { IfOk result (λ r. r ≡ parts_at bounds at from) }
{
    let low = stock_at(bounds.low.as_slice(), at);
    let high = stock_at(bounds.high.as_slice(), at);
    if low < from && from <= high {
        Ok(Some(split(alloc, bounds, at, from)?))
    } else {
        Ok(None)
    }
}

/// Makes the two parts of a box wait, the first one last.
fn wait(waiting: &mut Vec<Bounds>, fewer: Bounds, as_many: Bounds) -> Result<(), NoMemory>
    ensures { OnOk result (waiting.new.items ≡ (waiting.old.items ++ as_many ∷ []) ++ fewer ∷ []) }
{
    waiting.push(as_many)?;
    waiting.push(fewer)?;
    Ok(())
}

/// Reads a node for the last waiting box.
pub fn read_node(alloc: Global, waiting: &mut Vec<Bounds>, node: Node) -> Result<Read, NoMemory>
    ensures reads { IfOk result (λ r. Reads waiting.old.items node r waiting.new.items) }
    ensures ordered { IfOk result (λ r. KeepsOrder waiting.old.items r waiting.new.items) }
{
    let Some(bounds) = waiting.pop() else {
        return Ok(Read::Gap);
    };
    match node {
        Node::Split { at, from } => match parts(alloc, bounds, usize::from(at), from)? {
            Some((fewer, as_many)) => {
                wait(waiting, fewer, as_many)?;
                Ok(Read::Inner)
            }
            None => Ok(Read::Gap),
        },
        Node::Cost => Ok(Read::Leaf(Leaf::Cost(bounds))),
        Node::Whole => Ok(Read::Leaf(Leaf::Whole(bounds))),
    }
}
