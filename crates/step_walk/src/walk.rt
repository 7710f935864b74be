//! The walk, and the steps that wait in it.
ghost use Rattle.std.specs.Prelude.{◌≡◌, ℕ, ◌+◌, ◌<◌, ◌≤◌, length, slice_index, IfOk, IfNone, IfSome, OnOk};
ghost use Rattle.std.specs.BinaryHeap.{IsHeap, heap_items};
ghost use Rattle.hull.specs.Limits.{most_price_units, most_curves};
ghost use Rattle.step_walk.specs.Prefix.{curve_at, AreVertices, HaveShapes};
ghost use Rattle.step_walk.specs.Steps.{step_cmp, TellsNext, HoldsNext};
ghost use Rattle.step_walk.specs.Walks.{AreShort, IsAfter, IsAtFirst, AllDone, TellsFirst, HasNext, MovesOn};

use crate::steep::all_after_steep;
use crate::step::Step;
use answers::NoMemory;
use hull::{Curve, Price};
use std::alloc::Global;
use std::collections::BinaryHeap;
use std::marker::Model;

/// The next step: its family, the vertex that it would reach, and its price, the fall of the lower end in units of
/// 2^-48 for its rise of cost in whole money.
#[derive(Clone, Copy, Drop)]
pub struct Next {
    pub family: u32,
    pub vertex: u32,
    pub price: Price,
}

/// A walk over the steps of at most 2,000 curves: by falling slope, of equal slopes by family and then by place.
///
/// Contracts see it as the curves and the picks, one vertex of each curve.
#[derive(Drop)]
pub struct Walk<'a> {
    curves: &'a [Curve],
    picks: Vec<u32>,
    waiting: BinaryHeap<Step, Global>,
}

impl<'a> Model for Walk<'a> {
    ghost use Rattle.step_walk.specs.Walks.{Walked, IsWalk};
    ghost use Rattle.std.specs.BinaryHeap.{heap_items};

    ghost Value = { Walked };

    ghost view = { λ w. record { curves = w.curves.now; picks = w.picks.items } };

    ghost invariant = { λ w. IsWalk w.curves.now w.picks.items (heap_items w.waiting) };
}

/// The step of a family from a place, if there is one.
fn next_step(curves: &[Curve], family: u32, place: u32) -> Option<Step>
    requires family { family < length curves.now }
    requires place { place < length (curve_at curves.now family) }
    ensures { TellsNext curves.now family place result }
{
    let curve = &curves[family as usize];
    let count = curve.len();
    if place + 1 >= count {
        return None;
    }
    let price = curve.slope(place);
    Some(Step { family, price })
}

/// The next steps of all families.
fn first_steps(
    alloc: Global,
    curves: &[Curve],
    picks: &[u32],
) -> Result<BinaryHeap<Step, Global>, NoMemory>
    requires few { length curves.now ≤ most_curves }
    requires vertices { AreVertices curves.now picks.now }
    ensures order { IfOk result (λ steps. IsHeap step_cmp (heap_items steps)) }
    ensures waits { IfOk result (λ steps. HoldsNext curves.now picks.now (length curves.now) (heap_items steps)) }
{
    let mut steps = BinaryHeap::with_capacity(alloc, curves.len())?;
    for f in 0..curves.len() {
        if let Some(step) = next_step(curves, f as u32, picks[f]) {
            steps.push(step)?;
        }
    }
    Ok(steps)
}

/// The first vertex of each curve.
fn first_picks(alloc: Global, curves: &[Curve]) -> Result<Vec<u32>, NoMemory>
    ensures count { IfOk result (λ picks. length picks.items ≡ length curves.now) }
    ensures zero { IfOk result (λ picks. (f : ℕ) → slice_index picks.items f ≡ 0) }
    ensures shapes { OnOk result (HaveShapes curves.now) }
    ensures short { OnOk result (AreShort curves.now) }
{
    let mut picks = Vec::with_capacity(alloc, curves.len())?;
    for f in 0..curves.len() {
        let curve = &curves[f];
        let some = curve.len() > 0;
        prove!(some);
        picks.push(0)?;
    }
    Ok(picks)
}

impl<'a> Walk<'a> {
    /// A walk that has taken no step. Want of memory is the only error.
    pub fn begin(alloc: Global, curves: &'a [Curve]) -> Result<Walk<'a>, NoMemory>
        requires { length curves.now ≤ most_curves }
        ensures { IfOk result (λ walk. IsAtFirst curves.now walk) }
    {
        let picks = first_picks(alloc, curves)?;
        let waiting = first_steps(alloc, curves, picks.as_slice())?;
        Ok(Walk {
            curves,
            picks,
            waiting,
        })
    }

    /// A walk that has taken the steps that fall by more than `price` per unit of money. The price is in units of 2^-48
    /// for whole money, at most 2^74. Want of memory is the only error.
    pub fn begin_after(
        alloc: Global,
        curves: &'a [Curve],
        price: u128,
    ) -> Result<Walk<'a>, NoMemory>
        requires few { length curves.now ≤ most_curves }
        requires price { price ≤ most_price_units }
        ensures { IfOk result (λ walk. IsAfter price curves.now walk) }
    {
        let picks = all_after_steep(alloc, curves, price)?;
        let waiting = first_steps(alloc, curves, picks.as_slice())?;
        Ok(Walk {
            curves,
            picks,
            waiting,
        })
    }

    /// The next step, or None if no step is left.
    pub fn next(&self) -> Option<Next>
        ensures none { IfNone result (AllDone self.now) }
        ensures some { IfSome result (λ next. TellsFirst self.now next) }
    {
        let step = self.waiting.peek()?;
        let family = step.family;
        let vertex = self.picks[family as usize] + 1;
        Some(Next {
            family,
            vertex,
            price: step.price,
        })
    }

    /// Takes the next step, if one is left. Want of memory is the only error.
    pub fn take(self) -> Result<Walk<'a>, NoMemory>
        requires { HasNext self }
        ensures { IfOk result (λ walk. MovesOn self.entry walk) }
    {
        let Walk {
            curves,
            mut picks,
            mut waiting,
        } = self;
        if let Some(step) = waiting.pop() {
            let family = step.family;
            let vertex = picks[family as usize] + 1;
            picks[family as usize] = vertex;
            if let Some(next) = next_step(curves, family, vertex) {
                waiting.push(next)?;
            }
        }
        Ok(Walk {
            curves,
            picks,
            waiting,
        })
    }

    /// The vertices that the walk has reached, as a vector.
    pub fn into_picks(self) -> Vec<u32>
        ensures { result.items ≡ self.entry.picks }
    {
        self.picks
    }

    /// The vertices that the walk has reached.
    pub fn picks(&self) -> &[u32]
        ensures { result.now ≡ self.now.picks }
    {
        self.picks.as_slice()
    }
}
