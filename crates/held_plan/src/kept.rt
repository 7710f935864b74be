//! The parts of curves that are kept from one choice of stocks to the next.

ghost use Rattle.std.specs.Prelude.{◌≡◌, ◌<◌, ◌≤◌, List, None, IfOk, IfSome, length, replicate, set};
ghost use Rattle.spares_input.specs.Money.{most_budget};
ghost use Rattle.hull.specs.declared.point.Point.{Point};
ghost use Rattle.marginal_alloc.specs.Choice.{AreCurves};
ghost use Rattle.part_filling.specs.Known.{IsPriceWindow};
ghost use Rattle.fleet_plan.specs.Families.{case_points};
ghost use Rattle.case_plan.specs.Chosen.{FitsCase, IsChosen};
ghost use Rattle.held_plan.specs.Kept.{AreKeptIn, AreKeptParts};

use crate::families::HeldFamilies;
use crate::maker::CurveMaker;
use crate::parts::{parts_between, put_back};
use answers::NoMemory;
use case_plan::{ChosenByParts, ChosenStocks, choose_stocks_by_parts};
use hull::{Curve, Price, Score};
use part_filling::Window;
use std::alloc::Global;
use std::marker::Model;

/// The parts that are kept of the curves of a case's families, all between the prices of one window. Each has with it
/// how high all vertices behind it lie at the low price.
#[derive(Drop)]
pub struct KeptParts {
    window: Window,
    parts: Vec<Option<(Curve, u128)>>,
}

impl Model for KeptParts {
    ghost use Rattle.held_plan.specs.Kept.{KeptRows};

    ghost Value = { KeptRows };

    ghost view = { λ x. record { window = x.window; parts = x.parts.items } };
}

/// A window for no parts.
const NO_WINDOW: Window = Window {
    low: Price { p: 1, q: 1 },
    high: Price { p: 1, q: 1 },
};

/// Places for parts of `count` families, of which none is kept. Want of memory is the only error.
fn no_parts(alloc: Global, count: usize) -> Result<Vec<Option<(Curve, u128)>>, NoMemory>
    ensures { IfOk result (λ parts. parts.items ≡ replicate count None) }
{
    let mut parts = Vec::new(alloc);
    for _f in 0..count {
        parts.push(None)?;
    }
    Ok(parts)
}

/// The stocks that the parts of the curves in a window choose. Parts that aren't kept are made, and afterwards those
/// are kept that the filling hasn't widened. None if the parts' hull choice has no critical step. Want of memory is the
/// only error.
fn choose_in<S: Score, M: CurveMaker>(
    alloc: Global,
    families: &HeldFamilies<'_, S, M>,
    window: Window,
    kept: &mut Vec<Option<(Curve, u128)>>,
    budget: u64,
) -> Result<Option<ChosenStocks>, NoMemory>
    requires budget { budget ≤ most_budget }
    requires kept { AreKeptIn window (case_points S.ends families.now.case families.now.held.list) kept.old.items }
    ensures kept { AreKeptIn window (case_points S.ends families.now.case families.now.held.list) kept.new.items }
    ensures fits { IfOk result (λ found. IfSome found (FitsCase families.now.case)) }
    ensures chosen { (curves : List (List Point))
        → AreCurves (case_points S.ends families.now.case families.now.held.list) curves
        → IfOk result (λ found. IfSome found (IsChosen families.now.case curves budget)) }
{
    let case = families.case();
    let parts = parts_between(alloc, families, families.count(), window, kept)?;
    let near = window.high.p;
    let (curves, beyond) = (parts.curves, parts.beyond);
    let Some(found) = choose_stocks_by_parts(
        alloc, case, families, window, curves, beyond, budget, near,
    )?
    else {
        return Ok(None);
    };
    let ChosenByParts { chosen, known } = found;
    put_back(kept, window, known);
    Ok(Some(chosen))
}

impl KeptParts {
    /// Of `count` families no part is kept. Want of memory is the only error.
    pub fn new(alloc: Global, count: usize) -> Result<KeptParts, NoMemory>
        ensures { IfOk result (λ kept. (families : List (List Point)) → length families ≡ count
            → AreKeptParts families kept) }
    {
        let parts = no_parts(alloc, count)?;
        Ok(KeptParts {
            window: NO_WINDOW,
            parts,
        })
    }

    /// Forgets the part of a family, by its index.
    pub fn forget(&mut self, family: usize)
        requires { family < length self.old.parts }
        ensures { self.new ≡ record { window = self.old.window; parts = set self.old.parts family None } }
    {
        self.parts[family] = None;
    }

    /// Whether the part of some family is kept.
    pub(crate) fn has_parts(&self) -> bool {
        self.parts.iter().any(|part| part.is_some())
    }

    /// The stocks that parts choose in the window of those that are kept. None if the choice in this window has no
    /// critical step. Want of memory is the only error.
    pub(crate) fn choose_again<S: Score, M: CurveMaker>(
        &mut self,
        alloc: Global,
        families: &HeldFamilies<'_, S, M>,
        budget: u64,
    ) -> Result<Option<ChosenStocks>, NoMemory>
        requires budget { budget ≤ most_budget }
        requires kept { AreKeptParts (case_points S.ends families.now.case families.now.held.list) self.old }
        ensures kept { AreKeptParts (case_points S.ends families.now.case families.now.held.list) self.new }
        ensures fits { IfOk result (λ found. IfSome found (FitsCase families.now.case)) }
        ensures chosen { (curves : List (List Point))
            → AreCurves (case_points S.ends families.now.case families.now.held.list) curves
            → IfOk result (λ found. IfSome found (IsChosen families.now.case curves budget)) }
    {
        choose_in(alloc, families, self.window, &mut self.parts, budget)
    }

    /// The stocks that parts choose in another window. What was kept is forgotten, and the parts in this window are
    /// kept. None if the choice in this window has no critical step. Want of memory is the only error.
    pub(crate) fn choose_anew<S: Score, M: CurveMaker>(
        &mut self,
        alloc: Global,
        families: &HeldFamilies<'_, S, M>,
        window: Window,
        budget: u64,
    ) -> Result<Option<ChosenStocks>, NoMemory>
        requires window { IsPriceWindow window.low window.high }
        requires budget { budget ≤ most_budget }
        requires kept { AreKeptParts (case_points S.ends families.now.case families.now.held.list) self.old }
        ensures kept { AreKeptParts (case_points S.ends families.now.case families.now.held.list) self.new }
        ensures fits { IfOk result (λ found. IfSome found (FitsCase families.now.case)) }
        ensures chosen { (curves : List (List Point))
            → AreCurves (case_points S.ends families.now.case families.now.held.list) curves
            → IfOk result (λ found. IfSome found (IsChosen families.now.case curves budget)) }
    {
        let parts = no_parts(alloc, families.count() as usize)?;
        self.parts = parts;
        self.window = window;
        choose_in(alloc, families, window, &mut self.parts, budget)
    }
}
