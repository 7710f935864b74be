//! The items of a case: what each pair's pipeline is at given stocks, and its backorders, by the definitions; and laws
//! that say that they enclose the model's values.
#![tactic(auto)]

ghost use Rattle.std.specs.Prelude.{ℕ, ◌<◌, length};
ghost use Rattle.exact_model.specs.Fraction.{Encloses};
ghost use Rattle.spares_input.specs.Cases.{CaseRows};
ghost use Rattle.spares_input.specs.Stocks.{StockList};
ghost use Rattle.fleet_model.specs.Pipelines.{ebo_0j};
ghost use Rattle.fleet_model.specs.Laws.{IsBase};
ghost use Rattle.family_items.specs.Profile.{item_of, family_of};
ghost use Rattle.family_items.specs.Encloses.{CanEvaluate, EnclosesItem, EnclosesFamily, IsSmallItem, IsSmallFamily};
ghost use Rattle.family_items.specs.Inputs.{IsLine};

pub mod inputs;
mod item;
pub mod pipeline;
pub mod ratios;

pub use item::{FamilyResult, Item};

/// The item of each pair encloses the model's figures at every depth from 1024 on, and none of them is above 256.
pub fn items_enclose()
    ensures encloses { (f : ℕ) (c : CaseRows) (s : StockList) (p k : ℕ) → CanEvaluate f c s → p < length c.parts
        → k < length c.sites
        → EnclosesItem f c s.list p k (item_of f c s.list p k) }
    // The backorders of a line unit at a base, which make up availability and the total.
    ensures line { (f : ℕ) (c : CaseRows) (s : StockList) (l j : ℕ) → CanEvaluate f c s → IsLine c l → IsBase c j
        → Encloses f (item_of f c s.list l j).backorders.lo (item_of f c s.list l j).backorders.hi
        (λ n. ebo_0j c s.list n l j) }
    ensures small { (f : ℕ) (c : CaseRows) (s : StockList) (p k : ℕ) → CanEvaluate f c s → p < length c.parts
        → k < length c.sites
        → IsSmallItem f (item_of f c s.list p k) }
{}

/// The items of a family enclose its pairs' figures at every depth from 1024 on, and its total the family's.
pub fn families_enclose()
    ensures encloses { (f : ℕ) (c : CaseRows) (s : StockList) (l : ℕ) → CanEvaluate f c s → IsLine c l
        → EnclosesFamily f c s.list l (family_of f c l s) }
    ensures small { (f : ℕ) (c : CaseRows) (s : StockList) (l : ℕ) → CanEvaluate f c s → IsLine c l
        → IsSmallFamily f c l (family_of f c l s) }
{}
