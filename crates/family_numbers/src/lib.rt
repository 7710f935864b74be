//! The numbers of a family, and the tables that are computed from them alone.
//!
//! A pair's pipeline depends on few stocks: none for a shop unit at the depot, the depot's stocks of the shop units for
//! the line unit there, the own stock at the depot for a shop unit at a base. So one table serves every choice of the
//! other stocks.
#![tactic(auto)]

ghost use Rattle.std.specs.Prelude.{◌≡◌, ℕ, ◌∷◌, List};
ghost use Rattle.spares_input.specs.Cases.{CaseRows};
ghost use Rattle.fleet_model.specs.Laws.{IsBase};
ghost use Rattle.family_items.specs.Profile.{item_of};
ghost use Rattle.family_items.specs.Inputs.{IsLine};
ghost use Rattle.family_numbers.specs.Numbers.{base_backorders, family_stocks, numbers_of};

pub mod base_shops;
pub mod by_numbers;
pub mod numbers;
pub mod own_part;
pub mod pair_tables;
pub mod shop_part;

pub use base_shops::BaseShops;
pub use by_numbers::{depot_line, depot_shop_tables};
pub use numbers::Numbers;
pub use own_part::OwnPart;

/// A line unit's backorders at a base come from the family's numbers. Its own stock there only picks the row of its
/// table.
pub fn numbers_give_backorders()
    ensures { (f : ℕ) (c : CaseRows) (s : List ℕ) (l j o : ℕ) (d : List ℕ) (own : ℕ) (b : List ℕ)
        → IsLine c l → IsBase c j
        → family_stocks c l s 0 ≡ o ∷ d → family_stocks c l s j ≡ own ∷ b
        → (item_of f c s l j).backorders ≡ base_backorders f (numbers_of f c l) j o d b own }
{}
