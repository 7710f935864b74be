//! Evaluators, which answer from the tables that they have kept and make only those that are missing. No command uses
//! one.
#![tactic(auto)]

ghost use Rattle.std.specs.Prelude.{◌≡◌, ◌==◌, ℕ, ◌<◌, ◌∷◌, List, Some, length, position};
ghost use Rattle.spares_input.specs.Cases.{CaseRows, IsCase};
ghost use Rattle.fleet_model.specs.Fleet.{family};
ghost use Rattle.family_items.specs.Profile.{item_of};
ghost use Rattle.family_items.specs.Inputs.{IsLine};
ghost use Rattle.family_tables.specs.Kept.{Evaluation, key_stocks, table_kept};
ghost use Rattle.family_numbers.specs.Numbers.{family_stocks, moments_of, numbers_of, rows_of};

mod items;
mod keeping;
mod keys;
mod making;

pub use keeping::Evaluator;

/// The table that an evaluator keeps of a part at a site is that of the part's item there: the pipeline has the item's
/// mean and variance, at all stocks that agree with the table's key.
pub fn kept_are_items()
    ensures { (f : ℕ) (c : CaseRows) (l : ℕ) (e : Evaluation f) (s : List ℕ) (o : ℕ) (d : List ℕ) (p i k : ℕ)
        → IsCase c → IsLine c l → e.numbers ≡ numbers_of f c l → family_stocks c l s 0 ≡ o ∷ d
        → position (λ q. q == p) (family c l) ≡ Some i → k < length c.sites → (i ≡ 0 → k ≡ 0)
        → (table_kept f e p k (key_stocks i k d)).rows ≡ rows_of f (moments_of (item_of f c s p k)) }
{}
