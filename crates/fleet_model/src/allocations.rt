//! The laws of allocations and of families.

ghost use Rattle.std.specs.Prelude.{◌≡◌, ℕ, ◌+◌, List, sum_by};
ghost use Rattle.spares_input.specs.Cases.{CaseRows, IsCase};
ghost use Rattle.spares_input.specs.Stocks.{StockList, stock_at, cost_of_stocks, IsFor, IsWithinLimits};
ghost use Rattle.fleet_model.specs.Rows.{line_units, stock};
ghost use Rattle.fleet_model.specs.Fleet.{cost, IsAllocation};
ghost use Rattle.fleet_model.specs.Aims.{Value, family_aim, IsHeldAllocation, family_cost_beyond, cost_beyond};
ghost use Rattle.fleet_model.specs.Laws.{AgreeOnFamily, ArePlainWords};

/// The stocks of a case are an allocation if they are within its limits.
pub fn stocks_allocate()
    ensures stocks { (c : CaseRows) (s : StockList) → IsFor c s → IsWithinLimits c s → IsAllocation c s.list }
    ensures stock { (c : CaseRows) (s : StockList) (p k : ℕ) → IsFor c s → stock c s.list p k ≡ stock_at s p k }
    ensures cost { (c : CaseRows) (s : StockList) → IsFor c s → cost c s.list ≡ cost_of_stocks c s }
{}

/// With nothing held and backorders weighted, the definitions for held stocks and an aim agree with the plain ones:
/// each allocation, its cost and its total.
pub fn words_agree()
    ensures plain { (c : CaseRows) (s : List ℕ) → ArePlainWords c s }
    // The cost of the stocks held and the cost beyond them sum to the cost of the stocks.
    ensures held { (c : CaseRows) (held s : List ℕ)
        → IsHeldAllocation c held s → cost_beyond c held s + cost c held ≡ cost c s }
{}

/// The families' costs sum to the whole cost, and a family's value and cost depend only on its own stocks.
pub fn families()
    ensures cost { (c : CaseRows) (held s : List ℕ)
        → IsCase c → sum_by (family_cost_beyond c held s) (line_units c) ≡ cost_beyond c held s }
    ensures alone { (value : Value) (c : CaseRows) (held s t : List ℕ) (n l : ℕ)
        → IsCase c → AgreeOnFamily c s t l
        → (family_aim value c s n l ≡ family_aim value c t n l)
        × (family_cost_beyond c held s l ≡ family_cost_beyond c held t l) }
{}
