//! The bounds that prices show for the aim of an allocation, and how high these can be.

ghost use Rattle.std.specs.Prelude.{◌≡◌, ℕ, ◌+◌, ◌-◌, ◌*◌, ◌<◌, ◌≤◌, List, sum_by};
ghost use Rattle.spares_input.specs.Cases.{CaseRows, IsCase};
ghost use Rattle.fleet_model.specs.Rows.{line_units};
ghost use Rattle.fleet_model.specs.Aims.{Value, IsHeldAllocation, cost_beyond};
ghost use Rattle.fleet_model.specs.Bounds.{AreAround, AreFloors, HasNoMore, NoneHasLess, NoPriceShowsMore};

/// The families' floors at a price show a bound for each allocation within the budget: their sum less the price of the
/// budget, or 0 if that is negative.
pub fn floors_bound()
    ensures { (value : Value) (c : CaseRows) (held : List ℕ) (budget bound units money : ℕ) (floor : ℕ → ℕ)
        → IsCase c → 0 < units → AreFloors value c held units money floor
        → bound * units ≤ sum_by floor (line_units c) - money * budget → NoneHasLess value c held budget bound }
{}

/// Upper limits of the bounds of prices: by two allocations around the budget, or by one within it.
pub fn price_limits()
    ensures around { (value : Value) (c : CaseRows) (held : List ℕ) (budget most : ℕ)
        (s t : List ℕ) (left over h0 h1 : ℕ)
        → AreAround c held budget s t left over → HasNoMore value c s h0 → HasNoMore value c t h1
        → h0 * over + h1 * left ≤ most * (left + over) → NoPriceShowsMore value c held budget most }
    // For a choice and the step after it, which exceeds the budget: the bound, the widths of the two aims, and 1 more.
    ensures hull { (value : Value) (c : CaseRows) (held : List ℕ) (budget bound lo0 lo1 fall width last : ℕ)
        (s t : List ℕ) (left over : ℕ)
        → AreAround c held budget s t left over
        → HasNoMore value c s (lo0 + width) → HasNoMore value c t (lo1 + width + last) → lo1 + fall ≡ lo0
        → (left + over) * lo0 + fall * cost_beyond c held s < (bound + 1) * (left + over) + fall * budget
        → NoPriceShowsMore value c held budget (bound + (width + last + 1)) }
    ensures within { (value : Value) (c : CaseRows) (held : List ℕ) (budget most : ℕ) (s : List ℕ)
        → IsHeldAllocation c held s → cost_beyond c held s ≤ budget → HasNoMore value c s most
        → NoPriceShowsMore value c held budget most }
{}
