//! Laws of hull choices and fillings, each the contract of a function that does nothing.
ghost use Rattle.marginal_alloc.specs.Laws.{PicksAreLeast, CriticalIsLeast, ChoicesAreOne};
ghost use Rattle.marginal_alloc.specs.Fillings.{FillingIsFull, FillingFits, FillingPicksVertices, FillingNeverRaises, FillingsAreOne};

/// Each vertex of a hull choice is least at its price among all points of its family: no point `v` has a smaller
/// `q * lo + p * cost`.
pub fn picks_are_least()
    ensures { PicksAreLeast }
{}

/// The vertex that the critical step would reach also is least at the price.
pub fn critical_is_least()
    ensures { CriticalIsLeast }
{}

/// Curves have only one hull choice under a budget, so it is a function of both.
pub fn choices_are_one()
    ensures { ChoicesAreOne }
{}

/// A filling ends when no change of one family to another vertex of its curve fits the budget and lowers its upper end.
pub fn filling_is_full()
    ensures { FillingIsFull }
{}

/// The cost of a filling stays within the budget.
pub fn filling_fits()
    ensures { FillingFits }
{}

/// The picks of a filling remain one vertex of each curve.
pub fn filling_picks_vertices()
    ensures { FillingPicksVertices }
{}

/// No family's upper end rises in a filling.
pub fn filling_never_raises()
    ensures { FillingNeverRaises }
{}

/// Picks have only one filling under a budget, so it is a function of the curves, the budget and the picks.
pub fn fillings_are_one()
    ensures { FillingsAreOne }
{}
