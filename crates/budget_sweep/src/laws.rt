//! The promises of a sweep and a target, as contracts of functions with empty bodies.
ghost use Rattle.budget_sweep.specs.Laws.{
  ChoicesAreStates,
  StatesAreChoices,
  SweepsAreOne,
  SweepsAreTrue,
  TargetsAreOne,
  TargetsAreTrue,
};

/// Each state is the hull choice under its own cost, and the hull choice under any budget is one of the states: with
/// the same cost, the same ends and the same price.
pub fn states_are_choices()
    ensures states { StatesAreChoices }
    ensures choices { ChoicesAreStates }
{}

/// Each point of the sweep of an accepted case is true of it, at every depth from 1024 on. No stocks that cost at most
/// the point's cost have an aim below its lower end. Some stocks have exactly its cost and at most its upper end.
pub fn case_sweeps_are_true()
    ensures { SweepsAreTrue }
{}

/// The report of a target is true of an accepted case. At every depth from 1024 on, some stocks have the cost of the
/// reported point and reach the target. All stocks that reach the target at one of these depths cost at least the
/// reported cost; if none is reported, there are no such stocks.
pub fn case_targets_are_true()
    ensures { TargetsAreTrue }
{}

/// A case has exactly one sweep, and one report of a target, so both are functions of the case.
pub fn sweeps_are_one()
    ensures sweeps { SweepsAreOne }
    ensures targets { TargetsAreOne }
{}
