//! Plans and certificates of a case, in the words of its model.
//!
//! The choice of points under a budget knows families of vectors; the model knows the stocks of a case. The laws here
//! carry statements about the first over to the second, for every score, and for held stocks that may only be raised.
//! Each law is the contract of a public function with an empty body.
#![tactic(auto)]

ghost use Rattle.fleet_plan.specs.Laws.{
  AllocationsAreChoices,
  CasePlansAreOne,
  ChoicesAreAllocations,
  ChosenAreOfStocks,
  ClaimsAreOverPoints,
  ClaimsAreTrue,
  CurvesShowFloors,
  FamiliesAreEnclosed,
  NothingHeld,
  PlainClaimsAreTrue,
  PlainPlansAreTrue,
  PlansAreTrue,
  PointsAreInRange,
  PointsAreTheFamilies,
  CaseStocksTell,
  UpperIsTotal,
};

/// The families of an accepted case: at every depth from 1024 on, the interval of each vector encloses its aim.
pub fn families_are_enclosed()
    ensures enclosed { FamiliesAreEnclosed }
    ensures points { PointsAreTheFamilies }
{}

/// The points of a family meet the requirements of a curve, and no two have the same stocks.
pub fn points_are_sound()
    ensures range { PointsAreInRange }
    ensures tell { CaseStocksTell }
{}

/// The allocations of a case are the allocations of its families, with the same cost and the same aim, and the families
/// have no others.
pub fn allocations_are_choices()
    ensures choices { AllocationsAreChoices }
    ensures allocations { ChoicesAreAllocations }
{}

/// The plan of an accepted case is true of it: of all allocations within the budget, of every price and of every
/// certificate.
pub fn case_plans_are_true()
    ensures plans { PlansAreTrue }
    // For weighted backorders, if nothing is held, in the model's own words.
    ensures plain { PlainPlansAreTrue }
{}

/// Acceptable claims are true of an accepted case, whoever made them.
pub fn case_claims_are_true()
    ensures claims { ClaimsAreTrue }
    ensures plain { PlainClaimsAreTrue }
    ensures points { ClaimsAreOverPoints }
{}

/// A case has exactly one plan under a budget, so the plan is a function of both.
pub fn case_plans_are_one()
    ensures { CasePlansAreOne }
{}

/// A plan is made of curves: of the stocks of the chosen vertices, and the floors of the curves.
pub fn plans_are_made()
    ensures stocks { ChosenAreOfStocks }
    ensures floors { CurvesShowFloors }
    ensures nothing_held { NothingHeld }
    ensures upper { UpperIsTotal }
{}
