//! The choice when only parts of the curves are known, between two prices.
#![tactic(auto)]

ghost use Rattle.choice_parts.specs.Laws.{CurvesExist, PartsAreOfCurves, PartsChoose, PartsHaveNext, PartsHavePicks, PartsHavePrefixes};

/// A prefix of the parts' steps is one of all steps, with those before the parts; the next step of the parts is the
/// next one of all; and the vertices at the picks are the same.
pub fn parts_have_prefixes()
    ensures prefixes { PartsHavePrefixes }
    ensures next { PartsHaveNext }
    ensures picks { PartsHavePicks }
{}

/// The hull choice of parts that stops at a critical step of theirs is that of the curves.
pub fn parts_choose()
    ensures { PartsChoose }
{}

/// All families have curves, and parts of families are parts of these.
pub fn parts_are_of_curves()
    ensures curves { CurvesExist }
    ensures parts { PartsAreOfCurves }
{}
