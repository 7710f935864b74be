//! The laws of a plan's certificate, as contracts of functions with empty bodies.

ghost use Rattle.certified_plan.specs.Accepted.{AcceptedAreTrue, PlainAcceptedAreTrue};
ghost use Rattle.certified_plan.specs.Laws.{HeldTextsAreShort, PlansAreAccepted, PlansAreWellFormed, PlansComeNearest, ScoresEnclose, ScoresLeaveRoom, TextsAreShort};

/// The intervals of each objective enclose its values, and leave room to add up.
pub fn scores_are_sound()
    ensures encloses { ScoresEnclose }
    ensures room { ScoresLeaveRoom }
{}

/// The certificate of a plan is well formed: its numbers are in their ranges, and its lists have their lengths.
pub fn plans_are_well_formed()
    ensures { PlansAreWellFormed }
{}

/// The checker accepts the certificate of a plan, in both formats, for each objective and with any held stocks.
pub fn plans_are_accepted()
    ensures { PlansAreAccepted }
{}

/// An accepted certificate, whoever made it and however, is true of its case: its stocks include the held stocks and
/// fit the budget, their aim is at most its upper end, and no stocks within the budget have less than its bound, at
/// every depth of the model from 1024 on.
pub fn accepted_are_true()
    ensures claims { AcceptedAreTrue }
    // For weighted backorders, if nothing is held, in the model's plain words.
    ensures plain { PlainAcceptedAreTrue }
{}

/// No certificate of the same case, held stocks, budget and objective that the checker accepts has a bound above the
/// plan's bound plus its rounding.
pub fn plans_come_nearest()
    ensures { PlansComeNearest }
{}

/// The text of a plan's certificate is short enough to be read, with and without held stocks.
pub fn texts_are_short()
    ensures certificate { TextsAreShort }
    ensures held { HeldTextsAreShort }
{}
