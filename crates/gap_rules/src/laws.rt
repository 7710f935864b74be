//! The truth of covers and accepted certificates, as contracts of functions with empty bodies.
ghost use Rattle.gap_rules.specs.Laws.{LeavesCover, LeavesAreApart, FloorsHold, AcceptedAreAcceptable};
ghost use Rattle.gap_rules.specs.Trees.{TreesAreRead, OnlyTreesAreRead};
ghost use Rattle.gap_rules.specs.Soundness.{AcceptedAreSound};

/// Each vector of a box lies in exactly one leaf of each tree of the box.
pub fn leaves_cover()
    ensures cover { LeavesCover }
    ensures apart { LeavesAreApart }
{}

/// If a floor is at most each leaf's value, it is at most the Lagrangian of each vector.
pub fn floors_hold()
    ensures { FloorsHold }
{}

/// A certificate that breaks no rule is acceptable over the points of the families.
pub fn accepted_are_acceptable()
    ensures { AcceptedAreAcceptable }
{}

/// Nodes are read as leaves exactly if they are the preorder of a lawful tree, and the leaves are this tree's leaves.
pub fn trees_are_read()
    ensures trees { TreesAreRead }
    ensures only { OnlyTreesAreRead }
{}

/// A certificate that breaks no rule keeps its promises of the model's values, for every score whose intervals
/// enclose them.
pub fn accepted_are_sound()
    ensures { AcceptedAreSound }
{}
