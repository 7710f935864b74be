//! Laws of parts of curves, which carry statements about vertices over to all points.

ghost use Rattle.curve_parts.specs.Laws.{
  AloneIsBetween,
  PartOfStanding,
  PassesOver,
  PassesOverVectors,
  LeavesOut,
  PartLeavesOut,
  PartStands,
  SumIsOfVertices,
  PartHasThose,
  JoinsParts,
  AddsParts,
  AddsPartsOfEach,
  PartReachesLeast,
  BoundsAdd,
  PassesOverSums,
  PartIsWhole,
  PartOfMembers,
  SumsStand,
  BothStand,
  FirstIsLeast,
  LastIsLeast,
  PartOfCurve,
  CutIsPart,
  HasCurve,
  HasPart,
  HasOnePart,
  CutOfStanding,
  PartIsCut,
  PartOfPart,
  PartIsConvex,
  PartHasVertex,
};

/// A point that alone has the least Lagrangian at some price between two is a vertex between them.
pub fn alone_is_between()
    ensures { AloneIsBetween }
{}

/// The part of points that suffice for all between two prices is the part of all. A part suffices for its points.
pub fn part_of_standing()
    ensures all { PartOfStanding }
    ensures stands { PartStands }
{}

/// If each point that is left out lies above one of the points at both prices, the others suffice for all between them.
/// So do the points of some vectors of the depot, if all points of the other vectors are such.
pub fn passes_over()
    ensures points { PassesOver }
    ensures more { LeavesOut }
    ensures part { PartLeavesOut }
    ensures vectors { PassesOverVectors }
{}

/// The part of two parts' vertices together is the part of all their points.
pub fn joins_parts()
    ensures { JoinsParts }
{}

/// The part of the sums of two parts is the part of the sums of all their points, if the stocks of the first part's
/// points have one length. The same holds of several parts.
pub fn adds_parts()
    ensures vertices { SumIsOfVertices }
    ensures two { AddsParts }
    ensures several { AddsPartsOfEach }
{}

/// A vertex with the least Lagrangian on a part, at a price between the two, has the least of all points.
pub fn part_reaches_least()
    ensures { PartReachesLeast }
{}

/// The part of a whole curve's vertices is the part of its points.
pub fn part_of_curve()
    ensures { PartOfCurve }
{}

/// A whole curve, cut at two prices, is the part of its points.
pub fn cut_is_part()
    ensures { CutIsPart }
{}

/// Every list of points has a curve.
pub fn has_curve()
    ensures { HasCurve }
{}

/// Every list of points has a part between two prices.
pub fn has_part()
    ensures { HasPart }
{}

/// Points have only one part between two prices, if those with the same stocks are equal.
pub fn has_one_part()
    ensures { HasOnePart }
{}

/// A chain that suffices for points between two prices, cut there, is their part.
pub fn cut_of_standing()
    ensures { CutOfStanding }
{}

/// A part is the whole curve cut at its prices: steps before it are steeper than both, steps in it between them, steps
/// after it flatter. Its vertices are those of the curve that are vertices between the prices.
pub fn part_is_cut()
    ensures cut { PartIsCut }
    ensures those { PartHasThose }
{}

/// The part of a part, between nearer prices, is the part of its points.
pub fn part_of_part()
    ensures { PartOfPart }
{}

/// A part depends only on the set of its points, not on their order or number of occurrences.
pub fn part_of_members()
    ensures { PartOfMembers }
{}

/// A part is convex, and has a vertex if there are points and a price between.
pub fn part_is_convex()
    ensures convex { PartIsConvex }
    ensures some { PartHasVertex }
{}

/// A part begins with the vertex that has the least Lagrangian of all points at the high price, and ends with the one
/// that has it at the low price.
pub fn ends_are_least()
    ensures first { FirstIsLeast }
    ensures last { LastIsLeast }
{}

/// Lower bounds on the Lagrangians of several lists add up to one on their sums. If such bounds at both prices are
/// above one of the points, all sums are passed over.
pub fn bounds_add()
    ensures one { BoundsAdd }
    ensures both { PassesOverSums }
{}

/// Between the least and the largest price the part is the whole curve.
pub fn part_is_whole()
    ensures { PartIsWhole }
{}

/// Points that suffice for each of two lists suffice for both together, and their sums for the lists' sums.
pub fn sums_stand()
    ensures sums { SumsStand }
    ensures both { BothStand }
{}
