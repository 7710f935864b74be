//! Laws of curves, which carry statements about vertices over to all points.

ghost use Rattle.hull.specs.Laws.{
  ChainIsOwnCurve,
  JoinsCurves,
  AddsCurves,
  IsOfMembers,
  HasOneCurve,
  ReachesLeast,
  IsConvex,
  BeginsCheapest,
  EndsLowest,
};

/// A chain is its own curve; so are the vertices of a curve, and a single point.
pub fn chain_is_own_curve()
    ensures { ChainIsOwnCurve }
{}

/// The curve of two curves' vertices together is the curve of all their points.
pub fn joins_curves()
    ensures { JoinsCurves }
{}

/// The curve of the sums of two curves is the curve of the sums of all their points, if the stocks of the first curve's
/// points have one length.
pub fn adds_curves()
    ensures { AddsCurves }
{}

/// A curve depends only on the set of its points, not on their order or number of occurrences.
pub fn is_of_members()
    ensures { IsOfMembers }
{}

/// Points have only one curve, if those with the same stocks are equal.
pub fn has_one_curve()
    ensures { HasOneCurve }
{}

/// A vertex with the least Lagrangian on a curve has the least of all points.
pub fn reaches_least()
    ensures { ReachesLeast }
{}

/// The vertices are convex: the cost rises, the lower end falls, and each step falls less per money than the one
/// before.
pub fn is_convex()
    ensures { IsConvex }
{}

/// A curve begins at the least cost of all points.
pub fn begins_cheapest()
    ensures { BeginsCheapest }
{}

/// A curve ends at the least lower end of all points.
pub fn ends_lowest()
    ensures { EndsLowest }
{}
