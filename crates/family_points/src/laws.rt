//! Laws of vectors.

ghost use Rattle.family_points.specs.Laws.{ChoicesAreVectors, NothingHeld, OneVectorTakesFew, VectorsStand};

/// The choices of a family count its vectors, and the curve of a single vector takes few tables.
pub fn vectors_are_counted()
    ensures choices { ChoicesAreVectors }
    ensures few { OneVectorTakesFew }
{}

/// The stocks made of a vector have it at the places of its family, and stocks of nothing have zeros there.
pub fn vectors_stand()
    ensures stands { VectorsStand }
    ensures nothing { NothingHeld }
{}
