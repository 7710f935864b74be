//! Leaves of a cover.

use family_points::Bounds;

/// A leaf with its box, shown by cost alone or by all of its vectors.
#[derive(Drop)]
pub enum Leaf {
    Cost(Bounds),
    Whole(Bounds),
}
