//! Parts of curves: the vertices that are best at some price from a low one to a high one.
//!
//! A choice at one price needs only the part of each curve between two prices near it. Parts join and add up as whole
//! curves do, and points that lie above a vertex at both prices can be left out.
#![tactic(auto)]

mod join;
mod laws;
mod window;

pub use join::{is_passed, join_sums, part_of_sums};
pub use laws::{
    adds_parts, alone_is_between, bounds_add, cut_is_part, cut_of_standing, ends_are_least,
    has_curve, has_one_part, has_part, joins_parts, part_is_convex, part_is_cut, part_is_whole,
    part_of_curve, part_of_members, part_of_part, part_of_standing, part_reaches_least,
    passes_over, sums_stand,
};
pub use window::{Vertices, cut, least_at_low, part_of};
