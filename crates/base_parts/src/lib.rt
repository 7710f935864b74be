//! The parts of the bases' curves between two prices, at given stocks of the depot. Choices at a base that lie above
//! others at both prices, by lower bounds, are passed over.
#![tactic(auto)]

mod choices;
pub mod parts;
