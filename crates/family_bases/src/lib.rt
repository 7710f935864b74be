//! The bases of a family at given stocks of the depot: the curve of each, lower bounds on its points, and the stocks at
//! the depot themselves.
#![tactic(auto)]

pub mod bases;
pub mod curves;
pub mod lows;
pub mod stocks;
