//! Lower bounds on all vectors with given stocks at the depot, at two prices: rough ones that hold for all stocks of
//! the line unit there, and nearer ones base by base. They show what may be passed over, which stocks are likely,
//! and about what a family costs at a price.
#![tactic(auto)]

pub mod first_line;
pub mod near;
pub mod passed;
pub mod rough;
