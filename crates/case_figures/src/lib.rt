//! The figures of a case at its stocks: the cost, the items, the availabilities and the total.
#![tactic(auto)]

mod bases;
mod compact;
mod figures;
mod gathering;
mod items;
mod narrow;

pub use compact::{CompactItem, ItemRef, Items};
pub use figures::{BaseLine, Figures, ItemLine, Span};
pub use gathering::{figures_at, figures_enclose, figures_with_cost};
pub use narrow::Narrow;
