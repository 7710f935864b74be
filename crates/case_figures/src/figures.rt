//! The figures of a case at its stocks.

ghost use Rattle.std.specs.Prelude.{◌≡◌};
ghost use Rattle.case_figures.specs.Spans.{ends, places};

use crate::compact::Items;
use answers::List;
use fixed_interval::Iv;
use spares_input::Name;

/// An interval with 32, 48 or 52 binary places.
#[derive(Clone, Copy, PartialEq, Eq)]
pub enum Span {
    Bits32(Iv<32>),
    Bits48(Iv<48>),
    Bits52(Iv<52>),
}

impl Span {
    /// The interval, if it has 48 binary places.
    pub fn interval(self) -> Iv<48>
        requires { places self ≡ 48 }
        ensures { result ≡ ends self }
    {
        match self {
            Span::Bits48(interval) => interval,
            _ => unreachable!(),
        }
    }
}

/// A pair of a part and a site with its stock: the mean and the variance of its pipeline, its expected backorders
/// and the variance of its backorders, in units.
#[derive(Clone, Copy)]
pub struct ItemLine {
    pub part: Name,
    pub site: Name,
    /// 0 to 63.
    pub stock: u8,
    pub mean: Span,
    pub variance: Span,
    pub backorders: Span,
    pub spread: Span,
}

/// A base with its availability: the expected share of its systems that miss no line unit, 0 to 1.
#[derive(Clone, Copy)]
pub struct BaseLine {
    pub site: Name,
    pub availability: Span,
}

/// The cost and the figures of stocks.
#[derive(Drop)]
pub struct Figures {
    /// The sum of stock times cost of the part over all pairs, in whole money.
    pub cost: u64,
    /// By part and then by site.
    pub items: Items,
    /// In site order.
    pub bases: List<BaseLine>,
    /// The mean of the bases' availabilities, weighted by their systems.
    pub fleet: Span,
    /// The weighted expected backorders of the line units at the bases.
    pub total: Span,
}
