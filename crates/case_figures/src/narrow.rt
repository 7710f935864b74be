//! Intervals with ends of 64 bits.
ghost use Rattle.std.specs.Prelude.{◌≡◌, ◌^◌, ◌<◌};
ghost use Rattle.fixed_interval.specs.Widths.{IsWidth};
ghost use Rattle.case_figures.specs.Narrow.{IsNarrow};
ghost use Rattle.case_figures.specs.Spans.{span_of};

use crate::figures::Span;
use fixed_interval::Iv;
use std::marker::Model;

/// An interval like [`Iv`] in half the room: its ends have 64 bits.
///
/// Their unit is the unit of the item with the interval.
#[derive(Clone, Copy, Drop)]
pub struct Narrow {
    lo: u64,
    hi: u64,
}

impl Model for Narrow {
    ghost use Rattle.fixed_interval.specs.Ends.{Ends};
    ghost use Rattle.case_figures.specs.Narrow.{IsNarrow};

    ghost Value = { Ends };

    ghost view = { λ a. record { lo = a.lo; hi = a.hi } };

    ghost invariant = { λ a. IsNarrow (record { lo = a.lo; hi = a.hi }) };

    ghost inverse = { λ d. record { lo = d.lo; hi = d.hi } };
}

impl Narrow {
    /// The same interval; its upper end has 64 bits.
    pub fn of<const F: u32>(interval: Iv<F>) -> Narrow
        requires { interval.hi < 2 ^ 64 }
        ensures { result ≡ interval.entry }
    {
        Narrow {
            lo: interval.lo() as u64,
            hi: interval.hi() as u64,
        }
    }

    /// The lower end.
    pub fn lo(&self) -> u64
        ensures end { result ≡ self.now.lo }
        ensures valid { IsNarrow self.now }
    {
        self.lo
    }

    /// The upper end.
    pub fn hi(&self) -> u64
        ensures end { result ≡ self.now.hi }
        ensures valid { IsNarrow self.now }
    {
        self.hi
    }

    /// The interval with `bits` binary places.
    pub fn span(&self, bits: u32) -> Span
        requires { IsWidth bits }
        ensures { result ≡ span_of bits self.now }
    {
        let (lo, hi) = (u128::from(self.lo), u128::from(self.hi));
        if bits == 32 {
            Span::Bits32(Iv::of_ends(lo, hi))
        } else if bits == 48 {
            Span::Bits48(Iv::of_ends(lo, hi))
        } else {
            Span::Bits52(Iv::of_ends(lo, hi))
        }
    }
}
