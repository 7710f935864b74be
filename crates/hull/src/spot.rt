//! The interface of a point, by which curves use it however it is stored.

ghost use Rattle.std.specs.Prelude.{◌≡◌, ◌++◌, ◌↔◌, IsTrue, OnOk};
ghost use Rattle.hull.specs.declared.point.Point.{Point};
ghost use Rattle.hull.specs.Curves.{IsFirstOf};

use crate::Point;
use answers::NoMemory;

/// A point, which need not store its stocks as a list.
pub trait Spot: Drop {
    /// The point it represents.
    ghost point: { Self → Point };

    /// The point's cost.
    fn cost(&self) -> u64
        ensures { result ≡ (point self.now).cost };

    /// The lower end of the point's score.
    fn lo(&self) -> u128
        ensures { result ≡ (point self.now).lo };

    /// The upper end of the point's score.
    fn hi(&self) -> u128
        ensures { result ≡ (point self.now).hi };

    /// Whether the point's stocks equal the other's, or come before them in dictionary order.
    fn is_first(&self, other: &Self) -> bool
        ensures { IsTrue result ↔ IsFirstOf (point self.now).stocks (point other.now).stocks };

    /// Appends the point's stocks to `to`. After `NoMemory` only some of them may be appended.
    fn put_stocks(&self, to: &mut Vec<u8>) -> Result<(), NoMemory>
        ensures { OnOk result (to.new.items ≡ to.old.items ++ (point self.now).stocks) };
}

/// Whether `a` equals `b` or comes before it in dictionary order.
pub fn is_first(a: &[u8], b: &[u8]) -> bool
    ensures { IsTrue result ↔ IsFirstOf a.now b.now }
{
    a.cmp(b).is_le()
}

impl Spot for Point {
    ghost point = { λ v. v };

    fn cost(&self) -> u64 {
        self.cost
    }

    fn lo(&self) -> u128 {
        self.lo
    }

    fn hi(&self) -> u128 {
        self.hi
    }

    fn is_first(&self, other: &Point) -> bool {
        is_first(self.stocks.as_slice(), other.stocks.as_slice())
    }

    fn put_stocks(&self, to: &mut Vec<u8>) -> Result<(), NoMemory> {
        to.extend_from_slice(self.stocks.as_slice())?;
        Ok(())
    }
}
