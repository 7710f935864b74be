//! Curves made by numbers: a count of families with a count of vertices each.
ghost use Rattle.std.specs.Prelude.{◌≡◌, ◌<◌, length, IfOk};
ghost use Rattle.hull.specs.declared.point.Point.{Point};
ghost use Rattle.hull.specs.Curves.{InRange};

use answers::List;
use anyhow::anyhow;
use hull::{Curve, Point};
use std::alloc::Global;

/// Families with a count of vertices each, whose intervals have widths below a number of units. The first family is
/// `dear` times as dear as the others, and falls that much more.
#[derive(Clone, Copy, Drop)]
pub struct Families {
    pub count: u32,
    pub vertices: u32,
    pub widths: u64,
    pub dear: u32,
}

/// A point without stocks, if its numbers are in a curve's ranges.
fn point(alloc: Global, cost: u64, lo: u128, hi: u128) -> anyhow::Result<Point>
    ensures { IfOk result (λ v. InRange v × (length v.stocks ≡ 0)) }
{
    if cost > 1_000_000_000_000 || lo > hi || hi >= 1 << 74 {
        return Err(anyhow!("a point is out of range"));
    }
    let stocks = List::of(Vec::new(alloc));
    Ok(Point {
        cost,
        lo,
        hi,
        stocks,
    })
}

impl Families {
    /// The vertex of a family at a place. Its lower end is the square of the count of vertices left, so it falls less
    /// and less.
    fn vertex(self, alloc: Global, family: u32, place: u32) -> anyhow::Result<Point>
        ensures { IfOk result (λ v. InRange v × (length v.stocks ≡ 0)) }
    {
        let scale = if family == 0 { self.dear } else { 1 };
        let left = u128::from(self.vertices.saturating_sub(place));
        let steep = u128::from(100_000 + family.wrapping_mul(7919) % 10_007) * 10_000;
        let lo = (steep * left * left).saturating_mul(u128::from(scale));
        let mixed = (u64::from(family) * 1000 + u64::from(place)).wrapping_mul(
            11_400_714_819_323_198_485,
        );
        let apiece = u64::from(scale) * u64::from(10 + family % 97);
        let cost = apiece.saturating_mul(u64::from(place));
        let width = u128::from(mixed % self.widths.max(1));
        point(alloc, cost, lo, lo.saturating_add(width))
    }

    /// The curve of a family.
    fn curve(self, alloc: Global, family: u32) -> anyhow::Result<Curve> {
        let first = self.vertex(alloc, family, 0)?;
        let mut curve = Curve::one(alloc, first).map_err(|_| anyhow!("out of memory"))?;
        for place in 1..self.vertices {
            let next = self.vertex(alloc, family, place)?;
            if curve.len() > 1000 {
                return Err(anyhow!("a curve has too many vertices"));
            }
            let Ok(()) = curve.add_point(next) else {
                return Err(anyhow!("out of memory"));
            };
        }
        Ok(curve)
    }

    /// The curves of all families.
    pub fn curves(self, alloc: Global) -> anyhow::Result<Vec<Curve>> {
        let mut curves = Vec::new(alloc);
        for family in 0..self.count {
            curves.push(self.curve(alloc, family)?)?;
        }
        Ok(curves)
    }
}
