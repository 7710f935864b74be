//! Choices over a few curves, against a program written apart from this one.

ghost use Rattle.std.specs.Prelude.{◌≡◌, ℕ, ◌^◌, ◌<◌, IsTrue, length};
ghost use Rattle.hull.specs.declared.point.Point.{Point};
ghost use Rattle.hull.specs.Curves.{InRange};
ghost use Rattle.step_walk.specs.Prefix.{vertex_at};

use answers::List;
use hull::{Curve, Point};
use marginal_alloc::{Chosen, allocate, allocate_within, fill, first_cost};
use std::alloc::Global;
use std::process::Abort;
use std::test::Fail;

/// The count of pieces of a vertex, and both its ends.
type Row = (u64, u128, u128);

/// A line unit at a depot that may hold 2 and a base that may hold 3.
const LINE_UNIT: [Row; 6] = [
    (0, 844424930131968, 844424930131968),
    (1, 576963767330647, 576963767330649),
    (2, 351544046257333, 351544046257340),
    (3, 189186487776029, 189186487776046),
    (4, 90208727985009, 90208727985080),
    (5, 39901707478309, 39901707478535),
];

/// Upper ends that don't fall all along the curve.
const WIDE: [Row; 4] = [(0, 40, 45), (2, 20, 50), (5, 8, 30), (9, 2, 31)];

/// Vertices of which the first costs money.
const DEARER: [Row; 3] = [(1, 90, 95), (3, 40, 50), (6, 10, 12)];

/// The vertices of all curves, the cost of a piece of each, a budget, the hull choice, and its filling.
#[derive(Clone, Copy, Drop)]
struct Case<'a> {
    rows: &'a [Row],
    apiece: &'a [u64],
    budget: u64,
    picks: &'a [u32],
    cost: u64,
    price: (u128, u64),
    critical: Option<(u32, u32)>,
    filled: &'a [u32],
}

fn point(rt: &impl Abort, alloc: Global, row: Row, apiece: u64) -> Point
    ensures { InRange result × (length result.stocks ≡ 0) }
{
    let (pieces, lo, hi) = row;
    assert!(rt; pieces <= 9 && apiece <= 1000 && lo <= hi && hi < 1 << 60);
    let stocks = List::of(Vec::new(alloc));
    Point {
        cost: pieces * apiece,
        lo,
        hi,
        stocks,
    }
}

fn curve_of(rt: &impl Abort, alloc: Global, rows: &[Row], apiece: u64) -> Result<Curve, Fail> {
    assert!(rt; rows.len() > 0);
    let mut curve = Curve::one(alloc, point(rt, alloc, rows[0], apiece))?;
    for row in &rows[1..] {
        assert!(rt; curve.len() < 100);
        curve.add_point(point(rt, alloc, *row, apiece))?;
    }
    Ok(curve)
}

fn begin_free(curves: &[Curve]) -> bool
    ensures { IsTrue result → (f : ℕ) → f < length curves.now → (vertex_at curves.now f 0).cost ≡ 0 }
{
    for curve in curves {
        if curve.len() == 0 || curve.point(0).cost != 0 {
            return false;
        }
    }
    true
}

fn has(rt: &impl Abort, chosen: &Chosen, case: &Case<'_>) {
    assert_eq!(rt; chosen.picks.as_slice(), case.picks);
    assert_eq!(rt; chosen.cost, case.cost);
    assert_eq!(rt; (chosen.price.p, chosen.price.q), case.price);
    let critical = chosen.critical.map(|c| (c.family, c.vertex));
    assert_eq!(rt; critical, case.critical);
}

fn tried(rt: &impl Abort, alloc: Global, case: &Case<'_>) -> Result<(), Fail> {
    let mut curves = Vec::new(alloc);
    for apiece in case.apiece {
        curves.push(curve_of(rt, alloc, case.rows, *apiece)?)?;
    }
    let free = begin_free(curves.as_slice());
    assert!(rt; curves.len() < 10 && free);
    let chosen = allocate(alloc, curves.as_slice(), case.budget)?;
    has(rt, &chosen, case);
    let mut picks = chosen.picks.into_vec();
    fill(curves.as_slice(), &mut picks, case.budget);
    assert_eq!(rt; picks.as_slice(), case.filled);
    Ok(())
}

/// Choices and their fillings.
const CASES: [Case<'static>; 10] = [
    // No step fits, some do, and all do.
    Case {
        rows: &LINE_UNIT,
        apiece: &[100],
        budget: 0,
        picks: &[0],
        cost: 0,
        price: (267461162801321, 100),
        critical: Some((0, 1)),
        filled: &[0],
    },
    Case {
        rows: &LINE_UNIT,
        apiece: &[100],
        budget: 250,
        picks: &[2],
        cost: 200,
        price: (162357558481304, 100),
        critical: Some((0, 3)),
        filled: &[2],
    },
    Case {
        rows: &LINE_UNIT,
        apiece: &[100],
        budget: 500,
        picks: &[5],
        cost: 500,
        price: (0, 1),
        critical: None,
        filled: &[5],
    },
    // Of equal slopes the first family's step comes first.
    Case {
        rows: &LINE_UNIT,
        apiece: &[100, 100],
        budget: 150,
        picks: &[1, 0],
        cost: 100,
        price: (267461162801321, 100),
        critical: Some((1, 1)),
        filled: &[1, 0],
    },
    Case {
        rows: &LINE_UNIT,
        apiece: &[100, 100, 100],
        budget: 500,
        picks: &[2, 2, 1],
        cost: 500,
        price: (225419721073314, 100),
        critical: Some((2, 2)),
        filled: &[2, 2, 1],
    },
    // The money left after the critical step buys the last vertex of the other family.
    Case {
        rows: &LINE_UNIT,
        apiece: &[100, 30],
        budget: 160,
        picks: &[0, 4],
        cost: 120,
        price: (267461162801321, 100),
        critical: Some((0, 1)),
        filled: &[0, 5],
    },
    // A filling goes back if an earlier upper end is lower.
    Case {
        rows: &WIDE,
        apiece: &[1],
        budget: 4,
        picks: &[1],
        cost: 2,
        price: (12, 3),
        critical: Some((0, 2)),
        filled: &[0],
    },
    Case {
        rows: &WIDE,
        apiece: &[1],
        budget: 9,
        picks: &[3],
        cost: 9,
        price: (0, 1),
        critical: None,
        filled: &[2],
    },
    // A curve of one vertex, and no curve at all.
    Case {
        rows: &[(0, 7, 9)],
        apiece: &[1],
        budget: 1_000_000_000_000_000,
        picks: &[0],
        cost: 0,
        price: (0, 1),
        critical: None,
        filled: &[0],
    },
    Case {
        rows: &LINE_UNIT,
        apiece: &[],
        budget: 0,
        picks: &[],
        cost: 0,
        price: (0, 1),
        critical: None,
        filled: &[],
    },
];

fn all_tried(rt: &impl Abort, alloc: Global, cases: &[Case<'_>]) -> Result<(), Fail> {
    for case in cases {
        tried(rt, alloc, case)?;
    }
    Ok(())
}

#[test]
fn chooses_and_fills(rt: HostRuntime) -> Result<(), Fail> {
    all_tried(&rt, rt.alloc(), CASES.as_slice())
}

#[test]
fn chooses_above_cost_0(rt: HostRuntime) -> Result<(), Fail> {
    let alloc = rt.alloc();
    let one = curve_of(&rt, alloc, DEARER.as_slice(), 10)?;
    let other = curve_of(&rt, alloc, DEARER.as_slice(), 10)?;
    let curves = Vec::from_array(alloc, [one, other])?;
    let slice = curves.as_slice();
    let first = first_cost(alloc, slice)?;
    assert_eq!(rt; first, 20);
    let chosen = allocate_within(alloc, slice, 45, 0)?;
    let case = Case {
        rows: &DEARER,
        apiece: &[10, 10],
        budget: 45,
        picks: &[1, 0],
        cost: 40,
        price: (50, 20),
        critical: Some((1, 1)),
        filled: &[],
    };
    has(&rt, &chosen, &case);
    Ok(())
}
