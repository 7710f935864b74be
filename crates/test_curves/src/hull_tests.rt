//! Curves of a few points, against a program written apart from this one, and a score.

ghost use Rattle.std.specs.Prelude.{◌≡◌, ◌^◌, ◌<◌, ◌≤◌, IfOk, length};
ghost use Rattle.hull.specs.declared.point.Point.{Point};
ghost use Rattle.hull.specs.Curves.{Among};

use answers::List;
use fixed_interval::Iv;
use hull::{Chain, Curve, Plain, Point, Score, Spot};
use std::alloc::Global;
use std::process::Abort;
use std::test::Fail;

/// The cost, both ends and the stocks of a point.
type Row = (u64, u128, u128, &'static [u8]);

/// All points of a line unit at a depot that may hold 2 and a base that may hold 3.
const LINE_UNIT: [Row; 12] = [
    (0, 844424930131968, 844424930131968, &[0, 0]),
    (100, 576963767330647, 576963767330649, &[0, 1]),
    (200, 351544046257333, 351544046257340, &[0, 2]),
    (300, 189186487776029, 189186487776046, &[0, 3]),
    (100, 601043449118465, 601043449118469, &[1, 0]),
    (200, 359960525514361, 359960525514374, &[1, 1]),
    (300, 190382604440798, 190382604440832, &[1, 2]),
    (400, 90208727985009, 90208727985080, &[1, 3]),
    (200, 433848959499269, 433848959499283, &[2, 0]),
    (300, 222647601450102, 222647601450153, &[2, 1]),
    (400, 99550082158447, 99550082158566, &[2, 2]),
    (500, 39901707478309, 39901707478535, &[2, 3]),
];

const ITS_CURVE: [Row; 6] = [
    (0, 844424930131968, 844424930131968, &[0, 0]),
    (100, 576963767330647, 576963767330649, &[0, 1]),
    (200, 351544046257333, 351544046257340, &[0, 2]),
    (300, 189186487776029, 189186487776046, &[0, 3]),
    (400, 90208727985009, 90208727985080, &[1, 3]),
    (500, 39901707478309, 39901707478535, &[2, 3]),
];

const STEEP: [Row; 3] = [
    (0, 20, 20, &[0, 0]),
    (3, 11, 12, &[0, 1]),
    (9, 2, 3, &[1, 1]),
];

fn point(rt: &impl Abort, alloc: Global, row: &Row) -> Result<Point, Fail>
    ensures { IfOk result (λ v. (v.cost ≤ 1000) × ((v.lo ≤ v.hi) × ((v.hi ≤ 2 ^ 60) × (length v.stocks ≡ 2)))) }
{
    let (cost, lo, hi, list) = *row;
    assert!(rt; cost <= 1000 && lo <= hi && hi <= 1 << 60 && list.len() == 2);
    let mut stocks = Vec::new(alloc);
    stocks.extend_from_slice(list)?;
    Ok(Point {
        cost,
        lo,
        hi,
        stocks: List::of(stocks),
    })
}

fn curve_of(rt: &impl Abort, alloc: Global, rows: &[Row]) -> Result<Curve, Fail>
    ensures { IfOk result (λ curve. (v : Point) → Among v curve → (v.cost ≤ 1000)
        × ((v.lo ≤ v.hi) × ((v.hi ≤ 2 ^ 60) × (length v.stocks ≡ 2)))) }
{
    assert!(rt; rows.len() > 0);
    let first = point(rt, alloc, &rows[0])?;
    let mut curve = Curve::one(alloc, first)?;
    for row in &rows[1..] {
        let next = point(rt, alloc, row)?;
        assert!(rt; curve.len() < 100);
        curve.add_point(next)?;
    }
    Ok(curve)
}

fn points_of(rt: &impl Abort, alloc: Global, rows: &[Row]) -> Result<Vec<Point>, Fail>
    ensures count { IfOk result (λ points. (0 < length points.items) × (length points.items ≤ 100)) }
    ensures each { IfOk result (λ points. (v : Point) → Among v points.items → (v.cost ≤ 1000)
        × ((v.lo ≤ v.hi) × ((v.hi ≤ 2 ^ 60) × (length v.stocks ≡ 2)))) }
{
    let mut points = Vec::new(alloc);
    for row in rows {
        let next = point(rt, alloc, row)?;
        points.push(next)?;
    }
    assert!(rt; points.len() > 0 && points.len() <= 100);
    Ok(points)
}

fn has(rt: &impl Abort, curve: &Curve, rows: &[Row]) {
    assert_eq!(rt; curve.len() as usize, rows.len());
    for k in 0..curve.len() {
        let vertex = curve.point(k);
        let (cost, lo, hi, stocks) = rows[k as usize];
        assert_eq!(rt; (vertex.cost, vertex.lo, vertex.hi), (cost, lo, hi));
        assert_eq!(rt; vertex.stocks.as_slice(), stocks);
    }
}

/// Points, and the vertices of their curve.
const CURVES: [(&[Row], &[Row]); 4] = [
    (&LINE_UNIT, &ITS_CURVE),
    // Of two points at the same place the first one's stocks stay.
    (
        &[
            (0, 9, 9, &[0, 0]),
            (4, 5, 8, &[1, 2]),
            (4, 5, 6, &[1, 0]),
            (4, 5, 7, &[2, 0]),
            (4, 6, 6, &[0, 0]),
        ],
        &[(0, 9, 9, &[0, 0]), (4, 5, 6, &[1, 0])],
    ),
    // A point on the line between two others goes.
    (
        &[
            (0, 12, 12, &[0, 0]),
            (1, 9, 9, &[0, 1]),
            (2, 6, 7, &[0, 2]),
            (3, 3, 3, &[1, 0]),
            (4, 2, 2, &[1, 1]),
        ],
        &[(0, 12, 12, &[0, 0]), (3, 3, 3, &[1, 0]), (4, 2, 2, &[1, 1])],
    ),
    // So does a point above such a line.
    (
        &[
            (2, 8, 8, &[0, 1]),
            (2, 7, 9, &[1, 0]),
            (5, 7, 7, &[1, 1]),
            (6, 8, 8, &[2, 1]),
            (3, 7, 7, &[0, 9]),
            (9, 1, 4, &[2, 2]),
        ],
        &[(2, 7, 9, &[1, 0]), (9, 1, 4, &[2, 2])],
    ),
];

fn have(rt: &impl Abort, alloc: Global, cases: &[(&[Row], &[Row])]) -> Result<(), Fail> {
    for (points, vertices) in cases {
        let curve = curve_of(rt, alloc, points)?;
        has(rt, &curve, vertices);
    }
    Ok(())
}

#[test]
fn makes_curves_of_points(rt: HostRuntime) -> Result<(), Fail> {
    have(&rt, rt.alloc(), CURVES.as_slice())
}

#[test]
fn makes_one_curve_of_all_points_at_once(rt: HostRuntime) -> Result<(), Fail> {
    let points = points_of(&rt, rt.alloc(), &LINE_UNIT)?;
    let curve = Curve::of(rt.alloc(), points)?;
    has(&rt, &curve, &ITS_CURVE);
    Ok(())
}

#[test]
fn adds_points_in_any_order(rt: HostRuntime) -> Result<(), Fail> {
    let mut curve = curve_of(&rt, rt.alloc(), &STEEP)?;
    let points = points_of(
        &rt,
        rt.alloc(),
        &[(9, 2, 5, &[1, 0]), (0, 20, 21, &[0, 1]), (4, 4, 4, &[2, 2])],
    )?;
    assert!(rt; curve.len() < 100);
    curve.add_points(points)?;
    has(
        &rt,
        &curve,
        &[(0, 20, 20, &[0, 0]), (4, 4, 4, &[2, 2]), (9, 2, 5, &[1, 0])],
    );
    Ok(())
}

#[test]
fn makes_chains_of_spots(rt: HostRuntime) -> Result<(), Fail> {
    let alloc = rt.alloc();
    let cheap = Point {
        cost: 0,
        lo: 20,
        hi: 21,
        stocks: List::of(Vec::from_slice(alloc, &[0, 0])?),
    };
    let dear = Point {
        cost: 9,
        lo: 2,
        hi: 5,
        stocks: List::of(Vec::from_slice(alloc, &[1, 0])?),
    };
    let other = Point {
        cost: 1,
        lo: 7,
        hi: 7,
        stocks: List::of(Vec::from_slice(alloc, &[2])?),
    };
    let mut chain = Chain::one(alloc, 1, cheap)?;
    chain.take(dear)?;
    assert_eq!(rt; chain.len(), 2);
    let step = chain.slope(0);
    assert_eq!(rt; (step.p, step.q), (18, 9));
    let vertex = chain.at(1);
    assert_eq!(rt; (vertex.cost(), vertex.lo(), vertex.hi()), (9, 2, 5));
    let mut stocks = Vec::new(alloc);
    vertex.put_stocks(&mut stocks)?;
    assert_eq!(rt; stocks.as_slice(), [1, 0].as_slice());
    chain.begin_with(other);
    assert_eq!(rt; (chain.len(), chain.at(0).lo()), (1, 7));
    Ok(())
}

#[test]
fn joins_and_adds_curves(rt: HostRuntime) -> Result<(), Fail> {
    let mut steep = curve_of(&rt, rt.alloc(), &STEEP)?;
    let flat = curve_of(
        &rt,
        rt.alloc(),
        &[(0, 9, 9, &[3, 0]), (2, 3, 3, &[2, 0]), (8, 0, 1, &[1, 0])],
    )?;
    assert!(rt; steep.len() < 100 && flat.len() < 100);
    let sum = Curve::sum(rt.alloc(), &steep, &flat)?;
    has(
        &rt,
        &sum,
        &[
            (0, 29, 29, &[0, 0, 3, 0]),
            (5, 14, 15, &[0, 1, 2, 0]),
            (11, 5, 6, &[1, 1, 2, 0]),
            (17, 2, 4, &[1, 1, 1, 0]),
        ],
    );
    let other = curve_of(&rt, rt.alloc(), &[(0, 20, 21, &[0, 1]), (9, 2, 5, &[1, 0])])?;
    assert!(rt; steep.len() < 100 && other.len() < 100);
    steep.merge(other)?;
    has(
        &rt,
        &steep,
        &[
            (0, 20, 20, &[0, 0]),
            (3, 11, 12, &[0, 1]),
            (9, 2, 5, &[1, 0]),
        ],
    );
    Ok(())
}

/// Prices, and the best vertex at each: of two least ones, the first.
const PRICES: [(u128, u64, u32); 6] = [
    (0, 1, 5),
    (1 << 74, 1, 0),
    (267461162801321, 100, 0),
    (267461162801320, 100, 1),
    (162357558481304, 100, 2),
    (50307020506699, 100, 5),
];

fn are_best(rt: &impl Abort, curve: &Curve, rows: &[(u128, u64, u32)]) {
    for (p, q, best) in rows {
        assert!(rt; *p <= 1 << 74 && *q <= 100);
        assert_eq!(rt; curve.best_at(*p, *q), *best, "at {p}/{q}");
    }
}

#[test]
fn answers_by_prices(rt: HostRuntime) -> Result<(), Fail> {
    let curve = curve_of(&rt, rt.alloc(), &LINE_UNIT)?;
    are_best(&rt, &curve, PRICES.as_slice());
    assert!(rt; curve.len() == 6);
    let step = curve.slope(2);
    assert_eq!(rt; (step.p, step.q), (162357558481304, 100));
    Ok(())
}

fn scored<S: Score>(score: &S, weight: u8) -> (u128, u128)
    requires { (1 ≤ weight) × (weight ≤ 100) }
{
    let answer = score.of(12, 1, weight, Iv::of_ends(351544046257333, 351544046257340));
    (answer.lo(), answer.hi())
}

#[test]
fn weighs_backorders(rt: HostRuntime) {
    assert_eq!(rt; scored(&Plain, 1), (351544046257333, 351544046257340));
    assert_eq!(rt; scored(&Plain, 3), (1054632138771999, 1054632138772020));
}
