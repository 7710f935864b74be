//! Curves and counts of families, over tables. The numbers come from a program written apart from this one, which tries
//! each vector of a small family.
ghost use Rattle.std.specs.Prelude.{◌≡◌, ◌≤◌, true};
ghost use Rattle.std.specs.List.{AllZip};
ghost use Rattle.family_items.specs.Inputs.{IsLine};
ghost use Rattle.family_points.specs.Points.{AreOrdered};

use answers::List;
use family_curve::{curve, curve_within};
use family_points::{Bounds, choices, limits_of, tables, tables_within, work};
use hull::{Curve, Plain, Point};
use spares_input::{Case, PartId};
use std::alloc::Global;
use std::test::*;
use test_inputs::{family_of, rates_of};

/// A line unit alone with 20,000 choices.
const FEW: [&str; 3] = [
    "site,kind,systems,ship_days\nD,depot,,\nB1,base,12,10\nB2,base,12,10\n",
    "part,parent,cost,per_system,max_depot,max_base\nL,,100,1,49,19\n",
    "part,site,demand,repair_here,share,repair_days\nL,D,,,,20\nL,B1,3.65,0,,0\nL,B2,3.65,0,,0\n",
];
/// A line unit alone with 20,160 choices.
const MORE: [&str; 3] = [
    "site,kind,systems,ship_days\nD,depot,,\nB1,base,12,10\nB2,base,12,10\n",
    "part,parent,cost,per_system,max_depot,max_base\nL,,100,1,34,23\n",
    "part,site,demand,repair_here,share,repair_days\nL,D,,,,20\nL,B1,3.65,0,,0\nL,B2,3.65,0,,0\n",
];
/// A line unit alone at 15 bases with 63 at each site: more choices than a count holds.
const LARGE: [&str; 3] = [
    "site,kind,systems,ship_days\nD,depot,,\nB1,base,12,10\nB2,base,12,10\nB3,base,12,10\nB4,base,12,10\nB5,base,12,10\nB6,base,12,10\nB7,base,12,10\nB8,base,12,10\nB9,base,12,10\nB10,base,12,10\nB11,base,12,10\nB12,base,12,10\nB13,base,12,10\nB14,base,12,10\nB15,base,12,10\n",
    "part,parent,cost,per_system,max_depot,max_base\nL,,100,1,63,63\n",
    "part,site,demand,repair_here,share,repair_days\nL,D,,,,20\nL,B1,3.65,0,,0\nL,B2,3.65,0,,0\nL,B3,3.65,0,,0\nL,B4,3.65,0,,0\nL,B5,3.65,0,,0\nL,B6,3.65,0,,0\nL,B7,3.65,0,,0\nL,B8,3.65,0,,0\nL,B9,3.65,0,,0\nL,B10,3.65,0,,0\nL,B11,3.65,0,,0\nL,B12,3.65,0,,0\nL,B13,3.65,0,,0\nL,B14,3.65,0,,0\nL,B15,3.65,0,,0\n",
];
/// A line unit with two shop units; the depot may have 9 of each.
const SHOPS: [&str; 3] = [
    "site,kind,systems,ship_days\nD,depot,,\na,base,10,5\nb,base,10,5\nc,base,10,5\n",
    "part,parent,cost,per_system,max_depot,max_base,weight\nL,,1,1,9,3,1\nS,L,1,,9,9,\nR,L,1,,9,9,\n",
    "part,site,demand,repair_here,share,repair_days\nL,D,,,,10\nL,a,36.5,0.5,,5\nL,b,18.25,0.5,,5\nL,c,7.3,0.5,,5\nS,D,,,0.4,20\nS,a,,0.25,0.4,5\nS,b,,0.25,0.4,5\nS,c,,0.25,0.4,5\nR,D,,,0.4,20\nR,a,,0.25,0.4,5\nR,b,,0.25,0.4,5\nR,c,,0.25,0.4,5\n",
];
/// The same with 63 of each.
const HUGE: [&str; 3] = [
    "site,kind,systems,ship_days\nD,depot,,\na,base,10,5\nb,base,10,5\nc,base,10,5\n",
    "part,parent,cost,per_system,max_depot,max_base,weight\nL,,1,1,63,3,1\nS,L,1,,63,63,\nR,L,1,,63,63,\n",
    "part,site,demand,repair_here,share,repair_days\nL,D,,,,10\nL,a,36.5,0.5,,5\nL,b,18.25,0.5,,5\nL,c,7.3,0.5,,5\nS,D,,,0.4,20\nS,a,,0.25,0.4,5\nS,b,,0.25,0.4,5\nS,c,,0.25,0.4,5\nR,D,,,0.4,20\nR,a,,0.25,0.4,5\nR,b,,0.25,0.4,5\nR,c,,0.25,0.4,5\n",
];
/// A line unit with a shop unit, 64 vectors.
const ONE: [&str; 3] = [
    "site,kind,systems,ship_days\nD,depot,,\na,base,10,5\nb,base,10,5\n",
    "part,parent,cost,per_system,max_depot,max_base,weight\nL,,1,1,1,1,7\nS,L,1,,1,1,\n",
    "part,site,demand,repair_here,share,repair_days\nL,D,,,,10\nL,a,36.5,0.5,,5\nL,b,18.25,0.5,,5\nS,D,,,0.4,20\nS,a,,0.25,0.4,5\nS,b,,0.25,0.4,5\n",
];
/// A line unit with two shop units, 1,152 vectors.
const TWO: [&str; 3] = [
    "site,kind,systems,ship_days\nD,depot,,\na,base,10,5\nb,base,10,5\n",
    "part,parent,cost,per_system,max_depot,max_base,weight\nL,,10,1,1,2,7\nS,L,3,,1,1,\nR,L,2,,1,1,\n",
    "part,site,demand,repair_here,share,repair_days\nL,D,,,,10\nL,a,36.5,0.5,,5\nL,b,18.25,0.5,,5\nS,D,,,0.4,20\nS,a,,0.25,0.4,5\nS,b,,0.25,0.4,5\nR,D,,,0.4,20\nR,a,,0.25,0.4,5\nR,b,,0.25,0.4,5\n",
];
/// Six line units at three bases.
const FLEET: [&str; 3] = [
    "site,kind,systems,ship_days\nD,depot,,\nNorth,base,24,2\nSouth,base,24,2\nEast,base,24,2\n",
    "part,parent,cost,per_system,max_depot,max_base\nradar,,80000,1,4,3\nradar-rf,radar,12000,,4,0\nradar-ps,radar,7000,,4,0\nradio,,30000,1,4,3\nradio-board,radio,5000,,4,1\npump,,9000,1,4,3\ngyro,,45000,1,4,3\ndisplay,,16000,1,4,3\nvalve,,2500,1,4,3\n",
    "part,site,demand,repair_here,share,repair_days\nradar,D,,,,60\nradar,North,23.2,0.2,,5\nradar,South,23.2,0.2,,5\nradar,East,23.2,0.2,,5\nradar-rf,D,,,0.4,30\nradar-rf,North,,0.1,0.3,4\nradar-rf,South,,0.1,0.3,4\nradar-rf,East,,0.1,0.3,4\nradar-ps,D,,,0.4,30\nradar-ps,North,,0.1,0.3,4\nradar-ps,South,,0.1,0.3,4\nradar-ps,East,,0.1,0.3,4\nradio,D,,,,60\nradio,North,11.6,0.2,,5\nradio,South,11.6,0.2,,5\nradio,East,11.6,0.2,,5\nradio-board,D,,,0.4,30\nradio-board,North,,0.1,0.3,4\nradio-board,South,,0.1,0.3,4\nradio-board,East,,0.1,0.3,4\npump,D,,,,60\npump,North,5.8,0.2,,5\npump,South,5.8,0.2,,5\npump,East,5.8,0.2,,5\ngyro,D,,,,60\ngyro,North,2.9,0.2,,5\ngyro,South,2.9,0.2,,5\ngyro,East,2.9,0.2,,5\ndisplay,D,,,,60\ndisplay,North,8.7,0.2,,5\ndisplay,South,8.7,0.2,,5\ndisplay,East,8.7,0.2,,5\nvalve,D,,,,60\nvalve,North,14.5,0.2,,5\nvalve,South,14.5,0.2,,5\nvalve,East,14.5,0.2,,5\n",
];
/// The choices and the tables of a case's first family, and the work of the case.
fn counts(alloc: Global, files: [&str; 3]) -> Option<(u64, u64, Result<u64, u64>)> {
    let case = family_of(alloc, files)?;
    let line = PartId(0);
    let counts = (choices(&case, line), tables(&case, line), work(&case));
    drop(case);
    Some(counts)
}

#[test]
fn counts_choices_and_tables(rt: HostRuntime) {
    let alloc = rt.alloc();
    let rows = [
        (FEW, 20_000, 101, Ok(101)),
        (MORE, 20_160, 71, Ok(71)),
        (LARGE, u64::MAX, 961, Ok(961)),
        (SHOPS, 64_000_000_000, 300_162, Ok(300_162)),
        (HUGE, 1 << 60, 3_221_229_954, Err(3_221_229_954)),
        (FLEET, 8_000, 432, Ok(667)),
    ];
    for (files, choices, tables, work) in rows {
        let found = counts(alloc, files);
        assert!(&rt; found == Some((choices, tables, work)), "{choices} choices");
    }
}

fn with(digest: u128, value: u128) -> u128 {
    digest.wrapping_mul(1_000_003).wrapping_add(value)
}

fn with_point(digest: u128, point: &Point) -> u128 {
    let mut digest = with(digest, u128::from(point.cost));
    digest = with(with(digest, point.lo), point.hi);
    for stock in point.stocks.as_slice() {
        digest = with(digest, u128::from(*stock));
    }
    digest
}

/// The count of vertices, and a digest of their costs, ends and stocks in order.
fn digest(curve: &Curve) -> (u32, u128) {
    let mut digest = 0;
    for k in 0..curve.len() {
        digest = with_point(digest, curve.point(k));
    }
    (curve.len(), digest)
}

/// The curve of a case's first family.
fn whole_of(alloc: Global, case: &Case) -> Option<(u32, u128)>
    requires { IsLine case.now 0 }
{
    let line = PartId(0);
    if tables(case, line) > 1_000_000 {
        return None;
    }
    let rates = rates_of(alloc, case)?;
    let curve = curve(alloc, case, &rates, line, &Plain).ok()?;
    Some(digest(&curve))
}

/// The curve of the first family of these tables.
fn whole(alloc: Global, files: [&str; 3]) -> Option<(u32, u128)> {
    let case = family_of(alloc, files)?;
    let found = whole_of(alloc, &case);
    drop(case);
    found
}

#[test]
fn gives_curves_of_families(rt: HostRuntime) {
    let alloc = rt.alloc();
    let rows = [
        (ONE, (7, 193977470112981834042434802853193262313)),
        (TWO, (17, 120627936452521600702596185247371634317)),
        (LARGE, (34, 1562863434190421847038018715338107042)),
    ];
    for (files, want) in rows {
        assert!(&rt; whole(alloc, files) == Some(want), "{} vertices", want.0);
    }
}

/// Whether the lists have the same length, and at each place the first has no more than the second.
fn is_at_most(low: &[u8], high: &[u8]) -> bool
    ensures { result ≡ true → AllZip (λ x y. x ≤ y) low.now high.now }
{
    if low.len() != high.len() {
        return false;
    }
    for i in 0..low.len() {
        if low[i] > high[i] {
            return false;
        }
    }
    true
}

fn list_of(alloc: Global, stocks: &[u8]) -> Option<List<u8>> {
    let mut list = Vec::new(alloc);
    match list.extend_from_slice(stocks) {
        Ok(()) => Some(List::of(list)),
        Err(_) => None,
    }
}

fn bounds_of(alloc: Global, held: &[u8], low: &[u8], high: &[u8]) -> Option<Bounds> {
    Some(Bounds {
        held: list_of(alloc, held)?,
        low: list_of(alloc, low)?,
        high: list_of(alloc, high)?,
    })
}

/// Whether the bounds are in order.
fn are_ordered(alloc: Global, case: &Case, bounds: &Bounds) -> bool
    requires { IsLine case.now 0 }
    ensures { result ≡ true → AreOrdered case.now 0 bounds.now.held bounds.now.low bounds.now.high }
{
    let Ok(limits) = limits_of(alloc, case, PartId(0)) else {
        return false;
    };
    is_at_most(bounds.held.as_slice(), bounds.low.as_slice())
        && is_at_most(bounds.low.as_slice(), bounds.high.as_slice())
        && is_at_most(bounds.high.as_slice(), limits.as_slice())
}

/// The tables and the curve of a case's first family within bounds.
fn between_of(alloc: Global, case: &Case, bounds: &Bounds) -> Option<(u64, (u32, u128))>
    requires { IsLine case.now 0 }
{
    if !are_ordered(alloc, case, bounds) {
        return None;
    }
    let line = PartId(0);
    let tables = tables_within(case, line, bounds);
    if tables > 1_000_000 {
        return None;
    }
    let rates = rates_of(alloc, case)?;
    let curve = curve_within(alloc, case, &rates, line, bounds, &Plain).ok()?;
    Some((tables, digest(&curve)))
}

/// The same of the first family of these tables.
fn between(alloc: Global, files: [&str; 3], bounds: &Bounds) -> Option<(u64, (u32, u128))> {
    let case = family_of(alloc, files)?;
    let found = between_of(alloc, &case, bounds);
    drop(case);
    found
}

#[test]
fn gives_the_curve_above_held_stocks(rt: HostRuntime) {
    let alloc = rt.alloc();
    let held = [0, 1, 0, 1, 0, 0, 0, 0, 1];
    let low = [0, 1, 0, 1, 0, 1, 0, 0, 1];
    let high = [1, 1, 1, 2, 1, 1, 2, 0, 1];
    let bounds = bounds_of(alloc, &held, &low, &high).expect(&rt, "bounds");
    let want = (8, 237161499891616706070603943364137705861);
    assert!(&rt; between(alloc, TWO, &bounds) == Some((22, want)));
}

#[test]
fn gives_the_curve_of_one_vector(rt: HostRuntime) {
    let alloc = rt.alloc();
    let one = [1, 0, 1, 2, 1, 0, 0, 1, 1];
    let bounds = bounds_of(alloc, &[0; 9], &one, &one).expect(&rt, "bounds");
    let want = (1, 14466432628601485881905998252121245329);
    assert!(&rt; between(alloc, TWO, &bounds) == Some((9, want)));
}
