//! The rates of small cases.

ghost use Rattle.std.specs.Prelude.{◌<◌, ◌≤◌, length, vec_len, All, IfOk, IfSome};
ghost use Rattle.spares_input.specs.Rows.{IsSiteRow, IsPartRow};
ghost use Rattle.spares_input.specs.Cases.{IsRateOf};
ghost use Rattle.demand_rates.specs.Rates.{AreRatesOf};

use answers::{NoMemory, Stop};
use demand_rates::kinds::{PairRates, Rates};
use demand_rates::{Place, RateFault, rates};
use exact_ratio::Ratio;
use spares_input::{Case, Frame, Name, PartId, PartRow, RateRow, SiteId, SiteRow};
use std::alloc::Global;
use std::test::*;

/// Demand, repair here, share and days of a pair. Fields that the pair doesn't have are dropped.
#[derive(Clone, Copy)]
struct Fields(u32, u16, u16, u32);

fn depot(name: Name) -> SiteRow
    ensures { IsSiteRow result }
{
    name.invariant();
    SiteRow {
        name,
        depot: true,
        systems: 0,
        ship: 0,
    }
}

fn base(name: Name, ship: u32) -> SiteRow
    ensures { IsSiteRow result }
{
    name.invariant();
    SiteRow {
        name,
        depot: false,
        systems: 1,
        ship: ship.min(999999),
    }
}

fn line_unit(name: Name) -> PartRow
    ensures { IsPartRow result }
{
    name.invariant();
    PartRow {
        name,
        parent: None,
        cost: 1,
        per_system: 1,
        max_depot: 1,
        max_base: 1,
        weight: 1,
    }
}

fn shop_unit(name: Name, line: Name) -> PartRow
    ensures { IsPartRow result }
{
    name.invariant();
    line.invariant();
    PartRow {
        name,
        parent: Some(line),
        cost: 1,
        per_system: 0,
        max_depot: 1,
        max_base: 1,
        weight: 0,
    }
}

fn rate(frame: &Frame, part: PartId, site: SiteId, fields: Fields) -> RateRow
    requires part { part.0 < length frame.now.parts }
    requires site { site.0 < length frame.now.sites }
    ensures { IsRateOf frame.now result }
{
    let is_line = frame.is_line(part);
    let is_depot = site.0 == 0;
    RateRow {
        part,
        site,
        demand: if is_line && !is_depot {
            fields.0.min(1000000000)
        } else {
            0
        },
        repair_here: if is_depot { 0 } else { fields.1.min(10000) },
        share: if is_line { 0 } else { fields.2.min(10000) },
        repair_days: fields.3.min(999999),
    }
}

/// The rows of all pairs: one of these at the depot, and the same one at each base.
fn rates_of(
    alloc: Global,
    frame: &Frame,
    fields: &[(Fields, Fields)],
) -> Result<Vec<RateRow>, NoMemory>
    ensures { IfOk result (λ rates. All (IsRateOf frame.now) rates.items) }
{
    let mut rates = Vec::new(alloc);
    let sites = frame.site_count() as usize;
    for i in 0..fields.len() * 16 {
        let part = i / sites;
        if part >= frame.part_count() as usize || part >= fields.len() {
            return Ok(rates);
        }
        let site = SiteId((i % sites) as u8);
        let row = if site.0 == 0 {
            fields[part].0
        } else {
            fields[part].1
        };
        rates.push(rate(frame, PartId(part as u16), site, row))?;
    }
    Ok(rates)
}

/// A depot and bases, all with this time from the depot.
fn sites_of(alloc: Global, bases: u8, ship: u32) -> Option<Vec<SiteRow>>
    requires { bases ≤ 15 }
    ensures rows { IfSome result (λ v. All IsSiteRow v.items) }
    ensures few { IfSome result (λ v. vec_len v ≤ 16) }
{
    let Ok(mut sites) = Vec::from_array(alloc, [depot(Name::of(b"D")?)]) else {
        return None;
    };
    for k in 0..bases {
        let name = Name::of(&[b'a' + k])?;
        let Ok(()) = sites.push(base(name, ship)) else {
            return None;
        };
    }
    Some(sites)
}

/// A line unit, and a shop unit of it if there are two parts.
fn parts_of(alloc: Global, count: usize) -> Option<Vec<PartRow>>
    ensures rows { IfSome result (λ v. All IsPartRow v.items) }
    ensures few { IfSome result (λ v. vec_len v ≤ 2) }
{
    let (line, shop) = (Name::of(b"L")?, Name::of(b"S")?);
    if count < 2 {
        return Vec::from_array(alloc, [line_unit(line)]).ok();
    }
    Vec::from_array(alloc, [line_unit(line), shop_unit(shop, line)]).ok()
}

fn case_of(alloc: Global, bases: u8, ship: u32, fields: &[(Fields, Fields)]) -> Option<Case>
    requires { bases ≤ 15 }
{
    let sites = sites_of(alloc, bases, ship)?;
    let parts = parts_of(alloc, fields.len())?;
    let Ok(frame) = Frame::build(alloc, sites, parts) else {
        return None;
    };
    let Ok(rates) = rates_of(alloc, &frame, fields) else {
        return None;
    };
    Case::build(alloc, frame, rates).ok()
}

/// The rates of all pairs, by the getters.
fn pairs_of(alloc: Global, case: &Case, rates: &Rates) -> Option<Vec<PairRates>>
    requires { AreRatesOf case.now rates.now }
{
    let mut pairs = Vec::new(alloc);
    let parts = case.part_count();
    let sites = case.site_count();
    for p in 0..parts {
        for k in 0..sites {
            let (part, site) = (PartId(p), SiteId(k));
            let pair = PairRates {
                demand: rates.demand(part, site),
                share: rates.share(part, site),
                direct: rates.direct(part, site),
                zero_stock: rates.zero_stock(part, site),
            };
            let Ok(()) = pairs.push(pair) else {
                return None;
            };
        }
    }
    Some(pairs)
}

/// Whether a case has these rates or this refusal.
fn has(alloc: Global, case: &Case, want: Result<&[PairRates], RateFault>) -> bool {
    match (rates(alloc, case), want) {
        (Ok(rates), Ok(want)) => match pairs_of(alloc, case, &rates) {
            Some(pairs) => pairs.as_slice() == want,
            None => false,
        },
        (Err(Stop::Fault(fault)), Err(want)) => fault == want,
        _ => false,
    }
}

/// Whether the case of these fields has these rates or this refusal.
fn gives(
    alloc: Global,
    bases: u8,
    ship: u32,
    fields: &[(Fields, Fields)],
    want: Result<&[PairRates], RateFault>,
) -> bool
    requires { bases ≤ 15 }
{
    let Some(case) = case_of(alloc, bases, ship, fields) else {
        return false;
    };
    let is_given = has(alloc, &case, want);
    drop(case);
    is_given
}

/// The rates of a pair: its demand, its share, its direct pipeline and its mean without stock.
macro_rules! pair {
    (($demand:expr, $per:expr), ($share:expr, $of:expr), $direct:expr, $zero_stock:expr $(,)?) => {
        PairRates {
            demand: Ratio {
                num: $demand,
                den: $per,
            },
            share: Ratio {
                num: $share,
                den: $of,
            },
            direct: $direct,
            zero_stock: $zero_stock,
        }
    };
}

/// A pipeline over 365 * 10^18.
macro_rules! in_days {
    ($num:expr) => {
        Ratio {
            num: $num,
            den: 365_000_000_000_000_000_000,
        }
    };
}

/// A line unit alone, with one base: its fields at the depot and at the base, and its rates or the refusal.
#[derive(Clone, Copy)]
struct LineRow {
    ship: u32,
    days: u32,
    base: Fields,
    want: Result<[PairRates; 2], RateFault>,
}

const AT_BASE: Place = Place::Pair(PartId(0), SiteId(1));

const LINE_ROWS: [LineRow; 9] = [
    LineRow {
        ship: 1000,
        days: 2000,
        base: Fields(365_000, 0, 0, 0),
        want: Ok([
            pair!(
                (3_650_000_000, 100_000_000),
                (1, 1),
                730_000_000_000_000_000_000,
                730_000_000_000_000_000_000,
            ),
            pair!(
                (365_000, 10_000),
                (3_650_000_000, 3_650_000_000),
                365_000_000_000_000_000_000,
                1_095_000_000_000_000_000_000,
            ),
        ]),
    },
    // No time to the base, and so no direct pipeline there.
    LineRow {
        ship: 0,
        days: 2000,
        base: Fields(365_000, 0, 0, 0),
        want: Err(RateFault::ThinPipeline {
            place: AT_BASE,
            direct: in_days!(0),
        }),
    },
    // No demand.
    LineRow {
        ship: 1000,
        days: 2000,
        base: Fields(0, 0, 0, 0),
        want: Ok([
            pair!((0, 100_000_000), (1, 1), 0, 0),
            pair!((0, 10_000), (0, 1), 0, 0),
        ]),
    },
    // A mean of 256, and just over.
    LineRow {
        ship: 1000,
        days: 933_400,
        base: Fields(100_000, 0, 0, 0),
        want: Ok([
            pair!(
                (1_000_000_000, 100_000_000),
                (1, 1),
                93_340_000_000_000_000_000_000,
                93_340_000_000_000_000_000_000,
            ),
            pair!(
                (100_000, 10_000),
                (1_000_000_000, 1_000_000_000),
                100_000_000_000_000_000_000,
                93_440_000_000_000_000_000_000,
            ),
        ]),
    },
    LineRow {
        ship: 1000,
        days: 933_401,
        base: Fields(100_000, 0, 0, 0),
        want: Err(RateFault::PipelineTooLarge {
            place: AT_BASE,
            mean: in_days!(93_440_100_000_000_000_000_000),
        }),
    },
    // A mean of 1024 times the direct pipeline, and just over.
    LineRow {
        ship: 100,
        days: 102_300,
        base: Fields(100_000, 0, 0, 0),
        want: Ok([
            pair!(
                (1_000_000_000, 100_000_000),
                (1, 1),
                10_230_000_000_000_000_000_000,
                10_230_000_000_000_000_000_000,
            ),
            pair!(
                (100_000, 10_000),
                (1_000_000_000, 1_000_000_000),
                10_000_000_000_000_000_000,
                10_240_000_000_000_000_000_000,
            ),
        ]),
    },
    LineRow {
        ship: 100,
        days: 102_301,
        base: Fields(100_000, 0, 0, 0),
        want: Err(RateFault::PipelineRatio {
            place: AT_BASE,
            mean: in_days!(10_240_100_000_000_000_000_000),
            direct: in_days!(10_000_000_000_000_000_000),
        }),
    },
    // A direct pipeline of 1/10,000,000, and just under.
    LineRow {
        ship: 1,
        days: 1000,
        base: Fields(73, 5000, 0, 0),
        want: Ok([
            pair!(
                (365_000, 100_000_000),
                (1, 1),
                36_500_000_000_000_000,
                36_500_000_000_000_000,
            ),
            pair!(
                (73, 10_000),
                (365_000, 365_000),
                36_500_000_000_000,
                36_536_500_000_000_000,
            ),
        ]),
    },
    LineRow {
        ship: 1,
        days: 1000,
        base: Fields(72, 5000, 0, 0),
        want: Err(RateFault::ThinPipeline {
            place: AT_BASE,
            direct: in_days!(36_000_000_000_000),
        }),
    },
];

/// Whether each row has its rates.
fn all_give(alloc: Global, rows: &[LineRow]) -> bool {
    for row in rows {
        let fields = [(Fields(0, 0, 0, row.days), row.base)];
        let is_given = match &row.want {
            Ok(want) => gives(alloc, 1, row.ship, &fields, Ok(want)),
            Err(want) => gives(alloc, 1, row.ship, &fields, Err(*want)),
        };
        if !is_given {
            return false;
        }
    }
    true
}

#[test]
fn rates_a_line_unit(rt: HostRuntime) {
    assert!(&rt; all_give(rt.alloc(), LINE_ROWS.as_slice()));
}

/// The fields of a line unit at the depot and at the base.
const LINE: (Fields, Fields) = (Fields(0, 0, 0, 1000), Fields(365_000, 5000, 0, 500));

#[test]
fn rates_a_shop_unit(rt: HostRuntime) {
    let fields = [LINE, (Fields(0, 0, 4000, 2000), Fields(0, 2500, 4000, 500))];
    let want = [
        pair!(
            (1_825_000_000, 100_000_000),
            (1, 1),
            182_500_000_000_000_000_000,
            328_500_000_000_000_000_000,
        ),
        pair!(
            (365_000, 10_000),
            (1_825_000_000, 1_825_000_000),
            182_500_000_000_000_000_000,
            657_000_000_000_000_000_000,
        ),
        pair!(
            (127_750_000_000_000_000, 10_000_000_000_000_000),
            (73_000_000_000_000_000, 127_750_000_000_000_000),
            255_500_000_000_000_000_000,
            255_500_000_000_000_000_000,
        ),
        pair!(
            (7_300_000_000_000, 1_000_000_000_000),
            (54_750_000_000_000_000, 127_750_000_000_000_000),
            36_500_000_000_000_000_000,
            146_000_000_000_000_000_000,
        ),
    ];
    assert!(&rt; gives(rt.alloc(), 1, 500, &fields, Ok(&want)));
}

// No repair at the depot needs the shop unit, and the base sends none: its demand at the depot is 0.
#[test]
fn rates_a_shop_unit_without_demand(rt: HostRuntime) {
    let fields = [LINE, (Fields(0, 0, 0, 2000), Fields(0, 10_000, 4000, 500))];
    let want = [
        pair!(
            (1_825_000_000, 100_000_000),
            (1, 1),
            182_500_000_000_000_000_000,
            182_500_000_000_000_000_000,
        ),
        pair!(
            (365_000, 10_000),
            (1_825_000_000, 1_825_000_000),
            182_500_000_000_000_000_000,
            401_500_000_000_000_000_000,
        ),
        pair!((0, 10_000_000_000_000_000), (0, 1), 0, 0),
        pair!(
            (7_300_000_000_000, 1_000_000_000_000),
            (0, 1),
            36_500_000_000_000_000_000,
            36_500_000_000_000_000_000,
        ),
    ];
    assert!(&rt; gives(rt.alloc(), 1, 500, &fields, Ok(&want)));
}

#[test]
fn rates_the_largest_fields_at_15_bases(rt: HostRuntime) {
    let fields = [
        (
            Fields(0, 0, 0, 999_999),
            Fields(1_000_000_000, 0, 0, 999_999),
        ),
        (Fields(0, 0, 10_000, 999_999), Fields(0, 0, 10_000, 999_999)),
    ];
    let want = RateFault::PipelineTooLarge {
        place: Place::Pair(PartId(0), SiteId(0)),
        mean: in_days!(29_999_970_000_000_000_000_000_000_000),
    };
    assert!(&rt; gives(rt.alloc(), 15, 999_999, &fields, Err(want)));
}
