//! The texts of plans, checks and demonstrations.

ghost use Rattle.std.specs.Prelude.{◌≡◌, All, IfOk, IfSome};
ghost use Rattle.case_figures.specs.Fits.{FitsPrint, ItemFits, SpanFits};
ghost use Rattle.plan_report.specs.Fits.{FitsPlan, IntervalFits, PriceFits, UnitsFit};

use answers::{List, NoMemory};
use case_figures::{BaseLine, CompactItem, Figures, Items, Narrow, Span};
use fixed_interval::Iv;
use hull::Price;
use plan_report::{CheckReport, CriticalLine, PlanReport, Summary};
use spares_input::{Name, PartId, SiteId};
use std::alloc::Global;
use std::test::*;

/// The lower end of an interval in units of 2^-48, and its width.
type Ends = (u64, u64);

/// The plan of a line unit of cost 100 at the depot and one base, and its text.
struct Row {
    budget: u64,
    cost: u64,
    on_hand: Option<u64>,
    /// The stock at each site, and the ends of its mean, variance, backorders and spread.
    sites: [(u8, [Ends; 4]); 2],
    available: Ends,
    total: Ends,
    loss: Option<Ends>,
    bound: u64,
    gap: u64,
    rounding: u64,
    /// The fall of the critical step, if there is one.
    fall: Option<u64>,
    hull: u64,
    text: &'static str,
}

const TWO: Ends = (562_949_953_421_312, 0);

const THREE: Ends = (844_424_930_131_968, 0);

/// Nothing in stock.
const EMPTY: [(u8, [Ends; 4]); 2] = [(0, [TWO, TWO, TWO, TWO]), (0, [THREE, THREE, THREE, THREE])];

const ROWS: [Row; 4] = [
    Row {
        budget: 0,
        cost: 0,
        on_hand: None,
        sites: EMPTY,
        available: (211_106_232_532_992, 0),
        total: THREE,
        loss: None,
        bound: 844_424_930_131_968,
        gap: 0,
        rounding: 3,
        fall: Some(267_461_162_801_321),
        hull: 0,
        text: "plan,0\ncost,0\n\
            item,L,D,0,2.000000,2.000000,2.000000,2.000000,2.000000,2.000000,2.000000,2.000000\n\
            item,L,B,0,3.000000,3.000000,3.000000,3.000000,3.000000,3.000000,3.000000,3.000000\n\
            base,B,0.750000,0.750000\nfleet,0.750000,0.750000\ntotal,3.000000,3.000000\n\
            bound,3.000000\ngap,0.000000\nrounding,0.000001\nprice,0.009502129316\nhull,0\ncritical,L,100\n",
    },
    Row {
        budget: 500,
        cost: 500,
        on_hand: None,
        sites: [
            (
                2,
                [
                    TWO,
                    TWO,
                    (152_373_982_788_613, 14),
                    (251_902_674_764_004, 49),
                ],
            ),
            (
                3,
                [
                    (433_848_959_499_269, 14),
                    (533_377_651_474_660, 49),
                    (39_901_707_478_309, 226),
                    (78_284_424_246_045, 916),
                ],
            ),
        ],
        available: (278_149_834_420_778, 19),
        total: (39_901_707_478_309, 226),
        loss: None,
        bound: 39_901_707_478_309,
        gap: 226,
        rounding: 227,
        fall: None,
        hull: 500,
        text: "plan,500\ncost,500\n\
            item,L,D,2,2.000000,2.000000,2.000000,2.000000,0.541341,0.541342,0.894938,0.894939\n\
            item,L,B,3,1.541341,1.541342,1.894938,1.894939,0.141759,0.141760,0.278122,0.278123\n\
            base,B,0.988186,0.988187\nfleet,0.988186,0.988187\ntotal,0.141759,0.141760\n\
            bound,0.141759\ngap,0.000001\nrounding,0.000001\nprice,0.000000000000\nhull,500\ncritical,none\n",
    },
    Row {
        budget: 0,
        cost: 0,
        on_hand: None,
        sites: EMPTY,
        available: (211_106_232_532_992, 0),
        total: THREE,
        loss: Some((971_703_655_721_148, 3024)),
        bound: 971_703_655_721_148,
        gap: 3024,
        rounding: 6121,
        fall: Some(339_017_605_730_256),
        hull: 0,
        text: "plan,0\ncost,0\n\
            item,L,D,0,2.000000,2.000000,2.000000,2.000000,2.000000,2.000000,2.000000,2.000000\n\
            item,L,B,0,3.000000,3.000000,3.000000,3.000000,3.000000,3.000000,3.000000,3.000000\n\
            base,B,0.750000,0.750000\nfleet,0.750000,0.750000\ntotal,3.000000,3.000000\nloss,3.452184,3.452185\n\
            bound,3.452184\ngap,0.000001\nrounding,0.000001\nprice,0.012044324852\nhull,0\ncritical,L,100\n",
    },
    Row {
        budget: 0,
        cost: 0,
        on_hand: Some(100),
        sites: [
            (0, [TWO, TWO, TWO, TWO]),
            (
                1,
                [
                    THREE,
                    THREE,
                    (576_963_767_330_647, 2),
                    (773_658_153_874_084, 11),
                ],
            ),
        ],
        available: (233_394_662_766_435, 1),
        total: (576_963_767_330_647, 2),
        loss: None,
        bound: 576_963_767_330_647,
        gap: 2,
        rounding: 10,
        fall: Some(225_419_721_073_314),
        hull: 0,
        text: "plan,0\ncost,0\non-hand,100\n\
            item,L,D,0,2.000000,2.000000,2.000000,2.000000,2.000000,2.000000,2.000000,2.000000\n\
            item,L,B,1,3.000000,3.000000,3.000000,3.000000,2.049787,2.049788,2.748585,2.748586\n\
            base,B,0.829184,0.829185\nfleet,0.829184,0.829185\ntotal,2.049787,2.049788\n\
            bound,2.049787\ngap,0.000001\nrounding,0.000001\nprice,0.008008517265\nhull,0\ncritical,L,100\n",
    },
];

fn interval(ends: Ends) -> Iv<48>
    ensures { IntervalFits result }
{
    let lo = u128::from(ends.0);
    Iv::of_ends(lo, lo + u128::from(ends.1))
}

fn span(ends: Ends) -> Span
    ensures { SpanFits result }
{
    Span::Bits48(interval(ends))
}

fn narrow(ends: Ends) -> Narrow
    ensures { UnitsFit result.hi }
{
    let hi = ends.0.saturating_add(ends.1);
    Narrow::of(Iv::<48>::of_ends(u128::from(ends.0), u128::from(hi)))
}

/// The item of the part at a site.
fn compact(site: u8, row: (u8, [Ends; 4])) -> CompactItem
    ensures site { result.site.0 ≡ site }
    ensures part { result.part.0 ≡ 0 }
    ensures mean { UnitsFit result.mean.hi }
    ensures variance { UnitsFit result.variance.hi }
    ensures backorders { UnitsFit result.backorders.hi }
    ensures spread { UnitsFit result.spread.hi }
{
    CompactItem {
        part: PartId(0),
        site: SiteId(site),
        stock: row.0,
        mean: narrow(row.1[0]),
        variance: narrow(row.1[1]),
        backorders: narrow(row.1[2]),
        spread: narrow(row.1[3]),
    }
}

/// The lines of the part at the depot and the base.
fn items(alloc: Global, names: [Name; 3], rows: [(u8, [Ends; 4]); 2]) -> Result<Items, NoMemory>
    ensures { IfOk result (All ItemFits) }
{
    let parts = Vec::from_array(alloc, [names[0]])?;
    let sites = Vec::from_array(alloc, [names[1], names[2]])?;
    let items = Vec::from_array(alloc, [compact(0, rows[0]), compact(1, rows[1])])?;
    Ok(Items::of::<48>(parts, sites, items))
}

/// The price of a fall for 100 of money, or none.
fn price(fall: Option<u64>) -> Price
    ensures { PriceFits result }
{
    match fall {
        Some(fall) => Price {
            p: u128::from(fall),
            q: 100,
        },
        None => Price { p: 0, q: 1 },
    }
}

fn figures(alloc: Global, names: [Name; 3], row: &Row) -> Result<Figures, NoMemory>
    ensures { IfOk result FitsPrint }
{
    let bases = [BaseLine {
        site: names[2],
        availability: span(row.available),
    }];
    Ok(Figures {
        cost: row.cost,
        items: items(alloc, names, row.sites)?,
        bases: List::of(Vec::from_array(alloc, bases)?),
        fleet: span(row.available),
        total: span(row.total),
    })
}

fn loss(ends: Option<Ends>) -> Option<Iv<48>>
    ensures { IfSome result IntervalFits }
{
    match ends {
        Some(ends) => Some(interval(ends)),
        None => None,
    }
}

fn critical(part: Name, fall: Option<u64>) -> Option<CriticalLine> {
    match fall {
        Some(_fall) => Some(CriticalLine { part, cost: 100 }),
        None => None,
    }
}

fn report(alloc: Global, names: [Name; 3], row: &Row) -> Result<PlanReport, NoMemory>
    ensures { IfOk result FitsPlan }
{
    Ok(PlanReport {
        budget: row.budget,
        figures: figures(alloc, names, row)?,
        on_hand: row.on_hand,
        loss: loss(row.loss),
        bound: u128::from(row.bound),
        gap: u128::from(row.gap),
        rounding: u128::from(row.rounding),
        price: price(row.fall),
        hull: row.hull,
        critical: critical(names[0], row.fall),
    })
}

/// Whether each plan has its text.
fn have_texts(alloc: Global, names: [Name; 3], rows: &[Row]) -> Result<bool, NoMemory> {
    for row in rows {
        let plan = report(alloc, names, row)?;
        if plan.text(alloc)?.as_slice() != row.text.as_bytes() {
            return Ok(false);
        }
    }
    Ok(true)
}

#[test]
fn prints_plans(rt: HostRuntime) -> Result<(), Fail> {
    let part = Name::of(b"L").expect(&rt, "name");
    let depot = Name::of(b"D").expect(&rt, "name");
    let base = Name::of(b"B").expect(&rt, "name");
    assert!(rt; have_texts(rt.alloc(), [part, depot, base], ROWS.as_slice())?);
    Ok(())
}

#[test]
fn prints_checks(rt: HostRuntime) -> Result<(), Fail> {
    let held = CheckReport {
        format: 2,
        budget: 0,
        cost: 0,
        on_hand: Some(100),
        upper: 576_963_767_330_649,
        bound: 576_963_767_330_647,
    };
    assert_eq!(rt;
        held.text(rt.alloc())?.as_slice(),
        b"accepted,2\nbudget,0\ncost,0\non-hand,100\nupper,2.049788\nbound,2.049787\n".as_slice()
    );
    Ok(())
}

#[test]
fn prints_summaries(rt: HostRuntime) -> Result<(), Fail> {
    let summary = Summary {
        number: 7,
        lines: 1,
        parts: 3,
        budget: 2000,
        cost: 1510,
        total: interval((678_414_587_010_513, 102)),
        bound: 560_076_662_561_308,
        gap: 118_337_924_449_307,
    };
    assert_eq!(rt;
        summary.text(rt.alloc())?.as_slice(),
        b"demo,7,1\nparts,3\nbudget,2000\ncost,1510\ntotal,2.410212,2.410213\nbound,1.989792\ngap,0.420421\naccepted\n".as_slice()
    );
    Ok(())
}
