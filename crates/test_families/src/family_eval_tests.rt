//! The figures of a family, against a program written apart from this one.

ghost use Rattle.std.specs.Prelude.{◌≡◌, ◌<◌, length, vec_len};
ghost use Rattle.fixed_interval.specs.Ends.{InScale};
ghost use Rattle.spares_input.specs.Rows.{IsSiteRow, IsPartRow};
ghost use Rattle.spares_input.specs.Cases.{IsRateOf};

use demand_rates::rates;
use family_eval::{evaluate, evaluate_all};
use family_items::{FamilyResult, Item};
use fixed_interval::Iv;
use spares_input::{
    Case, Frame, Name, PartId, PartRow, RateRow, SiteId, SiteRow, StockRow, stocks_from,
};
use std::alloc::Global;
use std::test::*;

/// The ends of an item: of its mean, its variance, its backorders and their variance.
type Figures = [(u128, u128); 4];

/// A line unit and its shop unit, a depot and two bases: the stocks by part and then by site, and their figures.
#[derive(Clone, Copy)]
struct Family {
    /// The demand for the line unit at the second base, in ten-thousandths a year.
    demand: u32,
    weight: u8,
    stocks: [u8; 6],
    items: [Figures; 6],
    total: (u128, u128),
}

const NONE: Figures = [(0, 0); 4];

/// No demand at the second base.
const AT_48: Family = Family {
    demand: 0,
    weight: 1,
    stocks: [0, 1, 0, 1, 0, 0],
    items: [
        [
            (172356827673230, 172356827673242),
            (177704494769037, 177704494769062),
            (172356827673230, 172356827673242),
            (177704494769037, 177704494769062),
        ],
        [
            (364956318188049, 364956318188072),
            (373312048025247, 373312048025291),
            (161588231527680, 161588231527756),
            (227200454973973, 227200454974174),
        ],
        NONE,
        [
            (197032483697459, 197032483697460),
            (197032483697459, 197032483697460),
            (55333843806329, 55333843806349),
            (71711074287244, 71711074287292),
        ],
        [
            (51862002159491, 51862002159502),
            (54870064900882, 54870064900901),
            (51862002159491, 51862002159502),
            (54870064900882, 54870064900901),
        ],
        NONE,
    ],
    total: (161588231527680, 161588231527756),
};

/// The same case.
const AT_32: Family = Family {
    demand: 0,
    weight: 1,
    stocks: [0, 1, 0, 1, 0, 0],
    items: [
        [
            (2629956467, 2629956480),
            (2711555391, 2711555414),
            (2629956467, 2629956480),
            (2711555391, 2711555414),
        ],
        [
            (5568791458, 5568791482),
            (5696289776, 5696289817),
            (2465640696, 2465640772),
            (3466803723, 3466803919),
        ],
        NONE,
        [
            (3006477107, 3006477108),
            (3006477107, 3006477108),
            (844327435, 844327455),
            (1094224140, 1094224188),
        ],
        [
            (791351343, 791351354),
            (837250737, 837250755),
            (791351343, 791351354),
            (837250737, 837250755),
        ],
        NONE,
    ],
    total: (2465640696, 2465640772),
};

/// Two bases, and a weight of 7.
const WEIGHED: Family = Family {
    demand: 182_500,
    weight: 7,
    stocks: [1, 1, 0, 0, 1, 1],
    items: [
        [
            (379991218559384, 379991218559386),
            (379991218559383, 379991218559386),
            (171485888176488, 171485888176500),
            (237026149668921, 237026149668953),
        ],
        [
            (274854747126464, 274854747126510),
            (308041213757290, 308041213757402),
            (105341945561752, 105341945561915),
            (156810545957980, 156810545958427),
        ],
        [
            (132802945189515, 132802945189571),
            (140700965968562, 140700965968707),
            (132802945189515, 132802945189571),
            (140700965968562, 140700965968707),
        ],
        [(295548725546188, 295548725546189); 4],
        [
            (112589990684261, 112589990684263),
            (112589990684259, 112589990684263),
            (19793333320145, 19793333320181),
            (23850794843225, 23850794843315),
        ],
        [
            (56294995342130, 56294995342132),
            (56294995342128, 56294995342132),
            (5272238286356, 5272238286406),
            (5888007788468, 5888007788602),
        ],
    ],
    total: (1667014235258869, 1667014235260402),
};

fn site(name: Name, depot: bool) -> SiteRow
    ensures { IsSiteRow result }
{
    name.invariant();
    SiteRow {
        name,
        depot,
        systems: if depot { 0 } else { 10 },
        ship: if depot { 0 } else { 500 },
    }
}

fn part(name: Name, parent: Option<Name>, weight: u8) -> PartRow
    ensures { IsPartRow result }
{
    name.invariant();
    let is_line = parent.is_none();
    if let Some(line) = &parent {
        line.invariant();
    }
    PartRow {
        name,
        parent,
        cost: 1,
        per_system: if is_line { 1 } else { 0 },
        max_depot: 1,
        max_base: 1,
        weight: if is_line { weight.max(1).min(100) } else { 0 },
    }
}

fn frame_of(alloc: Global, weight: u8) -> Option<Frame> {
    let (line, shop) = (Name::of(b"L")?, Name::of(b"S")?);
    let (depot, first, second) = (Name::of(b"D")?, Name::of(b"B")?, Name::of(b"C")?);
    let sites = [site(depot, true), site(first, false), site(second, false)];
    let parts = [part(line, None, weight), part(shop, Some(line), weight)];
    let (Ok(sites), Ok(parts)) = (Vec::from_array(alloc, sites), Vec::from_array(alloc, parts))
    else {
        return None;
    };
    Frame::build(alloc, sites, parts).ok()
}

/// Demand, repair here, share and days of a pair. Fields that the pair doesn't have are dropped.
fn rate(frame: &Frame, pair: (u16, u8), demand: u32, here: u16, share: u16, days: u32) -> RateRow
    requires part { pair.0 < length frame.now.parts }
    requires site { pair.1 < length frame.now.sites }
    ensures { IsRateOf frame.now result }
{
    let (part, site) = (PartId(pair.0), SiteId(pair.1));
    let is_line = frame.is_line(part);
    let is_depot = pair.1 == 0;
    RateRow {
        part,
        site,
        demand: if is_line && !is_depot {
            demand.min(1_000_000_000)
        } else {
            0
        },
        repair_here: if is_depot { 0 } else { here.min(10_000) },
        share: if is_line { 0 } else { share.min(10_000) },
        repair_days: days.min(999_999),
    }
}

fn case_of(alloc: Global, demand: u32, weight: u8) -> Option<Case> {
    let frame = frame_of(alloc, weight)?;
    if frame.part_count() != 2 || frame.site_count() != 3 {
        return None;
    }
    let rates = [
        rate(&frame, (0, 0), 0, 0, 0, 1000),
        rate(&frame, (0, 1), 365_000, 5000, 0, 500),
        rate(&frame, (0, 2), demand, 5000, 0, 500),
        rate(&frame, (1, 0), 0, 0, 4000, 2000),
        rate(&frame, (1, 1), 0, 2500, 4000, 500),
        rate(&frame, (1, 2), 0, 2500, 4000, 500),
    ];
    let Ok(rates) = Vec::from_array(alloc, rates) else {
        return None;
    };
    Case::build(alloc, frame, rates).ok()
}

fn is<const F: u32>(x: &Iv<F>, want: (u128, u128)) -> bool {
    x.lo() == want.0 && x.hi() == want.1
}

/// Whether the item at a place has this place's pair, this stock and these figures.
fn item_is<const F: u32>(item: &Item<F>, place: usize, stock: u8, want: Figures) -> bool {
    usize::from(item.part.0) == place / 3
        && usize::from(item.site.0) == place % 3
        && item.stock == stock
        && is(&item.mean, want[0])
        && is(&item.variance, want[1])
        && is(&item.backorders, want[2])
        && is(&item.spread, want[3])
}

fn family_is<const F: u32>(family: &FamilyResult<F>, want: &Family) -> bool {
    let items = family.items.as_slice();
    if items.len() != 6 || !is(&family.total, want.total) {
        return false;
    }
    for k in 0..6 {
        if !item_is(&items[k], k, want.stocks[k], want.items[k]) {
            return false;
        }
    }
    true
}

fn stock(part: u16, site: u8, stock: u8) -> StockRow
    ensures part { result.part.0 ≡ part }
    ensures site { result.site.0 ≡ site }
{
    StockRow {
        part: PartId(part),
        site: SiteId(site),
        stock,
    }
}

/// Whether the family of a case has these figures, alone and among all.
fn has_figures<const F: u32>(alloc: Global, case: &Case, want: &Family) -> bool
    requires { InScale F }
{
    if case.part_count() != 2 || case.site_count() != 3 || !case.is_line(PartId(0)) {
        return false;
    }
    let rows = [
        stock(0, 0, want.stocks[0]),
        stock(0, 1, want.stocks[1]),
        stock(0, 2, want.stocks[2]),
        stock(1, 0, want.stocks[3]),
        stock(1, 1, want.stocks[4]),
        stock(1, 2, want.stocks[5]),
    ];
    let (Ok(rates), Ok(stocks)) = (rates(alloc, case), stocks_from(alloc, case, &rows)) else {
        return false;
    };
    let one = evaluate::<F>(alloc, case, &rates, PartId(0), &stocks);
    let all = evaluate_all::<F>(alloc, case, &rates, &stocks);
    drop((rates, stocks));
    let (Ok(family), Ok(families)) = (one, all) else {
        return false;
    };
    families.len() == 1 && family_is(&family, want) && family_is(&families[0], want)
}

/// Whether its case is made, and its family has these figures.
fn gives<const F: u32>(alloc: Global, want: &Family) -> bool
    requires { InScale F }
{
    let Some(case) = case_of(alloc, want.demand, want.weight) else {
        return false;
    };
    let has = has_figures::<F>(alloc, &case, want);
    drop(case);
    has
}

#[test]
fn gives_the_ends_of_a_family(rt: HostRuntime) {
    let alloc = rt.alloc();
    assert!(&rt; gives::<48>(alloc, &AT_48));
    assert!(&rt; gives::<32>(alloc, &AT_32));
    assert!(&rt; gives::<48>(alloc, &WEIGHED));
}
