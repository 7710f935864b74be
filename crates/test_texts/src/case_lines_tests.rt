//! The lines of small cases.

ghost use Rattle.std.specs.Prelude.{◌<◌, ◌≤◌, length, vec_len, All, IfOk};
ghost use Rattle.spares_input.specs.Rows.{IsSiteRow, IsPartRow};
ghost use Rattle.spares_input.specs.Cases.{IsRateOf};

use answers::NoMemory;
use case_lines::write_case;
use spares_input::{Case, Frame, Name, PartId, PartRow, RateRow, SiteId, SiteRow};
use std::alloc::Global;
use std::test::*;

/// Demand, repair here, share and days of a pair. Fields that the pair doesn't have are dropped.
#[derive(Clone, Copy)]
struct Fields(u32, u16, u16, u32);

fn depot(name: Name) -> SiteRow
    ensures { IsSiteRow result }
{
    name.invariant();
    SiteRow {
        name,
        depot: true,
        systems: 0,
        ship: 0,
    }
}

fn base(name: Name, systems: u32, ship: u32) -> SiteRow
    ensures { IsSiteRow result }
{
    name.invariant();
    SiteRow {
        name,
        depot: false,
        systems: systems.max(1).min(10000),
        ship: ship.min(999999),
    }
}

fn line_unit(name: Name, cost: u32, per_system: u32, most: (u8, u8), weight: u8) -> PartRow
    ensures { IsPartRow result }
{
    name.invariant();
    PartRow {
        name,
        parent: None,
        cost: cost.max(1).min(100000000),
        per_system: per_system.max(1).min(100),
        max_depot: most.0.min(63),
        max_base: most.1.min(63),
        weight: weight.max(1).min(100),
    }
}

fn shop_unit(name: Name, line: Name, cost: u32, most: (u8, u8)) -> PartRow
    ensures { IsPartRow result }
{
    name.invariant();
    line.invariant();
    PartRow {
        name,
        parent: Some(line),
        cost: cost.max(1).min(100000000),
        per_system: 0,
        max_depot: most.0.min(63),
        max_base: most.1.min(63),
        weight: 0,
    }
}

fn rate(frame: &Frame, part: PartId, site: SiteId, fields: Fields) -> RateRow
    requires part { part.0 < length frame.now.parts }
    requires site { site.0 < length frame.now.sites }
    ensures { IsRateOf frame.now result }
{
    let is_line = frame.is_line(part);
    let is_depot = site.0 == 0;
    RateRow {
        part,
        site,
        demand: if is_line && !is_depot {
            fields.0.min(1000000000)
        } else {
            0
        },
        repair_here: if is_depot { 0 } else { fields.1.min(10000) },
        share: if is_line { 0 } else { fields.2.min(10000) },
        repair_days: fields.3.min(999999),
    }
}

fn rates_of(alloc: Global, frame: &Frame, fields: &[Fields]) -> Result<Vec<RateRow>, NoMemory>
    ensures { IfOk result (λ rates. All (IsRateOf frame.now) rates.items) }
{
    let mut rates = Vec::new(alloc);
    let sites = frame.site_count() as usize;
    for i in 0..fields.len() {
        if i / sites >= frame.part_count() as usize {
            return Ok(rates);
        }
        let part = PartId((i / sites) as u16);
        let site = SiteId((i % sites) as u8);
        rates.push(rate(frame, part, site, fields[i]))?;
    }
    Ok(rates)
}

/// The case of these rows, if there is memory and they break no rule.
fn case_of(
    alloc: Global,
    sites: [SiteRow; 2],
    parts: Vec<PartRow>,
    fields: &[Fields],
) -> Option<Case>
    requires sites { All IsSiteRow sites }
    requires few { vec_len parts ≤ 2 }
    requires parts { All IsPartRow parts.items }
{
    let Ok(sites) = Vec::from_array(alloc, sites) else {
        return None;
    };
    let Ok(frame) = Frame::build(alloc, sites, parts) else {
        return None;
    };
    let Ok(rates) = rates_of(alloc, &frame, fields) else {
        return None;
    };
    match Case::build(alloc, frame, rates) {
        Ok(case) => Some(case),
        Err(_) => None,
    }
}

/// A depot, a base with 12 systems and 10 days from it, and a line unit.
fn small_case(alloc: Global) -> Option<Case> {
    let (depot_name, base_name, line_name) = (Name::of(b"D")?, Name::of(b"B")?, Name::of(b"L")?);
    let parts = [line_unit(line_name, 100, 1, (2, 3), 1)];
    let Ok(parts) = Vec::from_array(alloc, parts) else {
        return None;
    };
    let fields = [Fields(0, 0, 0, 2000), Fields(365000, 0, 0, 0)];
    case_of(
        alloc,
        [depot(depot_name), base(base_name, 12, 1000)],
        parts,
        &fields,
    )
}

/// A line unit of this weight with a shop unit.
fn case_with_a_shop_unit(alloc: Global, weight: u8) -> Option<Case> {
    let (depot_name, base_name) = (Name::of(b"D")?, Name::of(b"B")?);
    let (line_name, shop_name) = (Name::of(b"L")?, Name::of(b"S")?);
    let parts = [
        line_unit(line_name, 1000, 2, (1, 1), weight),
        shop_unit(shop_name, line_name, 200, (1, 1)),
    ];
    let Ok(parts) = Vec::from_array(alloc, parts) else {
        return None;
    };
    let fields = [
        Fields(0, 0, 0, 1000),
        Fields(365000, 5000, 0, 500),
        Fields(0, 0, 4000, 2000),
        Fields(0, 2500, 4000, 500),
    ];
    case_of(
        alloc,
        [depot(depot_name), base(base_name, 10, 500)],
        parts,
        &fields,
    )
}

/// Whether a case is there and has these lines.
fn has_lines(alloc: Global, case: Option<Case>, wanted: &[u8]) -> bool {
    let Some(case) = case else {
        return false;
    };
    let lines = write_case(alloc, &case);
    drop(case);
    match lines {
        Ok(lines) => lines.as_slice() == wanted,
        Err(NoMemory) => false,
    }
}

#[test]
fn writes_the_lines_of_cases(rt: HostRuntime) {
    assert!(&rt;
        has_lines(
            rt.alloc(),
            small_case(rt.alloc()),
            b"sites,2\n\
              D,depot,,\n\
              B,base,12,10.00\n\
              parts,1\n\
              L,,100,1,2,3\n\
              rates,2\n\
              L,D,,,,20.00\n\
              L,B,36.5000,0.0000,,0.00\n"
                .as_slice()
        )
    );
    assert!(&rt;
        has_lines(
            rt.alloc(),
            case_with_a_shop_unit(rt.alloc(), 1),
            b"sites,2\n\
              D,depot,,\n\
              B,base,10,5.00\n\
              parts,2\n\
              L,,1000,2,1,1\n\
              S,L,200,,1,1\n\
              rates,4\n\
              L,D,,,,10.00\n\
              L,B,36.5000,0.5000,,5.00\n\
              S,D,,,0.4000,20.00\n\
              S,B,,0.2500,0.4000,5.00\n"
                .as_slice()
        )
    );
    assert!(&rt;
        has_lines(
            rt.alloc(),
            case_with_a_shop_unit(rt.alloc(), 3),
            b"sites,2\n\
              D,depot,,\n\
              B,base,10,5.00\n\
              parts,2,weights\n\
              L,,1000,2,1,1,3\n\
              S,L,200,,1,1,\n\
              rates,4\n\
              L,D,,,,10.00\n\
              L,B,36.5000,0.5000,,5.00\n\
              S,D,,,0.4000,20.00\n\
              S,B,,0.2500,0.4000,5.00\n"
                .as_slice()
        )
    );
}
