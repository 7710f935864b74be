//! Cases of four numbers, against the generator of a program written apart from this one.

ghost use Rattle.std.specs.Prelude.{◌≤◌};

use answers::NoMemory;
use case_maker::make_case;
use spares_input::{Case, PartId, SiteId};
use std::alloc::Global;
use std::test::*;

/// A sum that depends on the order of the numbers.
fn add(sum: u32, number: u32) -> u32 {
    ((u64::from(sum) * 31 + u64::from(number)) % 4_294_967_296) as u32
}

fn add_bytes(sum: u32, bytes: &[u8]) -> u32 {
    let mut sum = sum;
    for byte in bytes {
        sum = add(sum, u32::from(*byte));
    }
    sum
}

fn sum_of_sites(case: &Case) -> u32 {
    let mut sum = 0;
    for k in 0..case.site_count() {
        let site = case.site(SiteId(k));
        sum = add_bytes(sum, site.name.as_bytes());
        sum = add(sum, u32::from(site.depot));
        sum = add(sum, site.systems);
        sum = add(sum, site.ship);
    }
    sum
}

fn sum_of_parts(sum: u32, case: &Case) -> u32 {
    let mut sum = sum;
    for p in 0..case.part_count() {
        let part = case.part(PartId(p));
        sum = add_bytes(sum, part.name.as_bytes());
        if let Some(line) = &part.parent {
            sum = add_bytes(sum, line.as_bytes());
        }
        sum = add(sum, part.cost);
        sum = add(sum, part.per_system);
        sum = add(sum, u32::from(part.max_depot));
        sum = add(sum, u32::from(part.max_base));
        sum = add(sum, u32::from(part.weight));
    }
    sum
}

fn sum_of_rates(sum: u32, case: &Case) -> u32 {
    let mut sum = sum;
    for p in 0..case.part_count() {
        for k in 0..case.site_count() {
            let rate = case.rate(PartId(p), SiteId(k));
            sum = add(sum, rate.demand);
            sum = add(sum, u32::from(rate.repair_here));
            sum = add(sum, u32::from(rate.share));
            sum = add(sum, rate.repair_days);
        }
    }
    sum
}

/// The count of a case's parts, and the sum of all its fields.
fn digest(alloc: Global, number: u32, lines: u16) -> Result<(u16, u32), NoMemory>
    requires some { 1 ≤ lines }
    requires few { lines ≤ 80 }
{
    let case = make_case(alloc, number, lines)?;
    let sum = sum_of_rates(sum_of_parts(sum_of_sites(&case), &case), &case);
    Ok((case.part_count(), sum))
}

#[test]
fn makes_the_cases_of_four_numbers(rt: HostRuntime) {
    assert_eq!(rt; digest(rt.alloc(), 7, 1), Ok((3, 3_671_876_947)));
    assert_eq!(rt; digest(rt.alloc(), 7, 2), Ok((4, 3_493_651_161)));
    assert_eq!(rt; digest(rt.alloc(), 0, 80), Ok((149, 81_371_327)));
    assert_eq!(rt;
        digest(rt.alloc(), 4_294_967_295, 3),
        Ok((6, 2_665_718_159))
    );
}
