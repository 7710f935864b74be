//! The text of a comparison.

ghost use Rattle.std.specs.Prelude.{◌<◌, ◌^◌, IfOk};
ghost use Rattle.metric_compare.specs.Fits.{FitsComparison};

use answers::{List, NoMemory};
use fixed_interval::Iv;
use metric_compare::{CompareItem, CompareReport};
use spares_input::Name;
use std::alloc::Global;
use std::test::*;

/// A line unit at a base, from a program written apart from this one, and the largest numbers that can be printed.
fn of_line(alloc: Global, part: Name, site: Name) -> Result<CompareReport, NoMemory>
    ensures { IfOk result FitsComparison }
{
    let backorders = Iv::of_ends(161_588_231_527_680, 161_588_231_527_756);
    let poisson = Iv::of_ends(160_454_613_665_645, 160_454_613_665_697);
    let items = [CompareItem {
        part,
        site,
        stock: 1,
        backorders,
        poisson,
    }];
    Ok(CompareReport {
        items: List::of(Vec::from_array(alloc, items)?),
        total: backorders,
        poisson_total: Iv::of_ends((1 << 86) - 2, (1 << 86) - 1),
    })
}

#[test]
fn prints_both_columns(rt: HostRuntime) -> Result<(), Fail> {
    let part = Name::of(b"L").expect(&rt, "name");
    let site = Name::of(b"B").expect(&rt, "name");
    assert_eq!(rt;
        of_line(rt.alloc(), part, site)?
            .text(rt.alloc())?
            .as_slice(),
        b"compare,48\n\
          item,L,B,1,0.574076,0.574077,0.570049,0.570050\n\
          total,0.574076,0.574077,274877906943.999999,274877906944.000000\n"
            .as_slice()
    );
    Ok(())
}
