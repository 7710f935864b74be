//! The texts of evaluations.

ghost use Rattle.std.specs.Prelude.{◌≡◌, ◌≤◌, ◌<◌, ◌^◌, IfOk};
ghost use Rattle.case_figures.specs.Fits.{FitsPrint};

use answers::{List, NoMemory};
use case_figures::{BaseLine, CompactItem, Figures, Items, Narrow, Span};
use fixed_interval::Iv;
use plan_report::{EvalReport, SingleReport};
use spares_input::{Name, PartId, SiteId};
use std::alloc::Global;
use std::test::*;

/// An interval by its ends, in units of 2^-48.
fn ends(lo: u128, hi: u128) -> Iv<48>
    requires ordered { lo ≤ hi }
    requires printed { hi < 2 ^ 86 }
    ensures { result.hi ≡ hi }
{
    Iv::of_ends(lo, hi)
}

#[test]
fn prints_both_lines(rt: HostRuntime) -> Result<(), Fail> {
    let poisson = SingleReport {
        backorders: ends(103_548_857_136_053, 103_548_857_136_063),
        spread: ends(139_832_623_877_432, 139_832_623_877_457),
    };
    assert_eq!(rt;
        poisson.text(rt.alloc())?.as_slice(),
        b"backorders,0.367879,0.367880\nvariance,0.496785,0.496786\n".as_slice()
    );
    let outward = SingleReport {
        backorders: ends(1 << 48, 1 << 48),
        spread: ends(0, 1),
    };
    assert_eq!(rt;
        outward.text(rt.alloc())?.as_slice(),
        b"backorders,1.000000,1.000000\nvariance,0.000000,0.000001\n".as_slice()
    );
    let largest = SingleReport {
        backorders: ends(0, 0),
        spread: ends((1 << 86) - 2, (1 << 86) - 1),
    };
    assert_eq!(rt;
        largest.text(rt.alloc())?.as_slice(),
        b"backorders,0.000000,0.000000\nvariance,274877906943.999999,274877906944.000000\n".as_slice()
    );
    Ok(())
}

/// An interval of an item by its ends, in units of 2^-52.
fn narrow(lo: u64, hi: u64) -> Narrow
    requires { lo ≤ hi }
    ensures { result.hi ≡ hi }
{
    Narrow::of(Iv::<52>::of_ends(u128::from(lo), u128::from(hi)))
}

/// A pair and a base with intervals of all three kinds, and the largest cost.
fn mixed_figures(alloc: Global, part: Name, site: Name) -> Result<Figures, NoMemory>
    ensures { IfOk result FitsPrint }
{
    let compact = [CompactItem {
        part: PartId(0),
        site: SiteId(0),
        stock: 63,
        mean: narrow(1 << 51, (1 << 51) + 1),
        variance: narrow(255 << 52, 255 << 52),
        backorders: narrow((3 << 52) - 1, 3 << 52),
        spread: narrow(0, 0),
    }];
    let bases = [BaseLine {
        site,
        availability: Span::Bits32(Iv::of_ends(0, 1 << 32)),
    }];
    Ok(Figures {
        cost: u64::MAX,
        items: Items::of::<52>(
            Vec::from_array(alloc, [part])?,
            Vec::from_array(alloc, [site])?,
            Vec::from_array(alloc, compact)?,
        ),
        bases: List::of(Vec::from_array(alloc, bases)?),
        fleet: Span::Bits52(Iv::of_ends(0, 1)),
        total: Span::Bits48(Iv::of_ends((1 << 86) - 2, (1 << 86) - 1)),
    })
}

#[test]
fn prints_each_line(rt: HostRuntime) -> Result<(), Fail> {
    let part = Name::of(b"L 1").expect(&rt, "name");
    let site = Name::of(b"B").expect(&rt, "name");
    let report = EvalReport {
        bits: 52,
        figures: mixed_figures(rt.alloc(), part, site)?,
    };
    assert_eq!(rt;
        report.text(rt.alloc())?.as_slice(),
        b"eval,52\n\
          cost,18446744073709551615\n\
          item,L 1,B,63,0.500000,0.500001,255.000000,255.000000,2.999999,3.000000,0.000000,0.000000\n\
          base,B,0.000000,1.000000\n\
          fleet,0.000000,0.000001\n\
          total,274877906943.999999,274877906944.000000\n"
            .as_slice()
    );
    Ok(())
}
