use crate::helpers::{Ended, ends_alone, shelf_of, shelf_of_tables, tables_of};
use std::alloc::Global;
use std::process::Abort;
use std::test::Fail;

/// The words of `eval` on the files of a shelf.
const EVAL: &str = "eval --sites sites --parts parts --rates rates --stocks stocks";

/// One line unit at the depot and one base: sites, parts, rates and stocks.
const ONE: &str = "site,kind,systems,ship_days\nD,depot,,\nB,base,12,10\n|\
    part,parent,cost,per_system,max_depot,max_base\nL,,100,1,2,3\n|\
    part,site,demand,repair_here,share,repair_days\nL,D,,,,20\nL,B,36.5,0,,0\n|\
    part,site,stock\nL,D,0\nL,B,0\n";

/// The same, with a byte order mark, CRLF, quotes and blanks.
const QUOTED: &str = "\u{feff}site,kind,systems,ship_days\r\nD,\"depot\",,\r\nB,base, 12\t,10\r\n|\
    part,parent,cost,per_system,max_depot,max_base\nL,,100,1,2,3\n|\
    part,site,demand,repair_here,share,repair_days\n\"L\",D,,,,20\n\"L\", B,36.5 ,0,,0\n|\
    part,site,stock\nL,D,0\nL,B,0\n";

/// The same, with a weight.
const WEIGHTED: &str = "site,kind,systems,ship_days\nD,depot,,\nB,base,12,10\n|\
    part,parent,cost,per_system,max_depot,max_base,weight\nL,,100,1,2,3,3\n|\
    part,site,demand,repair_here,share,repair_days\nL,D,,,,20\nL,B,36.5,0,,0\n|\
    part,site,stock\nL,D,0\nL,B,0\n";

/// A line unit and its shop unit.
const SHOP: &str = "site,kind,systems,ship_days\nD,depot,,\nB,base,10,5\n|\
    part,parent,cost,per_system,max_depot,max_base\nL,,1000,2,1,1\nS,L,200,,1,1\n|\
    part,site,demand,repair_here,share,repair_days\nL,D,,,,10\nL,B,36.5,0.5,,5\nS,D,,,0.4,20\nS,B,,0.25,0.4,5\n|\
    part,site,stock\nL,D,0\nL,B,1\nS,D,1\nS,B,0\n";

/// The same, with no shop unit sent to the depot, and without stock.
const UNSHARED: &str = "site,kind,systems,ship_days\nD,depot,,\nB,base,10,5\n|\
    part,parent,cost,per_system,max_depot,max_base\nL,,1000,2,1,1\nS,L,200,,1,1\n|\
    part,site,demand,repair_here,share,repair_days\nL,D,,,,10\nL,B,36.5,0.5,,5\nS,D,,,0,20\nS,B,,1,0.4,5\n|\
    part,site,stock\nL,D,0\nL,B,0\nS,D,0\nS,B,0\n";

/// One file of the first case in another form, by its place, and the line of its refusal.
const HOSTILE: [(usize, &str, &str); 22] = [
    (0, "", "fault,no-header,sites\n"),
    (0, "site,kind,systems\n", "fault,field-count,sites,1,3\n"),
    (0, "site,kind,systems,ship_days\n", "fault,no-depot\n"),
    (
        0,
        "site,kind,systems,ship_days\nD,depot,,\n",
        "fault,no-base\n",
    ),
    (
        0,
        "site,kind,systems,ship_days\nD,depot,,\nB,base,12\n",
        "fault,field-count,sites,3,3\n",
    ),
    (
        0,
        "site,kind,systems,ship_days\nD,depot,,\nB,base,0,10\n",
        "fault,out-of-range,sites,3,3\n",
    ),
    (
        0,
        "site,kind,systems,ship_days\nD,depot,,\nB,base,10001,10\n",
        "fault,out-of-range,sites,3,3\n",
    ),
    (
        0,
        "site,kind,systems,ship_days\nD,depot,,\nB,base,18446744073709551616,10\n",
        "fault,bad-number,sites,3,3\n",
    ),
    (
        0,
        "site,kind,systems,ship_days\nD,depot,,\nB,base,12,0\n",
        "fault,thin-pipeline,L,B\n",
    ),
    (
        1,
        "part,parent,cost,per_system,max_depot,max_base\nL\u{ff},,100,1,2,3\n",
        "fault,bad-name,parts,2,1\n",
    ),
    (
        1,
        "part,parent,cost,per_system,max_depot,max_base\nL,,100,1,2,64\n",
        "fault,out-of-range,parts,2,6\n",
    ),
    (
        1,
        "part,parent,cost,per_system,max_depot,max_base,weight\nL,,100,1,2,3,0\n",
        "fault,out-of-range,parts,2,7\n",
    ),
    (
        2,
        "part,site,demand,repair_here,share,repair_days\nL,D,,,,20\nL,B,36.",
        "fault,field-count,rates,3,3\n",
    ),
    (
        2,
        "part,site,demand,repair_here,share,repair_days\nL,D,,,,20\nL,B,36.5,0,,",
        "fault,field-empty,rates,3,6\n",
    ),
    (
        2,
        "part,site,demand,repair_here,share,repair_days\nL,D,,,,20\n",
        "fault,missing-rate,L,B\n",
    ),
    (
        2,
        "part,site,demand,repair_here,share,repair_days\nL,D,,,,20\nL,B,36.5,0,,0\nL,B,36.5,0,,0\n",
        "fault,double-rate,4\n",
    ),
    (
        2,
        "part,site,demand,repair_here,share,repair_days\nL,D,,,,20\nL,B,1e3,0,,0\n",
        "fault,bad-number,rates,3,3\n",
    ),
    (
        2,
        "part,site,demand,repair_here,share,repair_days\nK,D,,,,20\nL,B,36.5,0,,0\n",
        "fault,unknown-part,rates,2\n",
    ),
    (
        2,
        "part,site,demand,repair_here,share,repair_days\nL,D,,,,20\nK,B,36.5,0,,0\n",
        "fault,unknown-part,rates,3\n",
    ),
    (3, "part,site,stock\nL,D,3\nL,B,0\n", "fault,over-limit,2\n"),
    (3, "part,site,stock\nL,D,0\n", "fault,missing-stock,L,B\n"),
    (
        3,
        "part,site,stock\nL,D,64\nL,B,0\n",
        "fault,out-of-range,stocks,2,3\n",
    ),
];

/// The lines printed after the first: for the first case (also in quotes), with a weight, for the shop unit, and with
/// none sent.
const ONE_FIGURES: &str =
    "cost,0\nitem,L,D,0,2.000000,2.000000,2.000000,2.000000,2.000000,2.000000,2.000000,2.000000\nitem,L,B,0,3.000000,3.000000,3.000000,3.000000,3.000000,3.000000,3.000000,3.000000\nbase,B,0.750000,0.750000\nfleet,0.750000,0.750000\ntotal,3.000000,3.000000\n";

const WEIGHTED_FIGURES: &str =
    "cost,0\nitem,L,D,0,2.000000,2.000000,2.000000,2.000000,2.000000,2.000000,2.000000,2.000000\nitem,L,B,0,3.000000,3.000000,3.000000,3.000000,3.000000,3.000000,3.000000,3.000000\nbase,B,0.750000,0.750000\nfleet,0.750000,0.750000\ntotal,9.000000,9.000000\n";

const SHOP_FIGURES: &str =
    "cost,1200\nitem,L,D,0,0.612334,0.612335,0.631333,0.631334,0.612334,0.612335,0.631333,0.631334\nitem,L,B,1,1.296585,1.296586,1.326270,1.326271,0.574076,0.574077,0.807178,0.807179\nitem,S,D,1,0.699999,0.700001,0.699999,0.700001,0.196585,0.196586,0.254768,0.254769\nitem,S,B,0,0.184250,0.184251,0.194937,0.194938,0.184250,0.184251,0.194937,0.194938\nbase,B,0.943416,0.943417\nfleet,0.943416,0.943417\ntotal,0.574076,0.574077\n";

const UNSHARED_FIGURES: &str =
    "cost,0\nitem,L,D,0,0.500000,0.500000,0.500000,0.500000,0.500000,0.500000,0.500000,0.500000\nitem,L,B,0,1.099999,1.100001,1.099999,1.100001,1.099999,1.100001,1.099999,1.100001\nitem,S,D,0,0.000000,0.000000,0.000000,0.000000,0.000000,0.000000,0.000000,0.000000\nitem,S,B,0,0.099999,0.100001,0.099999,0.100001,0.099999,0.100001,0.099999,0.100001\nbase,B,0.893024,0.893026\nfleet,0.893024,0.893026\ntotal,1.099999,1.100001\n";

/// Tables, the words for the bits, the bits, and the figures.
const PRINTED: [(&str, &str, u8, &str); 7] = [
    (SHOP, "", 48, SHOP_FIGURES),
    (SHOP, " --bits 52", 52, SHOP_FIGURES),
    (ONE, "", 48, ONE_FIGURES),
    (QUOTED, "", 48, ONE_FIGURES),
    (WEIGHTED, "", 48, WEIGHTED_FIGURES),
    (UNSHARED, "", 48, UNSHARED_FIGURES),
    (UNSHARED, " --bits=32", 32, UNSHARED_FIGURES),
];

/// Each call of the shelf, with words that leave its file out, and the line of the refusal.
const UNREAD: [(u32, &str, &str); 4] = [
    (
        1,
        "eval --sites no --parts parts --rates rates --stocks stocks",
        "fault,read,sites\n",
    ),
    (
        2,
        "eval --sites sites --parts no --rates rates --stocks stocks",
        "fault,read,parts\n",
    ),
    (
        3,
        "eval --sites sites --parts parts --rates no --stocks stocks",
        "fault,read,rates\n",
    ),
    (
        4,
        "eval --sites sites --parts parts --rates rates --stocks no",
        "fault,read,stocks\n",
    ),
];

/// Tables are evaluated with this count of bits, and their figures are printed.
fn prints(rt: &impl Abort, alloc: Global, rows: &[(&str, &str, u8, &str)]) -> Result<(), Fail> {
    for (tables, words, bits, figures) in rows {
        let line = format!(in alloc; "{EVAL}{words}")?;
        let report = format!(in alloc; "eval,{bits}\n{figures}")?;
        let shelf = shelf_of(alloc, tables, &[])?;
        let wanted = Ended {
            status: 0,
            out: report.as_str(),
            err: "",
        };
        ends_alone(rt, alloc, line.as_str(), shelf, &[], wanted)?;
    }
    Ok(())
}

/// The first case with one file in another form is refused.
fn refuses(rt: &impl Abort, alloc: Global, rows: &[(usize, &str, &str)]) -> Result<(), Fail> {
    for (file, table, refusal) in rows {
        let mut tables = tables_of(ONE);
        if let Some(changed) = tables.get_mut(*file) {
            *changed = table;
        }
        let shelf = shelf_of_tables(alloc, tables, &[])?;
        ends_alone(
            rt,
            alloc,
            EVAL,
            shelf,
            &[],
            Ended {
                status: 3,
                out: "",
                err: refusal,
            },
        )?;
    }
    Ok(())
}

/// A file isn't read if its call fails, or if the shelf lacks it.
fn stops(rt: &impl Abort, alloc: Global, rows: &[(u32, &str, &str)]) -> Result<(), Fail> {
    for (call, lacking, refusal) in rows {
        let wanted = Ended {
            status: 5,
            out: "",
            err: refusal,
        };
        let failing = shelf_of(alloc, ONE, &[*call])?;
        ends_alone(rt, alloc, EVAL, failing, &[], wanted)?;
        let whole = shelf_of(alloc, ONE, &[])?;
        ends_alone(rt, alloc, lacking, whole, &[], wanted)?;
    }
    Ok(())
}

#[test]
fn prints_the_figures_of_tables(rt: HostRuntime) -> Result<(), Fail> {
    prints(&rt, rt.alloc(), &PRINTED)
}

#[test]
fn refuses_hostile_tables(rt: HostRuntime) -> Result<(), Fail> {
    refuses(&rt, rt.alloc(), &HOSTILE)
}

#[test]
fn stops_at_each_call_that_fails(rt: HostRuntime) -> Result<(), Fail> {
    stops(&rt, rt.alloc(), &UNREAD)
}

/// The shelf gets four calls, so its failing fifth doesn't matter. A failing put keeps the first half of a report of
/// 254 bytes.
#[test]
fn keeps_half_of_a_report(rt: HostRuntime) -> Result<(), Fail> {
    let alloc = rt.alloc();
    let shelf = shelf_of(alloc, ONE, &[5])?;
    let half =
        "eval,48\ncost,0\nitem,L,D,0,2.000000,2.000000,2.000000,2.000000,2.000000,2.000000,2.000000,2.000000\nitem,L,B,0,3.000000,3.000000,";
    ends_alone(
        &rt,
        alloc,
        EVAL,
        shelf,
        &[1],
        Ended {
            status: 6,
            out: half,
            err: "fault,write\n",
        },
    )
}

#[test]
fn refuses_other_bits(rt: HostRuntime) -> Result<(), Fail> {
    let alloc = rt.alloc();
    let line = format!(in alloc; "{EVAL} --bits 40")?;
    let shelf = shelf_of(alloc, ONE, &[1])?;
    ends_alone(
        &rt,
        alloc,
        line.as_str(),
        shelf,
        &[],
        Ended {
            status: 2,
            out: "",
            err: "fault,range,bits\n",
        },
    )
}
