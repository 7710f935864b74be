use crate::helpers::{ends_alone, printed, refused, shelf_of_tables};
use std::test::*;

/// One line unit at the depot and one base: its sites, parts and rates.
const SITES: &str = "site,kind,systems,ship_days\nD,depot,,\nB,base,12,10\n";

const PARTS: &str = "part,parent,cost,per_system,max_depot,max_base\nL,,100,1,2,3\n";

const RATES: &str = "part,site,demand,repair_here,share,repair_days\nL,D,,,,20\nL,B,36.5,0,,0\n";

/// Rates with a pipeline beyond the model's limits.
const REFUSED_RATES: &str =
    "part,site,demand,repair_here,share,repair_days\nL,D,,,,20\nL,B,10000,0,,0\n";

/// A line unit and its shop unit, with stocks.
const SHOP: [&str; 4] = [
    "site,kind,systems,ship_days\nD,depot,,\nB,base,10,5\n",
    "part,parent,cost,per_system,max_depot,max_base\nL,,1000,2,1,1\nS,L,200,,1,1\n",
    "part,site,demand,repair_here,share,repair_days\nL,D,,,,10\nL,B,36.5,0.5,,5\nS,D,,,0.4,20\nS,B,,0.25,0.4,5\n",
    "part,site,stock\nL,D,0\nL,B,1\nS,D,1\nS,B,0\n",
];

/// Tables and stocks, with the comparison.
const COMPARED: [([&str; 4], &str); 2] = [
    (
        SHOP,
        "compare,48\nitem,L,D,0,0.612334,0.612335,0.612334,0.612335\nitem,L,B,1,0.574076,0.574077,0.570049,0.570050\nitem,S,D,1,0.196585,0.196586,0.196585,0.196586\nitem,S,B,0,0.184250,0.184251,0.184250,0.184251\ntotal,0.574076,0.574077,0.570049,0.570050\n",
    ),
    (
        [SITES, PARTS, RATES, "part,site,stock\nL,D,0\nL,B,0\n"],
        "compare,48\nitem,L,D,0,2.000000,2.000000,2.000000,2.000000\nitem,L,B,0,3.000000,3.000000,3.000000,3.000000\ntotal,3.000000,3.000000,3.000000,3.000000\n",
    ),
];

#[test]
fn compares_with_poisson_pipelines(rt: HostRuntime) -> Result<(), Fail> {
    let alloc = rt.alloc();
    let line = "compare --sites sites --parts parts --rates rates --stocks stocks";
    for (tables, report) in &COMPARED {
        let shelf = shelf_of_tables(alloc, *tables, &[])?;
        ends_alone(&rt, alloc, line, shelf, &[], printed(report))?;
    }
    Ok(())
}

/// Edits of the first case with these rates, and the reports of their plans.
const EDITED: [(&str, &str, &str); 5] = [
    (
        RATES,
        "budget,250\nplan\nrate,L,B,36.5,0,,0\nplan\n",
        "plan,250\ncost,200\nitem,L,D,0,2.000000,2.000000,2.000000,2.000000,2.000000,2.000000,2.000000,2.000000\nitem,L,B,2,3.000000,3.000000,3.000000,3.000000,1.248935,1.248936,2.091651,2.091652\nbase,B,0.895922,0.895923\nfleet,0.895922,0.895923\ntotal,1.248935,1.248936\nbound,0.960530\ngap,0.288405\nrounding,0.000001\nprice,0.005768099188\nhull,200\ncritical,L,100\nplan,250\ncost,200\nitem,L,D,0,2.000000,2.000000,2.000000,2.000000,2.000000,2.000000,2.000000,2.000000\nitem,L,B,2,3.000000,3.000000,3.000000,3.000000,1.248935,1.248936,2.091651,2.091652\nbase,B,0.895922,0.895923\nfleet,0.895922,0.895923\ntotal,1.248935,1.248936\nbound,0.960530\ngap,0.288405\nrounding,0.000001\nprice,0.005768099188\nhull,200\ncritical,L,100\n",
    ),
    (
        RATES,
        "plan\r\n\r\nrate,L,B,0,0,,0\r\nplan",
        "plan,0\ncost,0\nitem,L,D,0,2.000000,2.000000,2.000000,2.000000,2.000000,2.000000,2.000000,2.000000\nitem,L,B,0,3.000000,3.000000,3.000000,3.000000,3.000000,3.000000,3.000000,3.000000\nbase,B,0.750000,0.750000\nfleet,0.750000,0.750000\ntotal,3.000000,3.000000\nbound,3.000000\ngap,0.000000\nrounding,0.000001\nprice,0.009502129316\nhull,0\ncritical,L,100\nplan,0\ncost,0\nitem,L,D,0,0.000000,0.000000,0.000000,0.000000,0.000000,0.000000,0.000000,0.000000\nitem,L,B,0,0.000000,0.000000,0.000000,0.000000,0.000000,0.000000,0.000000,0.000000\nbase,B,1.000000,1.000000\nfleet,1.000000,1.000000\ntotal,0.000000,0.000000\nbound,0.000000\ngap,0.000000\nrounding,0.000001\nprice,0.000000000000\nhull,0\ncritical,none\n",
    ),
    (RATES, "\n\nbudget,7", ""),
    (REFUSED_RATES, "budget,250\n", ""),
    (
        REFUSED_RATES,
        "rate,L,B,36.5,0,,0\nbudget,250\nplan\n",
        "plan,250\ncost,200\nitem,L,D,0,2.000000,2.000000,2.000000,2.000000,2.000000,2.000000,2.000000,2.000000\nitem,L,B,2,3.000000,3.000000,3.000000,3.000000,1.248935,1.248936,2.091651,2.091652\nbase,B,0.895922,0.895923\nfleet,0.895922,0.895923\ntotal,1.248935,1.248936\nbound,0.960530\ngap,0.288405\nrounding,0.000001\nprice,0.005768099188\nhull,200\ncritical,L,100\n",
    ),
];

#[test]
fn plans_edits_in_turn(rt: HostRuntime) -> Result<(), Fail> {
    let alloc = rt.alloc();
    let line = "session --sites sites --parts parts --rates rates --edits stocks";
    for (rates, edits, report) in &EDITED {
        let shelf = shelf_of_tables(alloc, [SITES, PARTS, *rates, *edits], &[])?;
        ends_alone(&rt, alloc, line, shelf, &[], printed(report))?;
    }
    Ok(())
}

/// A line and its count, the edits after these lines, and the line of the refusal.
const REFUSED: [(&str, usize, &str, &str); 6] = [
    ("", 0, "plan\nrate,L,B,x,0,,0\n", "fault,edit,2\n"),
    ("", 0, "\n\nbudget,1000000000000001\n", "fault,edit,3\n"),
    (
        "",
        0,
        "\nrate,L,B,10000,0,,0\nplan\nx",
        "fault,edit-rate,3\n",
    ),
    ("", 0, "plan,\n", "fault,edit,1\n"),
    ("\n", 4000, "x", "fault,edit-lines\n"),
    ("plan\n", 64, "plan", "fault,edit-plans,65\n"),
];

#[test]
fn refuses_edits(rt: HostRuntime) -> Result<(), Fail> {
    let alloc = rt.alloc();
    let line = "session --sites sites --parts parts --rates rates --edits stocks";
    for (before, count, edits, fault) in &REFUSED {
        let mut all = before.repeat(alloc, *count)?;
        all.push_str(edits)?;
        let shelf = shelf_of_tables(alloc, [SITES, PARTS, RATES, all.as_str()], &[])?;
        ends_alone(&rt, alloc, line, shelf, &[], refused(3, fault))?;
    }
    Ok(())
}
