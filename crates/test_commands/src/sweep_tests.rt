use crate::helpers::{Ended, ends_alone, printed, refused, shelf_of};
use std::test::*;

/// One line unit at the depot and one base.
const ONE: &str = "site,kind,systems,ship_days\nD,depot,,\nB,base,12,10\n|\
    part,parent,cost,per_system,max_depot,max_base\nL,,100,1,2,3\n|\
    part,site,demand,repair_here,share,repair_days\nL,D,,,,20\nL,B,36.5,0,,0\n|";

/// One line unit, and a second, cheaper one.
const TWO: &str = "site,kind,systems,ship_days\nD,depot,,\nB,base,12,10\n|\
    part,parent,cost,per_system,max_depot,max_base\nL,,100,1,2,3\nK,,30,1,2,3\n|\
    part,site,demand,repair_here,share,repair_days\nL,D,,,,20\nL,B,36.5,0,,0\nK,D,,,,20\nK,B,36.5,0,,0\n|";

/// No parts.
const BARE: &str = "site,kind,systems,ship_days\nD,depot,,\nB,base,12,10\n|\
    part,parent,cost,per_system,max_depot,max_base\n|\
    part,site,demand,repair_here,share,repair_days\n|";

/// Three bases with 1,152,762 tables.
const LARGE: &str =
    "site,kind,systems,ship_days\nD,depot,,\nB1,base,12,10\nB2,base,12,10\nB3,base,12,10\n|\
    part,parent,cost,per_system,max_depot,max_base\nL,,100,1,9,0\nR,L,10,,13,13\nS,L,10,,13,13\n|\
    part,site,demand,repair_here,share,repair_days\nL,D,,,,20\nL,B1,3.65,0.5,,0\nL,B2,3.65,0.5,,0\nL,B3,3.65,0.5,,0\nR,D,,,0.2,20\nR,B1,,0.5,0.2,5\nR,B2,,0.5,0.2,5\nR,B3,,0.5,0.2,5\nS,D,,,0.2,20\nS,B1,,0.5,0.2,5\nS,B2,,0.5,0.2,5\nS,B3,,0.5,0.2,5\n|";

/// Tables, words, and the report.
const REPORTED: [(&str, &str, &str); 10] = [
    (
        ONE,
        "sweep --sites sites --parts parts --rates rates",
        "sweep,6\npoint,0,3.000000,3.000000,0.009502129316\npoint,100,2.049787,2.049788,0.008008517265\npoint,200,1.248935,1.248936,0.005768099188\npoint,300,0.672125,0.672126,0.003516396411\npoint,400,0.320485,0.320486,0.001787264398\npoint,500,0.141759,0.141760,none\n",
    ),
    (
        ONE,
        "target --sites sites --parts parts --rates rates --backorders 1",
        "target,1.0000\nreach,300,0.672125,0.672126\nat-least,244\n",
    ),
    (
        ONE,
        "target --sites sites --parts parts --rates rates --backorders 4",
        "target,4.0000\nreach,0,3.000000,3.000000\nat-least,0\n",
    ),
    (
        ONE,
        "target --sites sites --parts parts --rates rates --backorders 0.1",
        "target,0.1000\nreach,none\nat-least,none\n",
    ),
    (
        ONE,
        "target --sites sites --parts parts --rates rates --backorders 2.9999",
        "target,2.9999\nreach,100,2.049787,2.049788\nat-least,1\n",
    ),
    (
        TWO,
        "sweep --sites sites --parts parts --rates rates",
        "sweep,11\npoint,0,6.000000,6.000000,0.031673764387\npoint,30,5.049787,5.049788,0.026695057550\npoint,60,4.248935,4.248936,0.019226997295\npoint,90,3.672125,3.672126,0.011721321370\npoint,120,3.320485,3.320486,0.009502129316\npoint,220,2.370272,2.370273,0.008008517265\npoint,320,1.569421,1.569422,0.005957547996\npoint,350,1.390694,1.390695,0.005768099188\npoint,450,0.813884,0.813885,0.003516396411\npoint,550,0.462245,0.462246,0.001787264398\npoint,650,0.283518,0.283519,none\n",
    ),
    (
        TWO,
        "target --sites sites --parts parts --rates rates --backorders 4",
        "target,4.0000\nreach,90,3.672125,3.672126\nat-least,73\n",
    ),
    (
        TWO,
        "target --sites sites --parts parts --rates rates --backorders 2.5",
        "target,2.5000\nreach,220,2.370272,2.370273\nat-least,207\n",
    ),
    (
        BARE,
        "sweep --sites sites --parts parts --rates rates",
        "sweep,1\npoint,0,0.000000,0.000000,none\n",
    ),
    (
        BARE,
        "target --sites sites --parts parts --rates rates --backorders 0",
        "target,0.0000\nreach,0,0.000000,0.000000\nat-least,0\n",
    ),
];

#[test]
fn tells_points_and_targets(rt: HostRuntime) -> Result<(), Fail> {
    let alloc = rt.alloc();
    for (tables, line, report) in &REPORTED {
        let shelf = shelf_of(alloc, tables, &[])?;
        ends_alone(&rt, alloc, line, shelf, &[], printed(report))?;
    }
    Ok(())
}

/// Words on the tables of a case with too many curves, the status, and the line of the refusal.
const REFUSED: [(&str, u8, &str); 4] = [
    (
        "sweep --sites sites --parts parts --rates rates",
        3,
        "fault,work,1152762\n",
    ),
    (
        "target --sites sites --parts parts --rates rates --backorders 1",
        3,
        "fault,work,1152762\n",
    ),
    (
        "target --sites sites --parts parts --rates rates --backorders 1000000000.0001",
        2,
        "fault,range,target\n",
    ),
    (
        "sweep --sites sites --parts parts --rates certificate",
        5,
        "fault,read,rates\n",
    ),
];

#[test]
fn refuses_sweeps_and_targets(rt: HostRuntime) -> Result<(), Fail> {
    let alloc = rt.alloc();
    for (line, status, fault) in &REFUSED {
        let shelf = shelf_of(alloc, LARGE, &[])?;
        ends_alone(&rt, alloc, line, shelf, &[], refused(*status, fault))?;
    }
    Ok(())
}

/// A failing put keeps the first half of a report.
#[test]
fn keeps_half_of_a_target(rt: HostRuntime) -> Result<(), Fail> {
    let alloc = rt.alloc();
    let half = Ended {
        status: 6,
        out: "target,1.0000\nreach,300,0.6",
        err: "fault,write\n",
    };
    let line = "target --sites sites --parts parts --rates rates --backorders 1";
    let shelf = shelf_of(alloc, ONE, &[])?;
    ends_alone(&rt, alloc, line, shelf, &[1], half)
}
