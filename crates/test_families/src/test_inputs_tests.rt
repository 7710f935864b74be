//! Tables of a case, and tables of none.

use std::test::*;
use test_inputs::{case_of, family_of, rates_of, stocks_of};

#[test]
fn tables_give_cases(rt: HostRuntime) {
    let alloc = rt.alloc();
    let sites = "site,kind,systems,ship_days\nD,depot,,\nB,base,12,10\n";
    let parts = "part,parent,cost,per_system,max_depot,max_base\nL,,100,1,2,3\n";
    let rates = "part,site,demand,repair_here,share,repair_days\nL,D,,,,20\nL,B,36.5,0,,0\n";
    let case = family_of(alloc, [sites, parts, rates]).expect(&rt, "case");
    assert!(&rt; rates_of(alloc, &case).is_some());
    assert!(&rt; stocks_of(alloc, &case, "part,site,stock\nL,D,0\nL,B,0\n").is_some());
    assert!(&rt; case_of(alloc, [sites, parts, sites]).is_none());
}
