//! How many tables an evaluator keeps: with each vector only those that are missing come.
ghost use Rattle.demand_rates.specs.Rates.{AreRatesOf};
ghost use Rattle.family_items.specs.Inputs.{IsLine};

use crate::helpers::{evaluated, evaluator_of};
use demand_rates::kinds::Rates;
use spares_input::Case;
use std::alloc::Global;
use std::test::*;
use test_inputs::{family_of, rates_of};

/// A line unit L with a shop unit S, at the depot D and the base B.
const ONE: [&str; 3] = [
    "site,kind,systems,ship_days\nD,depot,,\nB,base,10,5\n",
    "part,parent,cost,per_system,max_depot,max_base\nL,,1000,2,1,1\nS,L,200,,2,1\n",
    "part,site,demand,repair_here,share,repair_days\nL,D,,,,10\nL,B,36.5,0.5,,5\nS,D,,,0.4,20\nS,B,,0.25,0.4,5\n",
];

/// L with the shop units R and S, at the depot D and the bases A and B.
const TWO: [&str; 3] = [
    "site,kind,systems,ship_days\nD,depot,,\nA,base,10,5\nB,base,10,5\n",
    "part,parent,cost,per_system,max_depot,max_base\nL,,10,1,1,2\nR,L,3,,1,1\nS,L,2,,1,1\n",
    "part,site,demand,repair_here,share,repair_days\nL,D,,,,10\nL,A,36.5,0.5,,5\nL,B,18.25,0.5,,5\nR,D,,,0.4,20\nR,A,,0.25,0.4,5\nR,B,,0.25,0.4,5\nS,D,,,0.4,20\nS,A,,0.25,0.4,5\nS,B,,0.25,0.4,5\n",
];

/// Stocks of the first family in turn, and how many tables are kept after each. The first take one for S at each site
/// and for L at the depot; another stock of S at the depot takes one more for S at B and for L at the depot.
const OF_ONE: [(&str, usize); 4] = [
    ("part,site,stock\nL,D,0\nL,B,1\nS,D,1\nS,B,0\n", 3),
    ("part,site,stock\nL,D,1\nL,B,0\nS,D,0\nS,B,1\n", 5),
    ("part,site,stock\nL,D,1\nL,B,1\nS,D,1\nS,B,1\n", 5),
    ("part,site,stock\nL,D,0\nL,B,0\nS,D,2\nS,B,0\n", 7),
];

/// The same of the second family, with the stocks 1 and 0 of R and S at the depot, 1 and 1, 0 and 1, 0 and 0, 1 and 0.
/// A new stock of R or S there takes a table for it at each base, and a new pair of stocks one for L.
const OF_TWO: [(&str, usize); 5] = [
    (
        "part,site,stock\nL,D,0\nL,A,1\nL,B,0\nR,D,1\nR,A,0\nR,B,1\nS,D,0\nS,A,0\nS,B,1\n",
        7,
    ),
    (
        "part,site,stock\nL,D,1\nL,A,2\nL,B,0\nR,D,1\nR,A,1\nR,B,0\nS,D,1\nS,A,0\nS,B,1\n",
        10,
    ),
    (
        "part,site,stock\nL,D,1\nL,A,0\nL,B,2\nR,D,0\nR,A,0\nR,B,0\nS,D,1\nS,A,1\nS,B,1\n",
        13,
    ),
    (
        "part,site,stock\nL,D,0\nL,A,0\nL,B,0\nR,D,0\nR,A,1\nR,B,1\nS,D,0\nS,A,0\nS,B,0\n",
        14,
    ),
    (
        "part,site,stock\nL,D,1\nL,A,2\nL,B,1\nR,D,1\nR,A,1\nR,B,1\nS,D,0\nS,A,1\nS,B,0\n",
        14,
    ),
];

/// Whether an evaluator of the first family keeps as many tables as each row says, row after row.
fn keeps(alloc: Global, case: &Case, rates: &Rates, rows: &[(&str, usize)]) -> Option<bool>
    requires rates { AreRatesOf case.now rates.now }
    requires line { IsLine case.now 0 }
{
    let mut evaluator = evaluator_of(alloc, case, rates)?;
    for n in 0..rows.len() {
        let _family = evaluated(alloc, &mut evaluator, case, rates, rows[n].0)?;
        if evaluator.kept_count() != rows[n].1 {
            return Some(false);
        }
    }
    Some(true)
}

/// The same for the case of these tables.
fn keeps_in(alloc: Global, tables: [&str; 3], rows: &[(&str, usize)]) -> Option<bool> {
    let case = family_of(alloc, tables)?;
    let rates = rates_of(alloc, &case)?;
    keeps(alloc, &case, &rates, rows)
}

#[test]
fn makes_only_the_missing_tables(rt: HostRuntime) {
    assert!(&rt; keeps_in(rt.alloc(), ONE, &OF_ONE) == Some(true));
    assert!(&rt; keeps_in(rt.alloc(), TWO, &OF_TWO) == Some(true));
}
