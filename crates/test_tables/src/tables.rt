//! The tables that an evaluator keeps, and their ends, against a program written apart from this one.
ghost use Rattle.demand_rates.specs.Rates.{AreRatesOf};
ghost use Rattle.family_items.specs.Inputs.{IsLine};

use crate::helpers::{evaluated, evaluator_of};
use demand_rates::kinds::Rates;
use family_items::{FamilyResult, Item};
use family_tables::Evaluator;
use spares_input::{Case, PartId, SiteId};
use std::alloc::Global;
use std::test::*;
use test_inputs::{family_of, rates_of};

/// A line unit L with a shop unit S, at the depot D and the base B.
const TABLES: [&str; 3] = [
    "site,kind,systems,ship_days\nD,depot,,\nB,base,10,5\n",
    "part,parent,cost,per_system,max_depot,max_base\nL,,1000,2,1,1\nS,L,200,,1,1\n",
    "part,site,demand,repair_here,share,repair_days\nL,D,,,,10\nL,B,36.5,0.5,,5\nS,D,,,0.4,20\nS,B,,0.25,0.4,5\n",
];

const L: PartId = PartId(0);

const S: PartId = PartId(1);

const D: SiteId = SiteId(0);

const B: SiteId = SiteId(1);

/// Stocks with one S at the depot, and others with none there.
const ONE: &str = "part,site,stock\nL,D,0\nL,B,1\nS,D,1\nS,B,0\n";

const NONE: &str = "part,site,stock\nL,D,1\nL,B,0\nS,D,0\nS,B,1\n";

/// The ends of the backorders without stock in a table, if it is kept.
type Kept = Option<(u128, u128)>;

/// The kept ends of a part at a site, if the depot has `shops` S.
fn kept(evaluator: &Evaluator<48>, part: PartId, site: SiteId, shops: u8) -> Kept {
    let table = evaluator.kept(part, site, &[shops])?;
    let backorders = table.ebo(0);
    Some((backorders.lo(), backorders.hi()))
}

/// The kept ends of L at the depot before an evaluation with one S there, and after it the kept ends of L there, of S
/// at the base, and of L at the depot without S.
fn kept_by_one(alloc: Global, case: &Case, rates: &Rates) -> Option<[Kept; 4]>
    requires rates { AreRatesOf case.now rates.now }
    requires line { IsLine case.now 0 }
{
    let mut evaluator = evaluator_of(alloc, case, rates)?;
    let before = kept(&evaluator, L, D, 1);
    let _family = evaluated(alloc, &mut evaluator, case, rates, ONE)?;
    Some([
        before,
        kept(&evaluator, L, D, 1),
        kept(&evaluator, S, B, 1),
        kept(&evaluator, L, D, 0),
    ])
}

fn is_same(item: &Item<48>, other: &Item<48>) -> bool {
    item.part == other.part
        && item.site == other.site
        && item.stock == other.stock
        && item.mean == other.mean
        && item.variance == other.variance
        && item.backorders == other.backorders
        && item.spread == other.spread
}

/// Whether two families have the same items.
fn are_same(family: &FamilyResult<48>, other: &FamilyResult<48>) -> bool {
    let (items, others) = (family.items.as_slice(), other.items.as_slice());
    if items.len() != others.len() {
        return false;
    }
    for i in 0..items.len() {
        if !is_same(&items[i], &others[i]) {
            return false;
        }
    }
    true
}

/// Whether two stocks have different items, and the same evaluator finds the first items again.
fn gives_them_again(alloc: Global, case: &Case, rates: &Rates) -> Option<bool>
    requires rates { AreRatesOf case.now rates.now }
    requires line { IsLine case.now 0 }
{
    let mut evaluator = evaluator_of(alloc, case, rates)?;
    let one = evaluated(alloc, &mut evaluator, case, rates, ONE)?;
    let none = evaluated(alloc, &mut evaluator, case, rates, NONE)?;
    let again = evaluated(alloc, &mut evaluator, case, rates, ONE)?;
    Some(!are_same(&one, &none) && are_same(&one, &again))
}

#[test]
fn keeps_the_tables_of_its_stocks(rt: HostRuntime) {
    let alloc = rt.alloc();
    let case = family_of(alloc, TABLES).expect(&rt, "case");
    let rates = rates_of(alloc, &case).expect(&rt, "rates");
    let line = Some((172_356_827_673_230, 172_356_827_673_242));
    let shop = Some((51_862_002_159_491, 51_862_002_159_502));
    assert!(&rt; kept_by_one(alloc, &case, &rates) == Some([None, line, shop, None]));
    assert!(&rt; gives_them_again(alloc, &case, &rates) == Some(true));
}
