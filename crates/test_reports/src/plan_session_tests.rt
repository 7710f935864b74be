//! Sessions of a case of two line units.
ghost use Rattle.std.specs.Prelude.{◌≤◌, true, IfSome, length};
ghost use Rattle.std.specs.Result.{IsOk};
ghost use Rattle.family_points.specs.Counts.{work_of};

use answers::Stop;
use csv_tables::{rate_line, read_parts, read_rates, read_sites};
use family_points::work;
use plan_session::{EditFault, Session, run_edits};
use spares_input::{Case, Frame};
use std::alloc::Global;
use std::test::*;

const SITES: &str = "site,kind,systems,ship_days\nD,depot,,\nB,base,12,10\n";

const PARTS: &str = "part,parent,cost,per_system,max_depot,max_base\nL,,100,1,2,3\nK,,60,1,2,3\n";

const RATES: &str = "part,site,demand,repair_here,share,repair_days\n\
    L,D,,,,20\nL,B,36.5,0,,0\nK,D,,,,20\nK,B,18.25,0,,0\n";

/// The bytes of a table, unless there are too many.
fn bytes_of(table: &str) -> Option<&[u8]>
    ensures { IfSome result (λ bytes. length bytes.now ≤ 4194304) }
{
    let bytes = table.as_bytes();
    if bytes.len() <= 4_194_304 {
        Some(bytes)
    } else {
        None
    }
}

/// The case, or None if there is no memory.
fn case(alloc: Global) -> Option<Case>
    ensures { IfSome result (λ c. IsOk (work_of c)) }
{
    let sites = read_sites(alloc, bytes_of(SITES)?).ok()?;
    let parts = read_parts(alloc, bytes_of(PARTS)?).ok()?;
    let frame = Frame::build(alloc, sites, parts).ok()?;
    let rates = read_rates(alloc, bytes_of(RATES)?, &frame).ok()?;
    let case = Case::build(alloc, frame, rates).ok()?;
    match work(&case) {
        Ok(_) => Some(case),
        Err(_) => None,
    }
}

/// Whether the curves of the first two families are kept, if there are two.
fn kept(session: &Session) -> (bool, bool) {
    if session.family_count() == 2 {
        (session.curve(0).is_some(), session.curve(1).is_some())
    } else {
        (false, false)
    }
}

#[test]
fn a_change_costs_the_curve_of_one_family(rt: HostRuntime) -> Result<(), Fail> {
    let case = case(rt.alloc()).expect(&rt, "case");
    let row = rate_line(b"K,B,9.125,0,,0", case.frame()).expect(&rt, "row");
    let mut session = Session::new(rt.alloc(), case, 250)?;
    assert_eq!(&rt; kept(&session), (false, false));
    assert!(&rt; session.plan().is_ok());
    assert_eq!(&rt; kept(&session), (true, true));
    session.set_rate(row);
    assert_eq!(&rt; kept(&session), (true, false));
    assert!(&rt; session.plan().is_ok());
    assert_eq!(&rt; kept(&session), (true, true));
    Ok(())
}

#[test]
fn names_the_line_of_a_fault(rt: HostRuntime) {
    let case = case(rt.alloc()).expect(&rt, "case");
    let edits = b"budget,250\r\n\nplan\nrate,L,B,x,0,,0";
    let fault = run_edits(rt.alloc(), case, edits).err();
    assert!(&rt; matches!(fault, Some(Stop::Fault(EditFault::BadLine(4)))));
}
