use crate::helpers::{Ended, ends_alone, printed, refused, shelf_with};
use answers::NoMemory;
use spares_io::MemShelf;
use std::alloc::Global;
use std::process::Abort;
use std::test::*;

/// The words of `check` on a shelf with a certificate.
const CHECK: &str = "check --certificate certificate";

/// Nothing is bought for a line unit at the depot and one base, at a price of one backorder for 100 of money; without
/// the last line feed.
const PLAIN: &str =
    "spares-certificate,1\nsites,2\nD,depot,,\nB,base,12,10.00\nparts,1\nL,,100,1,2,3\nrates,2\nL,D,,,,20.00\nL,B,36.5000,0.0000,,0.00\nbudget,0\nprice,281474976710656,100\nfloors,1\n84442493013196800\nstocks,2\n0\n0\nupper,844424930131968\nbound,844424930131968\nend";

/// The same in the second format with a cover that shows the floor.
const COVERED: &str =
    "spares-certificate,2\nobjective,backorders\nsites,2\nD,depot,,\nB,base,12,10.00\nparts,1\nL,,100,1,2,3\nrates,2\nL,D,,,,20.00\nL,B,36.5000,0.0000,,0.00\nbudget,0\nprice,281474976710656,100\nfloors,1\n84442493013196800\ncovers,1\ncover,3\nsplit,1,3\nwhole\ncost\nstocks,2\n0\n0\nupper,844424930131968\nbound,844424930131968\nend";

/// The same by the loss, with the whole family in one box.
const LOST: &str =
    "spares-certificate,2\nobjective,log-availability\nsites,2\nD,depot,,\nB,base,12,10.00\nparts,1\nL,,100,1,2,3\nrates,2\nL,D,,,,20.00\nL,B,36.5000,0.0000,,0.00\nbudget,0\nprice,339017605730256,100\nfloors,1\n97170365572114800\ncovers,1\ncover,1\nwhole\nstocks,2\n0\n0\nupper,971703655724172\nbound,971703655721148\nend";

/// One unit at the base is on hand, and nothing is bought.
const HELD: &str =
    "spares-held,1\nspares-certificate,2\nobjective,backorders\nsites,2\nD,depot,,\nB,base,12,10.00\nparts,1\nL,,100,1,2,3\nrates,2\nL,D,,,,20.00\nL,B,36.5000,0.0000,,0.00\nbudget,0\nprice,225419721073314,100\nfloors,1\n57696376733064700\ncovers,1\ncover,1\nwhole\nstocks,2\n0\n1\nupper,576963767330649\nbound,576963767330647\nend\nheld,2\n0\n1\nend";

/// More lines than each of them has.
const ALL: usize = 100;

/// A certificate, new lines with their numbers and a bar between two, and the report.
const ACCEPTED: [(&str, &str, &str); 13] = [
    (
        PLAIN,
        "",
        "accepted,1\nbudget,0\ncost,0\nupper,3.000000\nbound,3.000000\n",
    ),
    (
        COVERED,
        "",
        "accepted,2\nbudget,0\ncost,0\nupper,3.000000\nbound,3.000000\n",
    ),
    (
        PLAIN,
        "18=bound,0",
        "accepted,1\nbudget,0\ncost,0\nupper,3.000000\nbound,0.000000\n",
    ),
    (
        PLAIN,
        "17=upper,844424930131969",
        "accepted,1\nbudget,0\ncost,0\nupper,3.000001\nbound,3.000000\n",
    ),
    (
        PLAIN,
        "11=price,0,1|13=0|18=bound,0",
        "accepted,1\nbudget,0\ncost,0\nupper,3.000000\nbound,0.000000\n",
    ),
    (
        PLAIN,
        "11=price,281474976710656,1|13=844424930131968",
        "accepted,1\nbudget,0\ncost,0\nupper,3.000000\nbound,3.000000\n",
    ),
    (
        LOST,
        "",
        "accepted,2\nbudget,0\ncost,0\nupper,3.452185\nbound,3.452184\n",
    ),
    (
        LOST,
        "22=bound,0",
        "accepted,2\nbudget,0\ncost,0\nupper,3.452185\nbound,0.000000\n",
    ),
    (
        LOST,
        "6=parts,1,weights|7=L,,100,1,2,3,2",
        "accepted,2\nbudget,0\ncost,0\nupper,3.452185\nbound,3.452184\n",
    ),
    (
        LOST,
        "16=cover,3|17=split,1,3\nwhole\ncost",
        "accepted,2\nbudget,0\ncost,0\nupper,3.452185\nbound,3.452184\n",
    ),
    (
        HELD,
        "",
        "accepted,2\nbudget,0\ncost,0\non-hand,100\nupper,2.049788\nbound,2.049787\n",
    ),
    (
        HELD,
        "23=bound,0",
        "accepted,2\nbudget,0\ncost,0\non-hand,100\nupper,2.049788\nbound,0.000000\n",
    ),
    (
        HELD,
        "17=cover,3|18=split,1,2\nwhole\nwhole",
        "accepted,2\nbudget,0\ncost,0\non-hand,100\nupper,2.049788\nbound,2.049787\n",
    ),
];

/// The same, and the line of the refusal.
const REFUSED: [(&str, &str, &str); 40] = [
    (
        PLAIN,
        "13=84442493013196801",
        "fault,rejected,floor-too-high,0,84442493013196801,84442493013196800\n",
    ),
    (
        PLAIN,
        "17=upper,844424930131967",
        "fault,rejected,upper-too-low,844424930131967,844424930131968\n",
    ),
    (
        PLAIN,
        "18=bound,844424930131969",
        "fault,rejected,bound-too-high,844424930131969,844424930131968\n",
    ),
    (PLAIN, "16=1", "fault,rejected,over-budget,100\n"),
    (PLAIN, "16=4", "fault,rejected,stocks-over-limit,L,B,4\n"),
    (PLAIN, "4=B,base,12,0.00", "fault,rejected,rate\n"),
    (
        PLAIN,
        "4=D,base,12,10.00|9=L,D,36.5000,0.0000,,0.00",
        "fault,bad-case\n",
    ),
    (PLAIN, "1=spares-certificate,3", "fault,bad-line,1\n"),
    (PLAIN, "1=spares-certificate,1\r", "fault,bad-line,1\n"),
    (PLAIN, "11=price,1,0", "fault,bad-line,11\n"),
    (PLAIN, "16=00", "fault,bad-line,16\n"),
    (PLAIN, "19=end\nx", "fault,bad-line,20\n"),
    (
        COVERED,
        "17=split,1,2",
        "fault,rejected,leaf-too-low,0,1,84442493013196800,56294995342131200\n",
    ),
    (COVERED, "17=split,1,4", "fault,rejected,cover-gap,0\n"),
    (
        COVERED,
        "16=cover,2|18=whole\nstocks,2|19=0",
        "fault,bad-line,21\n",
    ),
    (COVERED, "17=split,144,3", "fault,bad-line,17\n"),
    (
        LOST,
        "2=objective,backorders",
        "fault,rejected,leaf-too-low,0,0,97170365572114800,84442493013196800\n",
    ),
    (
        LOST,
        "5=B,base,2,10.00",
        "fault,rejected,upper-too-low,971703655724172,1170621519031300\n",
    ),
    (
        LOST,
        "14=97170365572114801",
        "fault,rejected,leaf-too-low,0,0,97170365572114801,97170365572114800\n",
    ),
    (
        LOST,
        "16=cover,3|17=split,1,2\nwhole\ncost",
        "fault,rejected,leaf-too-low,0,1,97170365572114800,67803521146051200\n",
    ),
    (
        LOST,
        "21=upper,971703655724171",
        "fault,rejected,upper-too-low,971703655724171,971703655724172\n",
    ),
    (
        LOST,
        "22=bound,971703655721149",
        "fault,rejected,bound-too-high,971703655721149,971703655721148\n",
    ),
    (LOST, "1=spares-certificate,1", "fault,bad-line,2\n"),
    (HELD, "21=0", "fault,rejected,stocks-below-held,L,B,0\n"),
    (HELD, "26=1", "fault,rejected,stocks-below-held,L,D,0\n"),
    (
        HELD,
        "20=3|21=0",
        "fault,rejected,stocks-over-limit,L,D,3\n",
    ),
    (HELD, "21=2", "fault,rejected,over-budget,100\n"),
    (HELD, "27=0", "fault,rejected,over-budget,100\n"),
    (
        HELD,
        "15=57696376733064701",
        "fault,rejected,leaf-too-low,0,0,57696376733064701,57696376733064700\n",
    ),
    (
        HELD,
        "15=57696376733064701|21=0",
        "fault,rejected,stocks-below-held,L,B,0\n",
    ),
    (
        HELD,
        "17=cover,3|18=split,1,1\nwhole\nwhole",
        "fault,rejected,cover-gap,0\n",
    ),
    (
        HELD,
        "22=upper,576963767330648",
        "fault,rejected,upper-too-low,576963767330648,576963767330649\n",
    ),
    (
        HELD,
        "23=bound,576963767330648",
        "fault,rejected,bound-too-high,576963767330648,576963767330647\n",
    ),
    (
        HELD,
        "3=objective,log-availability",
        "fault,rejected,upper-too-low,576963767330649,632686049993988\n",
    ),
    (HELD, "1=spares-held,2", "fault,bad-line,1\n"),
    (HELD, "2=spares-certificate,1", "fault,bad-line,2\n"),
    (HELD, "25=held,1", "fault,bad-line,25\n"),
    (HELD, "26=3", "fault,bad-line,26\n"),
    (HELD, "28=end\nx", "fault,bad-line,29\n"),
    (
        HELD,
        "6=D,base,12,10.00|11=L,D,36.5000,0.0000,,0.00|26=x",
        "fault,bad-case\n",
    ),
];

/// A count of first lines of a certificate, and the line of the refusal.
const CUT: [(usize, &str); 19] = [
    (0, "fault,bad-line,1\n"),
    (1, "fault,bad-line,2\n"),
    (2, "fault,bad-line,3\n"),
    (3, "fault,bad-line,4\n"),
    (4, "fault,bad-line,5\n"),
    (5, "fault,bad-line,6\n"),
    (6, "fault,bad-line,7\n"),
    (7, "fault,bad-line,8\n"),
    (8, "fault,bad-line,9\n"),
    (9, "fault,bad-line,10\n"),
    (10, "fault,bad-line,11\n"),
    (11, "fault,bad-line,12\n"),
    (12, "fault,bad-line,13\n"),
    (13, "fault,bad-line,14\n"),
    (14, "fault,bad-line,15\n"),
    (15, "fault,bad-line,16\n"),
    (16, "fault,bad-line,17\n"),
    (17, "fault,bad-line,18\n"),
    (18, "fault,bad-line,19\n"),
];

/// The line of this number after the changes.
fn changed<'a>(number: usize, line: &'a str, changes: &'a str) -> &'a str {
    for change in changes.split('|') {
        if let Some((at, new)) = change.split_once('=')
            && at.parse::<usize>() == Ok(number)
        {
            return new;
        }
    }
    line
}

/// The first `count` lines of a certificate, some of them changed.
fn bytes_of<'a>(
    alloc: Global,
    text: &'a str,
    count: usize,
    changes: &'a str,
) -> Result<Vec<u8>, NoMemory> {
    let mut bytes = Vec::new(alloc);
    let mut number: usize = 0;
    for line in text.split('\n') {
        number = number.saturating_add(1);
        if number <= count {
            bytes.extend_from_slice(changed(number, line, changes).as_bytes())?;
            bytes.push(b'\n')?;
        }
    }
    Ok(bytes)
}

/// The shelf of `check`, with such a certificate.
fn certified(
    alloc: Global,
    text: &str,
    count: usize,
    changes: &str,
    fails: &[u32],
) -> Result<MemShelf, NoMemory> {
    let bytes = bytes_of(alloc, text, count, changes)?;
    shelf_with(alloc, &[("certificate", bytes.as_slice())], fails)
}

/// Certificates are accepted.
fn accepts(rt: &impl Abort, alloc: Global, rows: &[(&str, &str, &str)]) -> Result<(), Fail> {
    for (text, changes, report) in rows {
        let shelf = certified(alloc, text, ALL, changes, &[])?;
        ends_alone(rt, alloc, CHECK, shelf, &[], printed(report))?;
    }
    Ok(())
}

/// Certificates are refused.
fn refuses(rt: &impl Abort, alloc: Global, rows: &[(&str, &str, &str)]) -> Result<(), Fail> {
    for (text, changes, line) in rows {
        let shelf = certified(alloc, text, ALL, changes, &[])?;
        ends_alone(rt, alloc, CHECK, shelf, &[], refused(4, line))?;
    }
    Ok(())
}

/// A certificate that ends early is refused.
fn refuses_cut(rt: &impl Abort, alloc: Global, rows: &[(usize, &str)]) -> Result<(), Fail> {
    for (count, line) in rows {
        let shelf = certified(alloc, PLAIN, *count, "", &[])?;
        ends_alone(rt, alloc, CHECK, shelf, &[], refused(4, line))?;
    }
    Ok(())
}

#[test]
fn accepts_certificates(rt: HostRuntime) -> Result<(), Fail> {
    accepts(&rt, rt.alloc(), &ACCEPTED)
}

#[test]
fn refuses_hostile_certificates(rt: HostRuntime) -> Result<(), Fail> {
    refuses(&rt, rt.alloc(), &REFUSED)
}

#[test]
fn refuses_certificates_that_end_early(rt: HostRuntime) -> Result<(), Fail> {
    refuses_cut(&rt, rt.alloc(), &CUT)
}

/// The one read fails; the shelf has no such name; the one put fails after half of a report of 57 bytes.
#[test]
fn stops_a_check_at_each_call_that_fails(rt: HostRuntime) -> Result<(), Fail> {
    let alloc = rt.alloc();
    let unread = refused(5, "fault,read,certificate\n");
    let failing = certified(alloc, PLAIN, ALL, "", &[1])?;
    ends_alone(&rt, alloc, CHECK, failing, &[], unread)?;
    let whole = certified(alloc, PLAIN, ALL, "", &[2])?;
    ends_alone(&rt, alloc, "check --certificate other", whole, &[], unread)?;
    let half = Ended {
        status: 6,
        out: "accepted,1\nbudget,0\ncost,0\nu",
        err: "fault,write\n",
    };
    let full = certified(alloc, PLAIN, ALL, "", &[2])?;
    ends_alone(&rt, alloc, CHECK, full, &[1], half)
}
