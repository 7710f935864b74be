//! Certificates as texts, and the answers of their checker.

use answers::{NoMemory, Stop};
use check_answers::{Accepted, Reject};
use demand_rates::{Place, RateFault};
use gap_checker::check;
use price_certificate::{CertFault, read};
use spares_input::{CaseFault, PartId, SiteId};
use std::alloc::Global;
use std::process::Abort;
use std::test::*;

/// A line unit at the depot and one base without stock, at a price of one backorder for 100 of money.
const PLAIN: &str = "spares-certificate,1\n\
    sites,2\nD,depot,,\nB,base,12,10.00\n\
    parts,1\nL,,100,1,2,3\n\
    rates,2\nL,D,,,,20.00\nL,B,36.5000,0.0000,,0.00\n\
    budget,0\nprice,281474976710656,100\n\
    floors,1\n84442493013196800\n\
    stocks,2\n0\n0\n\
    upper,844424930131968\nbound,844424930131968\nend\n";

/// The same with a weight of three.
const WEIGHTED: &str = "spares-certificate,1\n\
    sites,2\nD,depot,,\nB,base,12,10.00\n\
    parts,1,weights\nL,,100,1,2,3,3\n\
    rates,2\nL,D,,,,20.00\nL,B,36.5000,0.0000,,0.00\n\
    budget,0\nprice,844424930131968,100\n\
    floors,1\n253327479039590400\n\
    stocks,2\n0\n0\n\
    upper,2533274790395904\nbound,2533274790395904\nend\n";

/// A line unit with two shop units and more tables than the limit.
const LARGE: &str = "spares-certificate,1\n\
    sites,4\nD,depot,,\nB1,base,12,10.00\nB2,base,12,10.00\nB3,base,12,10.00\n\
    parts,3\nL,,100,1,9,0\nS0,L,10,,13,13\nS1,L,10,,13,13\n\
    rates,12\nL,D,,,,20.00\nL,B1,3.6500,0.5000,,0.00\nL,B2,3.6500,0.5000,,0.00\nL,B3,3.6500,0.5000,,0.00\n\
    S0,D,,,0.2000,20.00\nS0,B1,,0.5000,0.2000,5.00\nS0,B2,,0.5000,0.2000,5.00\nS0,B3,,0.5000,0.2000,5.00\n\
    S1,D,,,0.2000,20.00\nS1,B1,,0.5000,0.2000,5.00\nS1,B2,,0.5000,0.2000,5.00\nS1,B3,,0.5000,0.2000,5.00\n\
    budget,0\nprice,1,1\n\
    floors,1\n0\n\
    stocks,12\n0\n0\n0\n0\n0\n0\n0\n0\n0\n0\n0\n0\n\
    upper,38685626227668133590597632\nbound,0\nend\n";

/// The answer for a certificate's bytes.
#[derive(Clone, Copy, PartialEq, Eq)]
enum Answer {
    /// The bytes are no certificate.
    Unread(CertFault),
    /// The checker refuses.
    Refused(Reject),
    /// A pipeline has no direct part.
    Thin(Place),
    Takes(Accepted),
    /// No memory, or too many bytes.
    Else,
}

/// Nothing is bought, and no stocks have less.
const THREE: Answer = Answer::Takes(Accepted {
    bound: 844_424_930_131_968,
    upper: 844_424_930_131_968,
    cost: 0,
});

/// The same with a weight of 3.
const NINE: Answer = Answer::Takes(Accepted {
    bound: 2_533_274_790_395_904,
    upper: 2_533_274_790_395_904,
    cost: 0,
});

/// The same with a bound of 0.
const NO_BOUND: Answer = Answer::Takes(Accepted {
    bound: 0,
    upper: 844_424_930_131_968,
    cost: 0,
});

/// The largest upper end, and a bound of 0.
const ANYTHING: Answer = Answer::Takes(Accepted {
    bound: 0,
    upper: 1 << 85,
    cost: 0,
});

/// Certificates with some changed lines, counted from 1, and their answers.
const FIRST_FORMAT: [(&str, &str, Answer); 13] = [
    (PLAIN, "", THREE),
    (WEIGHTED, "", NINE),
    (PLAIN, "18=bound,0", NO_BOUND),
    (PLAIN, "11=price,0,1|13=0|18=bound,0", NO_BOUND),
    (
        PLAIN,
        "11=price,281474976710656,1|13=844424930131968",
        THREE,
    ),
    (
        PLAIN,
        "13=84442493013196801",
        Answer::Refused(Reject::FloorTooHigh {
            family: 0,
            floor: 84_442_493_013_196_801,
            least: 84_442_493_013_196_800,
        }),
    ),
    (
        PLAIN,
        "17=upper,844424930131967",
        Answer::Refused(Reject::UpperTooLow {
            claimed: 844_424_930_131_967,
            upper: 844_424_930_131_968,
        }),
    ),
    (
        PLAIN,
        "18=bound,844424930131969",
        Answer::Refused(Reject::BoundTooHigh {
            claimed: 844_424_930_131_969,
            largest: 844_424_930_131_968,
        }),
    ),
    (
        PLAIN,
        "16=1",
        Answer::Refused(Reject::OverBudget { cost: 100 }),
    ),
    (
        PLAIN,
        "16=4",
        Answer::Refused(Reject::StocksOverLimit {
            part: PartId(0),
            site: SiteId(1),
            stock: 4,
        }),
    ),
    (
        PLAIN,
        "4=B,base,12,0.00",
        Answer::Thin(Place::Pair(PartId(0), SiteId(1))),
    ),
    (
        PLAIN,
        "4=D,base,12,10.00|9=L,D,36.5000,0.0000,,0.00",
        Answer::Unread(CertFault::BadCase(CaseFault::DoubleSite(3))),
    ),
    (LARGE, "", Answer::Refused(Reject::WorkTooLarge(1_152_762))),
];

/// The same if covers show the floors. The large case split at 1 needs 115,530 tables.
const SECOND_FORMAT: [(&str, &str, Answer); 8] = [
    (
        PLAIN,
        "1=spares-certificate,2\nobjective,backorders|13=84442493013196800\ncovers,1\ncover,3\nsplit,1,3\nwhole\ncost",
        THREE,
    ),
    (
        PLAIN,
        "1=spares-certificate,2\nobjective,backorders|13=84442493013196800\ncovers,1\ncover,3\nsplit,1,2\nwhole\ncost",
        Answer::Refused(Reject::LeafTooLow {
            family: 0,
            leaf: 1,
            floor: 84_442_493_013_196_800,
            least: 56_294_995_342_131_200,
        }),
    ),
    (
        PLAIN,
        "1=spares-certificate,2\nobjective,backorders|13=84442493013196800\ncovers,1\ncover,2\nsplit,1,3\nwhole",
        Answer::Refused(Reject::CoverGap { family: 0 }),
    ),
    (
        PLAIN,
        "1=spares-certificate,2\nobjective,backorders|13=84442493013196800\ncovers,1\ncover,3\nsplit,1,4\nwhole\ncost",
        Answer::Refused(Reject::CoverGap { family: 0 }),
    ),
    (
        LARGE,
        "1=spares-certificate,2\nobjective,backorders|27=0\ncovers,1\ncover,1\ncost",
        ANYTHING,
    ),
    (
        LARGE,
        "1=spares-certificate,2\nobjective,backorders|27=0\ncovers,1\ncover,3\nsplit,0,1\nwhole\ncost",
        ANYTHING,
    ),
    (
        LARGE,
        "1=spares-certificate,2\nobjective,backorders|27=0\ncovers,1\ncover,3\nsplit,0,9\nwhole\ncost",
        Answer::Refused(Reject::WorkTooLarge(1_037_514)),
    ),
    (
        PLAIN,
        "1=spares-certificate,2\nobjective,log-availability|13=84442493013196800\ncovers,1\ncover,1\nwhole",
        Answer::Refused(Reject::UpperTooLow {
            claimed: 844_424_930_131_968,
            upper: 971_703_655_724_172,
        }),
    ),
];

/// The line of this number after the changes.
fn changed<'a>(number: usize, line: &'a str, changes: &'a str) -> &'a str {
    for change in changes.split('|') {
        if let Some((at, new)) = change.split_once('=')
            && at.parse::<usize>() == Ok(number)
        {
            return new;
        }
    }
    line
}

/// The bytes of a certificate with these lines changed.
fn bytes_of<'a>(alloc: Global, text: &'a str, changes: &'a str) -> Result<Vec<u8>, NoMemory> {
    let mut bytes = Vec::new(alloc);
    let mut number: usize = 0;
    for line in text.split('\n') {
        if number > 0 {
            bytes.push(b'\n')?;
        }
        number = number.saturating_add(1);
        bytes.extend_from_slice(changed(number, line, changes).as_bytes())?;
    }
    Ok(bytes)
}

/// The answer for these bytes.
fn answer_of(alloc: Global, bytes: &[u8]) -> Answer {
    if bytes.len() > 16_777_216 {
        return Answer::Else;
    }
    let certificate = match read(alloc, bytes) {
        Ok(certificate) => certificate,
        Err(Stop::NoMemory) => return Answer::Else,
        Err(Stop::Fault(fault)) => return Answer::Unread(fault),
    };
    let answer = check(alloc, &certificate);
    drop(certificate);
    match answer {
        Ok(accepted) => Answer::Takes(accepted),
        Err(Stop::NoMemory) => Answer::Else,
        Err(Stop::Fault(Reject::Rate(RateFault::ThinPipeline { place, .. }))) => {
            Answer::Thin(place)
        }
        Err(Stop::Fault(reject)) => Answer::Refused(reject),
    }
}

/// Each certificate gets its answer.
fn meets(
    rt: &impl Abort,
    alloc: Global,
    rows: &[(&'static str, &'static str, Answer)],
) -> Result<(), Fail> {
    for (text, changes, wanted) in rows {
        let bytes = bytes_of(alloc, text, changes)?;
        assert!(rt; answer_of(alloc, bytes.as_slice()) == *wanted, "{text}");
    }
    Ok(())
}

#[test]
fn certificates_of_the_first_format_get_their_answers(rt: HostRuntime) -> Result<(), Fail> {
    meets(&rt, rt.alloc(), &FIRST_FORMAT)
}

#[test]
fn certificates_of_the_second_format_get_their_answers(rt: HostRuntime) -> Result<(), Fail> {
    meets(&rt, rt.alloc(), &SECOND_FORMAT)
}
