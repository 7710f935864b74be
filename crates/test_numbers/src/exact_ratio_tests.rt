//! The reading of each kind of text, in a table; no clause says it.

ghost use Rattle.std.specs.Prelude.{◌≤◌};

use exact_ratio::{Decimal, NumberFault, read_decimal};
use std::process::Abort;
use std::test::*;

/// Texts with up to four decimals, each with its result.
const FOUR: [(&[u8], Result<Decimal, NumberFault>); 11] = [
    (
        b"12.5",
        Ok(Decimal {
            units: 125000,
            places: 4,
        }),
    ),
    (
        b".5",
        Ok(Decimal {
            units: 5000,
            places: 4,
        }),
    ),
    (
        b"5.",
        Ok(Decimal {
            units: 50000,
            places: 4,
        }),
    ),
    (
        b"007.250000",
        Ok(Decimal {
            units: 72500,
            places: 4,
        }),
    ),
    (
        b"1844674407370955.1615",
        Ok(Decimal {
            units: u64::MAX,
            places: 4,
        }),
    ),
    (b"1.2.3", Err(NumberFault::BadByte(3))),
    (b"-1", Err(NumberFault::BadByte(0))),
    (b".", Err(NumberFault::Empty)),
    (b"", Err(NumberFault::Empty)),
    (b"0.00001", Err(NumberFault::TooManyPlaces)),
    (b"1844674407370955.1616", Err(NumberFault::TooLarge)),
];

/// Whole numbers.
const WHOLE: [(&[u8], Result<Decimal, NumberFault>); 2] = [
    (b"0.50", Err(NumberFault::TooManyPlaces)),
    (
        b"18446744073709551615",
        Ok(Decimal {
            units: u64::MAX,
            places: 0,
        }),
    ),
];

fn reads(rt: &impl Abort, places: u8, rows: &[(&[u8], Result<Decimal, NumberFault>)])
    requires { places ≤ 4 }
{
    for (text, answer) in rows {
        assert_eq!(rt; read_decimal(text, places), *answer);
    }
}

#[test]
fn reads_numbers_and_tells_faults(rt: HostRuntime) {
    reads(&rt, 4, FOUR.as_slice());
    reads(&rt, 0, WHOLE.as_slice());
}
