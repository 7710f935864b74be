//! Lines and fields, written and read.

use line_text::{BadLine, Fields, Lines, count_line, put_count_line, put_fixed, word_line};
use std::test::*;

#[test]
fn writes_numbers_and_lines(rt: HostRuntime) {
    let mut out = Vec::new(rt.alloc());
    put_count_line(&mut out, b"rates", 32000).expect(&rt, "memory");
    put_fixed(&mut out, 4, 365000).expect(&rt, "memory");
    put_fixed(&mut out, 2, 7).expect(&rt, "memory");
    assert_eq!(&rt; out.as_slice(), b"rates,32000\n36.50000.07".as_slice());
}

/// Whether these are the fields of the second line.
fn has_both_fields(fields: Fields) -> bool {
    let mut fields = fields;
    fields.fixed(4, 0, 400000) == Some(365000)
        && fields.number(0, 0) == Some(0)
        && fields.is_empty()
}

#[test]
fn reads_lines_and_stays_before_a_bad_one(rt: HostRuntime) {
    let mut lines = Lines::of(b"price,12\n36.5000,0\nend\nmore");
    assert_eq!(&rt; lines.count(), 4);
    assert!(&rt; count_line(&mut lines, b"price", 13, 20) == Err(BadLine));
    assert!(&rt; count_line(&mut lines, b"price", 0, 20) == Ok(12));
    assert!(&rt; lines.fields().is_ok_and(has_both_fields));
    lines.pass();
    assert!(&rt; word_line(&mut lines, b"end") == Ok(()));
    assert!(&rt; word_line(&mut lines, b"more") == Err(BadLine));
    assert_eq!(&rt; lines.count(), 1);
}
