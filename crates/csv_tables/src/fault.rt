//! The faults of a table.

use exact_ratio::NumberFault;

/// The first fault of a table: at the header, and then row by row and from left to right. Rows count records, the
/// header being row 1; columns count from 1.
#[derive(Clone, Copy, Drop, PartialEq, Eq)]
pub enum TableFault {
    /// There is no record.
    NoHeader,
    /// The header has not as many fields as the table, or a row not as many as the header.
    FieldCount {
        row: u32,
        found: u32,
    },
    /// A column of the header has another name.
    Header {
        column: u8,
    },
    /// There are more rows than the table may have.
    TooManyRows,
    /// The field is no name.
    BadName {
        row: u32,
        column: u8,
    },
    /// The kind of a site is neither `depot` nor `base`.
    BadKind {
        row: u32,
    },
    /// No part of the frame has this name.
    UnknownPart {
        row: u32,
    },
    /// No site of the frame has this name.
    UnknownSite {
        row: u32,
    },
    /// A number is missing.
    FieldEmpty {
        row: u32,
        column: u8,
    },
    /// The field must be empty in a row of this kind.
    FieldNotEmpty {
        row: u32,
        column: u8,
    },
    /// The field is no number with the table's count of decimals.
    BadNumber {
        row: u32,
        column: u8,
        fault: NumberFault,
    },
    /// The number is out of its range.
    OutOfRange {
        row: u32,
        column: u8,
    },
}
