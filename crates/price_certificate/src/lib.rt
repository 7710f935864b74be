//! Certificates: text that shows how good the stocks of a plan are, with each number exactly once.
//!
//! One grammar defines how the lines are written and read. Reading returns the certificate with this text, or the first
//! bad line, or the rule that the sites and parts break.
#![tactic(auto)]

mod certificate;
mod exactness;
mod fault;
mod many_lines;
mod place;
mod reading;
mod single_lines;
mod trimming;
mod writing;

pub use certificate::{Certificate, Node, Objective, Terms};
pub use exactness::certificates_are_exact;
pub use fault::CertFault;
pub use place::Place;
pub use reading::{
    CertificateLines, Ending, Lists, certificate_lines, certificate_of, line_number, read,
};
pub use trimming::{trim, trimmed_covers};
pub use writing::{put_each_stock, text};

/// The most bytes of a certificate.
pub const CERTIFICATE_LIMIT: usize = 16_777_216;

/// The last place of a family, which has at most 9 parts at 16 sites.
pub const LAST_PLACE: u128 = 143;

/// The most nodes of a cover.
pub const MOST_NODES: u128 = 100_000;
