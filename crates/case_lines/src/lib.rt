//! The lines of a case: sites, parts and rates as text with each field exactly once, as in a certificate.
//!
//! One grammar defines both the writing and the reading of the lines, and the laws prove that no other text reads as
//! the same case. [`write_case`] writes them; [`case_lines`] reads their rows, or finds the first bad line, and
//! [`case_of_lines`] makes the case of the rows.
#![tactic(auto)]

mod exactness;
mod fields;
mod parts;
mod rates;
mod read_fields;
mod read_parts;
mod read_rates;
mod read_sites;
mod reading;
mod reading_laws;
mod sites;
mod whole;

pub use exactness::case_lines_are_exact;
pub use parts::are_weighted;
pub use rates::has_demand;
pub use reading::{CaseLines, case_lines, case_of_lines};
pub use reading_laws::lines_make_cases;
pub use whole::write_case;
