//! Worked rows of the crates that read and write bytes. The tests of this crate run them.
#![tactic(auto)]

#[cfg(test)]
mod case_lines_tests;
#[cfg(test)]
mod case_maker_tests;
#[cfg(test)]
mod csv_tables_tests;
#[cfg(test)]
mod line_text_tests;
#[cfg(test)]
mod price_certificate_tests;
#[cfg(test)]
mod spares_io_tests;
