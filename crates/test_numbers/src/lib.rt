//! Worked rows of the crates that calculate: ends and tables of other programs. The tests of this crate run them.
#![tactic(auto)]

#[cfg(test)]
mod availability_tests;
#[cfg(test)]
mod backorder_bounds_tests;
#[cfg(test)]
mod base_pipeline_tests;
#[cfg(test)]
mod depot_pipeline_tests;
#[cfg(test)]
mod exact_ratio_tests;
#[cfg(test)]
mod fixed_interval_tests;
#[cfg(test)]
mod moment_table_tests;
#[cfg(test)]
mod series_bounds_tests;
