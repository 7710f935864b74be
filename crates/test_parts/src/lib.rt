//! Parts of curves between two prices, beside whole curves. The tests of this crate run them.
#![tactic(auto)]

#[cfg(test)]
mod parts;
