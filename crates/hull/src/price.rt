//! A price of backorders in money.

/// A price: `p` units of 2^-48 backorders for `q` units of money.
#[derive(Clone, Copy, Debug, Drop, PartialEq, Eq)]
pub struct Price {
    /// Backorders, in units of 2^-48.
    pub p: u128,
    /// Whole money.
    pub q: u64,
}
