//! A ratio of two whole numbers.

/// The fraction `num / den`, not reduced.
#[derive(Clone, Copy, Debug, Drop, PartialEq, Eq)]
pub struct Ratio {
    /// The upper number.
    pub num: u128,
    /// The lower number.
    pub den: u128,
}
