// What numbers are packed with: each stands above every number that goes behind it.

/// More than the rows of a file.
pub(crate) const PLACES: u128 = 1 << 25;

/// More than the number of any candidate.
pub(crate) const NUMBERS: u64 = 1 << 37;

/// More than the index of any candidate.
pub(crate) const INDEXES: u64 = 1 << 32;

/// More than any rank.
pub(crate) const RANKS: u64 = 1 << 27;

/// More than any candidate or rank together with a type: with a place behind it, a word of 128 bits
/// holds it.
pub(crate) const GROUPS: u128 = 1 << 102;
