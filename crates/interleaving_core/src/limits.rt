// How many workers there may be, and how many flags a word has.

/// The most workers that run one dictatorship together.
pub const MAX_WORKERS: u32 = 64;

/// How many flags a word has: one for each of so many programmes.
pub const FLAGS_PER_WORD: u32 = 64;
