// The limits of a market, cited by its calls and their contracts. They are wider than those of the
// files, so that a market can be larger than what is read today.

/// How many score types a market has at most.
pub const MAX_TYPES: u32 = 32;

/// How many programmes a market has at most.
pub const MAX_PROGRAMMES: u32 = 120_000;

/// How many candidates a market has at most.
pub const MAX_CANDIDATES: u32 = 3_500_000;

/// How many entries a preference list has at most.
pub const MAX_ENTRIES: u32 = 48;

/// How many seats a programme has at most.
pub const MAX_QUOTA: u32 = 100_000;

/// The largest rank number, of the candidate who is worst in a type.
pub const MAX_RANK: u32 = 99_999_999;
