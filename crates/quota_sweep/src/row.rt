// The row of one quota.

/// How many quotas a sweep has at most.
pub const MAX_ROWS: u32 = 1_000;

/// What a quota of the programme gives.
#[derive(Clone, Copy, Debug, PartialEq, Eq)]
pub struct SweepRow {
    /// The quota.
    pub quota: u32,
    /// How many candidates hold the programme.
    pub held: u32,
    /// The worst rank among its holders, None where nobody holds it.
    pub base: Option<u32>,
    /// How many candidates hold something else than in the row before; 0 in the first row.
    pub changed: u32,
}
