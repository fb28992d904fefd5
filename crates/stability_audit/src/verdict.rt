// What an audit may say.

/// The first thing that keeps a placement from being stable, or that it is stable.
#[derive(Clone, Copy, Debug, PartialEq, Eq)]
pub enum Verdict {
    /// The placement is stable.
    Stable,
    /// This programme has more holders than its quota.
    OverQuota(u32),
    /// This candidate holds a programme that is not acceptable.
    NotAcceptable(u32),
    /// This candidate and this programme block the placement.
    Blocking(u32, u32),
}
