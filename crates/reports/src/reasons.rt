// Why a list entry is held or not.

/// Why a candidate holds a list entry, or does not.
#[derive(Clone, Copy, Debug, PartialEq, Eq)]
pub enum Reason {
    /// The entry is held.
    Placed,
    /// A programme before it in the list is held.
    Below,
    /// Neither, and the candidate has no rank in its score type.
    NoRank,
    /// None of these, and the candidate's rank is worse than this bar of the programme.
    Bar(u32),
    /// None of these. The base rank, or none where no holder has a rank in its score type.
    Full(Option<u32>),
}
