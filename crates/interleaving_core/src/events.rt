// The eleven events, and what each tells the worker that makes it.

/// An event: one operation of a worker on one shared word. The first four are a claimant's, the
/// others are those of who holds the mark or tries to take it.
#[derive(Clone, Copy, PartialEq, Eq, Debug)]
pub enum CoreEvent {
    /// Draws the next turn.
    Claim,
    /// Looks at the flags that stand with that of the next entry of the claimed turn's list.
    Flags,
    /// Reads whether the next entry of the claimed turn's list is full.
    Read,
    /// Posts the place found for the claimed turn.
    Post,
    /// Tries to take the mark.
    Take,
    /// Looks at the cell of the first turn that is not committed.
    Look,
    /// Reads whether the entry at the place weighed is full.
    Weigh,
    /// Takes a seat at the place weighed.
    Seat,
    /// Raises the flag of the programme that was just filled.
    Raise,
    /// Commits the turn.
    Seal,
    /// Gives the mark back.
    Release,
}

/// What an event tells.
#[derive(Clone, Copy, PartialEq, Eq, Debug)]
pub enum Told {
    /// The turn drawn.
    Claimed(u32),
    /// No turn is left to draw.
    NoTurn,
    /// The word of flags that was found.
    Flags(u64),
    /// The entry read is full, and passed.
    Passed,
    /// The entry read has a seat left.
    Met,
    /// The place posted.
    Posted(u32),
    /// The mark was free, with this number of committed turns.
    Took(u32),
    /// Another worker holds the mark.
    Missed,
    /// The place posted for the turn.
    Found(u32),
    /// Nothing is posted for the turn.
    Nothing,
    /// The entry weighed is full.
    Full,
    /// The entry weighed has a seat left.
    Room,
    /// A seat is taken, and whether the programme is full now.
    Seated(bool),
    /// The programme whose flag is raised.
    Raised(u32),
    /// The turn committed.
    Sealed(u32),
    /// The mark is free again, with this number of committed turns.
    Released(u32),
}

/// The event's condition does not hold.
#[derive(Clone, Copy, PartialEq, Eq, Debug)]
pub struct NotNow;
