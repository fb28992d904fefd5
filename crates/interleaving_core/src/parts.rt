// What a core state is made of: the cell of a turn, and what one worker knows.

/// The cell of a turn. A place is one of the turn's list, counted from 0; the list's length means
/// that the turn takes nothing.
#[derive(Clone, Copy, PartialEq, Eq, Debug)]
pub enum Cell {
    /// Nothing is posted yet.
    Empty,
    /// Posted at this place, by the worker that drew the turn.
    Posted(u32),
    /// Committed at this place.
    Committed(u32),
}

/// A turn that a worker has drawn and not yet posted.
#[derive(Clone, Copy, PartialEq, Eq, Debug)]
pub struct Claiming {
    /// The turn.
    pub turn: u32,
    /// How many entries of its list the worker has passed, each of them full.
    pub passed: u32,
    /// Whether the worker has looked at the flag of the next entry, and found it lowered.
    pub looked: bool,
    /// Whether the worker has met a seat at the next entry.
    pub met: bool,
}

/// A turn that a worker has drawn.
#[derive(Clone, Copy, PartialEq, Eq, Debug)]
pub struct OwnTurn {
    /// The turn.
    pub turn: u32,
    /// The place that the worker posted for it, if it has.
    pub place: Option<u32>,
}

/// How far the holder of the mark is with the first turn that is not committed.
#[derive(Clone, Copy, PartialEq, Eq, Debug)]
pub enum Phase {
    /// It has not looked at the turn's cell yet.
    Idle,
    /// The cell was empty.
    Halted,
    /// It weighs the entry at this place; each one before it is full.
    Scan(u32),
    /// The entry at this place has a seat left.
    Ready(u32),
    /// It has taken a seat at this place, and whether the programme is full now.
    Seated(u32, bool),
    /// It has filled the programme at this place, and raised its flag.
    Raised(u32),
}

/// What the holder of the mark knows.
#[derive(Clone, Copy, PartialEq, Eq, Debug)]
pub struct Holding {
    /// How many turns are committed.
    pub committed: u32,
    /// How far it is with the next one.
    pub phase: Phase,
}
