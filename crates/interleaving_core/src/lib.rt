//! How several workers run one serial dictatorship together, event by event, and why each run of
//! them commits what one worker would choose turn by turn.
//!
//! # What is shared
//!
//! In a serial dictatorship each turn takes the first programme of its list that still has a
//! seat. One worker needs a seat count for each programme and goes through the turns in their
//! order. Here several workers share the seat counts; a cell for each turn, which is empty,
//! posted at a place of the turn's list, or committed at a place; a flag for each programme, 64 of
//! them in a word, which is raised where the programme is full, but for the moment between the
//! seat that filled it and the raising; a claim number, which says how many draws were made; and
//! a mark, which at most one worker holds and which says how many turns are committed.
//!
//! # The eleven events
//!
//! Each event is one operation on one of these words, so events of different workers never overlap.
//!
//! A claimant draws the next turn (`Claim`). It goes along the turn's list: it looks at the word
//! that has the flag of the next entry (`Flags`), and passes all entries from there on whose
//! flags are raised in it. Where it comes to a flag of that word that is lowered, it reads the
//! entry's seat count (`Read`): it passes the entry where it is full, and else stops. Where it
//! meets a seat, or comes to the end of the list, it posts the turn (`Post`). It then owes one try
//! on the mark before it may draw again.
//!
//! Who tries the mark (`Take`) and finds it free holds it, and commits turns in their order. The
//! holder looks at the cell of the first turn that is not committed (`Look`). Where it is posted,
//! the holder weighs the entries from the posted place on (`Weigh`), takes a seat at the first
//! that has one (`Seat`), raises the programme's flag where this seat was the last (`Raise`), and
//! commits the turn there (`Seal`), or at the end of the list where none has. At an empty cell, or
//! once all turns are committed, it gives the mark back (`Release`).
//!
//! # Why no event is undone
//!
//! A posted place is a guess: other turns may take the seat that the claimant met. But only the
//! holder raises a seat count, no count ever falls, and so what was full when the claimant passed
//! it is full for good. A flag is raised only where its programme is full, so it is never lowered
//! again. A wrong guess is never too late in the list, only too early. The holder weighs on from
//! there, and nothing that anybody wrote has to be taken back.
//!
//! # Why what is committed is the answer of one worker
//!
//! While the holder weighs a turn, exactly the earlier turns are committed, and nobody else
//! raises a count: it reads the counts that one worker would have before this turn. All entries
//! before the posted place are full, and so are those that the holder has weighed and left. The
//! first entry where it finds a seat is therefore the first of the whole list that has one, which
//! is the turn's choice. So the committed turns are always the first ones, each with its own
//! choice, in whatever order the workers act.
//!
//! `specs/Sound.antt` says all this as facts about one state. [`any_run`] proves that each event
//! keeps them, and [`CoreState`] is a machine that makes one event at a time and is sound at
//! every moment.
//!
//! # Source
//!
//! Posting in any order and committing in the order of one loop is the scheme of deterministic
//! reservations: Blelloch, Fineman, Gibbons and Shun, "Internally deterministic parallel
//! algorithms can be fast", PPoPP 2012. There all workers reserve and then all commit, in rounds;
//! here whoever holds the mark commits what is posted while the others go on.
#![tactic(auto)]

// How many workers there may be, and how many flags a word has.
mod limits;
// The same in numbers.
mod numbers;
// Words of flags: where the flag of a programme stands, and what a look at a word passes.
mod flag_words;
// What a core state is made of: cells, claims, own turns, phases, holdings.
mod parts;
// The eleven events, and what each tells.
mod events;
// The law of the protocol: every run is sound.
mod law;
// The machine: a core state that makes one event at a time.
mod state;
// What the machine has at its opening.
mod opening;
// The workers of the machine: what each knows, and which events that allows.
mod team;
// What is asked of the entries of a turn's list.
mod entries;
#[cfg(test)]
mod tests;

pub use events::{CoreEvent, NotNow, Told};
pub use flag_words::{
    first_flag_word, flag_group, flag_mask, flag_word_count, is_raised_in, past_flags,
};
pub use law::any_run;
pub use limits::{FLAGS_PER_WORD, MAX_WORKERS};
pub use numbers::limits_in_numbers;
pub use parts::{Cell, Claiming, Holding, OwnTurn, Phase};
pub use state::CoreState;
