// The words of a round's table by name: where each stands, and how its contents are written and
// read.

ghost use Rattle.std.specs.Prelude.{◌≡◌, ◌≤◌, ◌/◌};
ghost use Rattle.word_rule.specs.Layout.{seat_word, cell_word, flag_word, is_held, mark_number, free_mark, posted_at, committed_at, cell_of};

use interleaving_core::{Cell, flag_group};

/// The word of the claim number.
pub const CLAIM_WORD: usize = 0;

/// The word of the mark.
pub const MARK_WORD: usize = 1;

/// The word of the first programme's seat count.
pub const FIRST_SEAT_WORD: usize = 2;

/// The word of a programme's seat count.
pub fn seat_word(programme: u32) -> usize
    ensures { result ≡ seat_word programme }
{
    FIRST_SEAT_WORD + programme as usize
}

/// The word of a turn's cell, behind the seat counts of so many programmes.
pub fn cell_word(programmes: u32, turn: u32) -> usize
    ensures { result ≡ cell_word programmes turn }
{
    FIRST_SEAT_WORD + programmes as usize + turn as usize
}

/// The word that has the flag of a programme, behind the cells of so many turns.
pub fn flag_word(programmes: u32, turns: u32, programme: u32) -> usize
    ensures { result ≡ flag_word programmes turns programme }
{
    cell_word(programmes, turns) + flag_group(programme) as usize
}

/// Whether the mark is held, by its word.
pub fn is_held(mark: u64) -> bool
    ensures { result ≡ is_held mark }
{
    mark % 2 == 1
}

/// The mark's number, by its word.
pub fn mark_number(mark: u64) -> u32
    requires { mark_number mark ≤ u32.MAX }
    ensures { result ≡ mark_number mark }
{
    (mark / 2) as u32
}

/// The word of a free mark with this number.
pub fn free_mark(number: u32) -> u64
    ensures { result ≡ free_mark number }
{
    2 * number as u64
}

/// The word of a cell that is posted at this place.
pub fn posted_at(place: u32) -> u64
    ensures { result ≡ posted_at place }
{
    2 * place as u64 + 1
}

/// The word of a cell that is committed at this place.
pub fn committed_at(place: u32) -> u64
    ensures { result ≡ committed_at place }
{
    2 * place as u64 + 2
}

/// The cell that a word shows.
pub fn cell_of(word: u64) -> Cell
    requires { word / 2 ≤ u32.MAX }
    ensures { result ≡ cell_of word }
{
    if word == 0 {
        Cell::Empty
    } else if word % 2 == 1 {
        Cell::Posted((word / 2) as u32)
    } else {
        Cell::Committed((word / 2 - 1) as u32)
    }
}
