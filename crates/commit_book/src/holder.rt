// The six calls of the mark's holder, and of who tries to take it.

ghost use Rattle.std.specs.Prelude.{◌≡◌};
ghost use Rattle.word_rule.specs.Copies.{phase_place};
ghost use Rattle.word_rule.specs.Rounds.{IsSeatOf, Stays, dict_of};
ghost use Rattle.commit_book.specs.Holder.{MayTake, MayLook, MayWeigh, MaySeat, MaySeal, MayRelease};
ghost use Rattle.commit_book.specs.Holder.{IsTake, IsLook, IsWeigh, IsSeat, IsSeal, IsRelease};

use interleaving_core::Cell;
use market::Dict;
use word_rule::{
    LookStep, MARK_WORD, PhaseCopy, ReleaseStep, SealStep, SeatStep, SharedRound, TakeStep,
    WeighStep, WorkSeat, cell_of, cell_word, committed_at, free_mark, is_held, mark_number,
    seat_word,
};

/// Tries to take the mark, by one fetch-or. `false` comes exactly where the word found was odd:
/// another worker held the mark at this step.
pub fn take(round: &SharedRound, me: &mut WorkSeat) -> bool
    requires seat { IsSeatOf round.now me.old }
    requires may { MayTake me.old }
    ensures stays { Stays me.old me.new }
    ensures event { IsTake me.old me.new result }
{
    let found = round
        .table
        .shared
        .fetch_or::<TakeStep>(&mut me.seat, MARK_WORD, 1);
    if is_held(found) {
        return false;
    }
    me.phase = Some(PhaseCopy::Idle);
    me.committed = mark_number(found);
    true
}

/// The posted place of the first uncommitted turn. `None` comes exactly where all turns are
/// committed, in which case no word is read, or the cell read at this step was empty.
pub fn look(round: &SharedRound, me: &mut WorkSeat) -> Option<u32>
    requires seat { IsSeatOf round.now me.old }
    requires may { MayLook me.old }
    ensures stays { Stays me.old me.new }
    ensures event { IsLook me.old me.new result }
{
    if me.committed >= round.turns {
        return None;
    }
    let word = cell_word(round.programmes, me.committed);
    let found = round.table.shared.load::<LookStep>(&mut me.seat, word);
    let Cell::Posted(place) = cell_of(found) else {
        me.phase = Some(PhaseCopy::Halted);
        return None;
    };
    me.phase = Some(PhaseCopy::Scan(place));
    Some(place)
}

/// Reads the seat count of the entry at the holder's place in the first uncommitted turn's list.
/// `true` comes exactly where it has reached the quota; the place is then the next one.
pub fn weigh(round: &SharedRound, dict: &Dict, me: &mut WorkSeat) -> bool
    requires seat { IsSeatOf round.now me.old }
    requires dict { dict.now ≡ dict_of round.now }
    requires may { MayWeigh me.old }
    ensures stays { Stays me.old me.new }
    ensures event { IsWeigh me.old me.new result }
{
    let Some(PhaseCopy::Scan(place)) = me.phase else {
        unreachable!()
    };
    let programme = dict.list(me.committed)[place as usize];
    let word = seat_word(programme);
    let found = round.table.shared.load::<WeighStep>(&mut me.seat, word);
    let full = found >= dict.quota(programme) as u64;
    me.phase = Some(if full {
        PhaseCopy::Scan(place + 1)
    } else {
        PhaseCopy::Ready(place)
    });
    full
}

/// Raises the seat count of the entry that was found to have a seat left. `true` comes exactly
/// where it has now reached the quota.
pub fn seat(round: &SharedRound, dict: &Dict, me: &mut WorkSeat) -> bool
    requires seat { IsSeatOf round.now me.old }
    requires dict { dict.now ≡ dict_of round.now }
    requires may { MaySeat me.old }
    ensures stays { Stays me.old me.new }
    ensures event { IsSeat me.old me.new result }
{
    let Some(PhaseCopy::Ready(place)) = me.phase else {
        unreachable!()
    };
    let programme = dict.list(me.committed)[place as usize];
    let word = seat_word(programme);
    let found = round
        .table
        .shared
        .fetch_add::<SeatStep>(&mut me.seat, word, 1);
    let full = found + 1 >= dict.quota(programme) as u64;
    me.phase = Some(PhaseCopy::Seated(place, full));
    full
}

/// Commits the first uncommitted turn at the holder's place, and answers the turn.
pub fn seal(round: &SharedRound, dict: &Dict, me: &mut WorkSeat) -> u32
    requires seat { IsSeatOf round.now me.old }
    requires dict { dict.now ≡ dict_of round.now }
    requires may { MaySeal me.old }
    ensures stays { Stays me.old me.new }
    ensures event { IsSeal me.old me.new result }
{
    let Some(phase) = me.phase else {
        unreachable!()
    };
    let place = place_in(phase);
    let turn = me.committed;
    let word = cell_word(dict.programmes(), turn);
    let cell = committed_at(place);
    round
        .table
        .shared
        .store::<SealStep>(&mut me.seat, word, cell);
    me.phase = Some(PhaseCopy::Idle);
    me.committed = turn + 1;
    turn
}

// The holder's place in the list of the first uncommitted turn, 0 in a phase that has none.
fn place_in(phase: PhaseCopy) -> u32
    ensures { result ≡ phase_place phase }
{
    match phase {
        PhaseCopy::Scan(place)
        | PhaseCopy::Ready(place)
        | PhaseCopy::Seated(place, _)
        | PhaseCopy::Raised(place) => place,
        PhaseCopy::Idle | PhaseCopy::Halted => 0,
    }
}

/// Frees the mark with the new number of committed turns. All turns are committed, or the last
/// look found an empty cell.
pub fn release(round: &SharedRound, me: &mut WorkSeat)
    requires seat { IsSeatOf round.now me.old }
    requires may { MayRelease me.old }
    ensures stays { Stays me.old me.new }
    ensures event { IsRelease me.old me.new }
{
    let freed = free_mark(me.committed);
    round
        .table
        .shared
        .store::<ReleaseStep>(&mut me.seat, MARK_WORD, freed);
    me.phase = None;
}
