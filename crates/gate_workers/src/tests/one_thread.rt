// Seats step on the words of a round, on one thread.

ghost use Rattle.std.specs.Prelude.{◌≡◌, length, None, true, false};
ghost use Rattle.word_rule.specs.Rounds.{knows, key_of, dict_of, IsSeatOf, IsNew, AreNew, IsOver};
ghost use Rattle.gate_workers.specs.Seats.{HasStepped, IsWorking, IsClaimOf};

use claim_words::{claim, post, read_entry};
use commit_book::{commit_prefix, look, release, seal, seat, take, weigh};
use full_flags::{raise_flag, read_flags};
use market::Dict;
use market::examples::two_turns;
use std::alloc::{AllocError, Global};
use std::process::Abort;
use std::test::Fail;
use word_rule::{
    ClaimCopy, PhaseCopy, SharedRound, Words, WorkSeat, close_round, join_all, open_round,
};

// A round of many turns, posted in falling order.
mod falling_posts;

// The seats of a round of two workers.
fn two_seats(round: &SharedRound, mut seats: Vec<WorkSeat>) -> (WorkSeat, WorkSeat)
    requires new { AreNew round.now seats.items }
    requires two { length seats.items ≡ 2 }
    ensures first { IsNew round.now 0 result.0 }
    ensures second { IsNew round.now 1 result.1 }
{
    let Some(second) = seats.pop() else {
        unreachable!()
    };
    let Some(first) = seats.pop() else {
        unreachable!()
    };
    (first, second)
}

// The seat draws this turn.
fn draws(rt: &impl Abort, round: &SharedRound, me: &mut WorkSeat, turn: u32)
    requires ready { IsWorking round.now me.old }
    ensures ready { IsWorking round.now me.new }
    ensures share { (knows me.new).share ≡ (knows me.old).share }
{
    assert!(rt; me.claim.is_none() && me.phase.is_none());
    assert_eq!(rt; claim(round, me), Some(turn));
}

// The seat finds that no turn is left.
fn ends(rt: &impl Abort, round: &SharedRound, me: &mut WorkSeat)
    requires ready { IsWorking round.now me.old }
    ensures over { IsOver round.now me.new }
    ensures share { (knows me.new).share ≡ (knows me.old).share }
{
    assert!(rt; me.claim.is_none() && me.phase.is_none());
    if claim(round, me).is_some() {
        panic!(rt; "a turn is left")
    }
}

// The seat's claim, and how many entries of its turn's list are left that it has not passed.
fn claimed(rt: &impl Abort, round: &SharedRound, dict: &Dict, me: &WorkSeat) -> (ClaimCopy, usize)
    requires seat { IsSeatOf round.now me.now × (dict.now ≡ dict_of round.now) }
    ensures claim { IsClaimOf me.now result.0 result.1 }
{
    let Some(claim) = me.claim else {
        panic!(rt; "no claim")
    };
    let places = dict.list(claim.turn).len();
    (claim, places - claim.passed as usize)
}

// The seat looks at the flags of the next entries of its turn's list, and answers their word.
fn finds_flags(rt: &impl Abort, round: &SharedRound, dict: &Dict, me: &mut WorkSeat) -> u64
    requires seat { IsSeatOf round.now me.old × (dict.now ≡ dict_of round.now) }
    ensures step { HasStepped round.now me.old me.new (knows me.old).core.owes }
{
    let (claim, left) = claimed(rt, round, dict, me);
    if claim.looked || claim.met {
        panic!(rt; "a lowered flag was found, or an entry is met")
    }
    if left == 0 {
        panic!(rt; "the whole list is passed")
    }
    read_flags(round, dict, me)
}

// It does so, and answers whether it came to a flag that is lowered.
fn looks_at_flags(rt: &impl Abort, round: &SharedRound, dict: &Dict, me: &mut WorkSeat) -> bool
    requires seat { IsSeatOf round.now me.old × (dict.now ≡ dict_of round.now) }
    ensures step { HasStepped round.now me.old me.new (knows me.old).core.owes }
{
    let _ = finds_flags(rt, round, dict, me);
    matches!(me.claim, Some(next) if next.looked)
}

// The seat reads the next entry of its turn's list.
fn reads(rt: &impl Abort, round: &SharedRound, dict: &Dict, me: &mut WorkSeat) -> bool
    requires seat { IsSeatOf round.now me.old × (dict.now ≡ dict_of round.now) }
    ensures step { HasStepped round.now me.old me.new (knows me.old).core.owes }
{
    let (claim, left) = claimed(rt, round, dict, me);
    if !claim.looked || claim.met {
        panic!(rt; "no lowered flag was found, or an entry is met")
    }
    if left == 0 {
        panic!(rt; "the whole list is passed")
    }
    read_entry(round, dict, me)
}

// The seat posts its turn at the entry that it met, or past its whole list, and answers the place.
fn posts(rt: &impl Abort, round: &SharedRound, dict: &Dict, me: &mut WorkSeat) -> u32
    requires seat { IsSeatOf round.now me.old × (dict.now ≡ dict_of round.now) }
    ensures step { HasStepped round.now me.old me.new true }
{
    let (claim, left) = claimed(rt, round, dict, me);
    if !claim.met && left > 0 {
        panic!(rt; "no entry is met, and some are left")
    }
    post(round, dict, me)
}

// The seat tries to take the mark.
fn takes(rt: &impl Abort, round: &SharedRound, me: &mut WorkSeat) -> bool
    requires seat { IsSeatOf round.now me.old }
    ensures step { HasStepped round.now me.old me.new false }
{
    assert!(rt; me.claim.is_none() && me.phase.is_none());
    take(round, me)
}

// The holder looks at the first uncommitted turn.
fn looks(rt: &impl Abort, round: &SharedRound, me: &mut WorkSeat) -> Option<u32>
    requires seat { IsSeatOf round.now me.old }
    ensures step { HasStepped round.now me.old me.new (knows me.old).core.owes }
{
    assert!(rt; matches!(me.phase, Some(PhaseCopy::Idle)));
    look(round, me)
}

// The holder weighs the entry at its place.
fn weighs(rt: &impl Abort, round: &SharedRound, dict: &Dict, me: &mut WorkSeat) -> bool
    requires seat { IsSeatOf round.now me.old × (dict.now ≡ dict_of round.now) }
    ensures step { HasStepped round.now me.old me.new (knows me.old).core.owes }
{
    let Some(PhaseCopy::Scan(place)) = me.phase else {
        panic!(rt; "no entry to weigh")
    };
    let places = dict.list(me.committed).len();
    if place as usize >= places {
        panic!(rt; "the whole list is full")
    }
    weigh(round, dict, me)
}

// The holder takes a seat of the entry that has one left.
fn seats(rt: &impl Abort, round: &SharedRound, dict: &Dict, me: &mut WorkSeat) -> bool
    requires seat { IsSeatOf round.now me.old × (dict.now ≡ dict_of round.now) }
    ensures step { HasStepped round.now me.old me.new (knows me.old).core.owes }
{
    let Some(PhaseCopy::Ready(_)) = me.phase else {
        panic!(rt; "no seat to take")
    };
    seat(round, dict, me)
}

// The holder raises the flag of the programme that it filled.
fn raises(rt: &impl Abort, round: &SharedRound, dict: &Dict, me: &mut WorkSeat)
    requires seat { IsSeatOf round.now me.old × (dict.now ≡ dict_of round.now) }
    ensures step { HasStepped round.now me.old me.new (knows me.old).core.owes }
{
    let Some(PhaseCopy::Seated(_, true)) = me.phase else {
        panic!(rt; "no programme was filled")
    };
    raise_flag(round, dict, me);
}

// The holder commits the turn that it took the last seat of a programme for, and answers it.
fn seals(rt: &impl Abort, round: &SharedRound, dict: &Dict, me: &mut WorkSeat) -> u32
    requires seat { IsSeatOf round.now me.old × (dict.now ≡ dict_of round.now) }
    ensures step { HasStepped round.now me.old me.new (knows me.old).core.owes }
{
    let Some(PhaseCopy::Raised(_)) = me.phase else {
        panic!(rt; "no turn to commit")
    };
    seal(round, dict, me)
}

// The holder gives the mark back.
fn releases(rt: &impl Abort, round: &SharedRound, me: &mut WorkSeat)
    requires seat { IsSeatOf round.now me.old }
    ensures step { HasStepped round.now me.old me.new (knows me.old).core.owes }
{
    let halted = matches!(me.phase, Some(PhaseCopy::Halted));
    let idle = matches!(me.phase, Some(PhaseCopy::Idle));
    assert!(rt; halted || idle && me.committed == round.turns);
    release(round, me);
}

// The seat tries to take the mark, and commits what it then can.
fn commits(rt: &impl Abort, round: &SharedRound, dict: &Dict, me: &mut WorkSeat) -> Option<u32>
    requires seat { IsSeatOf round.now me.old × (dict.now ≡ dict_of round.now) }
    ensures step { HasStepped round.now me.old me.new false }
    ensures free { (knows me.new).core.hold ≡ None }
{
    assert!(rt; me.claim.is_none() && me.phase.is_none());
    commit_prefix(round, dict, me)
}

// Joins both seats, whose commit finds nothing left, and closes the round.
fn closed(
    alloc: Global,
    rt: &impl Abort,
    round: SharedRound,
    dict: &Dict,
    first: WorkSeat,
    second: WorkSeat,
) -> Result<Words, AllocError>
    requires dict { dict.now ≡ dict_of round }
    requires workers { (key_of round).workers ≡ 2 }
    requires first { IsOver round first }
    requires second { IsOver round second }
    requires shares { ((knows first).share ≡ 1) × ((knows second).share ≡ 1) }
{
    let mut me = join_all(&round, vec![in alloc; first, second]?);
    assert_eq!(rt; commit_prefix(&round, dict, &mut me), Some(0));
    Ok(close_round(round, me))
}

// Both seats find that the first entry of their turn's list has a seat left, and post there, the
// second of them before the first.
fn both_post(
    rt: &impl Abort,
    round: &SharedRound,
    dict: &Dict,
    first: &mut WorkSeat,
    second: &mut WorkSeat,
)
    requires first { IsSeatOf round.now first.old × (dict.now ≡ dict_of round.now) }
    requires second { IsSeatOf round.now second.old × (dict.now ≡ dict_of round.now) }
    ensures first { HasStepped round.now first.old first.new true }
    ensures second { HasStepped round.now second.old second.new true }
{
    assert_eq!(rt; looks_at_flags(rt, round, dict, first), true);
    assert_eq!(rt; looks_at_flags(rt, round, dict, second), true);
    assert_eq!(rt; reads(rt, round, dict, first), false);
    assert_eq!(rt; reads(rt, round, dict, second), false);
    assert_eq!(rt; posts(rt, round, dict, second), 0);
    assert_eq!(rt; posts(rt, round, dict, first), 0);
}

// The holder takes the last seat of the entry at its place, and commits this turn there.
fn fills(rt: &impl Abort, round: &SharedRound, dict: &Dict, me: &mut WorkSeat, turn: u32)
    requires seat { IsSeatOf round.now me.old × (dict.now ≡ dict_of round.now) }
    ensures step { HasStepped round.now me.old me.new (knows me.old).core.owes }
{
    assert_eq!(rt; weighs(rt, round, dict, me), false);
    assert_eq!(rt; seats(rt, round, dict, me), true);
    raises(rt, round, dict, me);
    assert_eq!(rt; seals(rt, round, dict, me), turn);
}

// The seat takes the mark, commits both turns, which are posted at place 0, and gives it back.
fn commits_both(rt: &impl Abort, round: &SharedRound, dict: &Dict, me: &mut WorkSeat)
    requires seat { IsSeatOf round.now me.old × (dict.now ≡ dict_of round.now) }
    ensures step { HasStepped round.now me.old me.new false }
{
    assert_eq!(rt; takes(rt, round, me), true);
    // the first turn takes the one seat of its one entry
    assert_eq!(rt; looks(rt, round, me), Some(0));
    fills(rt, round, dict, me, 0);
    // so the second turn, which was posted there, goes to its next entry
    assert_eq!(rt; looks(rt, round, me), Some(0));
    assert_eq!(rt; weighs(rt, round, dict, me), true);
    fills(rt, round, dict, me, 1);
    assert_eq!(rt; looks(rt, round, me), None);
    releases(rt, round, me);
}

// The seat takes the mark, and gives it back at once, as every turn is committed.
fn commits_none(rt: &impl Abort, round: &SharedRound, me: &mut WorkSeat)
    requires seat { IsSeatOf round.now me.old }
    ensures step { HasStepped round.now me.old me.new false }
{
    assert_eq!(rt; takes(rt, round, me), true);
    releases(rt, round, me);
}

// Both turns are committed, each at its own place.
fn check_choices(rt: &impl Abort, words: &Words) {
    assert_eq!(rt; words.committed(), 2);
    assert_eq!(rt; [words.choice(0), words.choice(1)], [0, 1]);
}

#[test]
fn one_seat_commits_what_two_posted(rt: HostRuntime) -> Result<(), Fail> {
    let alloc = rt.alloc();
    let dict = two_turns(alloc)?;
    let (round, both) = open_round(alloc, &dict, 2)?;
    let (mut first, mut second) = two_seats(&round, both);
    draws(&rt, &round, &mut first, 0);
    draws(&rt, &round, &mut second, 1);
    both_post(&rt, &round, &dict, &mut first, &mut second);
    commits_both(&rt, &round, &dict, &mut first);
    commits_none(&rt, &round, &mut second);
    ends(&rt, &round, &mut first);
    ends(&rt, &round, &mut second);
    let words = closed(alloc, &rt, round, &dict, first, second)?;
    check_choices(&rt, &words);
    Ok(())
}

// The seat finds that the first entry of its turn's list has a seat left, and posts there.
fn posts_at_first(rt: &impl Abort, round: &SharedRound, dict: &Dict, me: &mut WorkSeat)
    requires seat { IsSeatOf round.now me.old × (dict.now ≡ dict_of round.now) }
    ensures step { HasStepped round.now me.old me.new true }
{
    assert_eq!(rt; looks_at_flags(rt, round, dict, me), true);
    assert_eq!(rt; reads(rt, round, dict, me), false);
    assert_eq!(rt; posts(rt, round, dict, me), 0);
}

// The seat takes the mark, and finds the cell of the first uncommitted turn empty.
fn halts(rt: &impl Abort, round: &SharedRound, me: &mut WorkSeat)
    requires seat { IsSeatOf round.now me.old }
    ensures step { HasStepped round.now me.old me.new false }
{
    assert_eq!(rt; takes(rt, round, me), true);
    assert_eq!(rt; looks(rt, round, me), None);
}

// The seat finds the mark held, and commits nothing.
fn finds_held(rt: &impl Abort, round: &SharedRound, dict: &Dict, me: &mut WorkSeat)
    requires seat { IsSeatOf round.now me.old × (dict.now ≡ dict_of round.now) }
    ensures step { HasStepped round.now me.old me.new false }
{
    assert_eq!(rt; takes(rt, round, me), false);
    assert_eq!(rt; commits(rt, round, dict, me), None);
}

#[test]
fn nothing_is_committed_past_an_empty_cell(rt: HostRuntime) -> Result<(), Fail> {
    let alloc = rt.alloc();
    let dict = two_turns(alloc)?;
    let (round, both) = open_round(alloc, &dict, 2)?;
    let (mut first, mut second) = two_seats(&round, both);
    draws(&rt, &round, &mut first, 0);
    draws(&rt, &round, &mut second, 1);
    posts_at_first(&rt, &round, &dict, &mut second);
    halts(&rt, &round, &mut second);
    posts_at_first(&rt, &round, &dict, &mut first);
    finds_held(&rt, &round, &dict, &mut first);
    releases(&rt, &round, &mut second);
    Ok(())
}

// The words of a round, one by one.
fn words_of(alloc: Global, round: &SharedRound) -> Result<Vec<u64>, AllocError> {
    let count = round.table.word_count();
    let mut words = Vec::with_capacity(alloc, count)?;
    for word in 0..count {
        words.push(round.table.shared.peek(word))?;
    }
    Ok(words)
}

#[test]
fn a_seat_draws_reads_and_posts_a_turn(rt: HostRuntime) -> Result<(), Fail> {
    let alloc = rt.alloc();
    let dict = two_turns(alloc)?;
    let (round, both) = open_round(alloc, &dict, 2)?;
    let (_, mut me) = two_seats(&round, both);
    draws(&rt, &round, &mut me, 0);
    assert_eq!(rt; finds_flags(&rt, &round, &dict, &mut me), 0);
    let lowered = ClaimCopy {
        turn: 0,
        passed: 0,
        looked: true,
        met: false,
    };
    assert_eq!(rt; me.claim, Some(lowered));
    assert_eq!(rt; reads(&rt, &round, &dict, &mut me), false);
    assert_eq!(rt; posts(&rt, &round, &dict, &mut me), 0);
    // one turn drawn, a free mark, no seat taken, the turn posted at its first entry, and no flag
    // raised
    assert_eq!(rt;
        words_of(alloc, &round)?.as_slice(),
        &[1, 0, 0, 0, 1, 0, 0][..]
    );
    Ok(())
}

// The seat finds the entry full whose flag it found lowered, and posts at the next one, whose flag
// is in the same word.
fn passes_to_the_second(rt: &impl Abort, round: &SharedRound, dict: &Dict, me: &mut WorkSeat)
    requires seat { IsSeatOf round.now me.old × (dict.now ≡ dict_of round.now) }
    ensures step { HasStepped round.now me.old me.new true }
{
    assert_eq!(rt; reads(rt, round, dict, me), true);
    assert_eq!(rt; finds_flags(rt, round, dict, me), 1);
    assert_eq!(rt; reads(rt, round, dict, me), false);
    assert_eq!(rt; posts(rt, round, dict, me), 1);
}

// One seat looks at its entry's flag, which is lowered. Another fills the programme, and the first
// then reads the entry.
#[test]
fn an_entry_filled_after_its_flag_was_looked_at_is_passed(rt: HostRuntime) -> Result<(), Fail> {
    let alloc = rt.alloc();
    let dict = two_turns(alloc)?;
    let (round, both) = open_round(alloc, &dict, 2)?;
    let (mut first, mut second) = two_seats(&round, both);
    draws(&rt, &round, &mut first, 0);
    draws(&rt, &round, &mut second, 1);
    assert_eq!(rt; finds_flags(&rt, &round, &dict, &mut second), 0);
    posts_at_first(&rt, &round, &dict, &mut first);
    assert_eq!(rt; commits(&rt, &round, &dict, &mut first), Some(1));
    passes_to_the_second(&rt, &round, &dict, &mut second);
    assert_eq!(rt; commits(&rt, &round, &dict, &mut second), Some(1));
    ends(&rt, &round, &mut first);
    ends(&rt, &round, &mut second);
    let words = closed(alloc, &rt, round, &dict, first, second)?;
    check_choices(&rt, &words);
    Ok(())
}
