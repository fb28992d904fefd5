// The opening of a round, and the joining of its seats.

ghost use Rattle.std.specs.Prelude.{◌≡◌, ℕ, ◌+◌, ◌<◌, ◌≤◌, ◌++◌, IfOk, [], length, replicate, vec_len, vec_capacity};
ghost use Rattle.interleaving_core.specs.Flags.{flag_word_count, first_flags};
ghost use Rattle.interleaving_core.specs.Core.{fresh_view};
ghost use Rattle.word_rule.specs.Layout.{first_words};
ghost use Rattle.word_rule.specs.Views.{first_seat};
ghost use Rattle.word_rule.specs.Rounds.{knows, key_of, dict_of, IsNew, AreNew, IsOver, AreOver, IsAlone, ShowsOpening, shares_of, sealed_in};

use crate::layout::{FIRST_SEAT_WORD, cell_word, free_mark};
use crate::rule::{RoundKey, RoundSeat, RoundTable, ShareMove};
use crate::seat::{SharedRound, WorkSeat};
use interleaving_core::{MAX_WORKERS, first_flag_word, flag_word_count};
use market::Dict;
use std::alloc::{AllocError, Global};
use std::snapshot::Snapshot;

/// The words of a round, and one seat for each of its 1 to `MAX_WORKERS` workers, numbered from 0.
/// Words and seats together are the opening state of the core: whatever the table is while every
/// view is still that of the opening, it shows that state. All memory of the round is taken here.
pub fn open_round(
    alloc: Global,
    dict: &Dict,
    workers: u32,
) -> Result<(SharedRound, Vec<WorkSeat>), AllocError>
    requires { (0 < workers) × (workers ≤ MAX_WORKERS) }
    ensures dict { IfOk result (λ r. dict_of r.0 ≡ dict.now) }
    ensures workers { IfOk result (λ r. (key_of r.0).workers ≡ workers) }
    ensures seats { IfOk result (λ r. length r.1.items ≡ workers) }
    ensures new { IfOk result (λ r. AreNew r.0 r.1.items) }
    ensures shares { IfOk result (λ r. shares_of r.1.items ≡ workers) }
    ensures opens { IfOk result (λ r. ShowsOpening (key_of r.0)) }
{
    let turns = dict.turns();
    let programmes = dict.programmes();
    let words = opening_words(alloc, dict)?;
    let mut seats = Vec::with_capacity(alloc, workers as usize)?;
    let key = RoundKey {
        dict: Snapshot::of(dict),
        workers,
    };
    let (table, first) = RoundTable::of_words(alloc, words.as_slice(), &key)?;
    let round = SharedRound {
        table,
        turns,
        programmes,
    };
    split_all(&round, first, workers, &mut seats);
    Ok((round, seats))
}

// The words at the opening.
fn opening_words(alloc: Global, dict: &Dict) -> Result<Vec<u64>, AllocError>
    ensures { IfOk result (λ v. v.items ≡ first_words dict.now) }
{
    let programmes = dict.programmes();
    let turns = dict.turns();
    let flag_words = flag_word_count(programmes);
    let count = cell_word(programmes, turns) + flag_words as usize;
    let mut words = Vec::with_capacity(alloc, count)?;
    let claim_number = 0;
    let free_mark = free_mark(0);
    words.push_reserved(claim_number);
    words.push_reserved(free_mark);
    push_fills(&mut words, dict);
    push_empty_cells(&mut words, turns);
    push_first_flags(&mut words, dict);
    Ok(words)
}

// Behind the words for the claim number and the mark, the seat counts are the fills.
fn push_fills(words: &mut Vec<u64>, dict: &Dict)
    requires room { vec_len words.old + length dict.now.quota ≤ vec_capacity words.old }
    requires empty { vec_len words.old ≡ FIRST_SEAT_WORD }
    ensures items { words.new.items ≡ words.old.items ++ dict.now.fill }
    ensures len { vec_len words.new ≡ vec_len words.old + length dict.now.quota }
    ensures capacity { vec_capacity words.new ≡ vec_capacity words.old }
{
    for programme in 0..dict.programmes() {
        words.push_reserved(dict.fill(programme) as u64);
    }
}

// Each cell is empty.
fn push_empty_cells(words: &mut Vec<u64>, turns: u32)
    requires { vec_len words.old + turns ≤ vec_capacity words.old }
    ensures items { words.new.items ≡ words.old.items ++ replicate turns 0 }
    ensures len { vec_len words.new ≡ vec_len words.old + turns }
    ensures capacity { vec_capacity words.new ≡ vec_capacity words.old }
{
    for _turn in 0..turns {
        words.push_reserved(0);
    }
}

// The flags of exactly the full programmes are raised.
fn push_first_flags(words: &mut Vec<u64>, dict: &Dict)
    requires { vec_len words.old + flag_word_count (length dict.now.quota)
        ≤ vec_capacity words.old }
    ensures { words.new.items ≡ words.old.items ++ first_flags dict.now }
{
    for group in 0..flag_word_count(dict.programmes()) {
        words.push_reserved(first_flag_word(dict, group));
    }
}

// Splits the first seat into one seat for each worker.
fn split_all(round: &SharedRound, first: RoundSeat, workers: u32, seats: &mut Vec<WorkSeat>)
    requires table { first.table_id ≡ round.now.table.shared.table_id }
    requires first { first.me ≡ (first_seat (dict_of round.now) workers, []) }
    requires workers { (0 < workers) × ((key_of round.now).workers ≡ workers) }
    requires empty { (seats.old.items ≡ []) × (vec_len seats.old ≡ 0) }
    requires room { workers ≤ vec_capacity seats.old }
    ensures new { AreNew round.now seats.new.items }
    ensures count { length seats.new.items ≡ workers }
    ensures shares { shares_of seats.new.items ≡ workers }
{
    let mut rest = first;
    for number in 1..workers {
        let next = round.table.shared.split_seat::<ShareMove>(&mut rest);
        seats.push_reserved(new_seat(rest, number - 1));
        rest = next;
    }
    seats.push_reserved(new_seat(rest, workers - 1));
}

// The seat of one worker at the opening.
fn new_seat(seat: RoundSeat, number: u32) -> WorkSeat
    requires fresh { seat.me.0.core ≡ fresh_view }
    requires number { seat.me.0.number ≡ number }
    requires share { seat.me.0.share ≡ 1 }
    requires bare { seat.me.1 ≡ [] }
    ensures { result.seat ≡ seat }
{
    WorkSeat {
        seat,
        number,
        claim: None,
        phase: None,
        committed: 0,
    }
}

/// Joins all seats of a round into one, which then has every share: no other seat claims or holds
/// the mark. Each seat is done, has no claim and does not hold the mark. The one seat counts the
/// turns that they all have committed. It takes no memory.
pub fn join_all(round: &SharedRound, mut seats: Vec<WorkSeat>) -> WorkSeat
    requires over { AreOver round.now seats.items }
    requires all { shares_of seats.items ≡ (key_of round.now).workers }
    ensures over { IsOver round.now result }
    ensures all { (knows result).share ≡ (key_of round.now).workers }
    ensures alone { IsAlone (key_of round.now) (knows result) }
    ensures sealed { (knows result).sealed ≡ sealed_in seats.items }
{
    let Some(mut me) = seats.pop() else {
        unreachable!()
    };
    while let Some(other) = seats.pop() {
        join_two(round, &mut me, other);
    }
    me
}

// Joins the other seat away.
fn join_two(round: &SharedRound, me: &mut WorkSeat, other: WorkSeat)
    requires over { IsOver round.now me.old × IsOver round.now other }
    ensures over { IsOver round.now me.new }
    ensures share { (knows me.new).share ≡ (knows me.old).share + (knows other).share }
    ensures sealed { (knows me.new).sealed ≡ (knows me.old).sealed + (knows other).sealed }
{
    let WorkSeat {
        seat,
        number: _,
        claim: _,
        phase: _,
        committed: _,
    } = other;
    round
        .table
        .shared
        .join_seat::<ShareMove>(&mut me.seat, seat);
}
