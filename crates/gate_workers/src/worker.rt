// One worker.

ghost use Rattle.std.specs.Prelude.{◌≡◌, ◌<◌, ◌+◌, false, length, MatchOption};
ghost use Rattle.market.specs.Dictatorships.{list_at};
ghost use Rattle.interleaving_core.specs.Core.{turn_count, claim_at};
ghost use Rattle.word_rule.specs.Rounds.{IsSeatOf, IsOver, Stays, dict_of, knows};
ghost use Rattle.claim_words.specs.Claimant.{MayClaim, MayPost};
ghost use Rattle.commit_book.specs.Holder.{MayTake};
ghost use Rattle.gate_workers.specs.Workers.{HasRead, HasPassed, HasMet, HasTried, HasWorked, HasCome};

use crate::gate::{Gate, GatePoint};
use claim_words::{claim, post, read_entry};
use commit_book::{commit_turn, look, release, take};
use full_flags::read_flags;
use market::Dict;
use word_rule::{SharedRound, WorkSeat};

/// Draws a turn, goes along its list up to the first entry that has a seat left, posts the place
/// found and tries the mark once; who takes it commits turns until a look finds none, and gives it
/// back. So on until no turn is left: the seat is then done, and has no claim, no debt and not the
/// mark. It is written to stand back as the gate says after a miss, and longer after the next one,
/// since who holds the mark is quickest alone.
pub fn work<G: Gate>(round: &SharedRound, dict: &Dict, me: &mut WorkSeat, gate: &G)
    requires seat { IsSeatOf round.now me.old }
    requires dict { dict.now ≡ dict_of round.now }
    requires may { MayClaim me.old }
    ensures stays { Stays me.old me.new }
    ensures over { IsOver round.now me.new }
    ensures worked { HasWorked me.old me.new }
{
    let mut misses: u32 = 0;
    while let Some(turn) = claim(round, me) {
        pass(gate, me, GatePoint::Claimed(turn));
        read_list(round, dict, me, turn, gate);
        post(round, dict, me);
        pass(gate, me, GatePoint::Posted(turn));
        let held = try_mark(round, dict, me, gate);
        misses = after_try(gate, held, misses);
    }
}

// Stands back after a miss. How many misses to count from then on: one more, and one fewer after a
// take.
fn after_try<G: Gate>(gate: &G, held: bool, misses: u32) -> u32 {
    if held {
        return misses.saturating_sub(1);
    }
    gate.stand_back(misses);
    misses.saturating_add(1)
}

// Lets the worker pass the gate at a point that its seat has come to.
fn pass<G: Gate>(gate: &G, me: &WorkSeat, point: GatePoint)
    requires { HasCome (knows me.now) point }
{
    gate.at(me.number, point);
}

// Goes along the list of the claimed turn up to the first entry that has a seat left.
fn read_list<G: Gate>(round: &SharedRound, dict: &Dict, me: &mut WorkSeat, turn: u32, gate: &G)
    requires seat { IsSeatOf round.now me.old }
    requires dict { dict.now ≡ dict_of round.now }
    requires turn { turn < turn_count dict.now }
    requires claim { (knows me.old).core.claim ≡ claim_at turn 0 false false }
    ensures stays { Stays me.old me.new }
    ensures read { HasRead me.old me.new }
{
    let places = dict.list(turn).len() as u32;
    let mut place = 0;
    while place < places {
        let Some(next) = read_on(round, dict, me, turn, place, gate) else {
            return;
        };
        place = next;
    }
}

// Passes the entries of the claimed turn's list from this place on whose flags are raised in one
// word of flags. Where it comes to a flag of that word which is lowered, it reads the seat count of
// the entry. The place where to go on, or `None` where the entry has a seat left.
fn read_on<G: Gate>(
    round: &SharedRound,
    dict: &Dict,
    me: &mut WorkSeat,
    turn: u32,
    place: u32,
    gate: &G,
) -> Option<u32>
    requires seat { IsSeatOf round.now me.old }
    requires dict { dict.now ≡ dict_of round.now }
    requires turn { turn < turn_count dict.now }
    requires place { place < length (list_at dict.now turn) }
    requires claim { (knows me.old).core.claim ≡ claim_at turn place false false }
    ensures stays { Stays me.old me.new }
    ensures on { MatchOption result (HasMet me.old me.new turn)
        (λ next. HasPassed me.old me.new turn place next) }
{
    read_flags(round, dict, me);
    let Some(claim) = me.claim else {
        unreachable!()
    };
    if !claim.looked {
        return Some(claim.passed);
    }
    pass(gate, me, GatePoint::BeforeRead(turn, claim.passed));
    if read_entry(round, dict, me) {
        Some(claim.passed + 1)
    } else {
        None
    }
}

// Tries the mark; who takes it commits turns until a look finds none, and gives it back. Whether it
// was taken.
fn try_mark<G: Gate>(round: &SharedRound, dict: &Dict, me: &mut WorkSeat, gate: &G) -> bool
    requires seat { IsSeatOf round.now me.old }
    requires dict { dict.now ≡ dict_of round.now }
    requires working { (knows me.old).core.done ≡ false }
    requires may { MayTake me.old }
    ensures stays { Stays me.old me.new }
    ensures tried { HasTried me.old me.new }
{
    if !take(round, me) {
        pass(gate, me, GatePoint::Missed);
        return false;
    }
    pass(gate, me, GatePoint::Took(me.committed));
    while let Some(place) = look(round, me) {
        let turn = commit_turn(round, dict, me, place);
        pass(gate, me, GatePoint::Sealed(turn));
    }
    let committed = me.committed;
    release(round, me);
    pass(gate, me, GatePoint::Released(committed));
    true
}
