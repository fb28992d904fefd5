// Rounds of 128 turns and 64 seats: twice all seats draw, and then post in falling order.

ghost use Rattle.std.specs.Prelude.{◌≡◌, IfOk};
ghost use Rattle.word_rule.specs.Rounds.{knows, dict_of, shares_of, AreOver};
ghost use Rattle.gate_workers.specs.Seats.{IsWorking, AreWorking};

use super::{commits, draws, ends, looks_at_flags, posts, reads};
use market::{Dict, List};
use std::alloc::{AllocError, Global};
use std::process::Abort;
use std::test::Fail;
use word_rule::{SharedRound, Words, WorkSeat, close_round, join_all, open_round};

// 128 turns over seven programmes, of which each turn lists three. All programmes get full.
fn many_turns(alloc: Global) -> Result<Dict, AllocError> {
    let quota = vec![in alloc; 28, 10, 6, 20, 4, 20, 3]?;
    let fill = vec![in alloc; 0, 0, 0, 0, 0, 0, 0]?;
    let mut lists = Vec::with_capacity(alloc, 128)?;
    for turn in 0..128 {
        lists.push(List::from_slice(alloc, &[turn % 3, 3 + turn % 2, 5 + turn / 2 % 2])?)?;
    }
    Ok(Dict::from_parts(quota, fill, lists))
}

// 128 turns over 130 programmes of one seat each, whose flags stand in three words. The entries of
// a list have their flags in two or three of them, and the first two get full at once.
fn spread_turns(alloc: Global) -> Result<Dict, AllocError> {
    let quota = vec![in alloc; 1u32; 130]?;
    let fill = vec![in alloc; 0u32; 130]?;
    let mut lists = Vec::with_capacity(alloc, 128)?;
    for turn in 0..128 {
        lists.push(List::from_slice(alloc, &[turn % 2, 64 + turn % 3, 66 + turn % 64])?)?;
    }
    Ok(Dict::from_parts(quota, fill, lists))
}

// Whether the seat has passed all three entries of its turn's list.
fn is_at_end(me: &WorkSeat) -> bool {
    matches!(me.claim, Some(claim) if claim.passed >= 3)
}

// The seat goes along its turn's list up to the first entry with a seat left, posts the turn there,
// and commits what it then can.
fn works(rt: &impl Abort, round: &SharedRound, dict: &Dict, me: &mut WorkSeat) -> Option<u32>
    requires ready { IsWorking round.now me.old }
    requires dict { dict.now ≡ dict_of round.now }
    ensures ready { IsWorking round.now me.new }
    ensures share { (knows me.new).share ≡ (knows me.old).share }
{
    for _entry in 0..3 {
        if is_at_end(me) || looks_at_flags(rt, round, dict, me) && !reads(rt, round, dict, me) {
            break;
        }
    }
    let _ = posts(rt, round, dict, me);
    commits(rt, round, dict, me)
}

// What each seat does, from the last to the first: it draws this turn or the next ones, or posts
// its turn. The first turn's cell stays empty until the end, so that nothing is committed before,
// and then all.
fn acts(
    rt: &impl Abort,
    round: &SharedRound,
    dict: &Dict,
    me: &mut WorkSeat,
    draws_from: Option<u32>,
    before: u32,
)
    requires ready { IsWorking round.now me.old }
    requires dict { dict.now ≡ dict_of round.now }
    ensures ready { IsWorking round.now me.new }
    ensures share { (knows me.new).share ≡ (knows me.old).share }
{
    if let Some(first) = draws_from {
        draws(rt, round, me, first.saturating_add(before));
        return;
    }
    let committed = if before == 63 { 64 } else { 0 };
    assert_eq!(rt; works(rt, round, dict, me), Some(committed));
}

// Each seat acts, from the last to the first. They come back in the order in which they acted.
fn act_all(
    alloc: Global,
    rt: &impl Abort,
    round: &SharedRound,
    dict: &Dict,
    mut seats: Vec<WorkSeat>,
    draws_from: Option<u32>,
) -> Result<Vec<WorkSeat>, AllocError>
    requires ready { AreWorking round.now seats.items }
    requires dict { dict.now ≡ dict_of round.now }
    ensures ready { IfOk result (λ acted. AreWorking round.now acted.items) }
    ensures shares { IfOk result (λ acted. shares_of acted.items ≡ shares_of seats.items) }
{
    let mut acted = Vec::with_capacity(alloc, seats.len())?;
    while let Some(mut me) = seats.pop() {
        assert!(rt; acted.len() < 64);
        acts(rt, round, dict, &mut me, draws_from, acted.len() as u32);
        acted.push(me)?;
    }
    Ok(acted)
}

// Each seat finds that no turn is left.
fn end_all(
    alloc: Global,
    rt: &impl Abort,
    round: &SharedRound,
    mut seats: Vec<WorkSeat>,
) -> Result<Vec<WorkSeat>, AllocError>
    requires ready { AreWorking round.now seats.items }
    ensures over { IfOk result (λ over. AreOver round.now over.items) }
    ensures shares { IfOk result (λ over. shares_of over.items ≡ shares_of seats.items) }
{
    let mut over = Vec::with_capacity(alloc, seats.len())?;
    while let Some(mut me) = seats.pop() {
        ends(rt, round, &mut me);
        over.push(me)?;
    }
    Ok(over)
}

// The place of the first programme that has a seat left, of which one is taken.
fn first_open(rt: &impl Abort, programmes: &[u32], left: &mut [u32]) -> u32 {
    let mut place = 0;
    for programme in programmes {
        assert!(rt; place < 3 && (*programme as usize) < left.len());
        if left[*programme as usize] > 0 {
            left[*programme as usize] -= 1;
            return place;
        }
        place += 1;
    }
    place
}

// How many seats each programme has at the opening.
fn quotas(alloc: Global, dict: &Dict) -> Result<Vec<u32>, AllocError> {
    let mut quotas = Vec::with_capacity(alloc, 130)?;
    for programme in 0..dict.programmes() {
        quotas.push(dict.quota(programme))?;
    }
    Ok(quotas)
}

// The choices are those of one turn after the other, of which each takes one of the seats left.
fn compare(rt: &impl Abort, dict: &Dict, words: &Words, left: &mut [u32]) {
    assert_eq!(rt; words.committed(), 128);
    for turn in 0..dict.turns() {
        assert!(rt; turn < words.committed());
        let place = first_open(rt, dict.list(turn), left);
        assert_eq!(rt; words.choice(turn), place, "turn {turn}");
    }
}

// Twice all seats draw, and then post in falling order, until no turn is left.
fn act_to_the_end(
    alloc: Global,
    rt: &impl Abort,
    round: &SharedRound,
    dict: &Dict,
    seats: Vec<WorkSeat>,
) -> Result<Vec<WorkSeat>, AllocError>
    requires ready { AreWorking round.now seats.items }
    requires dict { dict.now ≡ dict_of round.now }
    ensures over { IfOk result (λ over. AreOver round.now over.items) }
    ensures shares { IfOk result (λ over. shares_of over.items ≡ shares_of seats.items) }
{
    let drawn = act_all(alloc, rt, round, dict, seats, Some(0))?;
    let seats = act_all(alloc, rt, round, dict, drawn, None)?;
    let drawn = act_all(alloc, rt, round, dict, seats, Some(64))?;
    let seats = act_all(alloc, rt, round, dict, drawn, None)?;
    end_all(alloc, rt, round, seats)
}

// Runs a round of these 128 turns so. The last commit finds nothing left.
fn run_falling(alloc: Global, rt: &impl Abort, dict: &Dict) -> Result<Words, AllocError> {
    let (round, seats) = open_round(alloc, dict, 64)?;
    let over = act_to_the_end(alloc, rt, &round, dict, seats)?;
    let mut me = join_all(&round, over);
    assert_eq!(rt; commits(rt, &round, dict, &mut me), Some(0));
    Ok(close_round(round, me))
}

// Runs such a round, and compares its choices.
fn check_falling(alloc: Global, rt: &impl Abort, dict: &Dict) -> Result<(), AllocError> {
    let mut left = quotas(alloc, dict)?;
    let words = run_falling(alloc, rt, dict)?;
    compare(rt, dict, &words, &mut left);
    Ok(())
}

#[test]
fn turns_posted_in_falling_order_are_committed_in_order(rt: HostRuntime) -> Result<(), Fail> {
    let alloc = rt.alloc();
    check_falling(alloc, &rt, &many_turns(alloc)?)?;
    check_falling(alloc, &rt, &spread_turns(alloc)?)?;
    Ok(())
}
