// The protocol event by event over two turns of one seat each, and many orders of events over small
// dictatorships. Each call that takes memory is made with ample memory.

ghost use Rattle.std.specs.Prelude.{◌≡◌, length, IfOk};

use crate::CoreEvent::{Claim, Flags, Look, Post, Raise, Read, Release, Seal, Seat, Take, Weigh};
use crate::{Cell, CoreEvent, CoreState, Told};
use market::examples::two_turns;
use market::{Dict, List};
use std::alloc::{AllocError, Global};
use std::process::Abort;
use std::test::Fail;

// Three turns with the same list, over two seats that are left.
fn crowd(alloc: Global) -> Result<Dict, AllocError>
    ensures { IfOk result (λ d. length d.lists ≡ 3) }
{
    let quota = vec![in alloc; 2, 1]?;
    let fill = vec![in alloc; 1, 0]?;
    let first = List::from_slice(alloc, &[0, 1])?;
    let second = List::from_slice(alloc, &[0, 1])?;
    let third = List::from_slice(alloc, &[0, 1])?;
    let lists = vec![in alloc; first, second, third]?;
    Ok(Dict::from_parts(quota, fill, lists))
}

// A programme without a seat, and a turn that lists nothing.
fn empty_places(alloc: Global) -> Result<Dict, AllocError>
    ensures { IfOk result (λ d. length d.lists ≡ 3) }
{
    let quota = vec![in alloc; 0, 1]?;
    let fill = vec![in alloc; 0, 0]?;
    let first = List::from_slice(alloc, &[0, 1])?;
    let second = List::from_slice(alloc, &[])?;
    let third = List::from_slice(alloc, &[1, 0])?;
    let lists = vec![in alloc; first, second, third]?;
    Ok(Dict::from_parts(quota, fill, lists))
}

// One turn, which lists a programme without a seat first.
fn one_turn(alloc: Global) -> Result<Dict, AllocError> {
    let quota = vec![in alloc; 0, 1]?;
    let fill = vec![in alloc; 0, 0]?;
    let list = List::from_slice(alloc, &[0, 1])?;
    let lists = vec![in alloc; list]?;
    Ok(Dict::from_parts(quota, fill, lists))
}

// Makes these events of so many workers in turn, and compares what each tells: `None` where it is
// not allowed.
fn play(
    rt: &impl Abort,
    state: &mut CoreState,
    workers: u32,
    script: &[(u32, CoreEvent, Option<Told>)],
)
    requires { length state.old.core.views ≡ workers }
    ensures { state.new.dict ≡ state.old.dict }
{
    for (worker, event, told) in script {
        assert!(rt; *worker < workers);
        assert_eq!(rt; state.step(*worker, *event).ok(), *told);
    }
}

// Makes these events of two workers over the two turns. What stands then: the cells of both turns,
// how many turns are committed, and the seat counts of both programmes.
fn two_turns_after(
    rt: &impl Abort,
    alloc: Global,
    script: &[(u32, CoreEvent, Option<Told>)],
) -> Result<((Cell, Cell), u32, (u32, u32)), AllocError> {
    let mut state = CoreState::open(alloc, two_turns(alloc)?, 2)?;
    play(rt, &mut state, 2, script);
    let cells = (state.cell(0), state.cell(1));
    let seats = (state.seats(0), state.seats(1));
    Ok((cells, state.committed(), seats))
}

// Both workers read before either posts, and the second turn is posted first. The holder commits in
// the order of turns, and weighs each list anew: the second turn's posted place is taken by then.
#[test]
fn a_turn_posted_too_early_is_weighed_again(rt: HostRuntime) -> Result<(), Fail> {
    let script = [
        (0, Claim, Some(Told::Claimed(0))),
        (1, Claim, Some(Told::Claimed(1))),
        (0, Flags, Some(Told::Flags(0))),
        (1, Flags, Some(Told::Flags(0))),
        (0, Read, Some(Told::Met)),
        (1, Read, Some(Told::Met)),
        (1, Post, Some(Told::Posted(0))),
        (0, Post, Some(Told::Posted(0))),
        (0, Take, Some(Told::Took(0))),
        (0, Look, Some(Told::Found(0))),
        (0, Weigh, Some(Told::Room)),
        (0, Seat, Some(Told::Seated(true))),
        (0, Raise, Some(Told::Raised(0))),
        (0, Seal, Some(Told::Sealed(0))),
        (0, Look, Some(Told::Found(0))),
        (0, Weigh, Some(Told::Full)),
        (0, Weigh, Some(Told::Room)),
        (0, Seat, Some(Told::Seated(true))),
        (0, Raise, Some(Told::Raised(1))),
        (0, Seal, Some(Told::Sealed(1))),
        (0, Release, Some(Told::Released(2))),
    ];
    let stands = two_turns_after(&rt, rt.alloc(), &script)?;
    let cells = (Cell::Committed(0), Cell::Committed(1));
    assert_eq!(rt; stands, (cells, 2, (1, 1)));
    Ok(())
}

// The second turn is posted while the first is still claimed: nothing can be committed yet.
#[test]
fn a_later_turn_waits_for_the_earlier_one(rt: HostRuntime) -> Result<(), Fail> {
    let script = [
        (0, Claim, Some(Told::Claimed(0))),
        (1, Claim, Some(Told::Claimed(1))),
        (1, Flags, Some(Told::Flags(0))),
        (1, Read, Some(Told::Met)),
        (1, Post, Some(Told::Posted(0))),
        (1, Take, Some(Told::Took(0))),
        (1, Look, Some(Told::Nothing)),
        (1, Release, Some(Told::Released(0))),
    ];
    let stands = two_turns_after(&rt, rt.alloc(), &script)?;
    assert_eq!(rt; stands, ((Cell::Empty, Cell::Posted(0)), 0, (0, 0)));
    Ok(())
}

// At the opening nothing can be read, looked at or committed.
#[test]
fn nothing_is_allowed_out_of_turn(rt: HostRuntime) -> Result<(), Fail> {
    let script = [(1, Seal, None), (0, Look, None), (0, Read, None)];
    let stands = two_turns_after(&rt, rt.alloc(), &script)?;
    assert_eq!(rt; stands, ((Cell::Empty, Cell::Empty), 0, (0, 0)));
    Ok(())
}

// An entry is read once its flag was looked at, which is looked at once, and a flag is raised once
// its programme is filled.
#[test]
fn flags_are_looked_at_first_and_raised_last(rt: HostRuntime) -> Result<(), Fail> {
    let script = [
        (0, Claim, Some(Told::Claimed(0))),
        (0, Read, None),
        (0, Flags, Some(Told::Flags(0))),
        (0, Flags, None),
        (0, Read, Some(Told::Met)),
        (0, Post, Some(Told::Posted(0))),
        (0, Take, Some(Told::Took(0))),
        (0, Look, Some(Told::Found(0))),
        (0, Weigh, Some(Told::Room)),
        (0, Raise, None),
    ];
    let stands = two_turns_after(&rt, rt.alloc(), &script)?;
    assert_eq!(rt; stands, ((Cell::Posted(0), Cell::Empty), 0, (0, 0)));
    Ok(())
}

// The seat taken is the programme's last: its turn is committed once the flag is raised, and the
// next turn passes the programme by its flag, so that it meets and posts its second entry.
#[test]
fn a_filled_programme_is_passed_by_its_flag(rt: HostRuntime) -> Result<(), Fail> {
    let alloc = rt.alloc();
    let mut state = CoreState::open(alloc, two_turns(alloc)?, 1)?;
    let script = [
        (0, Claim, Some(Told::Claimed(0))),
        (0, Flags, Some(Told::Flags(0))),
        (0, Read, Some(Told::Met)),
        (0, Post, Some(Told::Posted(0))),
        (0, Take, Some(Told::Took(0))),
        (0, Look, Some(Told::Found(0))),
        (0, Weigh, Some(Told::Room)),
        (0, Seat, Some(Told::Seated(true))),
        (0, Seal, None),
        (0, Raise, Some(Told::Raised(0))),
        (0, Seal, Some(Told::Sealed(0))),
        (0, Look, Some(Told::Nothing)),
        (0, Release, Some(Told::Released(1))),
        (0, Claim, Some(Told::Claimed(1))),
        (0, Flags, Some(Told::Flags(1))),
        (0, Read, Some(Told::Met)),
        (0, Post, Some(Told::Posted(1))),
    ];
    play(&rt, &mut state, 1, &script);
    Ok(())
}

// A programme without a seat is full from the opening on.
#[test]
fn a_programme_without_a_seat_has_its_flag_raised(rt: HostRuntime) -> Result<(), Fail> {
    let alloc = rt.alloc();
    let mut state = CoreState::open(alloc, one_turn(alloc)?, 1)?;
    let script = [
        (0, Claim, Some(Told::Claimed(0))),
        (0, Flags, Some(Told::Flags(1))),
        (0, Read, Some(Told::Met)),
        (0, Post, Some(Told::Posted(1))),
    ];
    play(&rt, &mut state, 1, &script);
    Ok(())
}

const EVENTS: [CoreEvent; 11] = [
    Claim, Flags, Read, Post, Take, Look, Weigh, Seat, Raise, Seal, Release,
];

// Three workers make 6,000 events by chance: far more than the few turns here need.
fn play_by_chance(alloc: Global, dict: Dict, seed: u32) -> Result<CoreState, AllocError>
    ensures { IfOk result (λ s. s.dict ≡ dict) }
{
    let mut state = CoreState::open(alloc, dict, 3)?;
    let mut random = seed;
    for _ in 0..6000 {
        random = random.wrapping_mul(1_664_525).wrapping_add(1_013_904_223);
        let worker = random >> 16 & 0xff;
        let event = EVENTS[(random >> 24) as usize % 11];
        let _ = state.step(worker % 3, event);
    }
    Ok(state)
}

// Each turn is committed, with its choice.
fn check_choices(rt: &impl Abort, state: &CoreState, choices: &[u32])
    requires { length state.now.dict.lists ≡ length choices.now }
{
    assert_eq!(rt; state.committed() as usize, choices.len());
    for (turn, choice) in choices.iter().enumerate() {
        assert_eq!(rt; state.cell(turn as u32), Cell::Committed(*choice));
    }
}

// Plays this dictatorship by chance, and compares the choices that are committed then.
fn check_by_chance(
    rt: &impl Abort,
    alloc: Global,
    dict: Dict,
    seed: u32,
    choices: &[u32],
) -> Result<(), AllocError>
    requires { length dict.lists ≡ length choices.now }
{
    let state = play_by_chance(alloc, dict, seed)?;
    check_choices(rt, &state, choices);
    Ok(())
}

#[test]
fn many_orders_of_events_commit_the_same_choices(rt: HostRuntime) -> Result<(), Fail> {
    let alloc = rt.alloc();
    for seed in 0..400 {
        check_by_chance(&rt, alloc, two_turns(alloc)?, seed, &[0, 1])?;
        check_by_chance(&rt, alloc, crowd(alloc)?, seed, &[0, 1, 2])?;
        check_by_chance(&rt, alloc, empty_places(alloc)?, seed, &[1, 0, 2])?;
    }
    Ok(())
}
