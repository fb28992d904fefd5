// The market of three rounds by its calls, each that takes memory with ample memory.

ghost use Rattle.std.specs.Prelude.{◌≡◌, ◌<◌, [], ◌∷◌, IfOk};
ghost use Rattle.market.specs.Problems.{problem};
ghost use Rattle.market.specs.Examples.{prog};
ghost use Rattle.market.specs.Mechanism.{IsCuts};

use crate::examples::{rank_bars, three_rounds};
use crate::{Cuts, List, Market, Placement, Prog, Tentative};
use std::alloc::{AllocError, Global};
use std::process::Abort;
use std::test::Fail;
use std::thread::Threads;

// What several threads may share, and one may hand to another.
fn crosses_threads<T: Send + Sync>(_value: &T) {}

// In a type of the market of three rounds the candidates have their turns in their order, and ranks
// from 1 on.
fn check_turns(rt: &impl Abort, market: &Market, kind: u32)
    requires { kind < market.now.types }
{
    assert_eq!(rt; market.order(kind), &[0, 1, 2][..]);
    for candidate in 0..market.candidate_count() {
        assert_eq!(rt; market.turn(kind, candidate), candidate);
        assert_eq!(rt; market.rank(kind, candidate), Some(candidate + 1));
    }
}

#[test]
fn looks_up_what_it_was_built_of(rt: HostRuntime) -> Result<(), Fail> {
    let alloc = rt.alloc();
    let market = three_rounds(alloc)?;
    assert_eq!(rt; market.type_count(), 2);
    assert_eq!(rt; market.programme_count(), 3);
    assert_eq!(rt; market.candidate_count(), 3);
    for kind in 0..market.type_count() {
        check_turns(&rt, &market, kind);
    }
    crosses_threads(&market);
    Ok(())
}

#[test]
fn numbers_the_programmes_of_each_type(rt: HostRuntime) -> Result<(), Fail> {
    let alloc = rt.alloc();
    let market = three_rounds(alloc)?;
    assert_eq!(rt; market.type_programmes(0), &[0, 1][..]);
    assert_eq!(rt; market.type_programmes(1), &[2][..]);
    assert_eq!(rt;
        (market.local(0), market.local(1), market.local(2)),
        (0, 1, 0)
    );
    Ok(())
}

// The lists of a type's turns up to these cuts, each with a 9 at its end.
fn turn_lists(
    alloc: Global,
    market: &Market,
    cuts: &Cuts,
    kind: u32,
) -> Result<Vec<u32>, AllocError>
    requires kind { kind < market.now.types }
    requires cuts { IsCuts market.now cuts.now }
{
    let fill = vec![in alloc; 0u32; market.type_programmes(kind).len()]?;
    let dict = market.dict(alloc, kind, cuts, 0, &fill)?;
    crosses_threads(&dict);
    let mut found = Vec::new(alloc);
    for turn in 0..dict.turns() {
        found.extend_from_slice(dict.list(turn))?;
        found.push(9)?;
    }
    Ok(found)
}

#[test]
fn gives_the_dictatorship_of_a_type(rt: HostRuntime) -> Result<(), Fail> {
    let alloc = rt.alloc();
    let market = three_rounds(alloc)?;
    let mut cuts = Cuts::whole(alloc, &market)?;
    let lists = turn_lists(alloc, &market, &cuts, 0)?;
    assert_eq!(rt; lists.as_slice(), &[0, 9, 0, 1, 9, 1, 9][..]);
    cuts.set(1, 2);
    assert_eq!(rt; cuts.cut(1), 2);
    let lists = turn_lists(alloc, &market, &cuts, 0)?;
    assert_eq!(rt; lists.as_slice(), &[0, 9, 0, 9, 1, 9][..]);
    Ok(())
}

// A market of two types, one programme each and one candidate, made by two threads.
fn built_by_two<R: Threads + Sync>(rt: &R, alloc: Global) -> Result<Market, AllocError>
    ensures { IfOk result (λ m. m ≡ problem 2 (prog 0 1 ∷ prog 1 1 ∷ []) ((1 ∷ 0 ∷ []) ∷ [])
        ((0 ∷ []) ∷ (0 ∷ []) ∷ []) ((7 ∷ []) ∷ (7 ∷ []) ∷ [])) }
{
    let programmes = vec![in alloc;
        Prog {
            kind: 0,
            quota: 1,
            bar: None
        },
        Prog {
            kind: 1,
            quota: 1,
            bar: None
        },
    ]?;
    let list = List::from_slice(alloc, &[1, 0])?;
    let lists = vec![in alloc; list]?;
    let orders = vec![in alloc;
        List::from_slice(alloc, &[0])?,
        List::from_slice(alloc, &[0])?,
    ]?;
    let ranks = vec![in alloc;
        List::from_slice(alloc, &[7])?,
        List::from_slice(alloc, &[7])?,
    ]?;
    Market::build_by(rt, alloc, 2, 2, programmes, lists, orders, ranks)
}

#[test]
fn is_the_same_made_by_two_threads(rt: HostRuntime) -> Result<(), Fail> {
    let alloc = rt.alloc();
    let market = built_by_two(&rt, alloc)?;
    for kind in 0..market.type_count() {
        assert_eq!(rt; market.rank(kind, 0), Some(7));
        assert_eq!(rt; market.turn(kind, 0), 0);
    }
    Ok(())
}

#[test]
fn keeps_choices_and_placements(rt: HostRuntime) -> Result<(), Fail> {
    let alloc = rt.alloc();
    let market = three_rounds(alloc)?;
    let mut table = Tentative::none(alloc, &market)?;
    table.set(0, 1, Some(0));
    assert_eq!(rt; table.choice(0, 1), Some(0));
    assert_eq!(rt; table.choice(1, 1), None);
    let placement = Placement::from_vec(vec![in alloc; Some(0), None]?);
    assert_eq!(rt; placement.held(), &[Some(0), None][..]);
    assert_eq!(rt; placement.holds(1), None);
    crosses_threads(&table);
    crosses_threads(&placement);
    Ok(())
}

#[test]
fn admits_up_to_the_bar_of_each_type(rt: HostRuntime) -> Result<(), Fail> {
    let alloc = rt.alloc();
    let market = rank_bars(alloc)?;
    assert_eq!(rt; (market.admits(0, 0), market.admits(0, 1)), (true, false));
    assert_eq!(rt; (market.admits(1, 0), market.admits(1, 1)), (false, true));
    let cuts = Cuts::whole(alloc, &market)?;
    let lists = turn_lists(alloc, &market, &cuts, 0)?;
    assert_eq!(rt; lists.as_slice(), &[0, 9, 9][..]);
    let lists = turn_lists(alloc, &market, &cuts, 1)?;
    assert_eq!(rt; lists.as_slice(), &[0, 9, 9][..]);
    Ok(())
}

#[test]
fn changes_one_quota_and_gives_its_parts_back(rt: HostRuntime) -> Result<(), Fail> {
    let alloc = rt.alloc();
    let mut market = rank_bars(alloc)?;
    market.set_quota(1, 5);
    assert_eq!(rt; market.programme(1).quota, 5);
    let parts = market.into_parts();
    assert_eq!(rt; parts.types, 2);
    let quotas = parts.programmes.iter().map(|programme| programme.quota);
    assert!(rt; quotas.eq([2, 5]));
    let bars = parts.programmes.iter().map(|programme| programme.bar);
    assert!(rt; bars.eq([Some(50), Some(7)]));
    Ok(())
}
