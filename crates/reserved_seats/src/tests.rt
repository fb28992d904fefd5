// A market with bars that gets reserved seats, by its calls; each that takes memory with ample
// memory.

ghost use Rattle.std.specs.Prelude.{IfOk};
ghost use Rattle.reserved_seats.specs.Expansion.{FitsMarket};

use crate::{Offer, Reserved, Seat, acceptable_offers, expand, expand_parts};
use market::examples::rank_bars;
use market::{Market, Prog};
use std::alloc::{AllocError, Global};
use std::process::Abort;
use std::test::Fail;

// A market of two programmes with bars, and three seats of the first one for the first candidate.
fn first_candidate_marked(alloc: Global) -> Result<(Market, Reserved), AllocError>
    ensures { IfOk result (λ given. FitsMarket given.0 given.1) }
{
    let seats = vec![in alloc; 3, 0]?;
    let marked = vec![in alloc; true, false]?;
    let market = rank_bars(alloc)?;
    Ok((market, Reserved::from_parts(seats, marked)))
}

// Compares the type, the quota and the bar of each programme.
fn check_programmes(rt: &impl Abort, market: &Market, programmes: &[(u32, u32, Option<u32>)]) {
    assert_eq!(rt; market.programme_count() as usize, programmes.len());
    for programme in 0..market.programme_count() {
        let Prog { kind, quota, bar } = market.programme(programme);
        assert_eq!(rt;
            programmes.get(programme as usize).copied(),
            Some((kind, quota, bar))
        );
    }
}

// Compares the list of each candidate.
fn check_lists(rt: &impl Abort, market: &Market, lists: &[&[u32]]) {
    assert_eq!(rt; market.candidate_count() as usize, lists.len());
    for candidate in 0..market.candidate_count() {
        assert_eq!(rt;
            lists.get(candidate as usize).copied(),
            Some(market.list(candidate))
        );
    }
}

// Compares the turn order of each type.
fn check_orders(rt: &impl Abort, market: &Market, orders: &[&[u32]]) {
    for kind in 0..market.type_count() {
        assert_eq!(rt;
            orders.get(kind as usize).copied(),
            Some(market.order(kind))
        );
    }
}

#[test]
fn each_programme_stands_twice(rt: HostRuntime) -> Result<(), Fail> {
    let alloc = rt.alloc();
    let (market, reserved) = first_candidate_marked(alloc)?;
    acceptable_offers(&market, &reserved);
    let market = expand(alloc, market, &reserved)?;
    check_programmes(
        &rt,
        &market,
        &[
            (0, 2, Some(50)),
            (1, 2, Some(7)),
            (0, 3, Some(50)),
            (1, 0, Some(7)),
        ],
    );
    check_lists(&rt, &market, &[&[1, 3, 0, 2], &[0, 1]]);
    check_orders(&rt, &market, &[&[0, 1], &[1, 0]]);
    Ok(())
}

#[test]
fn parts_are_expanded_before_a_market_is_made(rt: HostRuntime) -> Result<(), Fail> {
    let alloc = rt.alloc();
    let (market, reserved) = first_candidate_marked(alloc)?;
    let parts = expand_parts(alloc, market.into_parts(), &reserved)?;
    assert_eq!(rt; parts.types, 2);
    let quotas = parts.programmes.iter().map(|programme| programme.quota);
    assert!(rt; quotas.eq([2, 2, 3, 0]));
    let lengths = parts.lists.iter().map(|list| list.items().len());
    assert!(rt; lengths.eq([4, 2]));
    Ok(())
}

// Each index of a market of three rows with its offer.
#[test]
fn offers_have_indexes_and_letters(rt: HostRuntime) {
    let offers = [
        (0, Offer::general(0), "G"),
        (2, Offer::general(2), "G"),
        (3, Offer::reserved(0), "R"),
        (5, Offer::reserved(2), "R"),
    ];
    for (index, offer, letter) in offers {
        assert_eq!(rt; Offer::at(3, index), offer);
        assert_eq!(rt; offer.seat.letter(), letter.as_bytes());
    }
    for field in ["", "-", "g", "GR", "X"] {
        assert_eq!(rt; Seat::of_letter(field.as_bytes()), None);
    }
}
