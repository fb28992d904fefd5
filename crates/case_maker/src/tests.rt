// The generator's words, and a market that was made from them by hand.

use crate::make_market;
use market::{Market, Prog};
use rand_core::utils::NextWord;
use rand_pcg::Lcg64Xsh32;
use std::process::Abort;
use std::test::Fail;

// The words were computed outside, from the generator's definition (O'Neill 2014).
#[test]
fn the_generator_gives_known_words(rt: HostRuntime) {
    for (seed, words) in [
        (0, [0xe4c1_4788, 0x379c_6516, 0x5c4a_b3bb, 0x601d_23e0]),
        (42, [0x21b7_56ee, 0xc15e_f750, 0x9548_a9bd, 0x35db_428d]),
    ] {
        let mut generator = Lcg64Xsh32::new(seed, 0);
        for word in words {
            assert_eq!(rt; generator.next_word(), word, "{seed}");
        }
    }
}

// Compares how many programmes, candidates and types a market has.
fn check_counts(rt: &impl Abort, market: &Market, counts: (u32, u32, u32)) {
    assert_eq!(rt;
        (
            market.programme_count(),
            market.candidate_count(),
            market.type_count()
        ),
        counts
    );
}

// Compares the type and the quota of each programme of a market, which has no bar.
fn check_programmes(rt: &impl Abort, market: &Market, programmes: &[(u32, u32)]) {
    for programme in 0..market.programme_count() {
        let Prog { kind, quota, bar } = market.programme(programme);
        assert_eq!(rt; bar, None);
        assert_eq!(rt;
            programmes.get(programme as usize).copied(),
            Some((kind, quota))
        );
    }
}

// Compares the list of each candidate of a market.
fn check_lists(rt: &impl Abort, market: &Market, lists: &[&[u32]]) {
    for candidate in 0..market.candidate_count() {
        assert_eq!(rt;
            lists.get(candidate as usize).copied(),
            Some(market.list(candidate))
        );
    }
}

// Compares the turn order of each type of a market.
fn check_orders(rt: &impl Abort, market: &Market, orders: &[&[u32]]) {
    for kind in 0..market.type_count() {
        assert_eq!(rt;
            orders.get(kind as usize).copied(),
            Some(market.order(kind))
        );
    }
}

// Seed 95 with five candidates, three programmes and two types, from a script written after the
// definition.
#[test]
fn a_small_market_is_made_as_defined(rt: HostRuntime) -> Result<(), Fail> {
    let market = make_market(rt.alloc(), 95, 5, 3, 2)?;
    check_counts(&rt, &market, (3, 5, 2));
    check_programmes(&rt, &market, &[(0, 1), (1, 3), (0, 0)]);
    check_lists(&rt, &market, &[&[1, 2], &[0, 2, 1], &[0, 2], &[], &[1]]);
    check_orders(&rt, &market, &[&[0, 3, 4, 1], &[0, 2, 1]]);
    Ok(())
}

// The ranks of its candidates in both types, and none where no key was drawn.
#[test]
fn ranks_are_places_in_the_turn_order(rt: HostRuntime) -> Result<(), Fail> {
    let market = make_market(rt.alloc(), 95, 5, 3, 2)?;
    let ranks = [(1, 1), (4, 3), (0, 2), (2, 0), (3, 0)];
    for candidate in 0..market.candidate_count() {
        let both = (
            market.rank(0, candidate).unwrap_or(0),
            market.rank(1, candidate).unwrap_or(0),
        );
        assert_eq!(rt; ranks.get(candidate as usize).copied(), Some(both));
    }
    Ok(())
}
