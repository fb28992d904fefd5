// Whether one candidate holds what is acceptable, and blocks with an entry of the list.

ghost use Rattle.std.specs.Prelude.{◌≡◌, ◌↔◌, ◌<◌, length, IsTrue};
ghost use Rattle.market.specs.Counting.{is_programme};
ghost use Rattle.reports.specs.BaseTables.{HoldsProgrammes, IsBaseTable};
ghost use Rattle.stability_audit.specs.Entries.{IsLookedThrough, WouldTake};
ghost use Rattle.stability_audit.specs.FirstVerdicts.{is_better};
ghost use Rattle.stability_audit.specs.Verdicts.{HeldIsAcceptable};

use market::{Market, Placement, Prog};
use reports::BaseRanks;

// Whether what a candidate holds is acceptable, or nothing.
pub(crate) fn holds_acceptable(market: &Market, placement: &Placement, candidate: u32) -> bool
    requires candidates { length placement.now ≡ length market.now.lists }
    requires programmes { HoldsProgrammes market.now placement.now }
    requires candidate { candidate < length market.now.lists }
    ensures { IsTrue result ↔ HeldIsAcceptable market.now placement.now candidate }
{
    let Some(programme) = placement.holds(candidate) else {
        return true;
    };
    if !market.list(candidate).contains(&programme) {
        return false;
    }
    market.admits(programme, candidate)
}

// The first entry of a candidate's list with which the candidate blocks the placement.
pub(crate) fn blocking_entry(
    market: &Market,
    placement: &Placement,
    bases: &BaseRanks,
    candidate: u32,
) -> Option<u32>
    requires candidates { length placement.now ≡ length market.now.lists }
    requires bases { IsBaseTable market.now placement.now bases.now }
    requires acceptable { HeldIsAcceptable market.now placement.now candidate }
    requires candidate { candidate < length market.now.lists }
    ensures { IsLookedThrough market.now placement.now candidate result }
{
    // Its clause says that the market is valid.
    let _ = market.candidate_count();
    let held = placement.holds(candidate);
    for programme in market.list(candidate) {
        if is_held(held, *programme) {
            return None;
        }
        if would_take(market, placement, bases, candidate, *programme) {
            return Some(*programme);
        }
    }
    None
}

// Whether this programme is what is held.
fn is_held(held: Option<u32>, programme: u32) -> bool
    ensures { result ≡ is_programme programme held }
{
    match held {
        Some(held) => held == programme,
        None => false,
    }
}

// Whether a programme admits a candidate, and has a free seat or a holder of worse rank.
fn would_take(
    market: &Market,
    placement: &Placement,
    bases: &BaseRanks,
    candidate: u32,
    programme: u32,
) -> bool
    requires bases { IsBaseTable market.now placement.now bases.now }
    requires candidate { candidate < length market.now.lists }
    requires programme { programme < length market.now.programmes }
    ensures { IsTrue result ↔ WouldTake market.now placement.now candidate programme }
{
    // Its clause says that the market is valid.
    let _ = market.candidate_count();
    let Prog { kind, quota, .. } = market.programme(programme);
    if !market.admits(programme, candidate) {
        return false;
    }
    if bases.held(programme) < quota {
        return true;
    }
    is_better(market.rank(kind, candidate), bases.base(programme))
}

// Whether one rank is better than another; no rank is neither better nor worse.
fn is_better(rank: Option<u32>, other: Option<u32>) -> bool
    ensures { result ≡ is_better rank other }
{
    match (rank, other) {
        (Some(rank), Some(other)) => rank < other,
        _ => false,
    }
}
