// The reason of a list entry in a placement.

ghost use Rattle.std.specs.Prelude.{◌≡◌, ◌<◌, ◌≤◌, length};
ghost use Rattle.market.specs.Counting.{is_programme};
ghost use Rattle.market.specs.Problems.{bar_of, kind_of, list_of, rank_of};
ghost use Rattle.reports.specs.BaseTables.{IsBaseTable};
ghost use Rattle.reports.specs.Reasons.{reason_of, refusal, stands_before};

use crate::{BaseRanks, Reason};
use market::{Market, Placement, Prog};

/// The reason of the entry at a place of a candidate's list, beside the base ranks of the
/// placement.
pub fn reason(
    market: &Market,
    placement: &Placement,
    bases: &BaseRanks,
    candidate: u32,
    place: u32,
) -> Reason
    requires candidates { length placement.now ≡ length market.now.lists }
    requires bases { IsBaseTable market.now placement.now bases.now }
    requires candidate { candidate < length market.now.lists }
    requires place { place < length (list_of market.now candidate) }
    ensures { result ≡ reason_of market.now placement.now candidate place }
{
    let list = market.list(candidate);
    let programme = list[place as usize];
    let held = placement.holds(candidate);
    if is_held(held, programme) {
        return Reason::Placed;
    }
    if is_before(list, held, place) {
        return Reason::Below;
    }
    if market.admits(programme, candidate) {
        return Reason::Full(bases.base(programme));
    }
    refusal(market, programme, candidate)
}

// Whether this programme is what is held.
fn is_held(held: Option<u32>, programme: u32) -> bool
    ensures { result ≡ is_programme programme held }
{
    match held {
        Some(held) => held == programme,
        None => false,
    }
}

// Whether what is held stands before this place of the list.
fn is_before(list: &[u32], held: Option<u32>, place: u32) -> bool
    requires { place ≤ length list.now }
    ensures { result ≡ stands_before list.now held place }
{
    let before = &list[..place as usize];
    match held {
        Some(held) => before.contains(&held),
        None => false,
    }
}

// Why a programme does not admit a candidate: no rank in its type, or one that is worse than its bar.
fn refusal(market: &Market, programme: u32, candidate: u32) -> Reason
    requires programme { programme < length market.now.programmes }
    requires candidate { candidate < length market.now.lists }
    ensures { result ≡ refusal (rank_of market.now (kind_of market.now programme) candidate)
        (bar_of market.now programme) }
{
    // Its clause says that the market is valid.
    let _ = market.candidate_count();
    let Prog { kind, bar, .. } = market.programme(programme);
    match (market.rank(kind, candidate), bar) {
        (Some(_), Some(bar)) => Reason::Bar(bar),
        _ => Reason::NoRank,
    }
}
