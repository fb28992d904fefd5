// The mechanism, by whole rounds.

ghost use Rattle.std.specs.Prelude.{◌≡◌, ◌*◌, ◌≤◌, IfOk};
ghost use Rattle.market.specs.declared.limits.TheConstants.{MAX_TYPES, MAX_CANDIDATES};
ghost use Rattle.market.specs.Problems.{IsValid};
ghost use Rattle.market.specs.Mechanism.{mechanism, turns_of_round};

use crate::cutting::cut_round;
use crate::round::whole_round;
use market::{Cuts, Market, Outcome, Placement};
use std::alloc::{AllocError, Global};

/// The placement of the mechanism, with its rounds and cuts. The turns are all turns of all types in
/// each round.
pub fn mechanism_plain(alloc: Global, market: &Market) -> Result<Outcome, AllocError>
    ensures { IfOk result (λ outcome. outcome ≡ mechanism market.now) }
{
    let turns = all_turns(market);
    let mut cuts = Cuts::whole(alloc, market)?;
    let mut rounds: u32 = 0;
    let mut total: u32 = 0;
    'rounds: loop {
        let table = whole_round(alloc, market, &cuts)?;
        let count = cut_round(market, &table, &mut cuts);
        let settled = count == 0;
        if settled {
            let held = table.best_programmes(alloc, market)?;
            return Ok(Outcome {
                placement: Placement::from_vec(held),
                rounds: rounds + 1,
                cuts: total,
                turns: u64::from(rounds + 1) * turns,
            });
        }
        rounds += 1;
        total += count;
    }
}

// The turns of all types.
fn all_turns(market: &Market) -> u64
    ensures turns { result ≡ turns_of_round market.now }
    ensures few { result ≤ MAX_TYPES * MAX_CANDIDATES }
    ensures valid { IsValid market.now }
{
    let mut turns: u64 = 0;
    for kind in 0..market.type_count() {
        turns += market.order(kind).len() as u64;
    }
    turns
}
