// The mechanism as a placer.

ghost use Rattle.std.specs.Prelude.{◌≡◌, ◌+◌, IfOk};
ghost use Rattle.std.specs.Result.{IfErr};
ghost use Rattle.std.specs.Thread.{IsSync};
ghost use Rattle.market.specs.Counting.{HasRisenWithin};
ghost use Rattle.market.specs.Mechanism.{mechanism, mechanism_placement, mechanism_rounds, mechanism_cuts};
ghost use Rattle.market.specs.Reruns.{placement_turns};

use crate::mechanism_plain;
use market::{Market, Outcome, Placer, Steps};
use std::alloc::{AllocError, Global};
use std::sync::ledger::Ledger;
use std::thread::Threads;

/// Places by `mechanism_plain`, on the thread that asks.
#[derive(Drop)]
pub struct PlainPlacer;

impl Placer for PlainPlacer {
    /// The outcome of `mechanism_plain`. The counter rises by its turns: all turns of all types in
    /// each round; where memory is refused, it stands still.
    #[tactic(auto, unfolding(market::specs::Mechanism::mechanism))]
    fn place<R: Threads + Sync, L: Ledger>(
        &mut self,
        _rt: &R,
        alloc: Global,
        market: &Market,
        turns: &mut Steps<L>,
    ) -> Result<Outcome, AllocError>
        requires sync { IsSync R.row }
        ensures placement { IfOk result (λ outcome. outcome.placement
            ≡ mechanism_placement market.now) }
        ensures rounds { IfOk result (λ outcome. outcome.rounds ≡ mechanism_rounds market.now) }
        ensures cuts { IfOk result (λ outcome. outcome.cuts ≡ mechanism_cuts market.now) }
        ensures whole_rounds { IfOk result (λ outcome. outcome.turns
            ≡ (mechanism market.now).turns) }
        ensures turns { IfOk result (λ outcome. turns.new ≡ turns.old + outcome.turns) }
        ensures still { IfErr result (λ _. turns.new ≡ turns.old) }
        ensures refused { IfErr result (λ _. HasRisenWithin turns.old turns.new
            (placement_turns market.now)) }
    {
        let outcome = mechanism_plain(alloc, market)?;
        turns.count(outcome.turns);
        Ok(outcome)
    }
}
