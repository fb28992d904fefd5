// What can place the candidates of a market.

ghost use Rattle.std.specs.Prelude.{◌≡◌, ◌+◌, IfOk};
ghost use Rattle.std.specs.Result.{IfErr};
ghost use Rattle.std.specs.Thread.{IsSync};
ghost use Rattle.market.specs.Counting.{HasRisenWithin};
ghost use Rattle.market.specs.Mechanism.{mechanism_placement, mechanism_rounds, mechanism_cuts};
ghost use Rattle.market.specs.Reruns.{placement_turns};

use crate::{Market, Outcome, Steps};
use std::alloc::{AllocError, Global};
use std::sync::ledger::Ledger;
use std::thread::Threads;

/// A way to run the mechanism, on one thread or on several.
pub trait Placer {
    /// The placement, the rounds and the cuts of the mechanism. How many turns it ran to find them
    /// is the placer's own affair: the outcome says it, and the counter rises by it. Where memory is
    /// refused, the counter has risen by no more turns than are run where only what the cuts changed
    /// is run again.
    fn place<R: Threads + Sync, L: Ledger>(
        &mut self,
        rt: &R,
        alloc: Global,
        market: &Market,
        turns: &mut Steps<L>,
    ) -> Result<Outcome, AllocError>
        requires sync { IsSync R.row }
        ensures placement { IfOk result (λ outcome. outcome.placement
            ≡ mechanism_placement market.now) }
        ensures rounds { IfOk result (λ outcome. outcome.rounds ≡ mechanism_rounds market.now) }
        ensures cuts { IfOk result (λ outcome. outcome.cuts ≡ mechanism_cuts market.now) }
        ensures turns { IfOk result (λ outcome. turns.new ≡ turns.old + outcome.turns) }
        ensures refused { IfErr result (λ _. HasRisenWithin turns.old turns.new
            (placement_turns market.now)) };
}
