// The rounds of a placement.

ghost use Rattle.std.specs.Prelude.{◌≡◌, ℕ, ◌+◌, ◌*◌, ◌<◌, ◌≤◌, [], length, slice_index_or, IfOk};
ghost use Rattle.std.specs.Result.{IfErr};
ghost use Rattle.std.specs.Thread.{IsSync};
ghost use Rattle.interleaving_core.specs.declared.limits.TheConstants.{MAX_WORKERS};
ghost use Rattle.market.specs.declared.limits.TheConstants.{MAX_TYPES, MAX_CANDIDATES};
ghost use Rattle.market.specs.Counting.{HasRisenWithin};
ghost use Rattle.market.specs.Problems.{IsValid, order_of};
ghost use Rattle.market.specs.Mechanism.{IsCuts, mechanism_placement, mechanism_rounds, mechanism_cuts};
ghost use Rattle.market.specs.Choices.{IsRound};
ghost use Rattle.market.specs.Reruns.{IsRunUpto, placement_turns};
ghost use Rattle.round_rerun.specs.Runs.{first_turn_of, run_turns};
ghost use Rattle.round_rerun.specs.Kept.{IsKept, KeepsUnmarked};

use crate::kept::Kept;
use crate::rerun::run_touched;
use gate_workers::{Gate, OpenGate};
use market::{Cuts, Market, Outcome, Placement, Placer, Steps};
use std::alloc::{AllocError, Global};
use std::sync::ledger::Ledger;
use std::thread::Threads;
use truncation::{Touched, cut_marked};

/// Places by rounds over teams of 1 to `MAX_WORKERS` workers, who pass this gate.
#[derive(Drop)]
pub struct Rounds<'g, G: Gate> {
    workers: u32,
    gate: &'g G,
    ghost team: { (0 < workers) × (workers ≤ MAX_WORKERS) },
}

impl<'g, G: Gate> Rounds<'g, G> {
    /// Rounds over teams of so many workers.
    pub fn new(workers: u32, gate: &'g G) -> Rounds<'g, G>
        requires { (0 < workers) × (workers ≤ MAX_WORKERS) }
        ensures { result.workers ≡ workers }
    {
        Rounds { workers, gate }
    }

    /// The mechanism's placement, at any gate: the contract of `Placer::place`, which `Rounds` has
    /// as a trait over the open gate alone. The counter rises by the turns that were run: all in
    /// the first round, and then of each type those from the first one that the last cuts changed.
    /// Where memory is refused, it has risen by at most as many turns as the placement has.
    pub fn run<R: Threads + Sync, L: Ledger>(
        &self,
        rt: &R,
        alloc: Global,
        market: &Market,
        turns: &mut Steps<L>,
    ) -> Result<Outcome, AllocError>
        ensures placement { IfOk result (λ outcome. outcome.placement
            ≡ mechanism_placement market.now) }
        ensures rounds { IfOk result (λ outcome. outcome.rounds ≡ mechanism_rounds market.now) }
        ensures cuts { IfOk result (λ outcome. outcome.cuts ≡ mechanism_cuts market.now) }
        ensures reruns { IfOk result (λ outcome. outcome.turns ≡ placement_turns market.now) }
        ensures turns { IfOk result (λ outcome. turns.new ≡ turns.old + outcome.turns) }
        ensures refused { IfErr result (λ _. HasRisenWithin turns.old turns.new
            (placement_turns market.now)) }
    {
        place_rounds(rt, alloc, self.workers, self.gate, market, turns)
    }
}

impl<'g> Placer for Rounds<'g, OpenGate> {
    /// The mechanism's placement. The counter rises by the turns that were run: all in the first
    /// round, and then of each type those from the first one that the last cuts changed. Where
    /// memory is refused, it has risen by at most as many turns as the placement has.
    fn place<R: Threads + Sync, L: Ledger>(
        &mut self,
        rt: &R,
        alloc: Global,
        market: &Market,
        turns: &mut Steps<L>,
    ) -> Result<Outcome, AllocError>
        requires sync { IsSync R.row }
        ensures placement { IfOk result (λ outcome. outcome.placement
            ≡ mechanism_placement market.now) }
        ensures rounds { IfOk result (λ outcome. outcome.rounds ≡ mechanism_rounds market.now) }
        ensures cuts { IfOk result (λ outcome. outcome.cuts ≡ mechanism_cuts market.now) }
        ensures reruns { IfOk result (λ outcome. outcome.turns ≡ placement_turns market.now) }
        ensures turns { IfOk result (λ outcome. turns.new ≡ turns.old + outcome.turns) }
        ensures refused { IfErr result (λ _. HasRisenWithin turns.old turns.new
            (placement_turns market.now)) }
    {
        self.run(rt, alloc, market, turns)
    }
}

// The mechanism's placement by rounds that run again only what the last cuts changed, over teams of
// so many workers who pass this gate. The outcome's turns are those that were run.
fn place_rounds<R: Threads + Sync, G: Gate, L: Ledger>(
    rt: &R,
    alloc: Global,
    workers: u32,
    gate: &G,
    market: &Market,
    turns: &mut Steps<L>,
) -> Result<Outcome, AllocError>
    requires { (0 < workers) × (workers ≤ MAX_WORKERS) }
    ensures placement { IfOk result (λ outcome. outcome.placement
        ≡ mechanism_placement market.now) }
    ensures rounds { IfOk result (λ outcome. outcome.rounds ≡ mechanism_rounds market.now) }
    ensures cuts { IfOk result (λ outcome. outcome.cuts ≡ mechanism_cuts market.now) }
    ensures reruns { IfOk result (λ outcome. outcome.turns ≡ placement_turns market.now) }
    ensures turns { IfOk result (λ outcome. turns.new ≡ turns.old + outcome.turns) }
    ensures refused { IfErr result (λ _. HasRisenWithin turns.old turns.new
        (placement_turns market.now)) }
{
    let mut cuts = Cuts::whole(alloc, market)?;
    let mut kept = Kept::none(alloc, market)?;
    let mut touched = Touched::all();
    let mut rounds: u32 = 0;
    let mut total: u32 = 0;
    let mut done: u64 = 0;
    'rounds: loop {
        done += run_round(
            rt, alloc, workers, gate, market, &cuts, &touched, &mut kept, turns,
        )?;
        touched = cut_marked(market, &kept.table, kept.changed(), &mut cuts);
        let count = touched.several();
        if count == 0 {
            let held = kept.table.best_programmes(alloc, market)?;
            return Ok(Outcome {
                placement: Placement::from_vec(held),
                rounds: rounds + 1,
                cuts: total,
                turns: done,
            });
        }
        kept.forget_changes();
        rounds += 1;
        total += count;
    }
}

// Runs each touched type from its first turn to run on, and says how many turns they are.
fn run_round<R: Threads + Sync, G: Gate, L: Ledger>(
    rt: &R,
    alloc: Global,
    workers: u32,
    gate: &G,
    market: &Market,
    cuts: &Cuts,
    touched: &Touched,
    kept: &mut Kept,
    turns: &mut Steps<L>,
) -> Result<u64, AllocError>
    requires workers { (0 < workers) × (workers ≤ MAX_WORKERS) }
    requires cuts { IsCuts market.now cuts.now }
    requires choices { IsKept market.now kept.old }
    requires within { (t : ℕ) → t < market.now.types
        → first_turn_of market.now touched.now.first t ≤ length (order_of market.now t) }
    requires kept { (t : ℕ) → t < market.now.types → IsRunUpto market.now cuts.now t
        (first_turn_of market.now touched.now.first t) (slice_index_or kept.old.table t []) }
    ensures round { IfOk result (λ _. IsRound market.now cuts.now kept.new.table) }
    ensures choices { IfOk result (λ _. IsKept market.now kept.new) }
    ensures unmarked { IfOk result (λ _. KeepsUnmarked kept.old kept.new) }
    ensures count { IfOk result (λ n. n ≡ run_turns market.now touched.now.first) }
    ensures few { IfOk result (λ n. n ≤ MAX_TYPES * MAX_CANDIDATES) }
    ensures turns { IfOk result (λ n. turns.new ≡ turns.old + n) }
    ensures refused { IfErr result (λ _. HasRisenWithin turns.old turns.new
        (run_turns market.now touched.now.first)) }
    ensures valid { IsValid market.now }
{
    let mut done: u64 = 0;
    for kind in 0..market.type_count() {
        let first = touched.first(kind);
        let ran = run_touched(
            rt, alloc, workers, gate, market, kind, cuts, first, kept, turns,
        )?;
        done += u64::from(ran);
    }
    Ok(done)
}
