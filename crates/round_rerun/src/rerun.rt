// One type of a round, from a turn on.

ghost use Rattle.std.specs.Prelude.{◌≡◌, ℕ, ◌+◌, ◌-◌, ◌<◌, ◌≤◌, [], length, slice_index, slice_index_or, IfOk, Option, unwrap_or};
ghost use Rattle.std.specs.Result.{IfErr};
ghost use Rattle.interleaving_core.specs.declared.limits.TheConstants.{MAX_WORKERS};
ghost use Rattle.market.specs.Problems.{order_of, kind_of};
ghost use Rattle.market.specs.Mechanism.{IsCuts};
ghost use Rattle.market.specs.Choices.{held_in_table};
ghost use Rattle.market.specs.Reruns.{IsRunUpto, IsKeptFill};
ghost use Rattle.round_rerun.specs.Kept.{IsKept, KeepsUnmarked};

use crate::kept::Kept;
use gate_workers::{Gate, run_team};
use market::{Cuts, Market, Steps, Tentative};
use std::alloc::{AllocError, Global};
use std::sync::ledger::Ledger;
use std::thread::Threads;

/// Runs the turns of a type that is touched from its first turn to run on, and says how many they
/// are. Of a type that is not touched nothing is run. Where memory is refused, nothing is counted.
pub fn run_touched<R: Threads + Sync, G: Gate, L: Ledger>(
    rt: &R,
    alloc: Global,
    workers: u32,
    gate: &G,
    market: &Market,
    kind: u32,
    cuts: &Cuts,
    first: Option<u32>,
    kept: &mut Kept,
    turns: &mut Steps<L>,
) -> Result<u32, AllocError>
    requires workers { (0 < workers) × (workers ≤ MAX_WORKERS) }
    requires kind { kind < market.now.types }
    requires cuts { IsCuts market.now cuts.now }
    requires from { unwrap_or first (length (order_of market.now kind))
        ≤ length (order_of market.now kind) }
    requires choices { IsKept market.now kept.old }
    requires kept { IsRunUpto market.now cuts.now kind
        (unwrap_or first (length (order_of market.now kind)))
        (slice_index_or kept.old.table kind []) }
    ensures choices { IfOk result (λ _. IsKept market.now kept.new) }
    ensures unmarked { IfOk result (λ _. KeepsUnmarked kept.old kept.new) }
    ensures row { IfOk result (λ _. IsRunUpto market.now cuts.now kind
        (length (order_of market.now kind)) (slice_index_or kept.new.table kind [])) }
    ensures others { IfOk result (λ _. (t : ℕ) → (t ≡ kind → ⊥)
        → slice_index_or kept.new.table t [] ≡ slice_index_or kept.old.table t []) }
    ensures count { IfOk result (λ n. n ≡ length (order_of market.now kind)
        - unwrap_or first (length (order_of market.now kind))) }
    ensures turns { IfOk result (λ n. turns.new ≡ turns.old + n) }
    ensures refused { IfErr result (λ _. turns.new ≡ turns.old) }
{
    match first {
        Some(from) => run_type(
            rt, alloc, workers, gate, market, kind, cuts, from, kept, turns,
        ),
        None => Ok(0),
    }
}

// Runs the turns of a type from a turn on, by a team, and says how many they are.
fn run_type<R: Threads + Sync, G: Gate, L: Ledger>(
    rt: &R,
    alloc: Global,
    workers: u32,
    gate: &G,
    market: &Market,
    kind: u32,
    cuts: &Cuts,
    from: u32,
    kept: &mut Kept,
    turns: &mut Steps<L>,
) -> Result<u32, AllocError>
    requires workers { (0 < workers) × (workers ≤ MAX_WORKERS) }
    requires kind { kind < market.now.types }
    requires cuts { IsCuts market.now cuts.now }
    requires from { from ≤ length (order_of market.now kind) }
    requires choices { IsKept market.now kept.old }
    requires kept { IsRunUpto market.now cuts.now kind from (slice_index_or kept.old.table kind []) }
    ensures choices { IfOk result (λ _. IsKept market.now kept.new) }
    ensures unmarked { IfOk result (λ _. KeepsUnmarked kept.old kept.new) }
    ensures row { IfOk result (λ _. IsRunUpto market.now cuts.now kind
        (length (order_of market.now kind)) (slice_index_or kept.new.table kind [])) }
    ensures others { IfOk result (λ _. (t : ℕ) → (t ≡ kind → ⊥)
        → slice_index_or kept.new.table t [] ≡ slice_index_or kept.old.table t []) }
    ensures count { IfOk result (λ n. n ≡ length (order_of market.now kind) - from) }
    ensures turns { IfOk result (λ n. turns.new ≡ turns.old + n) }
    ensures refused { IfErr result (λ _. turns.new ≡ turns.old) }
{
    // Its clause says that the market is valid.
    let _ = market.type_count();
    let fill = kept_fill(alloc, market, kind, from, &kept.table)?;
    let dict = market.dict(alloc, kind, cuts, from, &fill)?;
    let words = run_team(rt, alloc, &dict, workers, gate, turns)?;
    for turn in 0..dict.turns() {
        kept.write_turn(market, cuts, kind, from, &dict, turn, words.choice(turn));
    }
    Ok(dict.turns())
}

// The seats of each programme of a type that the kept choices of its first turns have taken.
fn kept_fill(
    alloc: Global,
    market: &Market,
    kind: u32,
    from: u32,
    tentative: &Tentative,
) -> Result<Vec<u32>, AllocError>
    requires kind { kind < market.now.types }
    requires types { length tentative.now ≡ market.now.types }
    requires row { length (slice_index_or tentative.now kind []) ≡ length market.now.lists }
    requires from { from ≤ length (order_of market.now kind) }
    requires programmes { (j p : ℕ) → j < from
        → held_in_table tentative.now kind (slice_index (order_of market.now kind) j)
        ≡ Option.Some p
        → (p < length market.now.programmes) × (kind_of market.now p ≡ kind) }
    ensures { IfOk result (λ fill.
        IsKeptFill market.now (held_in_table tentative.now) kind from fill.items) }
{
    let order = market.order(kind);
    let mut fill = vec![in alloc; 0u32; market.type_programmes(kind).len()]?;
    for turn in 0..from {
        if let Some(programme) = tentative.choice(kind, order[turn as usize]) {
            let number = market.local(programme);
            fill[number as usize] += 1;
        }
    }
    Ok(fill)
}
