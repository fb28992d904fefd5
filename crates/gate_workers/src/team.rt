// All workers of a round.

ghost use Rattle.std.specs.Prelude.{◌≡◌, ℕ, ◌+◌, ◌<◌, ◌≤◌, length, slice_index_or, IfOk, is_ok, if◌then◌else◌};
ghost use Rattle.word_rule.specs.declared.seat.WorkSeat.{WorkSeat};
ghost use Rattle.word_rule.specs.Rounds.{key_of, dict_of, AreNew};
ghost use Rattle.gate_workers.specs.Workers.{IsReady, HasFinished};

use crate::gate::Gate;
use crate::worker::work;
use commit_book::commit_prefix;
use interleaving_core::MAX_WORKERS;
use market::{Dict, Steps};
use std::alloc::{AllocError, Global};
use std::sync::ledger::Ledger;
use std::thread;
use std::thread::Threads;
use word_rule::{SharedRound, Words, WorkSeat, close_round, join_all, open_round};

/// Runs a dictatorship by a team of 1 to `MAX_WORKERS` workers, and gives the words of the closed
/// round: every turn is committed, with the dictatorship's choice (`Words::choice`). The counter
/// rises by the number of turns, and by nothing where memory is refused. It is written to run each
/// worker in a thread of its own where one can be made, and to take all memory, that of the answer
/// included, before a worker starts.
pub fn run_team<R: Threads + Sync, G: Gate, L: Ledger>(
    rt: &R,
    alloc: Global,
    dict: &Dict,
    workers: u32,
    gate: &G,
    turns: &mut Steps<L>,
) -> Result<Words, AllocError>
    requires { (0 < workers) × (workers ≤ MAX_WORKERS) }
    ensures dict { IfOk result (λ words. words.dict ≡ dict.now) }
    ensures every { IfOk result (λ words. words.committed ≡ length dict.now.lists) }
    ensures turns { turns.new ≡ turns.old + (if is_ok result then length dict.now.lists else 0) }
{
    let (round, seats) = open_round(alloc, dict, workers)?;
    let words = run_round(rt, round, seats, dict, gate);
    turns.count(u64::from(dict.turns()));
    Ok(words)
}

// Runs an open round by its seats, each lent to a worker, to its end: the seats that have worked
// are joined into one, which commits the turns that are left. It takes no memory.
fn run_round<R: Threads + Sync, G: Gate>(
    rt: &R,
    round: SharedRound,
    mut seats: Vec<WorkSeat>,
    dict: &Dict,
    gate: &G,
) -> Words
    requires dict { dict.now ≡ dict_of round }
    requires new { AreNew round seats.items }
    requires some { 0 < length seats.items }
    requires all { length seats.items ≡ (key_of round).workers }
    ensures dict { result.dict ≡ dict.now }
    ensures every { result.committed ≡ length dict.now.lists }
{
    run_all(rt, &round, dict, seats.as_mut_slice(), gate);
    let mut last = join_all(&round, seats);
    let _ = commit_prefix(&round, dict, &mut last);
    close_round(round, last)
}

// Lends each seat to a worker, until all have worked. A worker for which no thread can be made
// runs in this one.
fn run_all<R: Threads + Sync, G: Gate>(
    rt: &R,
    round: &SharedRound,
    dict: &Dict,
    seats: &mut [WorkSeat],
    gate: &G,
)
    requires some { 0 < length seats.old }
    requires dict { dict.now ≡ dict_of round.now }
    requires ready { (i : ℕ) (d : WorkSeat) → i < length seats.old
        → IsReady round.now (slice_index_or seats.old i d) }
    ensures { (i : ℕ) (d : WorkSeat) → i < length seats.old
        → HasFinished round.now (slice_index_or seats.old i d) (slice_index_or seats.new i d) }
{
    let workers = seats.len();
    thread::for_each_mut(
        rt,
        seats,
        workers,
        &|_, me: &mut WorkSeat|
            requires { IsReady round.now me.old × (dict.now ≡ dict_of round.now) }
            ensures { HasFinished round.entry.now me.old me.new }
        { work(round, dict, me, gate) },
    );
}
