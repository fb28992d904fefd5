// The audit, in the order of its verdicts.

ghost use Rattle.std.specs.Prelude.{◌≡◌, ◌<◌, ◌↔◌, ℕ, length, IfOk, IsTrue, MatchOption};
ghost use Rattle.market.specs.Stability.{IsStable};
ghost use Rattle.reports.specs.BaseTables.{HoldsProgrammes, IsBaseTable};
ghost use Rattle.stability_audit.specs.Entries.{BlocksWithSome, IsFirstHolder, IsFirstToBlock};
ghost use Rattle.stability_audit.specs.FirstVerdicts.{verdict_of};
ghost use Rattle.stability_audit.specs.Verdicts.{HeldIsAcceptable, IsFirstOverQuota, IsOverQuota, IsVerdict};

use crate::Verdict;
use crate::candidate::{blocking_entry, holds_acceptable};
use market::{Market, Placement};
use rayon::prelude::*;
use reports::{BaseRanks, base_ranks};
use std::alloc::{AllocError, Global};
use std::thread::Threads;

/// The first verdict in this order: the first programme over its quota; the first candidate who
/// holds a programme that is not acceptable; the blocking pair of the first candidate, with the
/// programme that stands first in that candidate's list; stable. The placement's programmes are
/// those of the market; nothing but memory is refused. Candidates may be looked at in parallel.
pub fn audit<R: Threads + Sync>(
    rt: &R,
    alloc: Global,
    market: &Market,
    placement: &Placement,
) -> Result<Verdict, AllocError>
    requires candidates { length placement.now ≡ length market.now.lists }
    requires programmes { HoldsProgrammes market.now placement.now }
    ensures verdict { IfOk result (IsVerdict market.now placement.now) }
    // There is one first verdict.
    ensures first { IfOk result (λ v. v ≡ verdict_of market.now placement.now) }
    // It is stable exactly where no pair blocks, and what is held is a placement.
    ensures stable { IfOk result (λ v. (v ≡ Verdict.Stable) ↔ IsStable market.now placement.now) }
{
    let bases = base_ranks(alloc, market, placement)?;
    if let Some(programme) = first_over_quota(market, placement, &bases) {
        return Ok(Verdict::OverQuota(programme));
    }
    if let Some(candidate) = first_not_acceptable(rt, market, placement) {
        return Ok(Verdict::NotAcceptable(candidate));
    }
    let Some(candidate) = first_to_block(rt, market, placement, &bases) else {
        return Ok(Verdict::Stable);
    };
    match blocking_entry(market, placement, &bases, candidate) {
        Some(programme) => Ok(Verdict::Blocking(candidate, programme)),
        None => unreachable!(),
    }
}

// The first programme with more holders than its quota.
fn first_over_quota(market: &Market, placement: &Placement, bases: &BaseRanks) -> Option<u32>
    requires programmes { HoldsProgrammes market.now placement.now }
    requires bases { IsBaseTable market.now placement.now bases.now }
    ensures { MatchOption result
        ((p : ℕ) → IsOverQuota market.now placement.now p → ⊥)
        (λ p. IsFirstOverQuota market.now placement.now p) }
{
    for programme in 0..market.programme_count() {
        let quota = market.programme(programme).quota;
        if quota < bases.held(programme) {
            return Some(programme);
        }
    }
    None
}

// The first candidate who holds a programme that is not acceptable.
fn first_not_acceptable<R: Threads + Sync>(
    rt: &R,
    market: &Market,
    placement: &Placement,
) -> Option<u32>
    requires candidates { length placement.now ≡ length market.now.lists }
    requires programmes { HoldsProgrammes market.now placement.now }
    ensures { MatchOption result
        ((j : ℕ) → HeldIsAcceptable market.now placement.now j)
        (λ i. IsFirstHolder market.now placement.now i) }
{
    let found = (0..market.candidate_count()).into_par_iter().position_first(
        rt,
        |candidate: u32| -> bool
            requires candidates { length placement.now ≡ length market.now.lists }
            requires programmes { HoldsProgrammes market.now placement.now }
            requires candidate { candidate < length market.now.lists }
            ensures { IsTrue result
                ↔ (HeldIsAcceptable market.entry.now placement.entry.now candidate → ⊥) }
        { !holds_acceptable(market, placement, candidate) },
    );
    match found {
        Some(candidate) => Some(candidate as u32),
        None => None,
    }
}

// The first candidate who blocks the placement with some programme.
fn first_to_block<R: Threads + Sync>(
    rt: &R,
    market: &Market,
    placement: &Placement,
    bases: &BaseRanks,
) -> Option<u32>
    requires candidates { length placement.now ≡ length market.now.lists }
    requires bases { IsBaseTable market.now placement.now bases.now }
    requires acceptable { (j : ℕ) → HeldIsAcceptable market.now placement.now j }
    ensures { MatchOption result
        ((j : ℕ) → BlocksWithSome market.now placement.now j → ⊥)
        (λ i. IsFirstToBlock market.now placement.now i) }
{
    let found = (0..market.candidate_count()).into_par_iter().position_first(
        rt,
        |candidate: u32| -> bool
            requires candidates { length placement.now ≡ length market.now.lists }
            requires bases { IsBaseTable market.now placement.now bases.now }
            requires acceptable { HeldIsAcceptable market.now placement.now candidate }
            requires candidate { candidate < length market.now.lists }
            ensures { IsTrue result
                ↔ BlocksWithSome market.entry.now placement.entry.now candidate }
        { blocking_entry(market, placement, bases, candidate).is_some() },
    );
    match found {
        Some(candidate) => Some(candidate as u32),
        None => None,
    }
}
