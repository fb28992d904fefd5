// The sweep: the market placed once for each quota.

ghost use Rattle.std.specs.Prelude.{◌≡◌, ◌+◌, ◌<◌, ◌≤◌, length, IfOk, IfSome};
ghost use Rattle.std.specs.Thread.{IsSync};
ghost use Rattle.market.specs.declared.limits.TheConstants.{MAX_QUOTA};
ghost use Rattle.market.specs.Mechanism.{mechanism_placement};
ghost use Rattle.quota_sweep.specs.declared.row.TheConstants.{MAX_ROWS};
ghost use Rattle.quota_sweep.specs.Sweeps.{AreWorstStable, HurtsNobody, IsQuotaChanged, row_of, sweep_rows};

use crate::changes::changed;
use crate::{SweepRow, SweepTable};
use market::{Market, Placement, Placer, Steps};
use reports::base_ranks;
use stable_laws::mechanism_stable;
use std::alloc::{AllocError, Global};
use std::sync::ledger::Ledger;
use std::thread::Threads;

/// Places the market with each quota of a programme from `low` to `high`, and gives a row for each.
/// The market is as it was afterwards, also where memory is refused, and nothing else is. The
/// counter is handed to each placing in turn.
pub fn sweep<P: Placer, R: Threads + Sync, L: Ledger>(
    rt: &R,
    alloc: Global,
    placer: &mut P,
    market: &mut Market,
    programme: u32,
    low: u32,
    high: u32,
    turns: &mut Steps<L>,
) -> Result<SweepTable, AllocError>
    requires sync { IsSync R.row }
    requires programme { programme < length market.old.programmes }
    requires rising { low ≤ high }
    requires quotas { high ≤ MAX_QUOTA }
    requires rows { high < low + MAX_ROWS }

    ensures rows { IfOk result (λ table. table ≡ sweep_rows market.old programme low high) }

    // With each quota the placement told of is stable, and no stable one gives a candidate less.
    ensures worst { AreWorstStable market.old programme low high }

    // From each row to a later one no candidate holds less.
    ensures hurts_nobody { HurtsNobody market.old programme low high }

    ensures market { market.new ≡ market.old }
{
    // Its clause says that the market is valid.
    let _ = market.type_count();
    let own = market.programme(programme).quota;
    let table = sweep_on(rt, alloc, placer, market, programme, low, high, turns);
    market.set_quota(programme, own);
    table
}

// The same, which leaves the market with one of the quotas.
fn sweep_on<P: Placer, R: Threads + Sync, L: Ledger>(
    rt: &R,
    alloc: Global,
    placer: &mut P,
    market: &mut Market,
    programme: u32,
    low: u32,
    high: u32,
    turns: &mut Steps<L>,
) -> Result<SweepTable, AllocError>
    requires sync { IsSync R.row }
    requires programme { programme < length market.old.programmes }
    requires rising { low ≤ high }
    requires quotas { high ≤ MAX_QUOTA }
    requires rows { high < low + MAX_ROWS }
    ensures rows { IfOk result (λ table. table ≡ sweep_rows market.old programme low high) }
    ensures market { IsQuotaChanged market.old programme market.new }
{
    // Its clause says that the market is valid.
    let _ = market.type_count();
    let mut rows = Vec::with_capacity(alloc, (high - low + 1) as usize)?;
    let mut before = None;
    for index in 0..high - low + 1 {
        market.set_quota(programme, low + index);
        let now = placer.place(rt, alloc, market, turns)?.placement;
        rows.push(row(alloc, market, programme, low + index, &before, &now)?)?;
        before = Some(now);
    }
    Ok(SweepTable::from_rows(rows))
}

// The row of a quota in the market with this quota, by what was given before and what is now.
fn row(
    alloc: Global,
    market: &Market,
    programme: u32,
    quota: u32,
    before: &Option<Placement>,
    now: &Placement,
) -> Result<SweepRow, AllocError>
    requires programme { programme < length market.now.programmes }
    requires before { IfSome before.now (λ held. length held ≡ length market.now.lists) }
    requires now { now.now ≡ mechanism_placement market.now }
    ensures { IfOk result (λ row. row
        ≡ row_of market.now programme quota before.now now.now) }
{
    // Its clause says that the market is valid.
    let _ = market.candidate_count();
    mechanism_stable(market);
    let bases = base_ranks(alloc, market, now)?;
    Ok(SweepRow {
        quota,
        held: bases.held(programme),
        base: bases.base(programme),
        changed: changed(before, now),
    })
}
