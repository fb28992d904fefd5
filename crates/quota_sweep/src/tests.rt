// Sweeps over a market that can be followed by hand, by the plain placer and with ample memory.

ghost use Rattle.std.specs.Prelude.{◌≡◌, ◌+◌, ◌<◌, ◌≤◌};
ghost use Rattle.market.specs.declared.limits.TheConstants.{MAX_QUOTA};
ghost use Rattle.quota_sweep.specs.declared.row.TheConstants.{MAX_ROWS};

use crate::example::chain;
use crate::{SweepRow, SweepTable, sweep};
use dictatorship::PlainPlacer;
use market::Steps;
use std::alloc::{AllocError, Global};
use std::marker::Brand;
use std::process::Abort;
use std::sync::ledger::{Blank, Ledger};
use std::test::Fail;
use std::thread::Threads;

// The rows of a programme of the chain, and the programme's quota after the sweep.
fn swept<R: Threads + Sync>(
    rt: &R,
    alloc: Global,
    programme: u32,
    low: u32,
    high: u32,
) -> Result<(SweepTable, u32), AllocError>
    requires programme { programme < 6 }
    requires rising { low ≤ high }
    requires quotas { high ≤ MAX_QUOTA }
    requires rows { high < low + MAX_ROWS }
{
    counted::<R, Brand>(rt, alloc, programme, low, high, Blank::new(1))
}

// The same with a counter of turns.
fn counted<R: Threads + Sync, L: Ledger>(
    rt: &R,
    alloc: Global,
    programme: u32,
    low: u32,
    high: u32,
    blank: Blank,
) -> Result<(SweepTable, u32), AllocError>
    requires ledger { (blank.name ≡ L.name) × (blank.parts ≡ L.parts) × (0 < blank.parts) }
    requires programme { programme < 6 }
    requires rising { low ≤ high }
    requires quotas { high ≤ MAX_QUOTA }
    requires rows { high < low + MAX_ROWS }
{
    let mut market = chain(alloc)?;
    let mut turns = Steps::<L>::new(blank);
    let table = sweep(
        rt,
        alloc,
        &mut PlainPlacer,
        &mut market,
        programme,
        low,
        high,
        &mut turns,
    )?;
    Ok((table, market.programme(programme).quota))
}

// Compares the rows, one by one.
fn check_rows(rt: &impl Abort, table: &SweepTable, rows: &[SweepRow]) {
    assert_eq!(rt; table.rows() as usize, rows.len());
    for index in 0..table.rows() {
        assert_eq!(rt; rows.get(index as usize), Some(&table.row(index)));
    }
}

// The row of a quota.
fn row(quota: u32, held: u32, base: Option<u32>, changed: u32) -> SweepRow {
    SweepRow {
        quota,
        held,
        base,
        changed,
    }
}

#[test]
fn one_further_seat_moves_a_chain_of_five(rt: HostRuntime) -> Result<(), Fail> {
    let (table, after) = swept(&rt, rt.alloc(), 0, 0, 2)?;
    let rows = [
        row(0, 0, None, 0),
        row(1, 1, Some(1), 5),
        row(2, 1, Some(1), 0),
    ];
    check_rows(&rt, &table, &rows);
    assert_eq!(rt; after, 0);
    Ok(())
}

#[test]
fn one_quota_has_one_row(rt: HostRuntime) -> Result<(), Fail> {
    let (table, after) = swept(&rt, rt.alloc(), 0, 1, 1)?;
    check_rows(&rt, &table, &[row(1, 1, Some(1), 0)]);
    assert_eq!(rt; after, 0);
    Ok(())
}

#[test]
fn seats_that_nobody_wants_stay_free(rt: HostRuntime) -> Result<(), Fail> {
    let (table, after) = swept(&rt, rt.alloc(), 5, 0, 1)?;
    check_rows(&rt, &table, &[row(0, 0, None, 0), row(1, 0, None, 0)]);
    assert_eq!(rt; after, 2);
    Ok(())
}
