// One programme's quota varied.

ghost use Rattle.std.specs.Prelude.{◌≡◌, ◌+◌, ◌<◌, ◌≤◌, IfOk, Ok, length};
ghost use Rattle.command_words.specs.Words.{texts};
ghost use Rattle.command_words.specs.declared.words.Command.TheVariants as command;
ghost use Rattle.command_words.specs.declared.words.TheConstants.{MAX_WORKERS};
ghost use Rattle.market.specs.declared.limits.TheConstants.{MAX_QUOTA};
ghost use Rattle.quota_sweep.specs.declared.row.TheConstants.{MAX_ROWS};
ghost use Rattle.run_frame.specs.Files.{moment};
ghost use Rattle.run_frame.specs.Plans.{MayOpen};
ghost use Rattle.place_run.specs.Placings.{IsSweepOf};
ghost use Rattle.place_run.specs.Runs.{IsAnswering};
ghost use Rattle.place_run.specs.Says.{named, tables_plan};
ghost use Rattle.place_run.specs.commands.Sweep.{sweep_text as text_of_sweep};

use crate::answer::Answer;
use crate::inputs::Inputs;
use crate::problem::Problem;
use crate::rank_fields::rank_field;
use crate::status::{Refusal, Stop};
use gate_workers::OpenGate;
use market::{Market, Steps};
use place_edges::Shelf;
use quota_sweep::{SweepTable, sweep as sweep_quotas};
use record_files::{Field, put_row_4};
use round_rerun::Rounds;
use std::alloc::{AllocError, Global};
use std::marker::Brand;
use std::sync::ledger::{Blank, Ledger};
use std::thread::Threads;

// The answer to `sweep`: its text, or why there is none. Where no programme has the code that is
// known before a market is made.
pub(crate) fn sweep<R: Threads + Sync, H: Shelf>(
    rt: &R,
    alloc: Global,
    words: &[String],
    shelf: &mut H,
    code: u32,
    low: u32,
    high: u32,
    workers: u32,
) -> Result<Answer, Stop>
    requires words { 4 ≤ length words.now }
    requires granted { MayOpen (H.files shelf.old) (H.grants shelf.old) (named (texts words.now))
        tables_plan }
    requires rising { low ≤ high }
    requires quotas { high ≤ MAX_QUOTA }
    requires rows { high < low + MAX_ROWS }
    requires workers { (1 ≤ workers) × (workers ≤ MAX_WORKERS) }
    ensures answers { IsAnswering (H.files shelf.old) (texts words.now)
        (Ok (command.Sweep code low high workers)) result
        (moment H.faults H.tally shelf.old) (moment H.faults H.tally shelf.new) }
    ensures files { H.files shelf.new ≡ H.files shelf.old }
    ensures grants { H.grants shelf.new ≡ H.grants shelf.old }
{
    let inputs = Inputs::read(rt, alloc, words, shelf, workers)?;
    let Some(programme) = inputs.find_programme(code) else {
        return Err(Stop::Refused(Refusal::NoProgramme(code)));
    };
    let mut problem = Problem::build(rt, alloc, inputs, workers)?;
    let table = swept(
        rt,
        alloc,
        &mut problem.market,
        programme,
        low,
        high,
        workers,
    )?;
    let text = sweep_text(alloc, &table)?;
    Ok(Answer::done(text))
}

// What each quota of a programme gives, by teams of so many workers. The market is as it was
// afterwards.
fn swept<R: Threads + Sync>(
    rt: &R,
    alloc: Global,
    market: &mut Market,
    programme: u32,
    low: u32,
    high: u32,
    workers: u32,
) -> Result<SweepTable, AllocError>
    requires programme { programme < length market.old.programmes }
    requires rising { low ≤ high }
    requires quotas { high ≤ MAX_QUOTA }
    requires rows { high < low + MAX_ROWS }
    requires workers { (1 ≤ workers) × (workers ≤ MAX_WORKERS) }
    ensures { IfOk result (IsSweepOf market.old programme low high) }
{
    uncounted::<R, Brand>(
        rt,
        alloc,
        market,
        programme,
        low,
        high,
        workers,
        Blank::new(1),
    )
}

// The same with a counter of turns that nobody reads.
fn uncounted<R: Threads + Sync, L: Ledger>(
    rt: &R,
    alloc: Global,
    market: &mut Market,
    programme: u32,
    low: u32,
    high: u32,
    workers: u32,
    blank: Blank,
) -> Result<SweepTable, AllocError>
    requires programme { programme < length market.old.programmes }
    requires rising { low ≤ high }
    requires quotas { high ≤ MAX_QUOTA }
    requires rows { high < low + MAX_ROWS }
    requires workers { (1 ≤ workers) × (workers ≤ MAX_WORKERS) }
    requires ledger { (blank.name ≡ L.name) × (blank.parts ≡ L.parts) × (0 < blank.parts) }
    ensures { IfOk result (IsSweepOf market.old programme low high) }
{
    let mut turns = Steps::<L>::new(blank);
    let mut rounds = Rounds::new(workers, &OpenGate);
    sweep_quotas(
        rt,
        alloc,
        &mut rounds,
        market,
        programme,
        low,
        high,
        &mut turns,
    )
}

// The text of the rows of a sweep: a header, and a row for each quota.
fn sweep_text(alloc: Global, table: &SweepTable) -> Result<Vec<u8>, AllocError>
    ensures { IfOk result (λ text. text.items ≡ text_of_sweep table.now) }
{
    let mut bytes = Vec::new(alloc);
    put_row_4(
        &mut bytes,
        Field::Text(b"quota"),
        Field::Text(b"held"),
        Field::Text(b"base"),
        Field::Text(b"changed"),
    )?;
    for index in 0..table.rows() {
        let row = table.row(index);
        put_row_4(
            &mut bytes,
            Field::Number(u64::from(row.quota)),
            Field::Number(u64::from(row.held)),
            rank_field(row.base),
            Field::Number(u64::from(row.changed)),
        )?;
    }
    Ok(bytes)
}
