// The audit of a placement file beside three files.

ghost use Rattle.std.specs.Prelude.{◌≡◌, ◌<◌, ◌≤◌, ℕ, IfOk, Ok, Option, length};
ghost use Rattle.command_words.specs.Words.{texts};
ghost use Rattle.command_words.specs.declared.words.Command.TheVariants as command;
ghost use Rattle.command_words.specs.declared.words.TheConstants.{MAX_WORKERS};
ghost use Rattle.candidate_table.specs.Table.{numbers_of};
ghost use Rattle.market.specs.Stability.{held_by};
ghost use Rattle.programme_table.specs.Table.{codes_of};
ghost use Rattle.place_run.specs.Audits.{IsAuditOf, NamesVerdict};
ghost use Rattle.place_run.specs.Placings.{IsNamed};
ghost use Rattle.run_frame.specs.Files.{moment};
ghost use Rattle.run_frame.specs.Plans.{MayOpen};
ghost use Rattle.place_run.specs.Runs.{IsAnswering};
ghost use Rattle.place_run.specs.Says.{audited_plan, named};
ghost use Rattle.place_run.specs.commands.Audit.{verdict_ending, verdict_row};

use crate::answer::Answer;
use crate::inputs::{Inputs, word};
use crate::problem::Problem;
use crate::status::{Ending, Stop};
use market::Placement;
use place_base::Finder;
use place_edges::Shelf;
use record_files::{Field, put_row_1, put_row_2, put_row_3};
use stability_audit::{Verdict, audit as audit_placement};
use std::alloc::{AllocError, Global};
use std::thread::Threads;

// The answer to `audit`: the verdict and how the run ends with it, or why there is none.
pub(crate) fn audit<R: Threads + Sync, H: Shelf>(
    rt: &R,
    alloc: Global,
    words: &[String],
    shelf: &mut H,
    workers: u32,
) -> Result<Answer, Stop>
    requires words { 5 ≤ length words.now }
    requires granted { MayOpen (H.files shelf.old) (H.grants shelf.old) (named (texts words.now))
        audited_plan }
    requires workers { (1 ≤ workers) × (workers ≤ MAX_WORKERS) }
    ensures answers { IsAnswering (H.files shelf.old) (texts words.now) (Ok (command.Audit workers))
        result (moment H.faults H.tally shelf.old) (moment H.faults H.tally shelf.new) }
    ensures files { H.files shelf.new ≡ H.files shelf.old }
    ensures grants { H.grants shelf.new ≡ H.grants shelf.old }
{
    let inputs = Inputs::read(rt, alloc, words, shelf, workers)?;
    let placement = inputs.read_placement(alloc, shelf, word(words, 4))?;
    let answer = audited(rt, alloc, inputs, &placement, workers)?;
    Ok(answer)
}

// The verdict on a placement in the market of three tables, with how the run ends.
fn audited<R: Threads + Sync>(
    rt: &R,
    alloc: Global,
    inputs: Inputs,
    placement: &Placement,
    workers: u32,
) -> Result<Answer, AllocError>
    requires workers { 1 ≤ workers }
    requires candidates { length placement.now ≡ length inputs.candidates.numbers }
    requires programmes { (i p : ℕ) → held_by placement.now i ≡ Option.Some p
        → p < length (codes_of inputs.programmes.rows) }
    ensures { IfOk result (IsAuditOf (record { tables = inputs; held = placement.now })) }
{
    let problem = Problem::build(rt, alloc, inputs, workers)?;
    let verdict = audit_placement(rt, alloc, &problem.market, placement)?;
    let text = verdict_text(alloc, &problem, verdict)?;
    Ok(Answer::audited(ending_of(verdict), text))
}

// The row of a verdict.
pub(super) fn verdict_text(
    alloc: Global,
    problem: &Problem,
    verdict: Verdict,
) -> Result<Vec<u8>, AllocError>
    requires named { IsNamed problem.now }
    requires verdict { NamesVerdict problem.now.market verdict }
    ensures { IfOk result (λ text. text.items ≡ verdict_row (codes_of problem.now.programmes.rows)
        (numbers_of problem.now.numbers) verdict) }
{
    let mut text = Vec::new(alloc);
    match verdict {
        Verdict::Stable => put_row_1(&mut text, Field::Text(b"STABLE"))?,
        Verdict::OverQuota(programme) => put_row_2(
            &mut text,
            Field::Text(b"OVERQUOTA"),
            Field::Number(problem.programmes.number_at(programme)),
        )?,
        Verdict::NotAcceptable(candidate) => put_row_2(
            &mut text,
            Field::Text(b"NOTACCEPTABLE"),
            Field::Number(problem.numbers.number_at(candidate)),
        )?,
        Verdict::Blocking(candidate, programme) => put_row_3(
            &mut text,
            Field::Text(b"BLOCKING"),
            Field::Number(problem.numbers.number_at(candidate)),
            Field::Number(problem.programmes.number_at(programme)),
        )?,
    }
    Ok(text)
}

// How the run ends with a verdict.
pub(super) fn ending_of(verdict: Verdict) -> Ending
    ensures { result ≡ verdict_ending verdict }
{
    match verdict {
        Verdict::Stable => Ending::Done,
        Verdict::OverQuota(_) | Verdict::NotAcceptable(_) | Verdict::Blocking(_, _) => {
            Ending::AuditNo
        }
    }
}
