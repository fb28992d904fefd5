// The second placement, of the seats that registered candidates leave.

ghost use Rattle.std.specs.Prelude.{◌≡◌, ◌<◌, ◌≤◌, ℕ, IfOk, Ok, Option, length};
ghost use Rattle.command_words.specs.Words.{texts};
ghost use Rattle.command_words.specs.declared.words.Command.TheVariants as command;
ghost use Rattle.command_words.specs.declared.words.TheConstants.{MAX_WORKERS};
ghost use Rattle.candidate_table.specs.Table.{numbers_of};
ghost use Rattle.market.specs.Mechanism.{mechanism_placement};
ghost use Rattle.market.specs.Problems.{IsValid};
ghost use Rattle.market.specs.Stability.{IsPlacement, held_by};
ghost use Rattle.placement_file.specs.Texts.{placement_text as text_of_placement};
ghost use Rattle.programme_table.specs.Table.{codes_of};
ghost use Rattle.second_placement.specs.SeatsLeft.{second_problem};
ghost use Rattle.place_run.specs.Placings.{IsNamed};
ghost use Rattle.place_run.specs.Seconds.{IsSecondOf};
ghost use Rattle.run_frame.specs.Files.{moment};
ghost use Rattle.run_frame.specs.Plans.{MayOpen};
ghost use Rattle.place_run.specs.Runs.{IsAnswering};
ghost use Rattle.place_run.specs.Says.{named, second_plan};

use super::audit::{ending_of, verdict_text};
use crate::answer::Answer;
use crate::inputs::{Inputs, word};
use crate::placing::outcome_by;
use crate::problem::Problem;
use crate::registrations::Registrations;
use crate::status::Stop;
use gate_workers::Gate;
use market::Placement;
use place_edges::Shelf;
use placement_file::placement_text;
use stability_audit::{Verdict, audit as audit_placement};
use stable_laws::worst_stable;
use std::alloc::{AllocError, Global};
use std::thread::Threads;

// The answer to `second`: the second placement, or the verdict where the first one is not stable,
// with how the run ends; or why there is none.
pub(crate) fn second<R: Threads + Sync, H: Shelf, G: Gate>(
    rt: &R,
    alloc: Global,
    words: &[String],
    shelf: &mut H,
    workers: u32,
    gate: &G,
) -> Result<Answer, Stop>
    requires words { 6 ≤ length words.now }
    requires granted { MayOpen (H.files shelf.old) (H.grants shelf.old) (named (texts words.now))
        second_plan }
    requires workers { (1 ≤ workers) × (workers ≤ MAX_WORKERS) }
    ensures answers { IsAnswering (H.files shelf.old) (texts words.now)
        (Ok (command.Second workers)) result
        (moment H.faults H.tally shelf.old) (moment H.faults H.tally shelf.new) }
    ensures files { H.files shelf.new ≡ H.files shelf.old }
    ensures grants { H.grants shelf.new ≡ H.grants shelf.old }
{
    let inputs = Inputs::read(rt, alloc, words, shelf, workers)?;
    let placement = inputs.read_placement(alloc, shelf, word(words, 4))?;
    let registrations = inputs.read_registrations(alloc, shelf, word(words, 5))?;
    let answer = audited_and_placed(rt, alloc, inputs, &placement, &registrations, workers, gate)?;
    Ok(answer)
}

// The second placement behind this first one, or the verdict where that is not stable.
fn audited_and_placed<R: Threads + Sync, G: Gate>(
    rt: &R,
    alloc: Global,
    inputs: Inputs,
    placement: &Placement,
    registrations: &Registrations,
    workers: u32,
    gate: &G,
) -> Result<Answer, AllocError>
    requires workers { (1 ≤ workers) × (workers ≤ MAX_WORKERS) }
    requires candidates { length placement.now ≡ length inputs.candidates.numbers }
    requires programmes { (i p : ℕ) → held_by placement.now i ≡ Option.Some p
        → p < length (codes_of inputs.programmes.rows) }
    requires registered { length registrations.now ≡ length inputs.candidates.numbers }
    ensures { IfOk result (IsSecondOf (record {
      audited = record { tables = inputs; held = placement.now };
      registered = registrations.now;
    })) }
{
    let problem = Problem::build(rt, alloc, inputs, workers)?;
    let verdict = audit_placement(rt, alloc, &problem.market, placement)?;
    if let Verdict::Stable = verdict {
        let registered = registrations.registered();
        let text = second_text(rt, alloc, problem, placement, registered, workers, gate)?;
        return Ok(Answer::done(text));
    }
    let text = verdict_text(alloc, &problem, verdict)?;
    Ok(Answer::audited(ending_of(verdict), text))
}

// The text of the mechanism's placement in the market of the seats left.
fn second_text<R: Threads + Sync, G: Gate>(
    rt: &R,
    alloc: Global,
    problem: Problem,
    placement: &Placement,
    registered: &[bool],
    workers: u32,
    gate: &G,
) -> Result<Vec<u8>, AllocError>
    requires workers { (1 ≤ workers) × (workers ≤ MAX_WORKERS) }
    requires valid { IsValid problem.market }
    requires named { IsNamed problem }
    requires placement { IsPlacement problem.market placement.now }
    requires registered { length registered.now ≡ length problem.market.lists }
    ensures { IfOk result (λ text. text.items ≡ text_of_placement (codes_of problem.programmes.rows)
        (numbers_of problem.numbers)
        (mechanism_placement (second_problem problem.market placement.now registered.now))) }
{
    let second = problem.seats_left(alloc, placement, registered)?;
    worst_stable(&second.market);
    let outcome = outcome_by(rt, alloc, &second.market, workers, gate)?;
    let held = outcome.placement.held();
    placement_text(alloc, held, &second.programmes, &second.numbers)
}
