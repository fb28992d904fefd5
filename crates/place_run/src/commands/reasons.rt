// The reason of each list entry in the placement of three files.

ghost use Rattle.std.specs.Prelude.{◌≡◌, ◌≤◌, Ok, length};
ghost use Rattle.command_words.specs.Words.{texts};
ghost use Rattle.command_words.specs.declared.words.Command.TheVariants as command;
ghost use Rattle.command_words.specs.declared.words.TheConstants.{MAX_WORKERS};
ghost use Rattle.run_frame.specs.Files.{moment};
ghost use Rattle.run_frame.specs.Plans.{MayOpen};
ghost use Rattle.place_run.specs.Runs.{IsAnswering};
ghost use Rattle.place_run.specs.Says.{named, tables_plan};

use crate::answer::Answer;
use crate::inputs::Inputs;
use crate::placing::Placed;
use crate::reason_rows::ReasonRows;
use crate::status::Stop;
use gate_workers::Gate;
use place_edges::Shelf;
use reports::{base_ranks, full_entries_are_filled};
use std::alloc::Global;
use std::thread::Threads;

// The answer to `reasons`: what its text is made of, or why there is none. No memory is taken
// behind it.
pub(crate) fn reasons<R: Threads + Sync, H: Shelf, G: Gate>(
    rt: &R,
    alloc: Global,
    words: &[String],
    shelf: &mut H,
    workers: u32,
    gate: &G,
) -> Result<Answer, Stop>
    requires words { 4 ≤ length words.now }
    requires granted { MayOpen (H.files shelf.old) (H.grants shelf.old) (named (texts words.now))
        tables_plan }
    requires workers { (1 ≤ workers) × (workers ≤ MAX_WORKERS) }
    ensures answers { IsAnswering (H.files shelf.old) (texts words.now)
        (Ok (command.Reasons workers)) result
        (moment H.faults H.tally shelf.old) (moment H.faults H.tally shelf.new) }
    ensures files { H.files shelf.new ≡ H.files shelf.old }
    ensures grants { H.grants shelf.new ≡ H.grants shelf.old }
{
    let inputs = Inputs::read(rt, alloc, words, shelf, workers)?;
    let placed = Placed::by(rt, alloc, inputs, workers, gate)?;
    full_entries_are_filled(&placed.problem.market, &placed.placement);
    let bases = base_ranks(alloc, &placed.problem.market, &placed.placement)?;
    Ok(Answer::reasons(ReasonRows::new(placed, bases)))
}
