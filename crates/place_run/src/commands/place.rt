// The placement of three files.

ghost use Rattle.std.specs.Prelude.{◌≡◌, ◌≤◌, IfOk, Ok, length};
ghost use Rattle.command_words.specs.Words.{texts};
ghost use Rattle.command_words.specs.declared.words.Command.TheVariants as command;
ghost use Rattle.command_words.specs.declared.words.TheConstants.{MAX_WORKERS};
ghost use Rattle.candidate_table.specs.Table.{numbers_of};
ghost use Rattle.placement_file.specs.Texts.{placement_text as text_of_placement};
ghost use Rattle.programme_table.specs.Table.{codes_of};
ghost use Rattle.place_run.specs.Placings.{IsNamedPlacement};
ghost use Rattle.run_frame.specs.Files.{moment};
ghost use Rattle.run_frame.specs.Plans.{MayOpen};
ghost use Rattle.place_run.specs.Runs.{IsAnswering};
ghost use Rattle.place_run.specs.Says.{named, tables_plan};

use crate::answer::Answer;
use crate::inputs::Inputs;
use crate::placing::Placed;
use crate::status::Stop;
use gate_workers::Gate;
use place_edges::Shelf;
use placement_file::placement_text;
use std::alloc::{AllocError, Global};
use std::thread::Threads;

// The answer to `place`: its text, or why there is none.
pub(crate) fn place<R: Threads + Sync, H: Shelf, G: Gate>(
    rt: &R,
    alloc: Global,
    words: &[String],
    shelf: &mut H,
    workers: u32,
    gate: &G,
) -> Result<Answer, Stop>
    requires words { 4 ≤ length words.now }
    requires granted { MayOpen (H.files shelf.old) (H.grants shelf.old) (named (texts words.now))
        tables_plan }
    requires workers { (1 ≤ workers) × (workers ≤ MAX_WORKERS) }
    ensures answers { IsAnswering (H.files shelf.old) (texts words.now) (Ok (command.Place workers))
        result (moment H.faults H.tally shelf.old) (moment H.faults H.tally shelf.new) }
    ensures files { H.files shelf.new ≡ H.files shelf.old }
    ensures grants { H.grants shelf.new ≡ H.grants shelf.old }
{
    let inputs = Inputs::read(rt, alloc, words, shelf, workers)?;
    let placed = Placed::by(rt, alloc, inputs, workers, gate)?;
    let text = placed_text(alloc, &placed)?;
    Ok(Answer::done(text))
}

// The text of a placement.
fn placed_text(alloc: Global, placed: &Placed) -> Result<Vec<u8>, AllocError>
    requires { IsNamedPlacement placed.now.problem placed.now.placement }
    ensures { IfOk result (λ text. text.items
        ≡ text_of_placement (codes_of placed.now.problem.programmes.rows)
        (numbers_of placed.now.problem.numbers) placed.now.placement) }
{
    let problem = &placed.problem;
    let held = placed.placement.held();
    placement_text(alloc, held, &problem.programmes, &problem.numbers)
}
