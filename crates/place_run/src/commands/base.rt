// The base ranks of the placement of three files.

ghost use Rattle.std.specs.Prelude.{◌≡◌, ◌≤◌, IfOk, Ok, length};
ghost use Rattle.command_words.specs.Words.{texts};
ghost use Rattle.command_words.specs.declared.words.Command.TheVariants as command;
ghost use Rattle.command_words.specs.declared.words.TheConstants.{MAX_WORKERS};
ghost use Rattle.programme_table.specs.Table.{codes_of};
ghost use Rattle.place_run.specs.Placings.{IsNamedPlacement};
ghost use Rattle.run_frame.specs.Files.{moment};
ghost use Rattle.run_frame.specs.Plans.{MayOpen};
ghost use Rattle.place_run.specs.Runs.{IsAnswering};
ghost use Rattle.place_run.specs.Says.{named, tables_plan};
ghost use Rattle.place_run.specs.commands.Base.{base_text as text_of_bases};

use crate::answer::Answer;
use crate::inputs::Inputs;
use crate::placing::Placed;
use crate::rank_fields::rank_field;
use crate::status::Stop;
use gate_workers::Gate;
use place_base::Finder;
use place_edges::Shelf;
use record_files::{Field, put_row_4};
use reports::base_ranks;
use std::alloc::{AllocError, Global};
use std::thread::Threads;

// The answer to `base`: its text, or why there is none.
pub(crate) fn base<R: Threads + Sync, H: Shelf, G: Gate>(
    rt: &R,
    alloc: Global,
    words: &[String],
    shelf: &mut H,
    workers: u32,
    gate: &G,
) -> Result<Answer, Stop>
    requires words { 4 ≤ length words.now }
    requires granted { MayOpen (H.files shelf.old) (H.grants shelf.old) (named (texts words.now))
        tables_plan }
    requires workers { (1 ≤ workers) × (workers ≤ MAX_WORKERS) }
    ensures answers { IsAnswering (H.files shelf.old) (texts words.now) (Ok (command.Base workers))
        result (moment H.faults H.tally shelf.old) (moment H.faults H.tally shelf.new) }
    ensures files { H.files shelf.new ≡ H.files shelf.old }
    ensures grants { H.grants shelf.new ≡ H.grants shelf.old }
{
    let inputs = Inputs::read(rt, alloc, words, shelf, workers)?;
    let placed = Placed::by(rt, alloc, inputs, workers, gate)?;
    let text = base_text(alloc, &placed)?;
    Ok(Answer::done(text))
}

// The text of the base ranks of a placement: a header, and a row for each programme.
fn base_text(alloc: Global, placed: &Placed) -> Result<Vec<u8>, AllocError>
    requires { IsNamedPlacement placed.now.problem placed.now.placement }
    ensures { IfOk result (λ text. text.items
        ≡ text_of_bases (codes_of placed.now.problem.programmes.rows) placed.now.problem.market
        placed.now.placement) }
{
    let problem = &placed.problem;
    let bases = base_ranks(alloc, &problem.market, &placed.placement)?;
    let mut bytes = Vec::new(alloc);
    put_row_4(
        &mut bytes,
        Field::Text(b"programme"),
        Field::Text(b"quota"),
        Field::Text(b"held"),
        Field::Text(b"base"),
    )?;
    for programme in 0..problem.market.programme_count() {
        put_row_4(
            &mut bytes,
            Field::Number(problem.programmes.number_at(programme)),
            Field::Number(u64::from(problem.market.programme(programme).quota)),
            Field::Number(u64::from(bases.held(programme))),
            rank_field(bases.base(programme)),
        )?;
    }
    Ok(bytes)
}
