// What all stable placements of three files share.

ghost use Rattle.std.specs.Prelude.{◌≡◌, ◌++◌, ◌<◌, ◌≤◌, ℕ, All, IfOk, Ok, length};
ghost use Rattle.std.specs.List.{flat_map, range_with_len};
ghost use Rattle.command_words.specs.Words.{texts};
ghost use Rattle.command_words.specs.declared.words.Command.TheVariants as command;
ghost use Rattle.command_words.specs.declared.words.TheConstants.{MAX_WORKERS};
ghost use Rattle.candidate_table.specs.Table.{numbers_of};
ghost use Rattle.programme_table.specs.Table.{codes_of};
ghost use Rattle.run_frame.specs.Files.{moment};
ghost use Rattle.run_frame.specs.Plans.{MayOpen};
ghost use Rattle.place_run.specs.Runs.{IsAnswering};
ghost use Rattle.place_run.specs.Says.{named, tables_plan};
ghost use Rattle.place_run.specs.commands.Fixed.{filled_row, fixed_text as text_of_fixed, unplaced_row};

use crate::answer::Answer;
use crate::inputs::Inputs;
use crate::placing::Placed;
use crate::problem::Problem;
use crate::status::Stop;
use candidate_table::CandidateNumbers;
use fixed_seats::{FixedReport, fixed_report};
use gate_workers::Gate;
use place_base::Finder;
use place_edges::Shelf;
use programme_table::ProgrammeTable;
use record_files::{Field, put_row_3};
use std::alloc::{AllocError, Global};
use std::thread::Threads;

// The answer to `fixed`: its text, or why there is none.
pub(crate) fn fixed<R: Threads + Sync, H: Shelf, G: Gate>(
    rt: &R,
    alloc: Global,
    words: &[String],
    shelf: &mut H,
    workers: u32,
    gate: &G,
) -> Result<Answer, Stop>
    requires words { 4 ≤ length words.now }
    requires granted { MayOpen (H.files shelf.old) (H.grants shelf.old) (named (texts words.now))
        tables_plan }
    requires workers { (1 ≤ workers) × (workers ≤ MAX_WORKERS) }
    ensures answers { IsAnswering (H.files shelf.old) (texts words.now) (Ok (command.Fixed workers))
        result (moment H.faults H.tally shelf.old) (moment H.faults H.tally shelf.new) }
    ensures files { H.files shelf.new ≡ H.files shelf.old }
    ensures grants { H.grants shelf.new ≡ H.grants shelf.old }
{
    let inputs = Inputs::read(rt, alloc, words, shelf, workers)?;
    let placed = Placed::by(rt, alloc, inputs, workers, gate)?;
    let report = fixed_report(alloc, &placed.problem.market, &placed.placement)?;
    let text = fixed_text(alloc, &placed.problem, &report)?;
    Ok(Answer::done(text))
}

// The text of a report: a header, and its rows.
fn fixed_text(alloc: Global, problem: &Problem, report: &FixedReport) -> Result<Vec<u8>, AllocError>
    requires candidates { All (λ i. i < length (numbers_of problem.now.numbers))
        report.now.unplaced }
    requires programmes { length report.now.held
        ≡ length (codes_of problem.now.programmes.rows) }
    ensures { IfOk result (λ text. text.items ≡ text_of_fixed
        (codes_of problem.now.programmes.rows) (numbers_of problem.now.numbers) report.now) }
{
    let mut bytes = Vec::new(alloc);
    put_row_3(
        &mut bytes,
        Field::Text(b"row"),
        Field::Text(b"number"),
        Field::Text(b"held"),
    )?;
    put_unplaced(&mut bytes, &problem.numbers, report.unplaced())?;
    put_filled(&mut bytes, &problem.programmes, report)?;
    Ok(bytes)
}

// Appends a row for each of these candidates.
fn put_unplaced(
    bytes: &mut Vec<u8>,
    numbers: &CandidateNumbers,
    unplaced: &[u32],
) -> Result<(), AllocError>
    requires { All (λ i. i < length (numbers_of numbers.now)) unplaced.now }
    ensures { IfOk result (λ _. bytes.new.items
        ≡ bytes.old.items ++ flat_map (unplaced_row (numbers_of numbers.now)) unplaced.now) }
{
    for candidate in unplaced {
        put_row_3(
            bytes,
            Field::Text(b"CANDIDATE"),
            Field::Number(numbers.number_at(*candidate)),
            Field::Number(0),
        )?;
    }
    Ok(())
}

// Appends a row for each programme.
fn put_filled(
    bytes: &mut Vec<u8>,
    programmes: &ProgrammeTable,
    report: &FixedReport,
) -> Result<(), AllocError>
    requires { length report.now.held ≡ length (codes_of programmes.now.rows) }
    ensures { IfOk result (λ _. bytes.new.items
        ≡ bytes.old.items ++ flat_map (filled_row (codes_of programmes.now.rows) report.now.held)
        (range_with_len 0 (length (codes_of programmes.now.rows)))) }
{
    for programme in 0..programmes.count() {
        put_row_3(
            bytes,
            Field::Text(b"PROGRAMME"),
            Field::Number(programmes.number_at(programme)),
            Field::Number(u64::from(report.held(programme))),
        )?;
    }
    Ok(())
}
