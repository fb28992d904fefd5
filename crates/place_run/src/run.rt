// The top call.
ghost use Rattle.std.specs.Prelude.{◌≡◌, ◌≤◌};
ghost use Rattle.command_words.specs.Words.{command_of, texts};
ghost use Rattle.place_edges.specs.Causes.{Rose};
ghost use Rattle.run_frame.specs.Files.{moment};
ghost use Rattle.run_frame.specs.Lines.{IsNoted};
ghost use Rattle.run_frame.specs.Plans.{MayOpen};
ghost use Rattle.run_frame.specs.Runs.{IsConstant, IsFinished, IsQuiet};
ghost use Rattle.place_run.specs.Runs.{HasStatusCause, IsComplete, IsAnsweredRun, IsWordsRefusal, LeavesSink, HasNoLine, PrintsReports, PrintsSecond, PrintsSummary, PrintsSweep, PrintsVerdict, PrintsWorstStable, RunsWithoutFile, endings};
ghost use Rattle.place_run.specs.Says.{named, plan};
ghost use Rattle.place_run.specs.Statuses.{status_line};

use crate::answer::Answer;
use crate::commands::answer_words;
use crate::notes::note;
use crate::status::{Status, Stop};
use gate_workers::Gate;
use place_edges::{Shelf, Sink};
use std::alloc::Global;
use std::thread::Threads;

/// Does what the words say: reads the files from the shelf, writes the text to `out` and the
/// status's line to `notes`.
///
/// The words are refused first, before a file is opened. Then the files are opened, read whole and
/// judged one after the other: a read fault of a file comes first, then that it has more than 2^30
/// bytes, then its first fault. Behind them comes that no programme has the code of a sweep. All
/// memory is taken before the first byte is written to `out`. So after each refusal `out` is as it
/// was; only a write fault leaves a part of the text there. A fault of `notes` changes neither the
/// status nor `out`, which is tested.
///
/// The rounds are written to run on as many workers as the words say, who pass the gate; what is
/// written does not depend on them.
pub fn run_words<R: Threads + Sync, H: Shelf, K: Sink, N: Sink, G: Gate>(
    rt: &R,
    alloc: Global,
    words: &[String],
    shelf: &mut H,
    out: &mut K,
    notes: &mut N,
    gate: &G,
) -> Status
    // Each file of the command may be opened where those before it have no fault.
    requires { MayOpen (H.files shelf.old) (H.grants shelf.old) (named (texts words.now))
        (plan (command_of (texts words.now))) }

    // There are bytes, those held where the shelf tells them, over which the status, the text and
    // its promise are those of the plan of the words, and each file of the plan is read once.
    ensures run { IsAnsweredRun K.written K.faults (H.files shelf.old) (texts words.now) result
        out.old out.new (moment H.faults H.tally shelf.old) (moment H.faults H.tally shelf.new) }

    // What each command prints is the mechanism's placement in the market of the files that were
    // read, or is told of it: it is stable there, and in every stable placement there each
    // candidate holds the printed programme or one listed higher. A verdict is the first one on the
    // placement that is audited, and the status is Done exactly where that one is stable. The rows of
    // a sweep are those of the programme with the code, and from each row to a later one no candidate
    // holds less; there is no programme exactly where none has the code in files without a fault. A
    // second placement is so printed behind a stable first one, in the market of the seats left:
    // beside the seats that are kept no quota is exceeded, and nobody gets a second programme.
    ensures worst { PrintsWorstStable (H.files shelf.old) (texts words.now) result
        (K.written out.old) (K.written out.new) (H.tally shelf.old) (H.tally shelf.new) }
    ensures reports { PrintsReports (H.files shelf.old) (texts words.now) result
        (K.written out.old) (K.written out.new) (H.tally shelf.old) (H.tally shelf.new) }
    ensures verdict { PrintsVerdict (H.files shelf.old) (texts words.now) result
        (K.written out.old) (K.written out.new) (H.tally shelf.old) (H.tally shelf.new) }
    ensures sweep { PrintsSweep (H.files shelf.old) (texts words.now) result
        (K.written out.old) (K.written out.new) (H.tally shelf.old) (H.tally shelf.new) }
    ensures second { PrintsSecond (H.files shelf.old) (texts words.now) result
        (K.written out.old) (K.written out.new) (H.tally shelf.old) (H.tally shelf.new) }
    ensures summary { PrintsSummary (texts words.now) result
        (K.written out.old) (K.written out.new) }

    // After a refusal `out` is as it was. The line is the status's; Done and AuditNo have none.
    ensures sink { LeavesSink K.written K.faults result out.old out.new }
    ensures line { IsNoted (status_line result) (N.written notes.old) (N.written notes.new)
        (N.faults notes.old) (N.faults notes.new) }
    ensures unnoted { HasNoLine result → notes.new ≡ notes.old }

    // Each refusal has its cause, and where the run ends with its text no failed read or write was
    // passed over, whether or not the shelf and the sinks tell their bytes.
    ensures causes { HasStatusCause (command_of (texts words.now)) result
        (moment H.faults H.tally shelf.old) (moment H.faults H.tally shelf.new)
        (K.faults out.old) (K.faults out.new) }
    ensures quiet { IsQuiet endings result
        (moment H.faults H.tally shelf.old) (moment H.faults H.tally shelf.new)
        (K.faults out.old) (K.faults out.new) }

    // Where no read and no write failed, all that is said is done, or memory was refused: so files
    // without a fault are placed. Over a shelf and a sink that never fail it is always so.
    ensures complete { ¬ Rose (H.faults shelf.old) (H.faults shelf.new)
        → ¬ Rose (K.faults out.old) (K.faults out.new) → IsComplete (H.files shelf.old)
        (texts words.now) result (K.written out.old) (K.written out.new)
        (moment H.faults H.tally shelf.old) (moment H.faults H.tally shelf.new) }
    ensures sure { IsConstant H.faults → IsConstant K.faults → IsComplete (H.files shelf.old)
        (texts words.now) result (K.written out.old) (K.written out.new)
        (moment H.faults H.tally shelf.old) (moment H.faults H.tally shelf.new) }

    // What is held and granted stays. Where the words are refused, or ask for a made market, no
    // file is opened and no read fails.
    ensures files { H.files shelf.new ≡ H.files shelf.old }
    ensures grants { H.grants shelf.new ≡ H.grants shelf.old }
    ensures unopened { IsWordsRefusal result → shelf.new ≡ shelf.old }
    ensures unread { RunsWithoutFile (command_of (texts words.now)) result shelf.old shelf.new }
{
    let answer = answer_words(rt, alloc, words, shelf, gate);
    let status = finish(answer, out);
    note(notes, status);
    status
}

// Writes the text, if there is one.
fn finish<K: Sink>(answer: Result<Answer, Stop>, out: &mut K) -> Status
    ensures finished { IsFinished endings K.written K.faults answer result out.old out.new }
    ensures later { K.faults out.old ≤ K.faults out.new }
{
    let answer = match answer {
        Ok(answer) => answer,
        Err(stop) => return Status::of_stop(stop),
    };
    match answer.write(out) {
        Ok(()) => answer.ending().status(),
        Err(_) => Status::WriteFault,
    }
}
