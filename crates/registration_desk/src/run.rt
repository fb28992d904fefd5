// The run of the desk.

ghost use Rattle.std.specs.Prelude.{◌≡◌, ◌≤◌, Err, IsErrOf, Ok, length};
ghost use Rattle.place_edges.specs.Causes.{Rose};
ghost use Rattle.run_frame.specs.Files.{moment};
ghost use Rattle.run_frame.specs.Plans.{MayOpen};
ghost use Rattle.run_frame.specs.Runs.{HasStatusCause, IsConstant, IsFinished, IsQuiet, LeavesSink};
ghost use Rattle.run_frame.specs.Stops.{IsWordsStop};
ghost use Rattle.run_frame.specs.declared.stop.Stop.TheVariants.{Refused};
ghost use Rattle.registration_desk.specs.Runs.{IsAnswering, IsComplete, IsDeskRun, IsWordsRefusal, PrintsRegistered, endings};
ghost use Rattle.registration_desk.specs.Statuses.{status_of};
ghost use Rattle.registration_desk.specs.Says.{both_plan, named, numbers_said, plan};
ghost use Rattle.registration_desk.specs.Words.{clerks_of, texts};
ghost use Rattle.registration_desk.specs.declared.words.DeskWords.{DeskWords};

use crate::desk::MOST_CLERKS;
use crate::gate::DeskGate;
use crate::inputs::Inputs;
use crate::notes::note;
use crate::report::{DeskNumbers, Report, report_all};
use crate::status::{DeskStatus, Stop};
use crate::words::read_words;
use place_edges::{Shelf, Sink, write_whole};
use std::alloc::Global;
use std::sync::Wait;
use std::thread::Threads;

/// Does what the words say: reads the placement and the requests from the shelf, lets the clerks
/// answer every request, writes the text to `out` and the status's line to `notes`.
///
/// The words are refused first, before a file is opened. Then the files are opened, read whole and
/// judged one after the other: a read fault of a file comes first, then that it has more than 2^30
/// bytes, then its first fault. All memory is taken before the first byte is written to `out`. So
/// after each refusal `out` is as it was; only a write fault leaves a part of the text there. A
/// fault of `notes` changes neither the status nor `out`, which is tested.
///
/// What is written does not depend on how many clerks there are, on which of them serves which
/// request, or on the gate. The run returns only if the clerks let the desk go.
pub fn run_desk<R: Threads + Wait + Sync, H: Shelf, K: Sink, N: Sink, G: DeskGate>(
    rt: &R,
    alloc: Global,
    words: &[String],
    shelf: &mut H,
    out: &mut K,
    notes: &mut N,
    gate: &G,
) -> DeskStatus
    // Each of the two files may be opened where the one before it has no fault.
    requires { MayOpen (H.files shelf.old) (H.grants shelf.old) (named (texts words.now))
        (plan (clerks_of (texts words.now))) }

    // Over the bytes that were read, which are those held where the shelf tells them, the status,
    // the text and the line are those of the words. Where the run ends neither in want of memory
    // nor in a read fault, each file up to the one that decides was read once; of one that is too
    // long at most one piece more than 2^30 bytes was taken.
    ensures run { IsDeskRun K.written K.faults N.written N.faults (H.files shelf.old)
        (texts words.now) result out.old out.new notes.old notes.new
        (moment H.faults H.tally shelf.old) (moment H.faults H.tally shelf.new) }

    // Where the run is done, each of the two files was read once, and neither has a fault. The text
    // has a row for each placed candidate whom a request names, and the line has the numbers of the
    // requests.
    ensures registered { PrintsRegistered (H.files shelf.old) (texts words.now) result
        (K.written out.old) (K.written out.new) (N.written notes.old) (N.written notes.new)
        (N.faults notes.old) (N.faults notes.new) (H.tally shelf.old) (H.tally shelf.new) }

    // After a refusal `out` is as it was.
    ensures sink { LeavesSink status_of K.written K.faults result out.old out.new }

    // Each refusal has its cause, and where the run ends with its text no failed read or write was
    // passed over, whether or not the shelf and the sinks tell their bytes.
    ensures causes { HasStatusCause (λ (refused : DeskWords). refused) endings
        (clerks_of (texts words.now)) result
        (moment H.faults H.tally shelf.old) (moment H.faults H.tally shelf.new)
        (K.faults out.old) (K.faults out.new) }
    ensures quiet { IsQuiet endings result
        (moment H.faults H.tally shelf.old) (moment H.faults H.tally shelf.new)
        (K.faults out.old) (K.faults out.new) }

    // Where no read and no write failed, all that is said is done and each file up to the one that
    // decides was read once, or memory was refused. So files without a fault are served; and over a
    // shelf and a sink that never fail it is always so.
    ensures complete { ¬ Rose (H.faults shelf.old) (H.faults shelf.new)
        → ¬ Rose (K.faults out.old) (K.faults out.new) → IsComplete (H.files shelf.old)
        (texts words.now) result (K.written out.old) (K.written out.new)
        (moment H.faults H.tally shelf.old) (moment H.faults H.tally shelf.new) }
    ensures sure { IsConstant H.faults → IsConstant K.faults → IsComplete (H.files shelf.old)
        (texts words.now) result (K.written out.old) (K.written out.new)
        (moment H.faults H.tally shelf.old) (moment H.faults H.tally shelf.new) }

    // What is held and granted stays. Where the words are refused, no file is opened.
    ensures files { H.files shelf.new ≡ H.files shelf.old }
    ensures grants { H.grants shelf.new ≡ H.grants shelf.old }
    ensures unopened { IsWordsRefusal result → shelf.new ≡ shelf.old }
{
    let answer = answer_words(rt, alloc, words, shelf, gate);
    let numbers = numbers_in(&answer);
    let status = finish(answer, out);
    note(notes, status, numbers);
    status
}

// The report that the words ask for: it is ready before its first byte is written.
fn answer_words<R: Threads + Wait + Sync, H: Shelf, G: DeskGate>(
    rt: &R,
    alloc: Global,
    words: &[String],
    shelf: &mut H,
    gate: &G,
) -> Result<Report, Stop>
    requires { MayOpen (H.files shelf.old) (H.grants shelf.old) (named (texts words.now))
        (plan (clerks_of (texts words.now))) }
    ensures answers { IsAnswering (H.files shelf.old) (texts words.now)
        (clerks_of (texts words.now)) result
        (moment H.faults H.tally shelf.old) (moment H.faults H.tally shelf.new) }
    ensures refused { (refused : DeskWords) → clerks_of (texts words.now) ≡ Err refused
        → IsErrOf result (Refused refused) }
    ensures unopened { IsWordsStop (λ (refused : DeskWords). refused) result
        → shelf.new ≡ shelf.old }
    ensures files { H.files shelf.new ≡ H.files shelf.old }
    ensures grants { H.grants shelf.new ≡ H.grants shelf.old }
{
    match read_words(words) {
        Ok(clerks) => serve_files(rt, alloc, words, shelf, clerks, gate),
        Err(refused) => Err(Stop::Refused(refused)),
    }
}

// The report of so many clerks on the files that the words name.
fn serve_files<R: Threads + Wait + Sync, H: Shelf, G: DeskGate>(
    rt: &R,
    alloc: Global,
    words: &[String],
    shelf: &mut H,
    clerks: u32,
    gate: &G,
) -> Result<Report, Stop>
    requires words { 2 ≤ length words.now }
    requires granted { MayOpen (H.files shelf.old) (H.grants shelf.old) (named (texts words.now))
        both_plan }
    requires clerks { (1 ≤ clerks) × (clerks ≤ MOST_CLERKS) }
    ensures answers { IsAnswering (H.files shelf.old) (texts words.now) (Ok clerks) result
        (moment H.faults H.tally shelf.old) (moment H.faults H.tally shelf.new) }
    ensures files { H.files shelf.new ≡ H.files shelf.old }
    ensures grants { H.grants shelf.new ≡ H.grants shelf.old }
{
    let inputs = Inputs::read(alloc, words, shelf)?;
    let (placement, requests) = inputs.into_parts();
    let report = report_all(rt, alloc, placement, requests, clerks, gate)?;
    Ok(report)
}

// The numbers of a report, which nobody reads where there is none.
fn numbers_in(answer: &Result<Report, Stop>) -> DeskNumbers
    ensures { result ≡ numbers_said answer.now }
{
    match answer {
        Ok(report) => report.numbers(),
        Err(_) => DeskNumbers::none(),
    }
}

// Writes the text, if there is one.
fn finish<K: Sink>(answer: Result<Report, Stop>, out: &mut K) -> DeskStatus
    ensures finished { IsFinished endings K.written K.faults answer result out.old out.new }
    ensures later { K.faults out.old ≤ K.faults out.new }
{
    let report = match answer {
        Ok(report) => report,
        Err(stop) => return DeskStatus::of_stop(stop),
    };
    match write_whole(out, report.text()) {
        Ok(()) => DeskStatus::Done,
        Err(_) => DeskStatus::WriteFault,
    }
}
