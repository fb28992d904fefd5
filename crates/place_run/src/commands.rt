// What each command does: an arm a command.
ghost use Rattle.std.specs.Prelude.{◌≡◌, Err, IsErrOf};
ghost use Rattle.command_words.specs.declared.words.WordsFault.{WordsFault};
ghost use Rattle.command_words.specs.Words.{command_of, texts};
ghost use Rattle.run_frame.specs.Files.{moment};
ghost use Rattle.run_frame.specs.Plans.{MayOpen};
ghost use Rattle.run_frame.specs.Stops.{IsWordsStop};
ghost use Rattle.run_frame.specs.declared.stop.Stop.TheVariants.{Refused};
ghost use Rattle.place_run.specs.Runs.{IsAnswering, ReadsNothing};
ghost use Rattle.place_run.specs.Says.{named, plan};
ghost use Rattle.place_run.specs.declared.status.Refusal.TheVariants.{Words};

// The audit of a placement file beside three files.
mod audit;
// The base ranks of the placement of three files.
mod base;
// What all stable placements of three files share.
mod fixed;
// The summary of a market that is made from numbers.
mod make;
// The placement of three files.
mod place;
// The reasons in the placement of three files.
mod reasons;
// The second placement, of the seats that registered candidates leave.
mod second;
// One programme's quota varied.
mod sweep;

use self::audit::audit;
use self::base::base;
use self::fixed::fixed;
use self::make::make;
use self::place::place;
use self::reasons::reasons;
use self::second::second;
use self::sweep::sweep;
use crate::answer::Answer;
use crate::status::{Refusal, Stop};
use command_words::{Command, read_words};
use gate_workers::Gate;
use place_edges::Shelf;
use std::alloc::Global;
use std::thread::Threads;

// The answer to the words: what their command has ready before its first byte is written.
pub(crate) fn answer_words<R: Threads + Sync, H: Shelf, G: Gate>(
    rt: &R,
    alloc: Global,
    words: &[String],
    shelf: &mut H,
    gate: &G,
) -> Result<Answer, Stop>
    requires { MayOpen (H.files shelf.old) (H.grants shelf.old) (named (texts words.now))
        (plan (command_of (texts words.now))) }
    ensures answers { IsAnswering (H.files shelf.old) (texts words.now)
        (command_of (texts words.now)) result
        (moment H.faults H.tally shelf.old) (moment H.faults H.tally shelf.new) }
    ensures refused { (refused : WordsFault) → command_of (texts words.now) ≡ Err refused
        → IsErrOf result (Refused (Words refused)) }
    ensures unopened { IsWordsStop Words result → shelf.new ≡ shelf.old }
    ensures unread { ReadsNothing (command_of (texts words.now)) result shelf.old shelf.new }
    ensures files { H.files shelf.new ≡ H.files shelf.old }
    ensures grants { H.grants shelf.new ≡ H.grants shelf.old }
{
    match read_words(words) {
        Ok(Command::Place(workers)) => place(rt, alloc, words, shelf, workers, gate),
        Ok(Command::Base(workers)) => base(rt, alloc, words, shelf, workers, gate),
        Ok(Command::Reasons(workers)) => reasons(rt, alloc, words, shelf, workers, gate),
        Ok(Command::Audit(workers)) => audit(rt, alloc, words, shelf, workers),
        Ok(Command::Fixed(workers)) => fixed(rt, alloc, words, shelf, workers, gate),
        Ok(
            Command::Sweep {
                code,
                low,
                high,
                workers,
            },
        ) => sweep(rt, alloc, words, shelf, code, low, high, workers),
        Ok(Command::Second(workers)) => second(rt, alloc, words, shelf, workers, gate),
        Ok(
            Command::Make {
                seed,
                candidates,
                programmes,
                types,
                workers,
            },
        ) => make(
            rt, alloc, seed, candidates, programmes, types, workers, gate,
        ),
        Err(refused) => Err(Stop::Refused(Refusal::Words(refused))),
    }
}
