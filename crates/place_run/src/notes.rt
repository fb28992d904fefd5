// The line of a status.
ghost use Rattle.std.specs.Prelude.{◌≡◌};
ghost use Rattle.place_edges.specs.Sink.{IsWritten};
ghost use Rattle.run_frame.specs.Lines.{IsNoted};
ghost use Rattle.place_run.specs.Runs.{HasNoLine};
ghost use Rattle.place_run.specs.Statuses.{no_programme_line, status_line, refusal_name as name_of, refusal_place as place_of};

use crate::Status;
use command_words::WordsFault;
use place_edges::{Failed, Sink, write_whole};
use record_files::Field;
use run_frame::{FileStop, write_fault, write_parts, write_stop, write_words};

// Writes the line of a status, as far as the sink takes it.
pub(crate) fn note<N: Sink>(notes: &mut N, status: Status)
    ensures line { IsNoted (status_line status) (N.written notes.old) (N.written notes.new)
        (N.faults notes.old) (N.faults notes.new) }
    ensures unnoted { HasNoLine status → notes.new ≡ notes.old }
{
    let _ = write_line(notes, status);
}

// Writes the line of a status; a run that ends with its text has none.
fn write_line<N: Sink>(notes: &mut N, status: Status) -> Result<(), Failed>
    ensures line { IsWritten (status_line status) result
        (N.written notes.old) (N.written notes.new) (N.faults notes.old) (N.faults notes.new) }
    ensures unnoted { HasNoLine status → notes.new ≡ notes.old }
{
    match status {
        Status::Done | Status::AuditNo => Ok(()),
        Status::Words(refused) => {
            write_words(notes, refusal_name(refused), refusal_place(refused))
        }
        Status::FileFault(fault) => write_fault(notes, fault),
        Status::ReadFault => write_stop(notes, FileStop::ReadFault),
        Status::WriteFault => write_whole(notes, b"write fault\n"),
        Status::Memory => write_stop(notes, FileStop::Memory),
        Status::NoProgramme(code) => write_no_programme(notes, code),
    }
}

// Writes that no programme has this code.
fn write_no_programme<N: Sink>(notes: &mut N, code: u32) -> Result<(), Failed>
    ensures { IsWritten (no_programme_line code) result
        (N.written notes.old) (N.written notes.new) (N.faults notes.old) (N.faults notes.new) }
{
    write_parts(
        notes,
        &[
            Field::Text(b"no programme "),
            Field::Number(u64::from(code)),
            Field::Text(b"\n"),
        ],
    )
}

// The name of a refusal in its line.
fn refusal_name(refused: WordsFault) -> &'static str
    ensures { result.now ≡ name_of refused }
{
    match refused {
        WordsFault::NoCommand => "NoCommand",
        WordsFault::UnknownCommand(_) => "UnknownCommand",
        WordsFault::WordCount(_) => "WordCount",
        WordsFault::BadNumber(_) => "BadNumber",
    }
}

// The place of a refusal in its line, 0 where it has none.
fn refusal_place(refused: WordsFault) -> u32
    ensures { result ≡ place_of refused }
{
    match refused {
        WordsFault::NoCommand => 0,
        WordsFault::UnknownCommand(place)
        | WordsFault::WordCount(place)
        | WordsFault::BadNumber(place) => place,
    }
}
