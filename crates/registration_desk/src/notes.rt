// The line of a status.

ghost use Rattle.std.specs.Prelude.{◌≡◌};
ghost use Rattle.place_edges.specs.Sink.{IsWritten};
ghost use Rattle.run_frame.specs.Lines.{IsNoted};
ghost use Rattle.registration_desk.specs.Statuses.{numbers_line, refusal_name as name_of, refusal_place as place_of, status_line};

use crate::report::DeskNumbers;
use crate::status::DeskStatus;
use crate::words::DeskWords;
use place_edges::{Failed, Sink, write_whole};
use record_files::Field;
use run_frame::{FileStop, write_fault, write_parts, write_stop, write_words};

// Writes the line of a status, as far as the sink takes it. Done has the line of these numbers.
pub(crate) fn note<N: Sink>(notes: &mut N, status: DeskStatus, numbers: DeskNumbers)
    ensures { IsNoted (status_line numbers status) (N.written notes.old) (N.written notes.new)
        (N.faults notes.old) (N.faults notes.new) }
{
    let _ = write_line(notes, status, numbers);
}

// Writes the line of a status.
fn write_line<N: Sink>(
    notes: &mut N,
    status: DeskStatus,
    numbers: DeskNumbers,
) -> Result<(), Failed>
    ensures { IsWritten (status_line numbers status) result
        (N.written notes.old) (N.written notes.new) (N.faults notes.old) (N.faults notes.new) }
{
    match status {
        DeskStatus::Done => write_numbers(notes, numbers),
        DeskStatus::Words(refused) => {
            write_words(notes, refusal_name(refused), refusal_place(refused))
        }
        DeskStatus::FileFault(fault) => write_fault(notes, fault),
        DeskStatus::ReadFault => write_stop(notes, FileStop::ReadFault),
        DeskStatus::WriteFault => write_whole(notes, b"write fault\n"),
        DeskStatus::Memory => write_stop(notes, FileStop::Memory),
    }
}

// Writes how many requests were answered in each way.
fn write_numbers<N: Sink>(notes: &mut N, numbers: DeskNumbers) -> Result<(), Failed>
    ensures { IsWritten (numbers_line numbers) result
        (N.written notes.old) (N.written notes.new) (N.faults notes.old) (N.faults notes.new) }
{
    write_parts(
        notes,
        &[
            Field::Text(b"registered "),
            Field::Number(u64::from(numbers.registered)),
            Field::Text(b" again "),
            Field::Number(u64::from(numbers.again)),
            Field::Text(b" notplaced "),
            Field::Number(u64::from(numbers.not_placed)),
            Field::Text(b" unknown "),
            Field::Number(u64::from(numbers.unknown)),
            Field::Text(b"\n"),
        ],
    )
}

// The name of a refusal in its line.
fn refusal_name(refused: DeskWords) -> &'static str
    ensures { result.now ≡ name_of refused }
{
    match refused {
        DeskWords::WordCount(_) => "WordCount",
        DeskWords::BadNumber(_) => "BadNumber",
    }
}

// The place of a refusal in its line.
fn refusal_place(refused: DeskWords) -> u32
    ensures { result ≡ place_of refused }
{
    match refused {
        DeskWords::WordCount(place) | DeskWords::BadNumber(place) => place,
    }
}
