// Lines of notes. A line takes no memory.
ghost use Rattle.std.specs.Prelude.{◌≡◌};
ghost use Rattle.std.specs.List.{flat_map};
ghost use Rattle.place_edges.specs.Sink.{IsWritten};
ghost use Rattle.record_files.specs.Texts.{text_of};
ghost use Rattle.run_frame.specs.Lines.{fault_line, stop_line, words_line};

use crate::FileStop;
use itoa::Buffer;
use place_base::FileFault;
use place_edges::{Failed, Sink, write_whole};
use record_files::Field;

/// Writes why words are refused: the name of the refusal, and the place of the word, counted from 1
/// and 0 where there is none.
pub fn write_words<N: Sink>(notes: &mut N, name: &str, place: u32) -> Result<(), Failed>
    ensures { IsWritten (words_line name.now place) result
        (N.written notes.old) (N.written notes.new) (N.faults notes.old) (N.faults notes.new) }
{
    write_parts(
        notes,
        &[
            Field::Text(b"words "),
            Field::Text(name.as_bytes()),
            Field::Text(b" "),
            Field::Number(u64::from(place)),
            Field::Text(b"\n"),
        ],
    )
}

/// Writes why a file has no table.
pub fn write_stop<N: Sink>(notes: &mut N, stop: FileStop) -> Result<(), Failed>
    ensures { IsWritten (stop_line stop) result (N.written notes.old) (N.written notes.new)
        (N.faults notes.old) (N.faults notes.new) }
{
    match stop {
        FileStop::Fault(fault) => write_fault(notes, fault),
        FileStop::ReadFault => write_whole(notes, b"read fault\n"),
        FileStop::Memory => write_whole(notes, b"want of memory\n"),
    }
}

/// Writes the first fault of a file.
pub fn write_fault<N: Sink>(notes: &mut N, fault: FileFault) -> Result<(), Failed>
    ensures { IsWritten (fault_line fault) result (N.written notes.old) (N.written notes.new)
        (N.faults notes.old) (N.faults notes.new) }
{
    let number = fault.kind.number();
    write_parts(
        notes,
        &[
            Field::Text(b"fault "),
            Field::Text(fault.file.name().as_bytes()),
            Field::Text(b" line "),
            Field::Number(u64::from(fault.line)),
            Field::Text(b" field "),
            Field::Number(u64::from(fault.field)),
            Field::Text(b" F"),
            Field::Number(u64::from(number / 10)),
            Field::Number(u64::from(number % 10)),
            Field::Text(b" "),
            Field::Text(fault.kind.name().as_bytes()),
            Field::Text(b" earlier "),
            Field::Number(u64::from(fault.earlier)),
            Field::Text(b"\n"),
        ],
    )
}

/// Writes the parts one behind the other, as far as the sink takes them.
pub fn write_parts<N: Sink>(notes: &mut N, parts: &[Field<'_>]) -> Result<(), Failed>
    ensures { IsWritten (flat_map text_of parts.now) result
        (N.written notes.old) (N.written notes.new) (N.faults notes.old) (N.faults notes.new) }
{
    for part in parts {
        write_part(notes, *part)?;
    }
    Ok(())
}

// Writes one part.
fn write_part<N: Sink>(notes: &mut N, part: Field<'_>) -> Result<(), Failed>
    ensures { IsWritten (text_of part.entry) result
        (N.written notes.old) (N.written notes.new) (N.faults notes.old) (N.faults notes.new) }
{
    let mut buffer = Buffer::new();
    let text = match part {
        Field::Number(number) => buffer.format(number).as_bytes(),
        Field::Text(bytes) => bytes,
    };
    write_whole(notes, text)
}
