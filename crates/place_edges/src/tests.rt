// What the edges do at each call, in tables.

ghost use Rattle.std.specs.Prelude.{IsTrue};

use crate::real::take_from;
use crate::{
    Failed, MemShelf, MemSink, ReadStop, RealShelf, RealSink, RepeatShelf, Shelf, Sink, SureShelf,
    SureSink, read_whole, write_whole,
};
use std::alloc::{AllocError, Global};
use std::fs;
use std::io::{self, ErrorKind, Read, Write};
use std::process::Abort;
use std::test::Fail;

// A shelf in memory that holds the bytes under the name.
fn shelf_with(alloc: Global, name: &str, bytes: &[u8]) -> Result<MemShelf, AllocError> {
    let mut shelf = MemShelf::new(alloc);
    shelf.add(String::from_str(alloc, name)?, bytes.to_vec(alloc)?)?;
    Ok(shelf)
}

// Whether the named file is read whole as these bytes.
fn is_read_as<H: Shelf>(
    alloc: Global,
    shelf: &mut H,
    name: &str,
    bytes: &[u8],
) -> Result<bool, Fail>
    requires { IsTrue (H.grants shelf.old name.now) }
{
    let read = read_whole(alloc, shelf, name).ok().ok_or("not read")?;
    Ok(read.as_slice() == bytes)
}

// How many bytes of the named file are read.
fn length_read(alloc: Global, shelf: &mut SureShelf, name: &str) -> Result<usize, Fail> {
    let read = read_whole(alloc, shelf, name).ok().ok_or("not read")?;
    Ok(read.len())
}

// The calls of a shelf of five bytes that fails at its third call.
fn check_told_failures(rt: &impl Abort, shelf: &mut MemShelf) {
    let mut into = [0u8; 4];
    assert_eq!(rt; shelf.open("b"), Err(Failed), "a name that is not held");
    assert_eq!(rt; shelf.open("a"), Ok(()));
    assert_eq!(rt; shelf.take(&mut into), Err(Failed), "the third call");
    assert_eq!(rt; shelf.open("a"), Ok(()));
    assert_eq!(rt; (shelf.take(&mut into), into), (Ok(4), *b"1234"));
    assert_eq!(rt;
        (shelf.take(&mut into), shelf.take(&mut into)),
        (Ok(1), Ok(0))
    );
    assert_eq!(rt; (shelf.calls(), shelf.faults()), (7, 2));
}

#[test]
fn a_shelf_fails_where_it_is_told_to(rt: HostRuntime) -> Result<(), Fail> {
    let mut shelf = shelf_with(rt.alloc(), "a", b"12345")?;
    shelf.fail_at(3)?;
    check_told_failures(&rt, &mut shelf);
    Ok(())
}

// Replaces a file once two of its three bytes are taken, and takes what is left of it.
fn check_replacing(rt: &impl Abort, alloc: Global, shelf: &mut MemShelf) -> Result<(), Fail> {
    let mut into = [0u8; 2];
    assert_eq!(rt; (shelf.open("a"), shelf.take(&mut into)), (Ok(()), Ok(2)));
    shelf.add(String::from_str(alloc, "a")?, b"new".to_vec(alloc)?)?;
    assert_eq!(rt; (shelf.take(&mut into), into), (Ok(1), *b"dl"));
    assert!(rt; is_read_as(alloc, shelf, "a", b"new")?);
    Ok(())
}

#[test]
fn a_file_that_is_replaced_is_read_to_its_end(rt: HostRuntime) -> Result<(), Fail> {
    let alloc = rt.alloc();
    let mut shelf = shelf_with(alloc, "a", b"old")?;
    check_replacing(&rt, alloc, &mut shelf)
}

// The puts of a sink that takes three bytes at once and five in all, and fails at its second put.
fn check_puts(rt: &impl Abort, sink: &mut MemSink) {
    let puts: [(&[u8], Result<usize, Failed>, &[u8]); 6] = [
        (b"abcd", Ok(3), b"abc"),
        (b"d", Err(Failed), b"abc"),
        (b"", Ok(0), b"abc"),
        (b"defg", Ok(2), b"abcde"),
        (b"f", Err(Failed), b"abcde"),
        (b"", Ok(0), b"abcde"),
    ];
    for (bytes, answer, held) in puts {
        assert_eq!(rt; (sink.put(bytes), sink.bytes()), (answer, held));
    }
    assert_eq!(rt; sink.faults(), 2);
}

#[test]
fn a_sink_takes_pieces_while_there_is_room(rt: HostRuntime) -> Result<(), Fail> {
    let mut sink = MemSink::new(rt.alloc(), 3, 5)?;
    sink.fail_at(2)?;
    check_puts(&rt, &mut sink);
    Ok(())
}

// Whole texts to a sink that takes two bytes at once and three in all.
fn check_whole_texts(rt: &impl Abort, sink: &mut MemSink) {
    assert_eq!(rt; write_whole(sink, b"abc"), Ok(()));
    assert_eq!(rt; write_whole(sink, b"d"), Err(Failed));
    assert_eq!(rt; sink.bytes(), b"abc".as_slice());
}

#[test]
fn a_text_is_written_whole_while_there_is_room(rt: HostRuntime) -> Result<(), Fail> {
    let mut sink = MemSink::new(rt.alloc(), 2, 3)?;
    check_whole_texts(&rt, &mut sink);
    Ok(())
}

// The bytes of a file of two pieces.
fn long_file(alloc: Global) -> Result<Vec<u8>, AllocError> {
    let mut bytes = vec![in alloc; 7u8; 70_000]?;
    bytes.push(8)?;
    Ok(bytes)
}

// Whether a shelf in memory gives a file of several pieces as it is, and in how many calls.
fn read_from_memory(alloc: Global) -> Result<(bool, u64), Fail> {
    let bytes = long_file(alloc)?;
    let mut shelf = shelf_with(alloc, "long", &bytes)?;
    let same = is_read_as(alloc, &mut shelf, "long", &bytes)?;
    Ok((same, shelf.calls()))
}

#[test]
fn a_file_of_several_pieces_is_read_whole(rt: HostRuntime) -> Result<(), Fail> {
    assert_eq!(rt; read_from_memory(rt.alloc())?, (true, 4));
    Ok(())
}

// How many bytes a shelf that never fails gives of a file of several pieces, and of one that was
// not added.
fn lengths_read(alloc: Global) -> Result<(usize, usize), Fail> {
    let mut shelf = SureShelf::new(alloc);
    shelf.add(String::from_str(alloc, "long")?, long_file(alloc)?)?;
    let long = length_read(alloc, &mut shelf, "long")?;
    let other = length_read(alloc, &mut shelf, "other")?;
    Ok((long, other))
}

#[test]
fn a_shelf_and_a_sink_that_never_fail(rt: HostRuntime) -> Result<(), Fail> {
    assert_eq!(rt; lengths_read(rt.alloc())?, (70_001, 0));
    assert_eq!(rt; SureSink::new().put(b"abc"), Ok(3));
    Ok(())
}

// Reads a byte that is repeated so many times: how many there are, and the last of them.
fn read_repeated(alloc: Global, length: u64) -> Result<(u64, Option<u8>), ReadStop> {
    let mut shelf = RepeatShelf::new(b'x', length);
    let read = read_whole(alloc, &mut shelf, "any")?;
    Ok((read.len() as u64, read.last().copied()))
}

#[test]
fn a_repeated_byte_is_read_up_to_the_most_bytes(rt: HostRuntime) -> Result<(), Fail> {
    let alloc = rt.alloc();
    for (length, last) in [(0, None), (70_001, Some(b'x')), (1 << 30, Some(b'x'))] {
        let read = read_repeated(alloc, length).ok().ok_or("not read")?;
        assert_eq!(rt; read, (length, last));
    }
    let longer = read_repeated(alloc, (1 << 30) + 1);
    assert_eq!(rt; longer.err(), Some(ReadStop::TooLong));
    Ok(())
}

#[test]
fn a_directory_and_a_missing_file_are_not_read(rt: HostRuntime) -> Result<(), Fail> {
    let alloc = rt.alloc();
    let mut shelf = RealShelf::new(rt);
    for name in ["/", "/no/such/file"] {
        let stop = read_whole(alloc, &mut shelf, name).err();
        assert_eq!(rt; stop, Some(ReadStop::Failed), "{name}");
    }
    let read = read_whole(alloc, &mut shelf, "/dev/null")
        .ok()
        .ok_or("not read")?;
    assert!(rt; read.is_empty());
    Ok(())
}

// A stream whose calls answer in turn: the first write and the first flush are interrupted, the
// next take two bytes, and from then on writes take nothing.
#[derive(Drop)]
struct Stream {
    writes: u8,
    flushes: u8,
}

impl Write for Stream {
    fn write(&mut self, bytes: &[u8]) -> io::Result<usize> {
        self.writes = self.writes.saturating_add(1);
        match self.writes {
            1 => Err(ErrorKind::Interrupted.into()),
            2 | 3 => Ok(bytes.len().min(2)),
            _ => Ok(0),
        }
    }

    fn flush(&mut self) -> io::Result<()> {
        self.flushes = self.flushes.saturating_add(1);
        match self.flushes {
            1 => Err(ErrorKind::Interrupted.into()),
            2 => Ok(()),
            _ => Err(ErrorKind::BrokenPipe.into()),
        }
    }
}

#[test]
fn an_interrupted_write_is_no_fault(rt: HostRuntime) {
    let mut sink = RealSink::new(Stream {
        writes: 0,
        flushes: 0,
    });
    for (answer, why) in [
        (
            Ok(2),
            "after one interrupted write and one interrupted flush",
        ),
        (Err(Failed), "the flush fails"),
        (Err(Failed), "the stream takes nothing"),
    ] {
        assert_eq!(rt; sink.put(b"abc"), answer, "{why}");
    }
    assert_eq!(rt; sink.put(b""), Ok(0));
}

// A stream whose reads answer in turn: the first is interrupted, the second gives a byte, and from
// then on they fail.
#[derive(Drop)]
struct Source {
    reads: u8,
}

impl Read for Source {
    fn read(&mut self, into: &mut [u8]) -> io::Result<usize> {
        self.reads = self.reads.saturating_add(1);
        match (self.reads, into.first_mut()) {
            (1, _) => Err(ErrorKind::Interrupted.into()),
            (2, Some(first)) => {
                *first = b'a';
                Ok(1)
            }
            _ => Err(ErrorKind::BrokenPipe.into()),
        }
    }
}

#[test]
fn a_read_that_fails_after_some_bytes_is_a_fault(rt: HostRuntime) {
    let mut source = Source { reads: 0 };
    let mut into = [0u8; 2];
    let (mut faults, mut tally) = (0, 0);
    let first = take_from(&mut source, &mut into, &mut faults, &mut tally);
    assert_eq!(rt; first, Ok(1), "after one interrupted read");
    assert_eq!(rt; (into[0], faults, tally), (b'a', 0, 1));
    let second = take_from(&mut source, &mut into, &mut faults, &mut tally);
    assert_eq!(rt; second, Err(Failed), "the read fails");
    assert_eq!(rt; (faults, tally), (1, 1));
}

#[test]
fn a_file_of_the_system_is_read_past_its_first_piece(rt: HostRuntime) -> Result<(), Fail> {
    let alloc = rt.alloc();
    let mut bytes = vec![in alloc; 7u8; 150_000]?;
    bytes.push(8)?;
    let name = "file_of_three_pieces.tmp";
    fs::write(&rt, name, &bytes)?;
    let read = read_whole(alloc, &mut RealShelf::new(rt), name).ok();
    fs::remove_file(&rt, name)?;
    let read = read.ok_or("not read")?;
    assert!(rt; read.as_slice() == bytes.as_slice());
    Ok(())
}
