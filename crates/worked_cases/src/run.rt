// The top calls over the files of a case.
use crate::case::Held;
use gate_workers::OpenGate;
use place_edges::{MemShelf, MemSink};
use place_run::run_words;
use registration_desk::{OpenDesk, run_desk};
use std::alloc::{AllocError, Global};
use std::sync::Wait;
use std::thread::Threads;

/// What a run came to.
#[derive(Drop)]
pub(crate) struct Ran {
    pub(crate) status: u8,
    pub(crate) calls: u64,
    pub(crate) faults: u64,
    pub(crate) out: MemSink,
    pub(crate) notes: MemSink,
}

// How many bytes a sink takes at once, and for how many it has room at the opening.
const PIECE: usize = 16;

const ROOM: usize = 65_536;

/// The programs, by the first word.
#[derive(Clone, Copy, PartialEq, Eq)]
pub(crate) enum Program {
    Place,
    Desk,
}

impl Program {
    /// The program of this name.
    pub(crate) fn named(name: &str) -> Option<Program> {
        match name {
            "place" => Some(Program::Place),
            "place-desk" => Some(Program::Desk),
            _ => None,
        }
    }

    /// The word behind which its number of workers stands.
    pub(crate) fn word_of_workers(self) -> &'static str {
        match self {
            Program::Place => "--workers",
            Program::Desk => "--clerks",
        }
    }

    /// Runs these words over a shelf with these files.
    pub(crate) fn run(
        self,
        rt: &(impl Threads + Wait + Sync),
        alloc: Global,
        words: &[String],
        files: &[Held],
    ) -> Result<Ran, AllocError> {
        let mut shelf = shelf_of(alloc, files)?;
        let mut out = MemSink::new(alloc, PIECE, ROOM)?;
        let mut notes = MemSink::new(alloc, PIECE, ROOM)?;
        let status = match self {
            Program::Place => run_words(
                rt, alloc, words, &mut shelf, &mut out, &mut notes, &OpenGate,
            )
            .code(),
            Program::Desk => run_desk(
                rt, alloc, words, &mut shelf, &mut out, &mut notes, &OpenDesk,
            )
            .code(),
        };
        Ok(Ran {
            status,
            calls: shelf.calls(),
            faults: shelf.faults(),
            out,
            notes,
        })
    }
}

// A shelf with copies of these files.
fn shelf_of(alloc: Global, files: &[Held]) -> Result<MemShelf, AllocError> {
    let mut shelf = MemShelf::new(alloc);
    for file in files {
        shelf.add(file.name.clone()?, file.bytes.clone()?)?;
    }
    Ok(shelf)
}
