// A file read whole, and a text written whole.

ghost use Rattle.std.specs.Prelude.{◌≡◌, ◌≤◌, IfOk, IsTrue, IsErrOf, vec_len};
ghost use Rattle.place_edges.specs.Causes.{Rose};
ghost use Rattle.place_edges.specs.Shelf.{HasBytes, HasMore, IsWithin, file_limit, tally_with};
ghost use Rattle.place_edges.specs.Sink.{IsWritten};
ghost use Rattle.place_edges.specs.Whole.{HasTally};

use crate::{Failed, Shelf, Sink};
use std::alloc::{AllocError, Global};

/// Why a file was not read.
#[derive(Clone, Copy, Debug, PartialEq, Eq)]
pub enum ReadStop {
    /// The shelf failed.
    Failed,
    /// The file has more than 2^30 bytes.
    TooLong,
    /// The memory for the bytes was refused.
    Memory,
}

impl From<Failed> for ReadStop {
    ghost use Rattle.place_edges.specs.declared.whole.ReadStop.TheVariants.{Failed};

    ghost from_gives = { λ _ stop. stop ≡ Failed };

    fn from(_: crate::Failed) -> ReadStop {
        ReadStop::Failed
    }
}

impl From<AllocError> for ReadStop {
    ghost use Rattle.place_edges.specs.declared.whole.ReadStop.TheVariants.{Memory};

    ghost from_gives = { λ _ stop. stop ≡ Memory };

    fn from(_: AllocError) -> ReadStop {
        ReadStop::Memory
    }
}

// The most bytes that a file may have.
const MOST_BYTES: usize = 1 << 30;

// How many bytes are taken at once.
const PIECE: usize = 1 << 16;

/// Reads the named file whole. After a refusal the next open starts anew.
pub fn read_whole<H: Shelf>(alloc: Global, shelf: &mut H, name: &str) -> Result<Vec<u8>, ReadStop>
    requires { IsTrue (H.grants shelf.old name.now) }

    // What is given is the file, and has at most 2^30 bytes.
    ensures bytes { IfOk result (λ bytes. HasBytes (H.files shelf.old) name.now bytes.items) }
    ensures few { IfOk result (λ bytes. vec_len bytes ≤ file_limit) }

    // The tally rises by what is given, and says where the file is too long.
    ensures given { IfOk result (λ bytes.
        H.tally shelf.new ≡ tally_with (H.tally shelf.old) (vec_len bytes)) }
    ensures tally { HasTally result (H.tally shelf.old) (H.tally shelf.new) }
    ensures long { IsErrOf result ReadStop.TooLong
        → HasMore (H.files shelf.old) name.now file_limit }

    // Whatever is answered, no more was taken than the file has.
    ensures within { IsWithin (H.files shelf.old) name.now (H.tally shelf.old) (H.tally shelf.new) }

    // A read fails only where the shelf failed, and no failure is passed over.
    ensures failed { IsErrOf result ReadStop.Failed
        → Rose (H.faults shelf.old) (H.faults shelf.new) }
    ensures quiet { IfOk result (λ _. H.faults shelf.new ≡ H.faults shelf.old) }
    ensures later { H.faults shelf.old ≤ H.faults shelf.new }

    // What is held and granted stays.
    ensures files { H.files shelf.new ≡ H.files shelf.old }
    ensures grants { H.grants shelf.new ≡ H.grants shelf.old }
{
    let mut bytes = Vec::new(alloc);
    let mut piece = [0u8; PIECE];
    shelf.open(name)?;
    'pieces: loop {
        let count = shelf.take(&mut piece)?;
        if count == 0 {
            return Ok(bytes);
        }
        if count > MOST_BYTES - bytes.len() {
            return Err(ReadStop::TooLong);
        }
        bytes.extend_from_slice(&piece[..count])?;
    }
}

/// Appends all the bytes. Where a put fails, those before it stay appended.
#[tactic(auto, using(crate::proofs::Pieces::appended_none, crate::proofs::Pieces::appended_more_slice))]
pub fn write_whole<K: Sink>(sink: &mut K, bytes: &[u8]) -> Result<(), Failed>
    ensures { IsWritten bytes.now result (K.written sink.old) (K.written sink.new)
        (K.faults sink.old) (K.faults sink.new) }
{
    let mut at = 0;
    'puts: while at < bytes.len() {
        at += sink.put(&bytes[at..])?;
    }
    Ok(())
}
