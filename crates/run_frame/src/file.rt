// A named file, read whole.
ghost use Rattle.std.specs.Prelude.{◌≡◌, IsTrue};
ghost use Rattle.run_frame.specs.Files.{IsReadWhole, moment};
ghost use Rattle.run_frame.specs.Stops.{too_long as too_long_in};

use crate::FileStop;
use place_base::{FaultKind, FileFault, FileKind};
use place_edges::{ReadStop, Shelf, read_whole};
use record_files::fault_at;
use std::alloc::Global;

/// Reads the named file whole. A file of more than 2^30 bytes has the fault that it is too long.
pub fn read_file<H: Shelf>(
    alloc: Global,
    shelf: &mut H,
    name: &str,
    kind: FileKind,
) -> Result<Vec<u8>, FileStop>
    requires { IsTrue (H.grants shelf.old name.now) }

    ensures reading { IsReadWhole (H.files shelf.old) name.now kind result
        (moment H.faults H.tally shelf.old) (moment H.faults H.tally shelf.new) }

    // What is held and granted stays.
    ensures files { H.files shelf.new ≡ H.files shelf.old }
    ensures grants { H.grants shelf.new ≡ H.grants shelf.old }
{
    match read_whole(alloc, shelf, name) {
        Ok(bytes) => Ok(bytes),
        Err(ReadStop::TooLong) => Err(FileStop::Fault(too_long(kind))),
        Err(ReadStop::Failed) => Err(FileStop::ReadFault),
        Err(ReadStop::Memory) => Err(FileStop::Memory),
    }
}

// The fault of a file of more than 2^30 bytes.
fn too_long(file: FileKind) -> FileFault
    ensures { result ≡ too_long_in file }
{
    fault_at(file, 0, 0, FaultKind::FileTooLong)
}
