// Why a file has no table, and why a run has no answer.
ghost use Rattle.std.specs.Prelude.{◌≡◌};
ghost use Rattle.run_frame.specs.Stops.{table_said};

use place_base::FileFault;
use place_edges::ReadStop;
use record_files::TableStop;
use std::alloc::AllocError;

/// Why a file has no table.
#[derive(Clone, Copy, Debug, PartialEq, Eq)]
pub enum FileStop {
    /// The file has this first fault.
    Fault(FileFault),
    /// The file could not be read.
    ReadFault,
    /// Memory was refused.
    Memory,
}

impl From<AllocError> for FileStop {
    ghost use Rattle.run_frame.specs.declared.stop.FileStop.TheVariants.{Memory};

    ghost from_gives = { λ _ stop. stop ≡ Memory };

    fn from(_: AllocError) -> FileStop {
        FileStop::Memory
    }
}

/// Why a run has no answer.
#[derive(Clone, Copy)]
pub enum Stop<W> {
    /// What is asked for is refused: the words, or what they ask of files that were read.
    Refused(W),
    /// A file has no table, or memory was refused.
    File(FileStop),
}

impl<W> From<FileStop> for Stop<W> {
    ghost use Rattle.run_frame.specs.declared.stop.Stop.TheVariants.{File};

    ghost from_gives = { λ unread stop. stop ≡ File unread };

    fn from(unread: FileStop) -> Stop<W> {
        Stop::File(unread)
    }
}

impl<W> From<AllocError> for Stop<W> {
    ghost use Rattle.run_frame.specs.declared.stop.FileStop.TheVariants.{Memory};
    ghost use Rattle.run_frame.specs.declared.stop.Stop.TheVariants.{File};

    ghost from_gives = { λ _ stop. stop ≡ File Memory };

    fn from(_: AllocError) -> Stop<W> {
        Stop::File(FileStop::Memory)
    }
}

/// What was read of a table, with its stop among the causes of a file.
pub fn table_or_stop<T>(read: Result<T, TableStop>) -> Result<T, FileStop>
    ensures { result ≡ table_said read }
{
    match read {
        Ok(table) => Ok(table),
        Err(TableStop::Fault(fault)) => Err(FileStop::Fault(fault)),
        Err(TableStop::Memory) => Err(FileStop::Memory),
    }
}
