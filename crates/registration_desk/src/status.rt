// How a run of the desk ends.

ghost use Rattle.std.specs.Prelude.{◌≡◌};
ghost use Rattle.registration_desk.specs.Statuses.{status_code, status_of};

use crate::words::DeskWords;
use place_base::FileFault;
use run_frame::FileStop;

/// How a run of the desk ended.
#[derive(Clone, Copy, Debug, PartialEq, Eq)]
pub enum DeskStatus {
    /// Every request was answered, and the text was written whole.
    Done,
    /// The words are refused.
    Words(DeskWords),
    /// The first of the files that has a fault has this first fault.
    FileFault(FileFault),
    /// A file could not be read.
    ReadFault,
    /// The text could not be written; its front may have been.
    WriteFault,
    /// Memory was refused. Nothing of the text was written.
    Memory,
}

impl DeskStatus {
    /// The number that the process ends with.
    pub fn code(&self) -> u8
        ensures { result ≡ status_code self.now }
    {
        match *self {
            DeskStatus::Done => 0,
            DeskStatus::Words(_) => 2,
            DeskStatus::FileFault(_) => 3,
            DeskStatus::ReadFault => 4,
            DeskStatus::WriteFault => 5,
            DeskStatus::Memory => 6,
        }
    }

    // The status where there is no report.
    pub(crate) fn of_stop(stop: Stop) -> DeskStatus
        ensures { result ≡ status_of stop }
    {
        match stop {
            Stop::Refused(refused) => DeskStatus::Words(refused),
            Stop::File(FileStop::Fault(fault)) => DeskStatus::FileFault(fault),
            Stop::File(FileStop::ReadFault) => DeskStatus::ReadFault,
            Stop::File(FileStop::Memory) => DeskStatus::Memory,
        }
    }
}

// Why there is no report.
pub(crate) type Stop = run_frame::Stop<DeskWords>;
