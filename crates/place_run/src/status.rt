// How a run ends.
ghost use Rattle.std.specs.Prelude.{◌≡◌};
ghost use Rattle.place_run.specs.Statuses.{status_code, ended, status_of};

use command_words::WordsFault;
use place_base::FileFault;
use run_frame::FileStop;

/// How a run ended.
#[derive(Clone, Copy, Debug, PartialEq, Eq)]
pub enum Status {
    /// The files were read and the text was written whole.
    Done,
    /// The words are no command.
    Words(WordsFault),
    /// The first of the files that has a fault has this first fault.
    FileFault(FileFault),
    /// A file could not be read.
    ReadFault,
    /// The text could not be written; its front may have been.
    WriteFault,
    /// Memory was refused. Nothing of the text was written.
    Memory,
    /// The placement that was audited is not stable. The verdict was written whole.
    AuditNo,
    /// The files were read, and no programme has this code. Nothing was written.
    NoProgramme(u32),
}

impl Status {
    /// The number that the process ends with.
    pub fn code(&self) -> u8
        ensures { result ≡ status_code self.now }
    {
        match *self {
            Status::Done => 0,
            Status::Words(_) => 2,
            Status::FileFault(_) => 3,
            Status::ReadFault => 4,
            Status::WriteFault => 5,
            Status::Memory => 6,
            Status::AuditNo => 7,
            Status::NoProgramme(_) => 8,
        }
    }

    // The status where there is no text.
    pub(crate) fn of_stop(stop: Stop) -> Status
        ensures { result ≡ status_of stop }
    {
        match stop {
            Stop::Refused(Refusal::Words(refused)) => Status::Words(refused),
            Stop::Refused(Refusal::NoProgramme(code)) => Status::NoProgramme(code),
            Stop::File(FileStop::Fault(fault)) => Status::FileFault(fault),
            Stop::File(FileStop::ReadFault) => Status::ReadFault,
            Stop::File(FileStop::Memory) => Status::Memory,
        }
    }
}

// How a run ends whose text is written whole.
#[derive(Clone, Copy)]
pub(crate) enum Ending {
    Done,
    // The placement that was audited is not stable.
    AuditNo,
}

impl Ending {
    pub(crate) fn status(self) -> Status
        ensures { result ≡ ended self }
    {
        match self {
            Ending::Done => Status::Done,
            Ending::AuditNo => Status::AuditNo,
        }
    }
}

// What is refused.
#[derive(Clone, Copy)]
pub(crate) enum Refusal {
    // The words are no command.
    Words(WordsFault),
    // The files were read, and no programme has this code.
    NoProgramme(u32),
}

// Why there is no text.
pub(crate) type Stop = run_frame::Stop<Refusal>;
