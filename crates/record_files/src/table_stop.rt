// Why a table could not be read.
use place_base::FileFault;
use std::alloc::AllocError;

/// Why a table could not be read.
#[derive(Clone, Copy, Debug, PartialEq, Eq)]
pub enum TableStop {
    /// The first fault of the file.
    Fault(FileFault),
    /// Memory was refused.
    Memory,
}

impl From<FileFault> for TableStop {
    ghost use Rattle.std.specs.Prelude.{◌≡◌};
    ghost use Rattle.record_files.specs.declared.table_stop.TableStop.TheVariants.{Fault};

    ghost from_gives = { λ fault stop. stop ≡ Fault fault };

    fn from(fault: FileFault) -> TableStop {
        TableStop::Fault(fault)
    }
}

impl From<AllocError> for TableStop {
    ghost use Rattle.std.specs.Prelude.{◌≡◌};
    ghost use Rattle.record_files.specs.declared.table_stop.TableStop.TheVariants.{Memory};

    ghost from_gives = { λ _ stop. stop ≡ Memory };

    fn from(_: AllocError) -> TableStop {
        TableStop::Memory
    }
}
