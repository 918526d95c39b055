//! Why a dump is refused.
use dump_reader::ReadFault;
use hda_files::FileFault;
use std::alloc::{AllocError, AllocFailed};

/// Why a dump is refused. Lines count from 1.
#[derive(Clone, Copy, Debug, PartialEq, Eq)]
pub enum DumpFault {
    /// The first line that can't be taken. It is one more than there are lines where the dump ends too early.
    Line(u32),
    /// No codec of the dump has an audio function group; the first, whose first line this is, has a modem's.
    Modem(u32),
    /// A codec file can't say what this line does: the fault that the codec file would have.
    Codec(u32, FileFault),
    /// The codec that begins on this line has more than 127 widgets. No dump has so many: this is for facts that a
    /// caller made.
    TooManyNodes(u32),
    /// A widget of the codec that begins on this line has a connection list that no codec can give. No dump has one:
    /// this is for facts that a caller made.
    UnreadableList(u32),
    /// The codec file would be longer than a codec file may be. The codec begins on this line.
    TooLong(u32),
    /// The text of the codec file is not read as the codec that begins on this line.
    Unlike(u32),
    /// Memory was wanting. This says nothing of the dump.
    OutOfMemory,
}

impl From<AllocError> for DumpFault {
    ghost use Rattle.std.specs.Prelude.{◌≡◌};
    ghost use Rattle.codec_dump.specs.declared.fault.DumpFault.TheVariants.{OutOfMemory};

    ghost from_gives = { λ _ fault. fault ≡ OutOfMemory };

    fn from(_: AllocError) -> Self {
        DumpFault::OutOfMemory
    }
}

impl<T: Drop> From<AllocFailed<T>> for DumpFault {
    ghost use Rattle.std.specs.Prelude.{◌≡◌};
    ghost use Rattle.codec_dump.specs.declared.fault.DumpFault.TheVariants.{OutOfMemory};

    ghost from_gives = { λ _ fault. fault ≡ OutOfMemory };

    fn from(_: AllocFailed<T>) -> Self {
        DumpFault::OutOfMemory
    }
}

/// A fault of reading, as a fault of the dump.
impl From<ReadFault> for DumpFault {
    ghost use Rattle.std.specs.Prelude.{◌≡◌};
    ghost use Rattle.codec_dump.specs.Reads.{read_fault};

    ghost from_gives = { λ fault after. after ≡ read_fault fault };

    fn from(fault: ReadFault) -> Self {
        match fault {
            ReadFault::Line(line) => DumpFault::Line(line),
            ReadFault::Modem(line) => DumpFault::Modem(line),
            ReadFault::OutOfMemory => DumpFault::OutOfMemory,
        }
    }
}
