//! Why a call is refused.

use hda_files::FileFault;
use std::alloc::{AllocError, AllocFailed};
use std::fmt;

/// How many bytes the text of a codec file may have.
pub const MOST_TEXT_BYTES: usize = 262_144;

/// Why no device was made of a text.
#[derive(Clone, Copy, Debug, PartialEq, Eq)]
pub enum OpenFault {
    /// The text has more than 262,144 bytes.
    TooLong,
    /// The text's first fault, or want of memory.
    File(FileFault),
}

impl From<FileFault> for OpenFault {
    ghost use Rattle.std.specs.Prelude.{◌≡◌};
    ghost use Rattle.hda_model.specs.declared.faults.OpenFault.TheVariants.{File};

    ghost from_gives = { λ fault refusal. refusal ≡ File fault };

    fn from(fault: FileFault) -> Self {
        OpenFault::File(fault)
    }
}

impl From<AllocError> for OpenFault {
    ghost use Rattle.std.specs.Prelude.{◌≡◌};
    ghost use Rattle.hda_files.specs.declared.fault.FileFault.TheVariants.{OutOfMemory};
    ghost use Rattle.hda_model.specs.declared.faults.OpenFault.TheVariants.{File};

    ghost from_gives = { λ _ refusal. refusal ≡ File OutOfMemory };

    fn from(_: AllocError) -> Self {
        OpenFault::File(FileFault::OutOfMemory)
    }
}

impl<T: Drop> From<AllocFailed<T>> for OpenFault {
    ghost use Rattle.std.specs.Prelude.{◌≡◌};
    ghost use Rattle.hda_files.specs.declared.fault.FileFault.TheVariants.{OutOfMemory};
    ghost use Rattle.hda_model.specs.declared.faults.OpenFault.TheVariants.{File};

    ghost from_gives = { λ _ refusal. refusal ≡ File OutOfMemory };

    fn from(_: AllocFailed<T>) -> Self {
        OpenFault::File(FileFault::OutOfMemory)
    }
}

/// Why a step was not made. Nothing happened then.
#[derive(Clone, Copy, Debug, PartialEq, Eq)]
pub enum StepFault {
    /// No codec has the address that the step names.
    NoCodec,
    /// The step names a stream that is neither 0, the input stream's, nor 1, the output stream's.
    NoStream,
    /// Memory was wanting for what the pins hear in its link frames, or for the mark of a pin.
    OutOfMemory,
}

/// The words of a fault, as the program ends with them.
impl fmt::Display for OpenFault {
    ghost use Rattle.std.specs.Prelude.{Some};
    ghost use Rattle.hda_model.specs.Refusals.{open_fault_text};

    ghost output = { λ fault. Some (open_fault_text fault) };

    fn fmt<W: fmt::Write>(&self, f: &mut fmt::Formatter<W>) -> fmt::Result {
        match self {
            OpenFault::TooLong => f.write_str("TooLong"),
            OpenFault::File(fault) => write!(f, "{fault}"),
        }
    }
}

impl std::error::Error for OpenFault {}
