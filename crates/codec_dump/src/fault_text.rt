//! The words of a dump's fault. This project's own.
use crate::fault::DumpFault;
use std::fmt;

/// As `Line 23`, or `Line 23: ConnectionOutside at 0/02`: the line, and the fault that a codec file would have.
impl fmt::Display for DumpFault {
    ghost use Rattle.std.specs.Prelude.{Some};
    ghost use Rattle.codec_dump.specs.FaultText.{dump_fault_text};

    ghost output = { λ fault. Some (dump_fault_text fault) };

    fn fmt<W: fmt::Write>(&self, f: &mut fmt::Formatter<W>) -> fmt::Result {
        match self {
            DumpFault::Line(line) => write!(f, "Line {line}"),
            DumpFault::Modem(line) => write!(f, "Line {line}: Modem"),
            DumpFault::Codec(line, fault) => write!(f, "Line {line}: {fault}"),
            DumpFault::TooManyNodes(line) => write!(f, "Line {line}: TooManyNodes"),
            DumpFault::UnreadableList(line) => write!(f, "Line {line}: UnreadableList"),
            DumpFault::TooLong(line) => write!(f, "Line {line}: TooLong"),
            DumpFault::Unlike(line) => write!(f, "Line {line}: Unlike"),
            DumpFault::OutOfMemory => f.write_str("out of memory"),
        }
    }
}

impl std::error::Error for DumpFault {}
