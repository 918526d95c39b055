//! The words of a codec file's fault. This project's own.
use crate::fault::{FileFault, Key, Place};
use std::fmt;

/// As `codec 0 node 1`: the table, by places that count from 0.
impl fmt::Display for Place {
    ghost use Rattle.std.specs.Prelude.{Some};
    ghost use Rattle.hda_files.specs.FaultText.{place_text};

    ghost output = { λ place. Some (place_text place) };

    fn fmt<W: fmt::Write>(&self, f: &mut fmt::Formatter<W>) -> fmt::Result {
        match self {
            Place::Top => f.write_str("top"),
            Place::Codec(codec) => write!(f, "codec {codec}"),
            Place::Node(codec, node) => write!(f, "codec {codec} node {node}"),
        }
    }
}

/// The key as it stands in the file.
impl fmt::Display for Key {
    ghost use Rattle.std.specs.Prelude.{Some};
    ghost use Rattle.hda_files.specs.Keys.{key_name};

    ghost output = { λ key. Some (key_name key) };

    fn fmt<W: fmt::Write>(&self, f: &mut fmt::Formatter<W>) -> fmt::Result {
        f.write_str(self.name())
    }
}

/// As `MissingKey caps at codec 0 node 1`, or `ListTooLong at 0/0c`: the codec's address and the node identifier.
impl fmt::Display for FileFault {
    ghost use Rattle.std.specs.Prelude.{Some};
    ghost use Rattle.hda_files.specs.FaultText.{file_fault_text};

    ghost output = { λ fault. Some (file_fault_text fault) };

    fn fmt<W: fmt::Write>(&self, f: &mut fmt::Formatter<W>) -> fmt::Result {
        match self {
            FileFault::Toml => f.write_str("Toml"),
            FileFault::MissingKey(place, key) => write!(f, "MissingKey {key} at {place}"),
            FileFault::WrongType(place, key) => write!(f, "WrongType {key} at {place}"),
            FileFault::OutOfRange(place, key) => write!(f, "OutOfRange {key} at {place}"),
            FileFault::Doubled(place, key) => write!(f, "Doubled {key} at {place}"),
            FileFault::List(address, nid, fault) => {
                let high = *nid / 16;
                let low = *nid % 16;
                write!(f, "{fault} at {address}/{high:x}{low:x}")
            }
            FileFault::Graph(address, fault) => {
                let name = fault.name();
                let high = fault.nid() / 16;
                let low = fault.nid() % 16;
                write!(f, "{name} at {address}/{high:x}{low:x}")
            }
            FileFault::TooManyPins => f.write_str("TooManyPins"),
            FileFault::OutOfMemory => f.write_str("out of memory"),
        }
    }
}

impl std::error::Error for FileFault {}
