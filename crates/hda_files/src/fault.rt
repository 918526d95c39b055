//! Why a codec file is refused: the fault, its place and its key.
ghost use Rattle.std.specs.Prelude.{◌≡◌};

use codec_graph::GraphFault;
use std::alloc::{AllocError, AllocFailed};
use verb_codes::ListFault;

/// A table of the file, by its places in the arrays, which count from 0.
#[derive(Clone, Copy, Debug, PartialEq, Eq)]
pub enum Place {
    /// The file's top table.
    Top,
    /// A table of the array `codec`.
    Codec(u8),
    /// A table of the array `node` of a codec: first the codec's place and then the node's.
    Node(u8, u8),
}

/// A key that the reader knows. Every other key of a file is ignored.
#[derive(Clone, Copy, Debug, PartialEq, Eq)]
pub enum Key {
    /// `fifo`, the bytes of a stream's FIFO, at the top.
    Fifo,
    /// `corb`, the entries of the command ring, at the top.
    Corb,
    /// `rirb`, the entries of the response ring, at the top.
    Rirb,
    /// `codec`, the array of the codecs, at the top.
    Codec,
    /// `address` of a codec.
    Address,
    /// `vendor` of a codec: its vendor and device identification.
    Vendor,
    /// `revision` of a codec.
    Revision,
    /// `amp_in` of a codec's function group or of a node: input amplifier capabilities.
    AmpIn,
    /// `amp_out` of a codec's function group or of a node: output amplifier capabilities.
    AmpOut,
    /// `power` of a codec's function group or of a node: supported power states.
    Power,
    /// `group` of a codec: the node identifier of its function group.
    Group,
    /// `group_type` of a codec.
    GroupType,
    /// `formats` of a codec's function group or of a node: supported stream formats.
    Formats,
    /// `pcm` of a codec's function group or of a node: supported PCM sizes and rates.
    Pcm,
    /// `group_power` of a codec: the power state of its function group at the start.
    GroupPower,
    /// `first` of a codec: the node identifier of its first widget.
    First,
    /// `count` of a codec: how many widgets it has.
    Count,
    /// `node` of a codec, the array of its widgets' tables.
    Node,
    /// `nid` of a node: its node identifier.
    Nid,
    /// `caps` of a node: audio widget capabilities.
    Caps,
    /// `pin_caps` of a node: pin capabilities.
    PinCaps,
    /// `default` of a node: configuration default.
    Default,
    /// `long` of a node: whether the entries of its connection list have 16 bits.
    Long,
    /// `list` of a node: its connection list.
    List,
    /// `select` of a node: the selected place of its connection list at the start.
    Select,
    /// `power_state` of a node: its power state at the start.
    PowerState,
    /// `stream` of a node: its stream tag and channel at the start.
    Stream,
    /// `control` of a node: its pin control at the start.
    Control,
    /// `unsol` of a node: its control of unsolicited responses at the start.
    Unsol,
    /// `eapd` of a node: the control of its external amplifier at the start.
    Eapd,
    /// `digital` of a node: its digital converter control at the start.
    Digital,
    /// `gain_out` of a node: mute and gain of its output amplifier at the start.
    GainOut,
    /// `format` of a node: its stream format at the start.
    Format,
    /// `gain_in` of a node: mute and gain of its input amplifier at the start, for each place of the connection list.
    GainIn,
    /// `present` of a node: whether something is plugged in at the start.
    Present,
}

impl Key {
    ghost use Rattle.hda_files.specs.Keys.{key_name};

    /// The key as it stands in the file.
    pub fn name(&self) -> &'static str
        ensures { result.now ≡ key_name self.now }
    {
        match self {
            Key::Fifo => "fifo",
            Key::Corb => "corb",
            Key::Rirb => "rirb",
            Key::Codec => "codec",
            Key::Address => "address",
            Key::Vendor => "vendor",
            Key::Revision => "revision",
            Key::AmpIn => "amp_in",
            Key::AmpOut => "amp_out",
            Key::Power => "power",
            Key::Group => "group",
            Key::GroupType => "group_type",
            Key::Formats => "formats",
            Key::Pcm => "pcm",
            Key::GroupPower => "group_power",
            Key::First => "first",
            Key::Count => "count",
            Key::Node => "node",
            Key::Nid => "nid",
            Key::Caps => "caps",
            Key::PinCaps => "pin_caps",
            Key::Default => "default",
            Key::Long => "long",
            Key::List => "list",
            Key::Select => "select",
            Key::PowerState => "power_state",
            Key::Stream => "stream",
            Key::Control => "control",
            Key::Unsol => "unsol",
            Key::Eapd => "eapd",
            Key::Digital => "digital",
            Key::GainOut => "gain_out",
            Key::Format => "format",
            Key::GainIn => "gain_in",
            Key::Present => "present",
        }
    }
}

/// Why a codec file is refused. The first fault of the file counts, in the order in which its keys are tried.
#[derive(Clone, Copy, Debug, PartialEq, Eq)]
pub enum FileFault {
    /// The bytes are no TOML text.
    Toml,
    /// A key that must be given is missing.
    MissingKey(Place, Key),
    /// The key's value, or an element of its array, is of a wrong type.
    WrongType(Place, Key),
    /// The key's value is outside its range.
    OutOfRange(Place, Key),
    /// The key's value stands at an earlier table of the same array.
    Doubled(Place, Key),
    /// The connection list of a node has this fault: the codec's address, the node identifier and the fault.
    List(u8, u8, ListFault),
    /// The codec with this address has this fault of its graph.
    Graph(u8, GraphFault),
    /// The file has more than 16 analog candidate pins.
    TooManyPins,
    /// Memory was wanting. This says nothing of the file.
    OutOfMemory,
}

impl From<AllocError> for FileFault {
    ghost use Rattle.std.specs.Prelude.{◌≡◌};
    ghost use Rattle.hda_files.specs.declared.fault.FileFault.TheVariants.{OutOfMemory};

    ghost from_gives = { λ _ fault. fault ≡ OutOfMemory };

    fn from(_: AllocError) -> Self {
        FileFault::OutOfMemory
    }
}

impl<T: Drop> From<AllocFailed<T>> for FileFault {
    ghost use Rattle.std.specs.Prelude.{◌≡◌};
    ghost use Rattle.hda_files.specs.declared.fault.FileFault.TheVariants.{OutOfMemory};

    ghost from_gives = { λ _ fault. fault ≡ OutOfMemory };

    fn from(_: AllocFailed<T>) -> Self {
        FileFault::OutOfMemory
    }
}
