//! What is kept of a run of the driver.
use codec_graph::Graph;
use driver_progress::Jack;
use hda_files::Machine;
use hda_items::Items;
use hda_world::Journal;
use heard_lists::HeardPins;
use period_writer::{Run, Span};
use route_planner::Plan;
use stream_format::Format;

/// Why a run of the driver ended before it was done. This project's own.
#[derive(Clone, Copy, Debug, PartialEq, Eq)]
pub enum PlayFault {
    /// A codec left a command unanswered for as long as the driver waits.
    Unanswered {
        /// The codec's address.
        codec: u8,
        /// The command's word (HDA 1.0a, 7.1.2).
        command: u32,
        /// The clock when it was issued, in ticks of 1/24,000,000 s.
        issued: u32,
        /// The clock when it was found unanswered.
        noticed: u32,
    },
    /// A run ended too late, and the stream was stopped.
    Late {
        /// The clock from which the link frames count, in ticks of 1/24,000,000 s: the first one of the run before, or
        /// the late run's own where it took silence back and was too slow.
        from: u32,
        /// The clock that the late run read last.
        to: u32,
        /// How many link frames might have passed between them.
        limit: u32,
    },
    /// The schedule ended before all commands were answered, or before the sound began.
    CommandsLeft {
        /// How many were sent.
        sent: u32,
        /// How many there are.
        of: u32,
    },
    /// The schedule ended before all frames of sound were played.
    FramesLeft {
        /// How many were written.
        written: u64,
        /// How many stand before the last position of the link that was recorded.
        heard: u64,
        /// How many there are.
        of: u64,
    },
}

/// How the reading of a sound was cut while it was played. This project's own.
#[derive(Debug, Drop)]
pub enum CutLine {
    /// The file could not be read, under this name.
    Failed(String),
    /// The file got shorter: the place in it, in bytes, at which it answered that there was no byte more.
    Short(u64),
}

/// A run of the driver over a machine from first to last, and how it ended. This project's own.
#[derive(Drop)]
pub struct Played {
    /// The machine.
    pub machine: Machine,
    /// The format of the sound.
    pub format: Format,
    /// How many frames of sound there are; 0 for a walk.
    pub total: u64,
    /// How many of them were read: all of them exactly where the reading was not cut; 0 for a walk.
    pub read: u64,
    /// How many commands it takes to walk over all codecs and to set them up.
    pub commands: u32,
    /// The plan of each of the machine's codecs, in order.
    pub plans: Items<Plan>,
    /// The graphs that the driver was told, in order.
    pub graphs: Items<Graph>,
    /// The recorded runs of the ring of sound, oldest first; none for a walk.
    pub runs: Items<Run>,
    /// Where the line has silence, ascending; none for a walk.
    pub silences: Items<Span>,
    /// What each candidate pin heard, codec by codec and in order; none for a walk.
    pub heard: HeardPins,
    /// How often responses that came unasked were read, ascending by codec and tag.
    pub jacks: Items<Jack>,
    /// What driver and device did.
    pub journal: Journal,
    /// Whether it was a walk, which sets the codecs up and plays nothing.
    pub walk: bool,
    /// Why it ended before it was done. `None` where all was done.
    pub fault: Option<PlayFault>,
    /// How the reading of the sound was cut. `None` where it was not, as for a walk. The run goes on over the frames
    /// that were read.
    pub cut: Option<CutLine>,
}
