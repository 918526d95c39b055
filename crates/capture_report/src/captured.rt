//! What is kept of a capture.
use codec_graph::Graph;
use hda_capture::RecordedRun;
use hda_files::Machine;
use hda_items::Items;
use hda_world::Journal;
use route_planner::Plan;
use sound_report::PlayFault;
use stream_format::Format;

/// A capture over a machine from first to last, and how it ended. This project's own.
#[derive(Drop)]
pub struct Captured {
    /// The machine.
    pub machine: Machine,
    /// The format of the sound that input pins are given, and of the file.
    pub format: Format,
    /// How many frames of that sound there are.
    pub total: u64,
    /// How many commands it takes to walk over all codecs and to set them up.
    pub commands: u32,
    /// The plan of each of the machine's codecs, in order: that of the codec that is recorded has an entry, and each
    /// other one has none.
    pub plans: Items<Plan>,
    /// The graphs that the driver was told, in order.
    pub graphs: Items<Graph>,
    /// The recorded runs, oldest first.
    pub runs: Items<RecordedRun>,
    /// Of each block that came, oldest first, whether it was taken.
    pub taken: Items<bool>,
    /// What was recorded, as the bytes of a WAV file.
    pub file: Items<u8>,
    /// What driver and device did.
    pub journal: Journal,
    /// Why it ended before all was recorded. `None` where all was. Where frames were left, `written` and `heard` are
    /// both the number of frames that were read.
    pub fault: Option<PlayFault>,
}
