//! What stays of a rig over the accesses of a driver.

use codec_graph::PinKind;
use hda_files::Machine;
use hda_items::Items;
use schedule_reader::Group;

/// What no access changes. Contracts alone speak of it.
#[derive(Drop)]
pub struct Setting {
    /// The machine as its file describes it.
    pub machine: Machine,
    /// For which of its pins there are lists.
    pub kind: PinKind,
    /// The sound that its input pins are given.
    pub given: Items<u8>,
    /// Whether a run of the driver is open.
    pub in_run: bool,
    /// The number of the journal's entry with which the last run began, counted from 0.
    pub begun: usize,
    /// The groups of steps with which it began.
    pub groups: Items<Group>,
}
