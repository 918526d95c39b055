//! Reads the files of a run. A schedule is read by `schedule_reader`, whose names this crate hands on; a codec file, a
//! TOML text that describes the codecs of a machine, is read here. The format is this project's own; the words are
//! those of High Definition Audio 1.0a, 7.3.4.
//!
//! | table | key | value | where it is not given |
//! |---|---|---|---|
//! | top | `fifo` | 8 to 4,096 | 192 |
//! | top | `corb`, `rirb` | 2, 16 or 256 | 256 |
//! | top | `codec` | array of 1 to 4 tables | refused |
//! | codec | `address` | 0 to 14, of no earlier codec | refused |
//! | codec | `vendor` | 32 bits | refused |
//! | codec | `revision`, `amp_in`, `amp_out`, `power` | 32 bits | 0 |
//! | codec | `group` | 1 to 127 | 1 |
//! | codec | `group_type`, `formats` | 32 bits | 1 |
//! | codec | `pcm` | 32 bits | 0x00020040 |
//! | codec | `group_power` | 0 to 3 | 0 |
//! | codec | `first` | 0 to 127 | the least `nid` |
//! | codec | `count` | 0 to 127 | the greatest `nid` less the least, and 1 |
//! | codec | `node` | array of 1 to 126 tables | refused |
//! | node | `nid` | 1 to 127, of no earlier node | refused |
//! | node | `caps` | 32 bits | refused |
//! | node | `pcm`, `formats`, `pin_caps`, `amp_in`, `amp_out`, `power`, `default` | 32 bits | 0 |
//! | node | `long` | a truth value | `false` |
//! | node | `list` | array of at most 127 entries of 8 bits, where `long` of 16, only where `caps` has bit 8 | empty |
//! | node | `select`, `power_state`, `stream`, `control`, `unsol`, `eapd`, `digital` | 8 bits | 0 |
//! | node | `gain_out` | 8 bits | muted where the amplifier can mute, else its offset |
//! | node | `format` | 16 bits | 0 |
//! | node | `gain_in` | array of at most 16 numbers of 8 bits | as `gain_out`, place by place |
//! | node | `present` | a truth value | `false` |
//!
//! Other keys are ignored. The keys of the top are tried first, then those of the codecs in the array's order: for each
//! its own keys and then those of each node in the array's order, each in the table's order. At a key it is tried
//! whether it is missing, of a wrong type, out of range and doubled, in this order; a value of a wrong type in an array
//! comes before all that is out of range there. When all keys of all codecs are good, the codecs are taken ascending by
//! address, whatever their order in the file: for each the faults of its connection lists come by node identifier, and
//! then its graph's fault. Last it is tried whether the codecs have too many candidate pins together. The machine's
//! codecs stand ascending by address. A node identifier of a codec without a table is a vendor defined widget. The keys
//! from `select` on and `group_power` act as the set verbs of their controls, after the opening of the codec.
#![tactic(auto)]

mod codec;
mod fault;
mod fault_text;
mod laws;
mod list_faults;
mod machine;
mod node;
mod numbers;
mod opening;
mod start;
mod top;
mod values;

pub use fault::{FileFault, Key, Place};
pub use laws::{keeps_each_codec, one_reading};
pub use machine::{CodecFile, Machine, read_machine};
pub use schedule_reader::{
    DriverLine, Group, Item, MOST_SCHEDULE_BYTES, Part, SchedFault, Schedule, read_schedule,
};
pub use top::RingSize;
