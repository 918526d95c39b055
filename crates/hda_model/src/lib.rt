//! The device as a library: a controller with its codecs, what their pins heard, which blocks its input stream took, and
//! memory that the caller lends at each call. It stands for a world, and each call is the world's move. This project's own.
#![tactic(auto)]

mod faults;
mod heard_items;
mod laws;
mod marks;
mod model;
mod places;
mod room;

pub use faults::{MOST_TEXT_BYTES, OpenFault, StepFault};
pub use hda_files::FileFault;
pub use hda_registers::Width;
pub use heard_frames::Heard;
pub use heard_items::{HeardItem, copy_bytes};
pub use laws::{lent_memory_may_change, stands_for_one};
pub use marks::copy_marks;
pub use model::DeviceModel;
pub use places::PinName;
pub use world_steps::Step;
