//! The program over any shelf and sink: it plans the routes of a codec's output pins, drives a machine until its codecs
//! are set up, plays sound through its analog or its digital pins, and records what its input pins are given. This
//! project's own.
#![tactic(auto)]

mod answer;
mod capture;
mod codec;
mod files;
mod given;
mod made_ends;
mod make;
mod message;
mod pins;
mod plans;
mod play;
mod route;
mod run;
mod schedule;
mod walk;
mod wav;

pub use answer::{Answer, answer_request};
pub use codec::read_codec_file;
pub use files::play_files;
pub use message::Message;
pub use plans::plans_of;
pub use run::{Ended, hda_main, status_of, write_captured, write_text, written_status};
pub use sound_report::Status;
