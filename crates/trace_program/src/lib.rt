//! The trace of a run over any shelf and sink: the words, and the journal of the run that they ask for. This project's
//! own.
#![tactic(auto)]

mod answer;
mod trace;

pub use trace::trace_main;
