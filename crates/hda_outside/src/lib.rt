//! What a program reads and writes: shelves of files and sinks of bytes. This project's own.
//!
//! A [`Shelf`] gives pieces of files by name, a [`Sink`] takes bytes. Both count their faults, so that
//! a failure that they answer can be told from one that a program makes up. [`MemShelf`], [`SureShelf`],
//! [`MemSink`] and [`SureSink`] stand in memory and tell what they hold. [`FileShelf`] and [`OutSink`]
//! are the machine's files and its standard output, of which nothing is told.
#![tactic(auto)]

mod fault;
mod machine;
mod memory_shelf;
mod memory_sink;
mod pieces;
mod reading;
mod shelf;
mod sink;
mod writing;

pub use fault::Fault;
pub use machine::{FileShelf, OutSink};
pub use memory_shelf::{MemShelf, SureShelf};
pub use memory_sink::{MemSink, SureSink};
pub use pieces::{Cut, Piece, read_piece};
pub use reading::{ReadAll, file_length, read_all};
pub use shelf::Shelf;
pub use sink::Sink;
pub use writing::{PIECE_LEN, write_all};
