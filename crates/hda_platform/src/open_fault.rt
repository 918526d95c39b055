//! Why a part of a driver was not opened.

/// Why there is no engine, writer or driver: each takes blocks from a pool, and memory. This project's own.
#[derive(Clone, Copy, Debug, PartialEq, Eq)]
pub enum OpenFault {
    /// The pool has no run for one of the blocks.
    NoRun,
    /// Want of memory.
    OutOfMemory,
}
