//! Writes what a Linux kernel says of a codec, a dump below, as a codec file. This project's own.
#![tactic(auto)]

mod comments;
mod fault;
mod fault_text;
mod import;
mod machine;
mod mend;
mod outlet;
mod pieces;
mod program;
mod same;
mod text;
mod words;

pub use fault::DumpFault;
pub use import::{further_name, import_dump, write_codec};
pub use mend::mended;
pub use outlet::Outlet;
pub use program::{ImportStatus, import_main};
