//! A pool of memory for DMA: blocks that are owned, lent for writing in windows, and given back. This project's own.
#![tactic(auto)]

mod blocks;
mod pool;
mod region;
mod runs;
mod several;

pub use blocks::{Block, Lent, Window};
pub use pool::{GRANULE, NoRun, Pool};
pub use region::{MOST_GRANULES, REGION_BYTES, region_is_fixed};
