//! What is fixed of the world.

/// How many bytes of memory the controller's engines reach on every platform: the region. This project's own.
pub const REGION_BYTES: usize = dma_pool::REGION_BYTES as usize;
