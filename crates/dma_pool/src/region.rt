//! The memory that the device reaches.
ghost use Rattle.std.specs.Prelude.{◌≡◌, ◌*◌};

use crate::pool::GRANULE;

/// How many bytes the device reaches on every platform, from address 0 on: the region. Blocks lie in it. This project's
/// own.
pub const REGION_BYTES: u32 = 4_194_304;

/// How many granules that is.
pub const MOST_GRANULES: u32 = 32_768;

/// The region has 4,194,304 bytes, and the granules fill it.
pub fn region_is_fixed()
    ensures bytes { REGION_BYTES ≡ 4194304 }
    ensures granules { MOST_GRANULES * GRANULE ≡ REGION_BYTES }
{}
