//! Laws of lists of buffers, each the contract of a function that does nothing.
ghost use Rattle.std.specs.Prelude.{◌≡◌};
ghost use Rattle.world_streams.specs.declared.buffers.TheConstants.{BUFFER_ENTRY_BYTES, BUFFER_ALIGNMENT};

/// An entry has 16 bytes, and a buffer begins at a multiple of 128 (HDA 1.0a, 3.6.3).
pub fn lists_are_the_standards()
    ensures entries { BUFFER_ENTRY_BYTES ≡ 16 }
    ensures alignment { BUFFER_ALIGNMENT ≡ 128 }
{}
