//! Laws of link frames, each the contract of a function that does nothing.
ghost use Rattle.std.specs.Prelude.{◌≡◌};
ghost use Rattle.stream_descriptor.specs.declared.arrived.TheConstants.{MOST_BLOCK_BYTES};
ghost use Rattle.stream_descriptor.specs.declared.frame.TheConstants.{MOST_FRAME_BYTES};

/// A link frame has at most four blocks of eight containers of 32 bits (HDA 1.0a, 3.7.1).
pub fn frames_have_a_limit()
    ensures { MOST_FRAME_BYTES ≡ 128 }
{}

/// A block has at most eight containers of 32 bits (HDA 1.0a, 3.7.1 and 4.5.1).
pub fn blocks_have_a_limit()
    ensures { MOST_BLOCK_BYTES ≡ 32 }
{}
