//! What the capabilities of an amplifier say (HDA 1.0a, 7.3.4.10).
ghost use Rattle.std.specs.Prelude.{◌≡◌};
ghost use Rattle.codec_graph.specs.Widget as widget;

use verb_codes::{bits_of, has_bit};

/// The bit of the capabilities that says that the amplifier can mute.
const MUTE_CAPABLE: u32 = 31;

/// The gain step at 0 dB.
pub fn amplifier_offset(word: u32) -> u32
    ensures { result ≡ widget.amplifier_offset word }
{
    bits_of(word, 0, 7)
}

/// The greatest gain step: the number of steps less one.
pub fn amplifier_steps(word: u32) -> u32
    ensures { result ≡ widget.amplifier_steps word }
{
    bits_of(word, 8, 7)
}

/// Whether the amplifier can mute.
pub fn can_mute(word: u32) -> bool
    ensures { result ≡ widget.can_mute word }
{
    has_bit(word, MUTE_CAPABLE)
}
