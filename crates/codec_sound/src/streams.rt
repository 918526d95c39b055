//! What converters compare with the stream on the link.
ghost use Rattle.std.specs.Prelude.{◌≡◌};

use stream_format::Format;

/// A stream on the link: its tag, its format word and how many channels it has (HDA 1.0a, 3.7.1 and 5.3).
#[derive(Clone, Copy, Debug, PartialEq, Eq)]
pub struct LinkStream {
    /// The tag, 1 to 15, with which converters take it.
    pub tag: u8,
    /// The format word.
    pub word: u16,
    /// How many channels each block has.
    pub channels: u8,
}

impl LinkStream {
    ghost use Rattle.codec_sound.specs.Signals.{stream_of};

    /// The stream with this tag and format.
    pub(crate) fn new(tag: u8, format: Format) -> LinkStream
        ensures { result ≡ stream_of tag format }
    {
        LinkStream {
            tag,
            word: format.word(),
            channels: format.channels,
        }
    }
}
