//! Which input converter takes a stream, and what it hears.
ghost use Rattle.std.specs.Prelude.{◌≡◌, ◌++◌, List};
ghost use Rattle.codec_sound.specs.Inward.{in_signal_of};
ghost use Rattle.codec_sound.specs.declared.in_heard.InHeard.{InHeard};
ghost use Rattle.hda_world.specs.Arriving.{brought_by_codec, listened as listened_of};
ghost use Rattle.device_core.specs.Captures.{takers_of, with_taker};

use codec_graph::NODE_IDENTIFIERS;
use codec_nodes::Codec;
use codec_sound::{InHeard, in_signal, is_taking};

/// How many input converters take a stream, and what one alone hears.
#[derive(Clone, Copy)]
pub enum Takers {
    /// None does.
    Nobody,
    /// One does, which hears this.
    One(InHeard),
    /// Two or more do.
    Several,
}

/// What the one input converter of all codecs hears that takes the stream with this tag and format word. `None` where
/// none takes it, or several do: then no block comes. This project's own.
pub(crate) fn listened(codecs: &[Codec], tag: u8, word: u16) -> Option<InHeard>
    ensures { result ≡ listened_of tag word codecs.now }
{
    let mut takers = Takers::Nobody;
    for codec in codecs {
        takers = and_of_codec(takers, codec, tag, word);
    }
    match takers {
        Takers::One(heard) => Some(heard),
        Takers::Nobody | Takers::Several => None,
    }
}

/// The takers with those among the codec's input converters.
fn and_of_codec(mut takers: Takers, codec: &Codec, tag: u8, word: u16) -> Takers
    ensures { (before : List InHeard) → takers ≡ takers_of before
        → result ≡ takers_of (before ++ brought_by_codec tag word codec.now) }
{
    for nid in 0..NODE_IDENTIFIERS as u8 {
        if is_taking(codec.graph(), codec.settings(), nid, tag, word) {
            takers = and_converter(takers, codec, nid);
        }
    }
    takers
}

/// The takers with this input converter of the codec. What it hears is worked out where it is the first one.
fn and_converter(takers: Takers, codec: &Codec, nid: u8) -> Takers
    ensures { result ≡ with_taker takers (in_signal_of codec.now.graph codec.now.settings nid) }
{
    match takers {
        Takers::Nobody => Takers::One(in_signal(codec.graph(), codec.settings(), nid)),
        Takers::One(_) | Takers::Several => Takers::Several,
    }
}
