//! Places of codecs by their addresses.
ghost use Rattle.std.specs.Prelude.{◌≡◌, ◌<◌, Contains, Some, length};
ghost use Rattle.device_core.specs.Codecs as spec;
ghost use Rattle.hda_controller.specs.Controllers.{has_codec};

use codec_nodes::Codec;

/// The place of the codec with this address, which is there.
pub(crate) fn place_of(codecs: &[Codec], wanted: u8) -> usize
    requires { Contains (spec.addresses_of codecs.now) wanted }
    ensures within { result < length codecs.now }
    ensures place { spec.place_of wanted codecs.now ≡ Some result }
{
    for place in 0..codecs.len() {
        if address(&codecs[place]) == wanted {
            return place;
        }
    }
    unreachable!()
}

/// Whether one of the codecs has this address.
pub(crate) fn is_there(codecs: &[Codec], wanted: u8) -> bool
    ensures { result ≡ has_codec wanted codecs.now }
{
    codecs.iter().any(|codec| address(codec) == wanted)
}

/// The address of a codec.
pub(crate) fn address(codec: &Codec) -> u8
    ensures { result ≡ codec.now.graph.address }
{
    codec.graph().raw().address
}
