//! The pair of channels of each candidate pin.
ghost use Rattle.std.specs.Prelude.{◌≡◌, ◌≤◌};
ghost use Rattle.route_planner.specs.Pairs as spec;

use codec_graph::{NODE_IDENTIFIERS, PinKind, RawCodec, RawNode, bits_of};

/// The default device of a headphone: HP out (HDA 1.0a, 7.3.3.31).
const HEADPHONE_DEVICE: u32 = 2;

/// Whether the pin's default device is a headphone: HP out (HDA 1.0a, 7.3.3.31).
pub fn is_headphone(node: &RawNode) -> bool
    ensures { result ≡ spec.is_headphone_node node.now }
{
    bits_of(node.default, 20, 4) == HEADPHONE_DEVICE
}

/// Whether the other node is a candidate of the pin's association that comes before the pin, and no headphone.
fn is_earlier_companion(codec: &RawCodec, pin: u8, other: u8) -> bool
    ensures { result ≡ spec.is_earlier_companion codec.now pin other }
{
    match (codec.node(pin), codec.node(other)) {
        (Some(p), Some(q)) => {
            q.is_candidate()
                && !is_headphone(q)
                && q.association() == p.association()
                && (q.sequence() < p.sequence() || q.sequence() == p.sequence() && other < pin)
        }
        _ => false,
    }
}

/// How many candidates of the pin's association come before it and are no headphones.
fn rank_of(codec: &RawCodec, pin: u8) -> usize
    ensures { result ≡ spec.rank_of codec.now pin }
{
    (0..NODE_IDENTIFIERS as u8)
        .filter(|other| is_earlier_companion(codec, pin, *other))
        .count()
}

/// The pair of channels of a pin of a kind: 0 for a digital one.
pub(crate) fn pair_as(kind: PinKind, codec: &RawCodec, channels: u8, pin: u8) -> u8
    requires { 2 ≤ channels }
    ensures { result ≡ spec.pair_as kind codec.now channels pin }
{
    match kind {
        PinKind::Analog => pair_of(codec, channels, pin),
        PinKind::Digital => 0,
    }
}

/// The pair of channels of an analog pin: 0 for a headphone, and else its rank, round the pairs of the stream.
fn pair_of(codec: &RawCodec, channels: u8, pin: u8) -> u8
    requires { 2 ≤ channels }
    ensures { result ≡ spec.pair_of codec.now channels pin }
{
    let pairs = usize::from(channels / 2);
    match codec.node(pin) {
        Some(node) if is_headphone(node) => 0,
        _ => (rank_of(codec, pin) % pairs) as u8,
    }
}
