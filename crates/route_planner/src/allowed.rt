//! Which connections a path may take, and where it may begin and end.
ghost use Rattle.std.specs.Prelude.{◌≡◌, ◌<◌};
ghost use Rattle.codec_graph.specs.Widget as widget;
ghost use Rattle.route_planner.specs.Formats as formats;
ghost use Rattle.route_planner.specs.Inputs as inputs;
ghost use Rattle.route_planner.specs.Paths as paths;
ghost use Rattle.route_planner.specs.Search as spec;

use crate::direction::Direction;
use crate::left::Left;
use crate::routes::{Outcome, PinPlan};
use codec_graph::{PinKind, RawCodec, RawNode, bits_of, can_mute};
use stream_format::{Bits, Format, Rate};
use verb_codes::has_bit;

/// Whether the node has two channels and carries no digital stream.
fn is_analog_stereo(node: &RawNode) -> bool
    ensures { result ≡ paths.is_analog_stereo node.now }
{
    node.is_stereo() && !node.is_digital()
}

/// Whether the node has two channels and carries a digital stream.
fn is_digital_stereo(node: &RawNode) -> bool
    ensures { result ≡ paths.is_digital_stereo node.now }
{
    node.is_stereo() && node.is_digital()
}

/// Whether routes of the kind may have the node.
fn can_carry(kind: PinKind, node: &RawNode) -> bool
    ensures { result ≡ paths.can_carry kind node.now }
{
    match kind {
        PinKind::Analog => is_analog_stereo(node),
        PinKind::Digital => is_digital_stereo(node),
    }
}

/// Whether the node is no mixer, and no selector with an input amplifier.
fn passes_digital(node: &RawNode) -> bool
    ensures { result ≡ paths.passes_digital node.now }
{
    !node.is_mixer() && !(node.is_selector() && node.has_input_amplifier())
}

/// Whether set-up can open the node for the connection at this index alone.
fn can_be_left(codec: &RawCodec, index: usize, node: &RawNode) -> bool
    ensures { result ≡ paths.can_be_left codec.now index node.now }
{
    let mixes = node.is_mixer() && node.list.len() >= 2;
    let mutes = node.has_input_amplifier() && can_mute(codec.input_amplifier_word(node));
    let selects_amplifier = node.is_selector() && node.has_input_amplifier();
    (!mixes || mutes) && (!selects_amplifier || index <= 15)
}

/// Whether routes of the kind may leave the node by the connection at this index, whatever other routes do.
fn can_be_left_as(kind: PinKind, codec: &RawCodec, index: usize, node: &RawNode) -> bool
    ensures { result ≡ paths.can_be_left_as kind codec.now index node.now }
{
    match kind {
        PinKind::Analog => can_be_left(codec, index, node),
        PinKind::Digital => passes_digital(node),
    }
}

/// The type of an audio input converter, bits 23:20 of the widget capabilities (HDA 1.0a, 7.3.4.6).
const INPUT_CONVERTER: u32 = 1;

/// Whether the widget is an audio input converter.
fn is_input_converter(node: &RawNode) -> bool
    ensures { result ≡ widget.is_input_converter node.now }
{
    bits_of(node.caps, 20, 4) == INPUT_CONVERTER
}

/// Whether set-up can open the node of an input's path for the connection at this index alone.
fn can_be_left_in(codec: &RawCodec, index: usize, node: &RawNode) -> bool
    ensures { result ≡ inputs.can_be_left_in codec.now index node.now }
{
    let selects_amplifier = is_input_converter(node) && node.has_input_amplifier();
    can_be_left(codec, index, node) && (!selects_amplifier || index <= 15)
}

/// Whether paths of the direction may have the node.
fn can_carry_along(direction: Direction, node: &RawNode) -> bool
    ensures { result ≡ spec.can_carry_along direction node.now }
{
    match direction {
        Direction::Out(kind) => can_carry(kind, node),
        Direction::In => is_analog_stereo(node),
    }
}

/// Whether paths of the direction may leave the node by the connection at this index, whatever other paths do.
fn can_be_left_along(direction: Direction, codec: &RawCodec, index: usize, node: &RawNode) -> bool
    ensures { result ≡ spec.can_be_left_along direction codec.now index node.now }
{
    match direction {
        Direction::Out(kind) => can_be_left_as(kind, codec, index, node),
        Direction::In => can_be_left_in(codec, index, node),
    }
}

/// Whether a path of the direction may leave the node by the connection at this index.
pub(crate) fn can_leave(
    direction: Direction,
    codec: &RawCodec,
    left: Left,
    index: usize,
    node: &RawNode,
) -> bool
    ensures { result ≡ spec.can_leave direction codec.now left index node.now }
{
    can_carry_along(direction, node)
        && can_be_left_along(direction, codec, index, node)
        && (!node.is_inner() || left.allows(index))
}

/// The bit of the PCM word for a sample rate (HDA 1.0a, 7.3.4.7).
fn rate_bit(rate: Rate) -> u32
    ensures value { result ≡ formats.rate_bit rate }
    ensures below { result < 32 }
{
    match rate {
        Rate::R8 => 0,
        Rate::R16 => 2,
        Rate::R44 => 5,
        Rate::R48 => 6,
        Rate::R96 => 8,
        Rate::R192 => 10,
    }
}

/// The bit of the PCM word for a sample size (HDA 1.0a, 7.3.4.7).
fn size_bit(bits: Bits) -> u32
    ensures value { result ≡ formats.size_bit bits }
    ensures below { result < 32 }
{
    match bits {
        Bits::B16 => 17,
        Bits::B24 => 19,
        Bits::B32 => 20,
    }
}

/// Whether the converter takes PCM of the format's rate and sample size.
fn supports(codec: &RawCodec, format: Format, node: &RawNode) -> bool
    ensures { result ≡ formats.supports codec.now format.rate format.bits node.now }
{
    let pcm = codec.pcm_word(node);
    has_bit(codec.formats_word(node), 0)
        && has_bit(pcm, rate_bit(format.rate))
        && has_bit(pcm, size_bit(format.bits))
}

/// Whether the node is a converter that can end a route of the kind and the format.
fn can_end(kind: PinKind, codec: &RawCodec, format: Format, node: &RawNode) -> bool
    ensures { result ≡ spec.can_end kind codec.now format node.now }
{
    node.is_output_converter() && can_carry(kind, node) && supports(codec, format, node)
}

/// Whether the entry's route, if it has one, ends elsewhere or carries the same pair of channels.
fn carries_alike(pair: u8, nid: u8, entry: &PinPlan) -> bool
    ensures { result ≡ spec.carries_alike pair nid entry.now }
{
    match &entry.outcome {
        Outcome::Route(other) => other.converter != nid || pair == entry.pair,
        Outcome::Blocked | Outcome::NoPath => true,
    }
}

/// Whether a route of the kind with this pair of channels may end at the node, beside the routes of the earlier
/// entries.
pub(crate) fn is_end(
    kind: PinKind,
    codec: &RawCodec,
    format: Format,
    earlier: &[PinPlan],
    pair: u8,
    nid: u8,
) -> bool
    ensures { result ≡ spec.is_end kind codec.now format earlier.now pair nid }
{
    match codec.node(nid) {
        Some(node) => can_end(kind, codec, format, node)
            && earlier.iter().all(|entry| carries_alike(pair, nid, entry)),
        None => false,
    }
}

/// Whether a path of an input may begin at the node: it is an input converter that gives the format.
pub(crate) fn is_begin(codec: &RawCodec, format: Format, nid: u8) -> bool
    ensures { result ≡ spec.is_begin codec.now format nid }
{
    match codec.node(nid) {
        Some(node) => is_input_converter(node) && supports(codec, format, node),
        None => false,
    }
}

/// Whether the node is a mixer or a selector.
pub(crate) fn is_inner(codec: &RawCodec, nid: u8) -> bool
    ensures { result ≡ spec.is_inner_at codec.now nid }
{
    match codec.node(nid) {
        Some(node) => node.is_inner(),
        None => false,
    }
}
