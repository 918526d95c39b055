//! What amplifiers do to a signal.
ghost use Rattle.std.specs.Prelude.{◌≡◌};
ghost use Rattle.codec_graph.specs.Settings.{setting_of};
ghost use Rattle.codec_sound.specs.Amplifiers as spec;

use crate::signals::Signal;
use codec_graph::{
    Control, MOST_AMPLIFIED, RawCodec, RawNode, Settings, amplifier_offset, bits_of, has_bit,
};

/// The bit of a side's setting that mutes it (HDA 1.0a, 7.3.3.7).
const MUTE: u32 = 7;

/// How many bits its gain has, from bit 0 up.
const GAIN_BITS: u32 = 7;

/// What the control is set to, and 0 where the node does not have it.
pub(crate) fn setting(settings: &Settings, nid: u8, control: Control) -> u32
    ensures { result ≡ setting_of settings.now nid control }
{
    settings.get(nid, control).unwrap_or(0)
}

/// Whether the side is muted.
fn is_muted(setting: u32) -> bool
    ensures { result ≡ spec.is_muted setting }
{
    has_bit(setting, MUTE)
}

/// Whether the side is not muted and at this 0 dB step.
fn is_neutral(offset: u32, setting: u32) -> bool
    ensures { result ≡ spec.is_neutral offset setting }
{
    !is_muted(setting) && bits_of(setting, 0, GAIN_BITS) == offset
}

/// The signal after an amplifier with this 0 dB step whose sides are set so.
fn amplified(offset: u32, left: u32, right: u32, signal: Signal) -> Signal
    ensures { result ≡ spec.amplified offset left right signal }
{
    if is_muted(left) && is_muted(right) {
        return Signal::Silence;
    }
    let neutral = is_neutral(offset, left) && is_neutral(offset, right);
    signal.changed_if(!neutral)
}

/// The signal after the widget's output amplifier, if it has one.
pub(crate) fn after_output(
    codec: &RawCodec,
    settings: &Settings,
    nid: u8,
    node: &RawNode,
    signal: Signal,
) -> Signal
    ensures { result ≡ spec.after_output codec.now settings.now nid node.now signal }
{
    if !node.has_output_amplifier() {
        return signal;
    }
    let offset = amplifier_offset(codec.output_amplifier_word(node));
    let left = setting(settings, nid, Control::OutLeft);
    let right = setting(settings, nid, Control::OutRight);
    amplified(offset, left, right, signal)
}

/// The signal after the widget's input amplifier at this place, if it has input amplifiers.
pub(crate) fn after_input(
    codec: &RawCodec,
    settings: &Settings,
    nid: u8,
    node: &RawNode,
    place: usize,
    signal: Signal,
) -> Signal
    ensures { result ≡ spec.after_input codec.now settings.now nid node.now place signal }
{
    if !node.has_input_amplifier() {
        return signal;
    }
    if place >= usize::from(MOST_AMPLIFIED) {
        return signal.changed();
    }
    let offset = amplifier_offset(codec.input_amplifier_word(node));
    let left = setting(settings, nid, Control::InLeft(place as u8));
    let right = setting(settings, nid, Control::InRight(place as u8));
    amplified(offset, left, right, signal)
}
