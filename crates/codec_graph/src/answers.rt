//! What a codec answers to a command.
ghost use Rattle.std.specs.Prelude.{◌≡◌, ◌<◌, ◌^◌, true, false, All, slice_index};
ghost use Rattle.codec_graph.specs.Settings.{IsSettingsOf};
ghost use Rattle.codec_graph.specs.Cycles.{IsWellFormed};
ghost use Rattle.codec_graph.specs.VerbMeaning as spec;
ghost use Rattle.codec_graph.specs.Widget.{node_at};

use crate::controls::Control;
use crate::graph::Graph;
use crate::parameters::parameter;
use crate::presence::Presence;
use crate::raw::RawCodec;
use crate::settings::Settings;
use verb_codes::{AmpSide, Command, Verb};

/// What GetPower answers for each step of the power state: the state that is and the state that was set, in bits 7:4
/// and 3:0.
const POWER_ANSWER: u32 = 0x11;
/// The bit of GetSense that says that something is plugged in.
const PRESENT: u32 = 1 << 31;

/// The answer of a codec with these settings to a command, whichever codec the command names (HDA 1.0a, 7.3.3). A set
/// verb is answered with 0, and so is every verb at a node that does not have its control. Takes no longer than a
/// look-up of a setting.
#[tactic(auto, unfolding(crate::specs::VerbMeaning::answer_of))]
pub fn answer(graph: &Graph, settings: &Settings, present: &Presence, verb: &Command) -> u32
    requires { IsSettingsOf graph.now settings.now }
    ensures { result ≡ spec.answer_of graph.now settings.now present.now verb.now }
{
    let codec = graph.raw();
    let nid = verb.nid;
    match verb.verb {
        Verb::GetParam(number) => parameter(codec, nid, number),
        Verb::GetSelect => settings.setting(nid, Control::Select),
        Verb::GetList(place) => connections(codec, nid, place),
        Verb::GetPower => POWER_ANSWER * settings.setting(nid, Control::Power),
        Verb::GetStream => settings.setting(nid, Control::Stream),
        Verb::GetPin => settings.setting(nid, Control::Pin),
        Verb::GetUnsol => settings.setting(nid, Control::Unsol),
        Verb::GetSense => sense(codec, present, nid),
        Verb::GetEapd => settings.setting(nid, Control::Eapd),
        Verb::GetDigital => settings.setting(nid, Control::Digital),
        Verb::GetDefault => settings.setting(nid, Control::Default),
        Verb::GetFormat => settings.setting(nid, Control::Format),
        Verb::GetAmp(side) => settings.setting(nid, side_control(AmpSide::of_payload(side))),
        Verb::SetSelect(_) | Verb::SetPower(_) | Verb::SetStream(_) | Verb::SetPin(_) => 0,
        Verb::SetUnsol(_) | Verb::SetEapd(_) | Verb::SetDigital(_) | Verb::SetDefault(_, _) => 0,
        Verb::SetFormat(_) | Verb::SetAmp(_) => 0,
    }
}

/// The control of one side of an amplifier.
fn side_control(side: AmpSide) -> Control
    ensures { result ≡ spec.side_control side }
{
    match (side.output, side.left) {
        (true, true) => Control::OutLeft,
        (true, false) => Control::OutRight,
        (false, true) => Control::InLeft(side.place),
        (false, false) => Control::InRight(side.place),
    }
}

/// Whether a pin that can tell has something plugged in, in bit 31.
fn sense(codec: &RawCodec, present: &Presence, nid: u8) -> u32
    requires { IsWellFormed codec.now }
    ensures { result ≡ spec.node_sense (node_at codec.now nid) (spec.is_present present.now nid) }
{
    match codec.node(nid) {
        Some(node) if node.detects_presence() && present.has(nid) => PRESENT,
        _ => 0,
    }
}

/// The word of a node's connection list that has the entry at this place.
fn connections(codec: &RawCodec, nid: u8, place: u8) -> u32
    requires { IsWellFormed codec.now }
    ensures { result ≡ spec.node_list_word (node_at codec.now nid) place }
{
    match codec.node(nid) {
        Some(node) if node.long => list_word_long(node.entries.as_slice(), place - place % 2),
        Some(node) => list_word_short(node.entries.as_slice(), place - place % 4),
        None => 0,
    }
}

/// Two entries of 16 bits from this place on, lowest bits first.
fn list_word_long(entries: &[u16], place: u8) -> u32
    ensures { result ≡ spec.list_word true entries.now place }
{
    let place = usize::from(place);
    entry(entries, place) + (entry(entries, place + 1) << 16)
}

/// Four entries of 8 bits from this place on, lowest bits first.
fn list_word_short(entries: &[u16], place: u8) -> u32
    requires { All (λ entry. entry < 2 ^ 8) entries.now }
    ensures { result ≡ spec.list_word false entries.now place }
{
    let place = usize::from(place);
    let low = short_entry(entries, place) + (short_entry(entries, place + 1) << 8);
    low + (short_entry(entries, place + 2) << 16) + (short_entry(entries, place + 3) << 24)
}

/// The entry of 16 bits at this place, and 0 past the end.
fn entry(entries: &[u16], place: usize) -> u32
    ensures value { result ≡ slice_index entries.now place }
    ensures narrow { result < 2 ^ 16 }
{
    entries.get(place).map_or(0, |entry| u32::from(*entry))
}

/// The entry of 8 bits at this place, and 0 past the end.
fn short_entry(entries: &[u16], place: usize) -> u32
    requires { All (λ entry. entry < 2 ^ 8) entries.now }
    ensures value { result ≡ slice_index entries.now place }
    ensures narrow { result < 2 ^ 8 }
{
    entry(entries, place)
}
