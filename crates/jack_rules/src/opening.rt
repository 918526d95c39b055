//! Which pins are jacks and speakers.
ghost use Rattle.std.specs.Prelude.{◌≡◌, ◌≤◌, ◌<◌, ◌++◌, All, IfOk, OnOk, length, map};
ghost use Rattle.std.specs.List.{list_any};
ghost use Rattle.codec_graph.specs.Widget.{node_at};
ghost use Rattle.jack_rules.specs.JackPins as pins;
ghost use Rattle.jack_rules.specs.Switching as spec;

use crate::pins::{JackPin, JackState, SpeakerPin, SpeakerState};
use codec_graph::{Graph, RawCodec, RawNode, bits_of};
use route_planner::{Outcome, PinPlan, Plan, is_headphone};
use std::alloc::{AllocError, Global};

/// The device of a speaker in a configuration default (HDA 1.0a, 7.3.3.31).
const SPEAKER_DEVICE: u32 = 1;

/// Whether a pin is a headphone that detects whether something is plugged in, and tells of a change unasked.
fn is_jack(node: &RawNode) -> bool
    ensures { result ≡ pins.is_jack_node node.now }
{
    is_headphone(node) && node.detects_presence() && node.sends_unsolicited()
}

/// Whether a pin is a speaker.
fn is_speaker(node: &RawNode) -> bool
    ensures { result ≡ pins.is_speaker_node node.now }
{
    node.is_pin() && bits_of(node.default, 20, 4) == SPEAKER_DEVICE
}

/// The jack of a node, where it is one.
fn jack_of(codec: &RawCodec, place: usize, pin: u8) -> Option<JackPin>
    requires { place < usize.MAX }
    ensures { result ≡ pins.jack_of codec.now place pin (node_at codec.now pin) }
{
    let node = codec.node(pin)?;
    if !is_jack(node) {
        return None;
    }
    Some(JackPin {
        codec: codec.address,
        pin,
        tag: place + 1,
        association: node.association(),
    })
}

/// The jack of an entry of a plan, where it is one.
fn jack_at(codec: &RawCodec, place: usize, entry: &PinPlan) -> Option<JackPin>
    requires { place < usize.MAX }
    ensures { result ≡ pins.jack_at codec.now place entry.now.pin entry.now.outcome }
{
    match &entry.outcome {
        Outcome::Route(_) => jack_of(codec, place, entry.pin),
        Outcome::Blocked | Outcome::NoPath => None,
    }
}

/// The speaker of a node, where it is one.
fn speaker_of(codec: &RawCodec, pin: u8) -> Option<SpeakerPin>
    ensures { result ≡ pins.speaker_of codec.now pin (node_at codec.now pin) }
{
    let node = codec.node(pin)?;
    if !is_speaker(node) {
        return None;
    }
    Some(SpeakerPin {
        codec: codec.address,
        pin,
        association: node.association(),
    })
}

/// The speaker of an entry of a plan, where it is one.
fn speaker_at(codec: &RawCodec, entry: &PinPlan) -> Option<SpeakerPin>
    ensures { result ≡ pins.speaker_at codec.now entry.now.pin entry.now.outcome }
{
    match &entry.outcome {
        Outcome::Route(_) => speaker_of(codec, entry.pin),
        Outcome::Blocked | Outcome::NoPath => None,
    }
}

/// Whether a jack is of a speaker's codec and association.
fn is_companion(speaker: &SpeakerPin, jack: &JackPin) -> bool
    ensures { result ≡ pins.is_companion speaker.now jack.now }
{
    jack.codec == speaker.codec && jack.association == speaker.association
}

/// Whether some jack is of a speaker's codec and association.
fn has_jack(jacks: &[JackState], speaker: &SpeakerPin) -> bool
    ensures { result ≡ list_any (λ state. pins.is_companion speaker.now state.jack) jacks.now }
{
    jacks.iter().any(|state| is_companion(speaker, &state.jack))
}

/// The speaker of an entry, where it is one of some jack.
fn companion_at(jacks: &[JackState], codec: &RawCodec, entry: &PinPlan) -> Option<SpeakerPin>
    ensures { result ≡ pins.speaker_if (map spec.pin_of jacks.now)
        (pins.speaker_at codec.now entry.now.pin entry.now.outcome) }
{
    let speaker = speaker_at(codec, entry)?;
    if has_jack(jacks, &speaker) {
        Some(speaker)
    } else {
        None
    }
}

/// Puts the jacks of a plan last.
fn push_jacks(
    jacks: &mut Vec<JackState>,
    codec: &RawCodec,
    entries: &[PinPlan],
) -> Result<(), AllocError>
    ensures { OnOk result (jacks.new.items
        ≡ jacks.old.items ++ map spec.jack_opened (pins.jacks_from codec.now 0 entries.now)) }
{
    for (place, entry) in entries.iter().enumerate() {
        if let Some(jack) = jack_at(codec, place, entry) {
            jacks.push(JackState {
                jack,
                to_ask: true,
                present: false,
            })?;
        }
    }
    Ok(())
}

/// Puts the speakers of a plan last that are of some of these jacks.
fn push_speakers(
    speakers: &mut Vec<SpeakerState>,
    jacks: &[JackState],
    codec: &RawCodec,
    entries: &[PinPlan],
) -> Result<(), AllocError>
    ensures { OnOk result (speakers.new.items ≡ speakers.old.items
        ++ map spec.speaker_opened (pins.speakers_from (map spec.pin_of jacks.now) codec.now entries.now)) }
{
    for entry in entries {
        if let Some(speaker) = companion_at(jacks, codec, entry) {
            speakers.push(SpeakerState { speaker, on: true })?;
        }
    }
    Ok(())
}

/// The jacks of codecs with these plans, each to be asked and absent.
pub(crate) fn open_jacks(
    alloc: Global,
    graphs: &[Graph],
    plans: &[Plan],
) -> Result<Vec<JackState>, AllocError>
    requires one_each { length plans.now ≡ length graphs.now }
    requires few { All (λ codec. codec.address ≤ 14) graphs.now }
    ensures items { IfOk result (λ jacks. jacks.items ≡ map spec.jack_opened (pins.jacks_of graphs.now plans.now)) }
    ensures reach { IfOk result (λ jacks. spec.JacksReach jacks.items) }
{
    let mut jacks = Vec::new(alloc);
    for place in 0..graphs.len() {
        let codec = graphs[place].raw();
        push_jacks(&mut jacks, codec, plans[place].pins.as_slice())?;
    }
    Ok(jacks)
}

/// The speakers of codecs with these plans that are of some of these jacks, each on.
pub(crate) fn open_speakers(
    alloc: Global,
    jacks: &[JackState],
    graphs: &[Graph],
    plans: &[Plan],
) -> Result<Vec<SpeakerState>, AllocError>
    requires one_each { length plans.now ≡ length graphs.now }
    requires few { All (λ codec. codec.address ≤ 14) graphs.now }
    ensures items { IfOk result (λ speakers. speakers.items
        ≡ map spec.speaker_opened (pins.speakers_among (map spec.pin_of jacks.now) graphs.now plans.now)) }
    ensures reach { IfOk result (λ speakers. spec.SpeakersReach speakers.items) }
{
    let mut speakers = Vec::new(alloc);
    for place in 0..graphs.len() {
        let codec = graphs[place].raw();
        push_speakers(&mut speakers, jacks, codec, plans[place].pins.as_slice())?;
    }
    Ok(speakers)
}
