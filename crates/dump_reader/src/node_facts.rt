//! Reads what a line with a label says of the function group or of a widget.
ghost use Rattle.std.specs.Prelude.{◌≡◌, IfOk, slice_get};
ghost use Rattle.dump_reader.specs.Facts as spec;
ghost use Rattle.dump_reader.specs.Reading as meaning;

use crate::facts::{Gain, NodeFacts, NodeLines};
use crate::labels::Label;
use crate::numbers::{has_word, number_at};
use crate::operands::{
    amplifier_or_none, byte_of, digital_in, gains_in, pin_caps_in, power_states_in, state_in,
    stream_of, unsolicited_in, word_of,
};
use crate::wait::Wait;
use hda_items::Items;
use std::alloc::{AllocError, Global};

/// Nothing is known yet of the node that begins on this line, but its identifier and its capabilities.
pub(crate) fn plain_facts(alloc: Global, line: u32, nid: u8, caps: u32) -> NodeFacts
    ensures { result ≡ spec.plain_facts line nid caps }
{
    NodeFacts {
        nid,
        caps,
        pcm: None,
        formats: None,
        pin_caps: None,
        is_old_pin_caps: false,
        amp_in: None,
        amp_out: None,
        power: None,
        default: None,
        list: None,
        select: None,
        power_state: None,
        stream: None,
        control: None,
        unsol: None,
        eapd: None,
        digital: None,
        gain_out: None,
        gains_in: None,
        lines: NodeLines {
            node: line,
            amp_in: 0,
            amp_out: 0,
            list: 0,
        },
        notes: Items::new(alloc),
        others: 0,
        first_other: 0,
    }
}

/// Whether a label is among the notes.
fn is_noted(notes: &[Label], label: Label) -> bool
    ensures { result ≡ spec.is_noted notes.now label }
{
    notes
        .iter()
        .any(|other| other.text().as_bytes() == label.text().as_bytes())
}

/// Notes once that a line with this label says something that has no key.
pub(crate) fn noted(label: Label, facts: NodeFacts) -> Result<NodeFacts, AllocError>
    ensures { IfOk result (λ after. after ≡ spec.noted label facts) }
{
    let mut facts = facts;
    if !is_noted(facts.notes.as_slice(), label) {
        facts.notes.push(label)?;
    }
    Ok(facts)
}

/// Notes that a line without a label says something that has no key.
pub(crate) fn with_other(line: u32, facts: NodeFacts) -> NodeFacts
    ensures { result ≡ spec.with_other line facts }
{
    let mut facts = facts;
    if facts.others == 0 {
        facts.first_other = line;
    }
    facts.others = facts.others.saturating_add(1);
    facts
}

/// A fact that a line has whole.
fn alone(found: Option<NodeFacts>) -> Option<(NodeFacts, Wait)>
    ensures { result ≡ meaning.alone found }
{
    let facts = found?;
    Some((facts, Wait::Nothing))
}

/// What is awaited behind a PCM line that has no numbers.
fn wait_for_pcm(text: &[u8]) -> Wait
    ensures { result ≡ meaning.wait_for_pcm text.now }
{
    if has_word(text, b"N/A".as_slice()) {
        Wait::Nothing
    } else {
        Wait::Rates
    }
}

/// The PCM line of an old kernel.
fn pcm_of(fields: &[u32], facts: NodeFacts) -> Option<NodeFacts>
    ensures { result ≡ meaning.pcm_of fields.now facts }
{
    let mut facts = facts;
    let rates = number_at(fields, 0, 0, 65_535)?;
    let bits = number_at(fields, 1, 0, 65_535)?;
    let formats = number_at(fields, 2, 0, u32::MAX)?;
    if facts.pcm.is_some() {
        return None;
    }
    facts.pcm = Some(bits * 0x1_0000 + rates);
    facts.formats = Some(formats);
    Some(facts)
}

/// A PCM line, which has all in old kernels.
fn pcm_fact(text: &[u8], fields: &[u32], facts: NodeFacts) -> Option<(NodeFacts, Wait)>
    ensures { result ≡ meaning.pcm_fact text.now fields.now facts }
{
    if fields.is_empty() {
        return Some((facts, wait_for_pcm(text)));
    }
    alone(pcm_of(fields, facts))
}

/// How many connections a widget has; their line follows, where there are any.
fn list_fact(
    alloc: Global,
    line: u32,
    fields: &[u32],
    facts: NodeFacts,
) -> Option<(NodeFacts, Wait)>
    ensures { result ≡ meaning.list_fact line fields.now facts }
{
    let mut facts = facts;
    let count = number_at(fields, 0, 0, 127)?;
    if facts.list.is_some() {
        return None;
    }
    facts.list = Some(Items::new(alloc));
    facts.lines.list = line;
    let wait = if count == 0 {
        Wait::Nothing
    } else {
        Wait::List(count as u8)
    };
    Some((facts, wait))
}

/// How many connections the driver takes; their line follows, where there are any.
fn passed_fact(fields: &[u32], facts: NodeFacts) -> Option<(NodeFacts, Wait)>
    ensures { result ≡ meaning.passed_fact fields.now facts }
{
    let count = number_at(fields, 0, 0, u32::MAX)?;
    let wait = if count == 0 {
        Wait::Nothing
    } else {
        Wait::Passed
    };
    Some((facts, wait))
}

/// The input amplifier's capabilities.
fn amp_in_fact(line: u32, fields: &[u32], facts: NodeFacts) -> Option<NodeFacts>
    ensures { result ≡ meaning.amp_in_fact line fields.now facts }
{
    let mut facts = facts;
    let word = amplifier_or_none(fields)?;
    if let Some(word) = word {
        if facts.amp_in.is_some() {
            return None;
        }
        facts.amp_in = Some(word);
    }
    facts.lines.amp_in = line;
    Some(facts)
}

/// The output amplifier's capabilities.
fn amp_out_fact(line: u32, fields: &[u32], facts: NodeFacts) -> Option<NodeFacts>
    ensures { result ≡ meaning.amp_out_fact line fields.now facts }
{
    let mut facts = facts;
    let word = amplifier_or_none(fields)?;
    if let Some(word) = word {
        if facts.amp_out.is_some() {
            return None;
        }
        facts.amp_out = Some(word);
    }
    facts.lines.amp_out = line;
    Some(facts)
}

/// Mute and gain of the input amplifiers.
fn gains_in_fact(
    alloc: Global,
    text: &[u8],
    facts: NodeFacts,
) -> Result<Option<NodeFacts>, AllocError>
    ensures { IfOk result (λ after. after ≡ meaning.gains_in_fact text.now facts) }
{
    let mut facts = facts;
    let Some(gains) = gains_in(alloc, text)? else {
        return Ok(None);
    };
    if facts.gains_in.is_some() {
        return Ok(None);
    }
    facts.gains_in = Some(gains);
    Ok(Some(facts))
}

/// The first of some gains.
fn first_gain(gains: &[Gain]) -> Option<Gain>
    ensures { result ≡ slice_get gains.now 0 }
{
    gains.first().copied()
}

/// Mute and gain of the output amplifier.
fn gain_out_fact(
    alloc: Global,
    text: &[u8],
    facts: NodeFacts,
) -> Result<Option<NodeFacts>, AllocError>
    ensures { IfOk result (λ after. after ≡ meaning.gain_out_fact text.now facts) }
{
    let mut facts = facts;
    let Some(gains) = gains_in(alloc, text)? else {
        return Ok(None);
    };
    if let Some(gain) = first_gain(gains.as_slice()) {
        if facts.gain_out.is_some() {
            return Ok(None);
        }
        facts.gain_out = Some(gain);
    }
    Ok(Some(facts))
}

/// Stream tag and channel.
fn stream_fact(fields: &[u32], facts: NodeFacts) -> Option<NodeFacts>
    ensures { result ≡ meaning.stream_fact fields.now facts }
{
    let mut facts = facts;
    let found = stream_of(fields)?;
    if facts.stream.is_some() {
        return None;
    }
    facts.stream = Some(found);
    Some(facts)
}

/// The digital converter's control.
fn digital_fact(text: &[u8], facts: NodeFacts) -> Option<NodeFacts>
    ensures { result ≡ meaning.digital_fact text.now facts }
{
    let mut facts = facts;
    let found = digital_in(text);
    if facts.digital.is_some() {
        return None;
    }
    facts.digital = Some(found);
    Some(facts)
}

/// Pin capabilities.
fn pin_caps_fact(text: &[u8], facts: NodeFacts) -> Option<NodeFacts>
    ensures { result ≡ meaning.pin_caps_fact text.now facts }
{
    let mut facts = facts;
    let (caps, is_old) = pin_caps_in(text)?;
    if facts.pin_caps.is_some() {
        return None;
    }
    facts.pin_caps = Some(caps);
    facts.is_old_pin_caps = is_old;
    Some(facts)
}

/// Configuration default.
fn default_fact(fields: &[u32], facts: NodeFacts) -> Option<NodeFacts>
    ensures { result ≡ meaning.default_fact fields.now facts }
{
    let mut facts = facts;
    let found = word_of(fields)?;
    if facts.default.is_some() {
        return None;
    }
    facts.default = Some(found);
    Some(facts)
}

/// Pin control.
fn control_fact(fields: &[u32], facts: NodeFacts) -> Option<NodeFacts>
    ensures { result ≡ meaning.control_fact fields.now facts }
{
    let mut facts = facts;
    let found = byte_of(fields)?;
    if facts.control.is_some() {
        return None;
    }
    facts.control = Some(found);
    Some(facts)
}

/// The external amplifier's control.
fn eapd_fact(fields: &[u32], facts: NodeFacts) -> Option<NodeFacts>
    ensures { result ≡ meaning.eapd_fact fields.now facts }
{
    let mut facts = facts;
    let found = byte_of(fields)?;
    if facts.eapd.is_some() {
        return None;
    }
    facts.eapd = Some(found);
    Some(facts)
}

/// The control of unsolicited responses.
fn unsol_fact(text: &[u8], facts: NodeFacts) -> Option<NodeFacts>
    ensures { result ≡ meaning.unsol_fact text.now facts }
{
    let mut facts = facts;
    let found = unsolicited_in(text)?;
    if facts.unsol.is_some() {
        return None;
    }
    facts.unsol = Some(found);
    Some(facts)
}

/// Supported power states.
fn power_fact(text: &[u8], facts: NodeFacts) -> Option<NodeFacts>
    ensures { result ≡ meaning.power_fact text.now facts }
{
    let mut facts = facts;
    let found = power_states_in(text);
    if facts.power.is_some() {
        return None;
    }
    facts.power = Some(found);
    Some(facts)
}

/// The power state; another than D0 to D3 has no key.
fn state_fact(text: &[u8], facts: NodeFacts) -> Result<Option<NodeFacts>, AllocError>
    ensures { IfOk result (λ after. after ≡ meaning.state_fact text.now facts) }
{
    let mut facts = facts;
    let Some(state) = state_in(text) else {
        return Ok(Some(noted(Label::Power, facts)?));
    };
    if facts.power_state.is_some() {
        return Ok(None);
    }
    facts.power_state = Some(state);
    Ok(Some(facts))
}

/// What a line of this label, with this text and these numbers behind it, says of the function group or of a widget.
#[tactic(auto, unfolding(crate::specs::Reading::node_fact))]
pub(crate) fn node_fact(
    alloc: Global,
    line: u32,
    label: Label,
    text: &[u8],
    fields: &[u32],
    facts: NodeFacts,
) -> Result<Option<(NodeFacts, Wait)>, AllocError>
    ensures { IfOk result (λ after. after ≡ meaning.node_fact line label text.now fields.now facts) }
{
    match label {
        Label::Pcm => Ok(pcm_fact(text, fields, facts)),
        Label::AmpIn => Ok(alone(amp_in_fact(line, fields, facts))),
        Label::AmpOut => Ok(alone(amp_out_fact(line, fields, facts))),
        Label::PowerStates => Ok(alone(power_fact(text, facts))),
        Label::Power => Ok(alone(state_fact(text, facts)?)),
        Label::GainsIn => Ok(alone(gains_in_fact(alloc, text, facts)?)),
        Label::GainOut => Ok(alone(gain_out_fact(alloc, text, facts)?)),
        Label::Converter => Ok(alone(stream_fact(fields, facts))),
        Label::Digital => Ok(alone(digital_fact(text, facts))),
        Label::PinCaps => Ok(alone(pin_caps_fact(text, facts))),
        Label::PinDefault => Ok(alone(default_fact(fields, facts))),
        Label::PinControl => Ok(alone(control_fact(fields, facts))),
        Label::Eapd => Ok(alone(eapd_fact(fields, facts))),
        Label::Unsolicited => Ok(alone(unsol_fact(text, facts))),
        Label::Connection => Ok(list_fact(alloc, line, fields, facts)),
        Label::DriverConnection => Ok(passed_fact(fields, facts)),
        // These say again what another line says.
        Label::VrefCaps | Label::PinPlace | Label::PinAssociation | Label::PinMisc => {
            Ok(Some((facts, Wait::Nothing)))
        }
        Label::NoModem | Label::GpioPin | Label::DeviceEntry => Ok(Some((facts, Wait::Nothing))),
        Label::ControlAmplifier | Label::Coefficient => Ok(Some((facts, Wait::Nothing))),
        // These have no key.
        Label::Subsystem | Label::ModemType | Label::Modem | Label::Gpio | Label::Control => {
            Ok(alone(Some(noted(label, facts)?)))
        }
        Label::Device | Label::Devices | Label::SdiSelect | Label::DigitalCategory => {
            Ok(alone(Some(noted(label, facts)?)))
        }
        Label::CodingType | Label::VolumeKnob | Label::Delay | Label::Processing => {
            Ok(alone(Some(noted(label, facts)?)))
        }
        // These stand elsewhere.
        _ => Ok(None),
    }
}

/// As what a line of the function group is read.
pub(crate) fn group_label(label: Label) -> Option<Label>
    ensures { result ≡ meaning.group_label label }
{
    match label {
        Label::DefaultPcm => Some(Label::Pcm),
        Label::DefaultAmpIn => Some(Label::AmpIn),
        Label::DefaultAmpOut => Some(Label::AmpOut),
        Label::Pcm | Label::AmpIn | Label::AmpOut | Label::GainsIn | Label::GainOut => None,
        Label::Converter | Label::Digital | Label::PinCaps | Label::PinDefault => None,
        Label::PinControl | Label::Eapd | Label::Unsolicited => None,
        Label::Connection | Label::DriverConnection => None,
        other => Some(other),
    }
}
