//! What the controls of a codec's nodes are set to.
ghost use Rattle.std.specs.Prelude.{◌≡◌, ℕ, Some, None, [], ◌∷◌, ◌++◌, ◌+◌, ◌<◌, ◌^◌, IsTrue, IfOk, OnOk, All};
ghost use Rattle.std.specs.Prelude.{if◌then◌else◌, ◌&&◌};
ghost use Rattle.codec_graph.specs.declared.controls.Control.{Control};
ghost use Rattle.codec_graph.specs.Cycles.{IsWellFormed};
ghost use Rattle.codec_graph.specs.Settings as spec;
ghost use Rattle.codec_graph.specs.Openings.{opened_so_far};
ghost use Rattle.codec_graph.specs.VerbMeaning as meaning;
ghost use Rattle.codec_graph.specs.Widget.{node_at};
ghost use Rattle.std.specs.Map.{keys_of};
ghost use Rattle.std.specs.List.Sorted.{IsStrictlySortedBy};
ghost use Rattle.verb_codes.specs.Verbs.{is_verb_in_range};

use crate::amplifiers::{amplifier_offset, amplifier_steps, can_mute};
use crate::controls::{Control, ControlKey};
use crate::graph::Graph;
use crate::limits::{MOST_AMPLIFIED, NODE_IDENTIFIERS};
use crate::raw::{RawCodec, RawNode};
use std::alloc::{AllocError, Global};
use std::collections::BTreeMap;
use std::marker::Model;
use verb_codes::{AmpSetting, Command, PinControl, Verb};

/// The controls but those of the input amplifiers.
const PLAIN_CONTROLS: [Control; 11] = [
    Control::Select,
    Control::Power,
    Control::Stream,
    Control::Pin,
    Control::Unsol,
    Control::Eapd,
    Control::Digital,
    Control::Default,
    Control::Format,
    Control::OutLeft,
    Control::OutRight,
];

/// The bits of the pin control that are kept: headphone, out and in (HDA 1.0a, 7.3.3.13).
const PIN_BITS: u8 = PinControl::HEADPHONE.0 | PinControl::OUTPUT.0 | PinControl::INPUT.0;

/// The bits of the control of unsolicited responses that are kept: enable and tag (HDA 1.0a, 7.3.3.14).
const UNSOL_BITS: u8 = 0xBF;

/// The bit of the external amplifier's control that is kept (HDA 1.0a, 7.3.3.16).
const EAPD_BIT: u8 = 0x02;

/// The mute of an amplifier's side (HDA 1.0a, 7.3.3.7).
const MUTE: u32 = 1 << 7;

/// The settings of a codec, by node and control. Contracts see the entries in the order of the keys.
#[derive(Debug, Drop)]
pub struct Settings {
    map: BTreeMap<ControlKey, u32>,
}

impl Model for Settings {
    ghost use Rattle.codec_graph.specs.Settings.{Entries};

    ghost Value = { Entries };

    ghost view = { λ settings. settings.map.entries };
}

impl Settings {
    /// The settings with which a codec begins: an amplifier is muted where it can mute and else at its 0 dB step, a pin
    /// has its configuration default, and every other control is 0.
    ///
    /// # Errors
    /// Want of memory.
    pub fn opening(alloc: Global, graph: &Graph) -> Result<Settings, AllocError>
        ensures value { IfOk result (λ settings. settings ≡ spec.opening graph.now) }
        ensures of_graph { IfOk result (spec.IsSettingsOf graph.now) }
        ensures each { IfOk result (λ settings. (nid : ℕ) (control : Control) → spec.setting_at settings nid control
            ≡ (if spec.has_control graph.now nid control
            then Some (spec.opening_value graph.now nid control) else None)) }
    {
        let codec = graph.raw();
        let mut settings = Settings {
            map: BTreeMap::new(alloc),
        };
        for nid in 0..NODE_IDENTIFIERS as u8 {
            settings.open_node(codec, nid)?;
        }
        Ok(settings)
    }

    /// Gives each control of the node its opening value, after those of the nodes below it.
    fn open_node(&mut self, codec: &RawCodec, nid: u8) -> Result<(), AllocError>
        requires { self.old ≡ opened_so_far codec.now (spec.keys_below nid) }
        ensures value { OnOk result (self.new ≡ opened_so_far codec.now (spec.keys_below (nid + 1))) }
        ensures each { OnOk result (All spec.IsSetting self.old → All spec.IsSetting self.new) }
    {
        for control in PLAIN_CONTROLS {
            self.open(codec, nid, control)?;
        }
        for place in 0..MOST_AMPLIFIED {
            self.open(codec, nid, Control::InLeft(place))?;
        }
        for place in 0..MOST_AMPLIFIED {
            self.open(codec, nid, Control::InRight(place))?;
        }
        Ok(())
    }

    /// Gives the control its opening value, where the node has it. It comes after the controls that have one.
    fn open(&mut self, codec: &RawCodec, nid: u8, control: Control) -> Result<(), AllocError>
        requires { IsStrictlySortedBy spec.key_cmp (keys_of self.old ++ spec.key nid control ∷ []) }
        ensures value { OnOk result (self.new ≡ self.old ++ opened_so_far codec.now (spec.key nid control ∷ [])) }
        ensures each { OnOk result (All spec.IsSetting self.old → All spec.IsSetting self.new) }
    {
        if codec.has_control(nid, control) {
            let value = opening_value(codec, nid, control);
            self.map.insert(ControlKey { nid, control }, value)?;
        }
        Ok(())
    }

    /// What the control is set to, `None` exactly where the node does not have it.
    #[tactic(auto, unfolding(crate::specs::Settings::key_cmp))]
    pub fn get(&self, nid: u8, control: Control) -> Option<u32>
        ensures { result ≡ spec.setting_at self.now nid control }
    {
        self.map.get(&ControlKey { nid, control }).copied()
    }

    /// What the control is set to, and 0 where the node does not have it.
    pub(crate) fn setting(&self, nid: u8, control: Control) -> u32
        ensures { result ≡ spec.setting_of self.now nid control }
    {
        self.get(nid, control).unwrap_or(0)
    }

    /// Sets the control to another number, where the settings have it.
    pub(crate) fn put(&mut self, nid: u8, control: Control, value: u32)
        ensures { self.new ≡ spec.put self.old (spec.key nid control) value }
    {
        if let Some(setting) = self.map.get_mut(&ControlKey { nid, control }) {
            *setting = value;
        }
    }

    /// Does what a command sets, whichever codec it names (HDA 1.0a, 7.3.3). A get verb changes nothing, and neither
    /// does a verb at a node that does not have its control, nor a select at or past the end of the connection list. A
    /// gain above the steps of an amplifier is kept as the steps. The verb is in its ranges, as for `encode`. Takes no
    /// longer than some look-ups of a setting.
    pub fn apply(&mut self, graph: &Graph, verb: &Command)
        requires settings { spec.IsSettingsOf graph.now self.old }
        requires verb { IsTrue (is_verb_in_range verb.now.verb) }
        ensures value { self.new ≡ meaning.after graph.now self.old verb.now }
        ensures of_graph { spec.IsSettingsOf graph.now self.new }
        ensures keys { keys_of self.new ≡ keys_of self.old }
        ensures others { (nid : ℕ) (control : Control)
            → spec.setting_at (meaning.writes_of graph.now self.old verb.now) nid control ≡ None
            → spec.setting_at self.new nid control ≡ spec.setting_at self.old nid control }
        ensures nothing { meaning.writes_of graph.now self.old verb.now ≡ [] → self.new ≡ self.old }
    {
        self.apply_verb(graph.raw(), verb.nid, &verb.verb);
    }

    /// Does what the verb sets at the node.
    #[tactic(auto, using(crate::proofs::Writes::put_all_written))]
    fn apply_verb(&mut self, codec: &RawCodec, nid: u8, verb: &Verb)
        requires well_formed { IsWellFormed codec.now }
        requires keys { keys_of self.old ≡ spec.controls_of codec.now }
        requires verb { IsTrue (is_verb_in_range verb.now) }
        ensures { self.new ≡ spec.put_all self.old (meaning.verb_writes codec.now self.old nid verb.now) }
    {
        match *verb {
            Verb::SetSelect(place) => self.select(codec, nid, place),
            Verb::SetPower(state) => self.put(nid, Control::Power, u32::from(state % 4)),
            Verb::SetStream(stream) => self.put(nid, Control::Stream, u32::from(stream)),
            Verb::SetPin(control) => self.put(nid, Control::Pin, u32::from(control & PIN_BITS)),
            Verb::SetUnsol(control) => self.put(
                nid,
                Control::Unsol,
                u32::from(control & UNSOL_BITS),
            ),
            Verb::SetEapd(control) => self.put(nid, Control::Eapd, u32::from(control & EAPD_BIT)),
            Verb::SetDigital(control) => self.put(nid, Control::Digital, u32::from(control)),
            Verb::SetDefault(place, byte) => {
                let word = self.setting(nid, Control::Default);
                self.put(nid, Control::Default, with_byte(word, place, byte));
            }
            Verb::SetFormat(format) => self.put(nid, Control::Format, u32::from(format)),
            Verb::SetAmp(payload) => {
                self.set_amplifiers(codec, nid, AmpSetting::of_payload(payload));
            }
            Verb::GetParam(_) | Verb::GetSelect | Verb::GetList(_) | Verb::GetPower => {}
            Verb::GetStream | Verb::GetPin | Verb::GetUnsol | Verb::GetSense => {}
            Verb::GetEapd | Verb::GetDigital | Verb::GetDefault => {}
            Verb::GetFormat | Verb::GetAmp(_) => {}
        }
    }

    /// Selects a connection of the node, where it has one at this place.
    #[tactic(auto, using(crate::proofs::Writes::put_all_written))]
    fn select(&mut self, codec: &RawCodec, nid: u8, place: u8)
        requires well_formed { IsWellFormed codec.now }
        requires keys { keys_of self.old ≡ spec.controls_of codec.now }
        ensures { self.new ≡ spec.put_all self.old (meaning.verb_writes codec.now self.old nid (Verb.SetSelect place)) }
    {
        if usize::from(place) < connections(codec, nid) {
            self.put(nid, Control::Select, u32::from(place));
        }
    }

    /// Sets each side of an amplifier of the node that the setting names.
    fn set_amplifiers(&mut self, codec: &RawCodec, nid: u8, setting: AmpSetting)
        requires well_formed { IsWellFormed codec.now }
        requires keys { keys_of self.old ≡ spec.controls_of codec.now }
        ensures { self.new ≡ spec.put_all self.old (meaning.amplifier_writes codec.now nid setting) }
    {
        let (output, input) = amplifier_words(codec, nid);
        let output = kept_amplifier(output, setting);
        let input = kept_amplifier(input, setting);
        let place = setting.place;
        self.put_side(setting.output, setting.left, nid, Control::OutLeft, output);
        self.put_side(
            setting.output,
            setting.right,
            nid,
            Control::OutRight,
            output,
        );
        self.put_side(
            setting.input,
            setting.left,
            nid,
            Control::InLeft(place),
            input,
        );
        self.put_side(
            setting.input,
            setting.right,
            nid,
            Control::InRight(place),
            input,
        );
    }

    /// Sets the side of an amplifier to another number, where both the amplifier and the side are named.
    fn put_side(&mut self, amplifier: bool, side: bool, nid: u8, control: Control, value: u32)
        ensures { self.new ≡ (if amplifier && side then spec.put self.old (spec.key nid control) value else self.old) }
    {
        if amplifier && side {
            self.put(nid, control, value);
        }
    }

    /// Equal settings.
    ///
    /// # Errors
    /// Want of memory.
    pub fn copy(&self) -> Result<Settings, AllocError>
        ensures { IfOk result (λ copy. copy ≡ self.now) }
    {
        let map = self.map.clone()?;
        Ok(Settings { map })
    }
}

/// How many connections the node has.
fn connections(codec: &RawCodec, nid: u8) -> usize
    ensures { result ≡ meaning.node_connections (node_at codec.now nid) }
{
    match codec.node(nid) {
        Some(node) => node.list.len(),
        None => 0,
    }
}

/// The capabilities of the node's output amplifier and of its input amplifiers.
fn amplifier_words(codec: &RawCodec, nid: u8) -> (u32, u32)
    ensures output { result.0 ≡ meaning.node_output_word codec.now (node_at codec.now nid) }
    ensures input { result.1 ≡ meaning.node_input_word codec.now (node_at codec.now nid) }
{
    match codec.node(nid) {
        Some(node) => (
            codec.output_amplifier_word(node),
            codec.input_amplifier_word(node),
        ),
        None => (0, 0),
    }
}

/// What an amplifier with these capabilities keeps of a setting: at most its steps, and the mute where it can mute.
fn kept_amplifier(word: u32, setting: AmpSetting) -> u32
    ensures { result ≡ meaning.kept_amplifier word setting }
{
    let gain = u32::from(setting.gain).min(amplifier_steps(word));
    if setting.mute && can_mute(word) {
        gain + MUTE
    } else {
        gain
    }
}

/// The word with another byte at this place, from the lowest.
fn with_byte(word: u32, place: u8, byte: u8) -> u32
    requires { place < 4 }
    ensures { result ≡ meaning.with_byte word place byte }
{
    let mut bytes = word.to_le_bytes();
    bytes[usize::from(place)] = byte;
    u32::from_le_bytes(bytes)
}

/// What a control of the node is set to at the opening.
fn opening_value(codec: &RawCodec, nid: u8, control: Control) -> u32
    ensures { result ≡ spec.opening_value codec.now nid control }
{
    match codec.node(nid) {
        Some(node) => widget_opening(codec, node, control),
        None => 0,
    }
}

/// What a control of the widget is set to at the opening.
fn widget_opening(codec: &RawCodec, node: &RawNode, control: Control) -> u32
    ensures { result ≡ spec.widget_opening codec.now node.now control }
{
    match control {
        Control::Default => node.default,
        Control::OutLeft | Control::OutRight => {
            amplifier_opening(codec.output_amplifier_word(node))
        }
        Control::InLeft(_) | Control::InRight(_) => {
            amplifier_opening(codec.input_amplifier_word(node))
        }
        Control::Select | Control::Power | Control::Stream | Control::Pin => 0,
        Control::Unsol | Control::Eapd | Control::Digital | Control::Format => 0,
    }
}

/// What an amplifier with these capabilities is set to at the opening.
fn amplifier_opening(word: u32) -> u32
    ensures { result ≡ spec.amplifier_opening word }
{
    if can_mute(word) {
        MUTE
    } else {
        amplifier_offset(word)
    }
}
