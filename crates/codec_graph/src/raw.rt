//! The words of a codec as they were read.
ghost use Rattle.std.specs.Prelude.{◌≡◌, if◌then◌else◌, [], option_copied};
ghost use Rattle.codec_graph.specs.Widget as widget;
ghost use Rattle.codec_graph.specs.Listed.{HasReadableList};
ghost use Rattle.codec_graph.specs.Widths as widths;
ghost use Rattle.verb_codes.specs.Words as words;
ghost use Rattle.codec_graph.specs.Candidates as candidates;
ghost use Rattle.codec_graph.specs.Cycles as cycles;
ghost use Rattle.codec_graph.specs.Settings as settings;

use crate::controls::Control;
use crate::limits::MOST_AMPLIFIED;
use bitflags::Flags;
use hda_items::Items;
use std::alloc::Global;
use verb_codes::{PinCapabilities, WidgetCapabilities, bits_of};

/// The parameters of the audio function group (HDA 1.0a, 7.3.4.7 to 7.3.4.12). Widgets without sizes and rates, formats
/// or amplifier capabilities of their own have the group's.
#[derive(Debug, Drop)]
pub struct GroupWords {
    /// Supported PCM sizes and rates.
    pub pcm: u32,
    /// Supported stream formats.
    pub formats: u32,
    /// Input amplifier capabilities.
    pub amp_in: u32,
    /// Output amplifier capabilities.
    pub amp_out: u32,
    /// Supported power states.
    pub power: u32,
}

/// The parameters of one widget (HDA 1.0a, 7.3.4), its configuration default and its connection list.
#[derive(Debug, Drop)]
pub struct RawNode {
    /// Audio widget capabilities.
    pub caps: u32,
    /// Supported PCM sizes and rates, of a converter.
    pub pcm: u32,
    /// Supported stream formats, of a converter.
    pub formats: u32,
    /// Pin capabilities, of a pin.
    pub pin_caps: u32,
    /// Input amplifier capabilities.
    pub amp_in: u32,
    /// Output amplifier capabilities.
    pub amp_out: u32,
    /// Supported power states.
    pub power: u32,
    /// Configuration default, of a pin.
    pub default: u32,
    /// Whether the entries of the connection list have 16 bits, and else 8.
    pub long: bool,
    /// The entries of the connection list as the codec gives them.
    pub entries: Items<u16>,
    /// The connection list: the node identifiers for which the entries stand.
    pub list: Items<u8>,
}

/// A codec with one audio function group.
#[derive(Debug, Drop)]
pub struct RawCodec {
    /// The codec address, 0 to 14.
    pub address: u8,
    /// Vendor and device identification.
    pub vendor: u32,
    /// Revision identification.
    pub revision: u32,
    /// The node identifier of the function group.
    pub group: u8,
    /// The function group type.
    pub group_type: u32,
    /// The function group's own words.
    pub group_words: GroupWords,
    /// The node identifier of the first widget.
    pub first: u8,
    /// How many widgets there are.
    pub count: u8,
    /// The widgets: the one at place `i` has the node identifier `first + i`.
    pub nodes: Items<RawNode>,
}

impl RawNode {
    /// A widget with these capabilities of which nothing else is known yet: every other word is 0, and it lists
    /// nothing.
    pub fn new(alloc: Global, caps: u32) -> RawNode
        ensures { result ≡ widget.plain_node caps }
    {
        RawNode {
            caps,
            pcm: 0,
            formats: 0,
            pin_caps: 0,
            amp_in: 0,
            amp_out: 0,
            power: 0,
            default: 0,
            long: false,
            entries: Items::new(alloc),
            list: Items::new(alloc),
        }
    }

    /// Whether the widget is an audio output converter.
    pub fn is_output_converter(&self) -> bool
        ensures { result ≡ widget.is_output_converter self.now }
    {
        self.widget_type() == 0
    }

    /// Whether the widget is an audio output or input converter.
    pub fn is_converter(&self) -> bool
        ensures { result ≡ widget.is_converter self.now }
    {
        self.is_output_converter() || self.widget_type() == 1
    }

    /// Whether the widget is a mixer.
    pub fn is_mixer(&self) -> bool
        ensures { result ≡ widget.is_mixer self.now }
    {
        self.widget_type() == 2
    }

    /// Whether the widget is a selector.
    pub fn is_selector(&self) -> bool
        ensures { result ≡ widget.is_selector self.now }
    {
        self.widget_type() == 3
    }

    /// Whether the widget is a mixer or a selector.
    pub fn is_inner(&self) -> bool
        ensures { result ≡ widget.is_inner self.now }
    {
        self.is_mixer() || self.is_selector()
    }

    /// Whether the widget is a pin complex.
    pub fn is_pin(&self) -> bool
        ensures { result ≡ widget.is_pin self.now }
    {
        self.widget_type() == 4
    }

    /// Whether the widget has two channels.
    pub fn is_stereo(&self) -> bool
        ensures { result ≡ widget.is_stereo self.now }
    {
        WidgetCapabilities(self.caps).contains(WidgetCapabilities::STEREO)
    }

    /// Whether the widget has an input amplifier.
    pub fn has_input_amplifier(&self) -> bool
        ensures { result ≡ widget.has_input_amplifier self.now }
    {
        WidgetCapabilities(self.caps).contains(WidgetCapabilities::INPUT_AMPLIFIER)
    }

    /// Whether the widget has an output amplifier.
    pub fn has_output_amplifier(&self) -> bool
        ensures { result ≡ widget.has_output_amplifier self.now }
    {
        WidgetCapabilities(self.caps).contains(WidgetCapabilities::OUTPUT_AMPLIFIER)
    }

    /// Whether the widget's amplifier words are its own, and not the function group's.
    pub fn overrides_amplifiers(&self) -> bool
        ensures { result ≡ widget.overrides_amplifiers self.now }
    {
        WidgetCapabilities(self.caps).contains(WidgetCapabilities::OWN_AMPLIFIER_WORDS)
    }

    /// Whether the widget's PCM and stream format words are its own, and not the function group's.
    pub fn overrides_formats(&self) -> bool
        ensures { result ≡ widget.overrides_formats self.now }
    {
        WidgetCapabilities(self.caps).contains(WidgetCapabilities::OWN_FORMATS)
    }

    /// Whether the widget has a connection list.
    pub fn has_list(&self) -> bool
        ensures { result ≡ widget.has_list self.now }
    {
        WidgetCapabilities(self.caps).contains(WidgetCapabilities::CONNECTION_LIST)
    }

    /// Whether the widget carries a digital stream.
    pub fn is_digital(&self) -> bool
        ensures { result ≡ widget.is_digital self.now }
    {
        WidgetCapabilities(self.caps).contains(WidgetCapabilities::DIGITAL)
    }

    /// Whether the widget has power control of its own.
    pub fn has_power_control(&self) -> bool
        ensures { result ≡ widget.has_power_control self.now }
    {
        WidgetCapabilities(self.caps).contains(WidgetCapabilities::POWER_CONTROL)
    }

    /// The number of the pin's association (HDA 1.0a, 7.3.3.31).
    pub fn association(&self) -> u32
        ensures { result ≡ candidates.association self.now }
    {
        bits_of(self.default, 4, 4)
    }

    /// The pin's place in its association (HDA 1.0a, 7.3.3.31).
    pub fn sequence(&self) -> u32
        ensures { result ≡ candidates.sequence self.now }
    {
        bits_of(self.default, 0, 4)
    }

    /// Whether the widget is a pin that can get a route. This project's own.
    pub fn is_candidate(&self) -> bool
        ensures { result ≡ candidates.is_candidate_node self.now }
    {
        let connectivity = bits_of(self.default, 30, 2);
        let device = bits_of(self.default, 20, 4);
        self.is_pin()
            && self.is_stereo()
            && !self.is_digital()
            && self.can_output()
            && connectivity != 1
            && device <= 2
            && self.association() != 0
    }

    /// Whether the widget can send unsolicited responses.
    pub fn sends_unsolicited(&self) -> bool
        ensures { result ≡ settings.sends_unsolicited self.now }
    {
        WidgetCapabilities(self.caps).contains(WidgetCapabilities::UNSOLICITED)
    }

    /// Whether the widget is a pin that can tell whether something is plugged in.
    pub fn detects_presence(&self) -> bool
        ensures { result ≡ settings.detects_presence self.now }
    {
        self.is_pin() && self.can_detect()
    }

    /// Whether the widget is a pin with an external amplifier.
    pub fn has_eapd(&self) -> bool
        ensures { result ≡ settings.has_eapd self.now }
    {
        self.is_pin() && self.can_amplify()
    }

    /// Whether the widget has an input amplifier for the connection at this place.
    fn amplifies_input(&self, place: u8) -> bool
        ensures { result ≡ (settings.widget_has self.now (Control.InLeft place)) }
    {
        let inputs = self.list.len().max(1).min(usize::from(MOST_AMPLIFIED));
        self.has_input_amplifier() && usize::from(place) < inputs
    }

    /// Whether the widget has the control.
    pub fn has_control(&self, control: Control) -> bool
        ensures { result ≡ settings.widget_has self.now control }
    {
        match control {
            Control::Select => !self.is_mixer() && self.list.len() >= 2,
            Control::Power => self.has_power_control(),
            Control::Stream | Control::Format => self.is_converter(),
            Control::Pin | Control::Default => self.is_pin(),
            Control::Unsol => self.sends_unsolicited(),
            Control::Eapd => self.has_eapd(),
            Control::Digital => self.is_converter() && self.is_digital(),
            Control::OutLeft | Control::OutRight => self.has_output_amplifier(),
            Control::InLeft(place) | Control::InRight(place) => self.amplifies_input(place),
        }
    }

    /// Whether the pin capabilities have presence detection.
    fn can_detect(&self) -> bool
        ensures { result ≡ words.has_bit self.now.pin_caps 2 }
    {
        PinCapabilities(self.pin_caps).contains(PinCapabilities::PRESENCE)
    }

    /// Whether the pin capabilities have an output.
    fn can_output(&self) -> bool
        ensures { result ≡ words.has_bit self.now.pin_caps 4 }
    {
        PinCapabilities(self.pin_caps).contains(PinCapabilities::OUTPUT)
    }

    /// Whether the pin capabilities have an external amplifier.
    fn can_amplify(&self) -> bool
        ensures { result ≡ words.has_bit self.now.pin_caps 16 }
    {
        PinCapabilities(self.pin_caps).contains(PinCapabilities::EAPD)
    }

    fn widget_type(&self) -> u32
        ensures { result ≡ words.bits_of self.now.caps 20 4 }
    {
        bits_of(self.caps, 20, 4)
    }

    /// Sets each word that does not apply to 0, and empties a connection list that the widget does not have.
    pub(crate) fn normalise(&mut self)
        requires { HasReadableList self.old }
        ensures value { self.new ≡ widget.normal_node self.old }
        ensures words { widths.HasNodeWords self.new }
    {
        // What is read has the width of its type.
        let _caps = self.caps;
        let own_formats = self.is_converter() && self.overrides_formats();
        let own_amplifiers = self.overrides_amplifiers();
        let is_pin = self.is_pin();
        self.pcm = kept_word(own_formats, self.pcm);
        self.formats = kept_word(own_formats, self.formats);
        self.pin_caps = kept_word(is_pin, self.pin_caps);
        self.amp_in = kept_word(own_amplifiers && self.has_input_amplifier(), self.amp_in);
        self.amp_out = kept_word(own_amplifiers && self.has_output_amplifier(), self.amp_out);
        self.power = kept_word(self.has_power_control(), self.power);
        self.default = kept_word(is_pin, self.default);
        if !self.has_list() {
            self.long = false;
            self.entries.clear();
            self.list.clear();
        }
    }
}

impl RawCodec {
    /// Whether the node identifier is that of a widget.
    pub fn is_widget(&self, nid: u8) -> bool
        ensures { result ≡ widget.is_widget self.now nid }
    {
        self.first <= nid && u16::from(nid) < u16::from(self.first) + u16::from(self.count)
    }

    /// The widget with this node identifier.
    pub fn node(&self, nid: u8) -> Option<&RawNode>
        ensures { option_copied result ≡ widget.node_at self.now nid }
    {
        if nid < self.first {
            return None;
        }
        self.nodes.as_slice().get(usize::from(nid - self.first))
    }

    /// Whether the function group or widget with this node identifier has the control. The group has power control
    /// alone.
    pub fn has_control(&self, nid: u8, control: Control) -> bool
        ensures { result ≡ settings.has_control self.now nid control }
    {
        if nid == self.group {
            return matches!(control, Control::Power);
        }
        match self.node(nid) {
            Some(node) => node.has_control(control),
            None => false,
        }
    }

    /// The connections of a mixer or selector, and none of any other node.
    pub(crate) fn inner_list(&self, nid: u8) -> &[u8]
        ensures { result.now ≡ cycles.inner_list self.now nid }
    {
        match self.node(nid) {
            Some(node) if node.is_inner() => node.list.as_slice(),
            _ => &[],
        }
    }

    /// The input amplifier capabilities that hold at a widget.
    pub fn input_amplifier_word(&self, node: &RawNode) -> u32
        ensures { result ≡ widget.input_amplifier_word self.now node.now }
    {
        if node.overrides_amplifiers() {
            node.amp_in
        } else {
            self.group_words.amp_in
        }
    }

    /// The output amplifier capabilities that hold at a widget.
    pub fn output_amplifier_word(&self, node: &RawNode) -> u32
        ensures { result ≡ widget.output_amplifier_word self.now node.now }
    {
        if node.overrides_amplifiers() {
            node.amp_out
        } else {
            self.group_words.amp_out
        }
    }

    /// The PCM sizes and rates that hold at a widget.
    pub fn pcm_word(&self, node: &RawNode) -> u32
        ensures { result ≡ widget.pcm_word self.now node.now }
    {
        if node.overrides_formats() {
            node.pcm
        } else {
            self.group_words.pcm
        }
    }

    /// The stream formats that hold at a widget.
    pub fn formats_word(&self, node: &RawNode) -> u32
        ensures { result ≡ widget.formats_word self.now node.now }
    {
        if node.overrides_formats() {
            node.formats
        } else {
            self.group_words.formats
        }
    }
}

/// The word where it applies, and 0 where it does not.
fn kept_word(applies: bool, word: u32) -> u32
    ensures { result ≡ widget.kept_word applies word }
{
    if applies { word } else { 0 }
}
