//! The words of a codec that a walk asks for, in their order.
ghost use Rattle.std.specs.Prelude.{◌≡◌, ◌<◌, ◌∷◌, [], MatchOption};
ghost use Rattle.codec_walk.specs.Words as spec;

use codec_graph::{RawCodec, RawNode};
use verb_codes::{Command, Parameter, Verb, bits_of};

/// A word of the root or of the function group.
#[derive(Clone, Copy, Debug, PartialEq, Eq)]
pub(crate) enum CodecWord {
    /// Vendor and device identification, of the root.
    Vendor,
    /// Revision identification, of the root.
    Revision,
    /// The first node below the root, which is the function group.
    Groups,
    /// The function group type, and from here on all words are the function group's.
    GroupType,
    /// The first widget and how many there are.
    Widgets,
    /// Supported PCM sizes and rates.
    GroupPcm,
    /// Supported stream formats.
    GroupFormats,
    /// Input amplifier capabilities.
    GroupAmpIn,
    /// Output amplifier capabilities.
    GroupAmpOut,
    /// Supported power states.
    GroupPower,
}

/// A word of a widget that is asked for between its capabilities and its connection list.
#[derive(Clone, Copy, Debug, PartialEq, Eq)]
pub(crate) enum NodeWord {
    /// Supported PCM sizes and rates, of a converter with its own.
    Pcm,
    /// Supported stream formats, of a converter with its own.
    Formats,
    /// Pin capabilities.
    PinCaps,
    /// Configuration default, of a pin.
    Default,
    /// Input amplifier capabilities, of a widget with its own.
    AmpIn,
    /// Output amplifier capabilities, of a widget with its own.
    AmpOut,
}

/// The words of a widget between its capabilities and its connection list, in order.
pub(crate) const NODE_WORDS: [NodeWord; 6] = [
    NodeWord::Pcm,
    NodeWord::Formats,
    NodeWord::PinCaps,
    NodeWord::Default,
    NodeWord::AmpIn,
    NodeWord::AmpOut,
];

/// The command that asks a node of a codec for a parameter.
pub(crate) fn parameter_command(address: u8, nid: u8, parameter: Parameter) -> Command
    ensures { result ≡ spec.parameter_command address nid parameter }
{
    Command {
        codec: address,
        nid,
        verb: Verb::GetParam(parameter.number()),
    }
}

impl CodecWord {
    /// The word that is asked for next, if one is left.
    pub(crate) fn next(self) -> Option<CodecWord>
        ensures { MatchOption result (spec.later_codec self ≡ [])
            (λ next. spec.later_codec self ≡ next ∷ spec.later_codec next) }
    {
        match self {
            CodecWord::Vendor => Some(CodecWord::Revision),
            CodecWord::Revision => Some(CodecWord::Groups),
            CodecWord::Groups => Some(CodecWord::GroupType),
            CodecWord::GroupType => Some(CodecWord::Widgets),
            CodecWord::Widgets => Some(CodecWord::GroupPcm),
            CodecWord::GroupPcm => Some(CodecWord::GroupFormats),
            CodecWord::GroupFormats => Some(CodecWord::GroupAmpIn),
            CodecWord::GroupAmpIn => Some(CodecWord::GroupAmpOut),
            CodecWord::GroupAmpOut => Some(CodecWord::GroupPower),
            CodecWord::GroupPower => None,
        }
    }

    /// The command that asks for the word.
    pub(crate) fn command(self, codec: &RawCodec) -> Command
        ensures { result ≡ spec.codec_command codec.now self }
    {
        parameter_command(codec.address, self.node(codec), self.parameter())
    }

    /// The node that has the word.
    fn node(self, codec: &RawCodec) -> u8
        ensures { result ≡ spec.codec_node codec.now self }
    {
        match self {
            CodecWord::Vendor | CodecWord::Revision | CodecWord::Groups => 0,
            CodecWord::GroupType | CodecWord::Widgets | CodecWord::GroupPcm => codec.group,
            CodecWord::GroupFormats | CodecWord::GroupAmpIn => codec.group,
            CodecWord::GroupAmpOut | CodecWord::GroupPower => codec.group,
        }
    }

    fn parameter(self) -> Parameter
        ensures { result ≡ spec.codec_parameter self }
    {
        match self {
            CodecWord::Vendor => Parameter::Vendor,
            CodecWord::Revision => Parameter::Revision,
            CodecWord::Groups | CodecWord::Widgets => Parameter::Nodes,
            CodecWord::GroupType => Parameter::GroupType,
            CodecWord::GroupPcm => Parameter::PcmSizesAndRates,
            CodecWord::GroupFormats => Parameter::StreamFormats,
            CodecWord::GroupAmpIn => Parameter::InputAmplifier,
            CodecWord::GroupAmpOut => Parameter::OutputAmplifier,
            CodecWord::GroupPower => Parameter::PowerStates,
        }
    }

    /// Keeps the answer as the word.
    pub(crate) fn put(self, codec: &mut RawCodec, answer: u32)
        ensures { codec.new ≡ spec.with_codec_word codec.old self answer }
    {
        match self {
            CodecWord::Vendor => codec.vendor = answer,
            CodecWord::Revision => codec.revision = answer,
            CodecWord::Groups => codec.group = bits_of(answer, 16, 7) as u8,
            CodecWord::GroupType => codec.group_type = answer,
            CodecWord::Widgets => {
                codec.first = bits_of(answer, 16, 8) as u8;
                codec.count = bits_of(answer, 0, 8) as u8;
            }
            CodecWord::GroupPcm => codec.group_words.pcm = answer,
            CodecWord::GroupFormats => codec.group_words.formats = answer,
            CodecWord::GroupAmpIn => codec.group_words.amp_in = answer,
            CodecWord::GroupAmpOut => codec.group_words.amp_out = answer,
            CodecWord::GroupPower => codec.group_words.power = answer,
        }
    }
}

impl NodeWord {
    /// The words that come after this one.
    pub(crate) fn later(self) -> &'static [NodeWord]
        ensures { result.now ≡ spec.later self }
    {
        match self {
            NodeWord::Pcm => &NODE_WORDS[1..],
            NodeWord::Formats => &NODE_WORDS[2..],
            NodeWord::PinCaps => &NODE_WORDS[3..],
            NodeWord::Default => &NODE_WORDS[4..],
            NodeWord::AmpIn => &NODE_WORDS[5..],
            NodeWord::AmpOut => &NODE_WORDS[6..],
        }
    }

    /// Whether the word applies to the widget.
    pub(crate) fn applies(self, node: &RawNode) -> bool
        ensures { result ≡ spec.applies node.now self }
    {
        match self {
            NodeWord::Pcm | NodeWord::Formats => node.is_converter() && node.overrides_formats(),
            NodeWord::PinCaps | NodeWord::Default => node.is_pin(),
            NodeWord::AmpIn => node.overrides_amplifiers() && node.has_input_amplifier(),
            NodeWord::AmpOut => node.overrides_amplifiers() && node.has_output_amplifier(),
        }
    }

    /// The verb that asks for the word.
    pub(crate) fn verb(self) -> Verb
        ensures { result ≡ spec.word_verb self }
    {
        match self {
            NodeWord::Pcm => Verb::GetParam(Parameter::PcmSizesAndRates.number()),
            NodeWord::Formats => Verb::GetParam(Parameter::StreamFormats.number()),
            NodeWord::PinCaps => Verb::GetParam(Parameter::PinCapabilities.number()),
            NodeWord::Default => Verb::GetDefault,
            NodeWord::AmpIn => Verb::GetParam(Parameter::InputAmplifier.number()),
            NodeWord::AmpOut => Verb::GetParam(Parameter::OutputAmplifier.number()),
        }
    }

    /// Keeps the answer as the word.
    pub(crate) fn put(self, node: &mut RawNode, answer: u32)
        ensures { node.new ≡ spec.with_word node.old self answer }
    {
        match self {
            NodeWord::Pcm => node.pcm = answer,
            NodeWord::Formats => node.formats = answer,
            NodeWord::PinCaps => node.pin_caps = answer,
            NodeWord::Default => node.default = answer,
            NodeWord::AmpIn => node.amp_in = answer,
            NodeWord::AmpOut => node.amp_out = answer,
        }
    }
}
