//! What the lines of a dump begin with.
ghost use Rattle.std.specs.Prelude.{◌≡◌, option_copied};
ghost use Rattle.std.specs.List.{find};
ghost use Rattle.dump_reader.specs.Cuts as cuts;
ghost use Rattle.dump_reader.specs.Labels as labels;

use crate::cuts::{begins_with, unindented};

/// What a line of a dump begins with, behind its spaces.
#[derive(Clone, Copy, Debug, PartialEq, Eq)]
pub enum Label {
    /// `Codec:`: the codec's name; here a codec begins.
    Codec,
    /// `Address:`: the codec's address on the link.
    Address,
    /// `AFG Function Id:`: the function group's type.
    GroupType,
    /// `Function Id:`: the type of one of the function groups, as kernels of 2009 print it.
    FunctionType,
    /// `MFG Function Id:`: the type of a modem's function group.
    ModemType,
    /// `Vendor Id:`: vendor and device identification.
    Vendor,
    /// `Subsystem Id:`: subsystem identification.
    Subsystem,
    /// `Revision Id:`: revision identification.
    Revision,
    /// `No Modem Function Group`: there is no modem.
    NoModem,
    /// `Modem Function Group:`: a modem's function group.
    Modem,
    /// `Default PCM:`: the group's PCM sizes and rates, and stream formats, here or on the lines below.
    DefaultPcm,
    /// `Default Amp-In caps:`: the group's input amplifier capabilities.
    DefaultAmpIn,
    /// `Default Amp-Out caps:`: the group's output amplifier capabilities.
    DefaultAmpOut,
    /// `State of AFG node`: the group's node identifier.
    GroupState,
    /// `GPIO:`: general purpose pins.
    Gpio,
    /// `IO[`: one of them.
    GpioPin,
    /// `Node`: a widget begins: its node identifier and its capabilities.
    Node,
    /// `Control:`: a name that the driver gave.
    Control,
    /// `ControlAmp:`: the amplifier of such a name.
    ControlAmplifier,
    /// `Device:`: a device that the driver made.
    Device,
    /// `Devices:`: how many devices a pin has.
    Devices,
    /// `Dev`: one of them.
    DeviceEntry,
    /// `Amp-In caps:`: input amplifier capabilities.
    AmpIn,
    /// `Amp-In vals:`: mute and gain of the input amplifiers.
    GainsIn,
    /// `Amp-Out caps:`: output amplifier capabilities.
    AmpOut,
    /// `Amp-Out vals:`: mute and gain of the output amplifier.
    GainOut,
    /// `PCM:`: PCM sizes and rates, and stream formats, here or on the lines below.
    Pcm,
    /// `rates`: PCM rates.
    Rates,
    /// `bits`: PCM sizes.
    Bits,
    /// `formats`: stream formats.
    Formats,
    /// `N/A`: PCM sizes, rates and formats are not given.
    NotAvailable,
    /// `Converter:`: stream and channel.
    Converter,
    /// `SDI-Select:`: the serial data input.
    SdiSelect,
    /// `Digital:`: the digital converter's control.
    Digital,
    /// `Digital category:`: its category code.
    DigitalCategory,
    /// `IEC Coding Type:`: its coding type.
    CodingType,
    /// `Pincap`: pin capabilities.
    PinCaps,
    /// `Vref caps:`: the voltage references among them.
    VrefCaps,
    /// `EAPD`: the external amplifier's control.
    Eapd,
    /// `Pin Default`: configuration default.
    PinDefault,
    /// `Conn =`: connection and colour in it.
    PinPlace,
    /// `DefAssociation =`: association and sequence in it.
    PinAssociation,
    /// `Misc =`: the rest of it.
    PinMisc,
    /// `Pin-ctls:`: pin control.
    PinControl,
    /// `Volume-Knob:`: a volume knob.
    VolumeKnob,
    /// `Unsolicited:`: the control of unsolicited responses.
    Unsolicited,
    /// `Power states:`: supported power states.
    PowerStates,
    /// `Power:`: the power state.
    Power,
    /// `Delay:`: the delay of a widget.
    Delay,
    /// `Connection:`: how many connections a widget has; where there are any, the next line lists them.
    Connection,
    /// `In-driver Connection:`: how many the driver takes; where there are any, the next line lists them.
    DriverConnection,
    /// `Processing caps:`: processing capabilities.
    Processing,
    /// `Coeff`: one of the processing coefficients.
    Coefficient,
}

/// All labels. A line has the first with which it begins.
const LABELS: [Label; 53] = [
    Label::Codec,
    Label::Address,
    Label::GroupType,
    Label::FunctionType,
    Label::ModemType,
    Label::Vendor,
    Label::Subsystem,
    Label::Revision,
    Label::NoModem,
    Label::Modem,
    Label::DefaultPcm,
    Label::DefaultAmpIn,
    Label::DefaultAmpOut,
    Label::GroupState,
    Label::Gpio,
    Label::GpioPin,
    Label::Node,
    Label::Control,
    Label::ControlAmplifier,
    Label::Device,
    Label::Devices,
    Label::DeviceEntry,
    Label::AmpIn,
    Label::GainsIn,
    Label::AmpOut,
    Label::GainOut,
    Label::Pcm,
    Label::Rates,
    Label::Bits,
    Label::Formats,
    Label::NotAvailable,
    Label::Converter,
    Label::SdiSelect,
    Label::Digital,
    Label::DigitalCategory,
    Label::CodingType,
    Label::PinCaps,
    Label::VrefCaps,
    Label::Eapd,
    Label::PinDefault,
    Label::PinPlace,
    Label::PinAssociation,
    Label::PinMisc,
    Label::PinControl,
    Label::VolumeKnob,
    Label::Unsolicited,
    Label::PowerStates,
    Label::Power,
    Label::Delay,
    Label::Connection,
    Label::DriverConnection,
    Label::Processing,
    Label::Coefficient,
];

impl Label {
    /// The label as it stands on a line.
    #[tactic(auto, unfolding(crate::specs::Labels::label_text))]
    pub fn text(&self) -> &'static str
        ensures { result.now ≡ labels.label_text self.now }
    {
        match self {
            Label::Codec => "Codec:",
            Label::Address => "Address:",
            Label::GroupType => "AFG Function Id:",
            Label::FunctionType => "Function Id:",
            Label::ModemType => "MFG Function Id:",
            Label::Vendor => "Vendor Id:",
            Label::Subsystem => "Subsystem Id:",
            Label::Revision => "Revision Id:",
            Label::NoModem => "No Modem Function Group",
            Label::Modem => "Modem Function Group:",
            Label::DefaultPcm => "Default PCM:",
            Label::DefaultAmpIn => "Default Amp-In caps:",
            Label::DefaultAmpOut => "Default Amp-Out caps:",
            Label::GroupState => "State of AFG node",
            Label::Gpio => "GPIO:",
            Label::GpioPin => "IO[",
            Label::Node => "Node",
            Label::Control => "Control:",
            Label::ControlAmplifier => "ControlAmp:",
            Label::Device => "Device:",
            Label::Devices => "Devices:",
            Label::DeviceEntry => "Dev ",
            Label::AmpIn => "Amp-In caps:",
            Label::GainsIn => "Amp-In vals:",
            Label::AmpOut => "Amp-Out caps:",
            Label::GainOut => "Amp-Out vals:",
            Label::Pcm => "PCM:",
            Label::Rates => "rates",
            Label::Bits => "bits",
            Label::Formats => "formats",
            Label::NotAvailable => "N/A",
            Label::Converter => "Converter:",
            Label::SdiSelect => "SDI-Select:",
            Label::Digital => "Digital:",
            Label::DigitalCategory => "Digital category:",
            Label::CodingType => "IEC Coding Type:",
            Label::PinCaps => "Pincap",
            Label::VrefCaps => "Vref caps:",
            Label::Eapd => "EAPD",
            Label::PinDefault => "Pin Default",
            Label::PinPlace => "Conn =",
            Label::PinAssociation => "DefAssociation =",
            Label::PinMisc => "Misc =",
            Label::PinControl => "Pin-ctls:",
            Label::VolumeKnob => "Volume-Knob:",
            Label::Unsolicited => "Unsolicited:",
            Label::PowerStates => "Power states:",
            Label::Power => "Power:",
            Label::Delay => "Delay:",
            Label::Connection => "Connection:",
            Label::DriverConnection => "In-driver Connection:",
            Label::Processing => "Processing caps:",
            Label::Coefficient => "Coeff",
        }
    }
}

/// The first of some labels with which a text begins.
fn find_label<'a>(all: &'a [Label], text: &[u8]) -> Option<&'a Label>
    ensures { option_copied result ≡ find (λ label. cuts.begins_with (labels.label_text label) text.now) all.now }
{
    all.iter()
        .find(|label| begins_with(label.text().as_bytes(), text))
}

/// The label of a line, if it has one.
#[tactic(auto, unfolding(crate::specs::Labels::labels))]
pub(crate) fn label_of(line: &[u8]) -> Option<Label>
    ensures { result ≡ labels.label_of line.now }
{
    find_label(&LABELS, unindented(line)).copied()
}

/// What stands on a line behind its label.
pub(crate) fn behind(label: Label, line: &[u8]) -> &[u8]
    ensures { result.now ≡ labels.behind label line.now }
{
    let text = unindented(line);
    let from = label.text().len().min(text.len());
    &text[from..]
}
