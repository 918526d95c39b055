//! Kept signals that are worked out anew for the codecs of a device.
ghost use Rattle.std.specs.Prelude.{◌≡◌, ◌<◌, IfSome, length};
ghost use Rattle.hda_controller.specs.Renewing as spec;

use crate::commands::is_set_command;
use codec_graph::PinKind;
use codec_nodes::Codec;
use codec_sound::Kept;
use device_core::{Device, Handed};
use stream_format::Format;

/// Works the signals of a codec's pins out, while the stream with this tag and format word plays.
pub(crate) fn renew(kind: PinKind, codec: &Codec, tag: u8, word: u16, kept: &mut Kept)
    ensures { kept.new ≡ spec.renewed_for kind tag word codec.now kept.old }
{
    kept.renew_as(
        kind,
        codec.graph(),
        codec.settings(),
        tag,
        Format::from_word(word),
    );
}

/// Works the signals of each codec's pins out.
pub(crate) fn renew_all(kind: PinKind, codecs: &[Codec], tag: u8, word: u16, kept: &mut [Kept])
    requires { length kept.old ≡ length codecs.now }
    ensures { kept.new ≡ spec.all_renewed kind tag word codecs.now kept.old }
{
    for place in 0..codecs.len() {
        renew(kind, &codecs[place], tag, word, &mut kept[place]);
    }
}

/// Works the signals of one codec's pins out.
pub(crate) fn renew_one(
    kind: PinKind,
    codecs: &[Codec],
    place: usize,
    tag: u8,
    word: u16,
    kept: &mut [Kept],
)
    requires place { place < length codecs.now }
    requires count { length kept.old ≡ length codecs.now }
    ensures { kept.new ≡ spec.one_renewed kind tag word codecs.now place kept.old }
{
    renew(kind, &codecs[place], tag, word, &mut kept[place]);
}

/// Works the signals of each codec's pins out, where a write touched what they depend on.
pub(crate) fn renew_if(kind: PinKind, touched: bool, device: &Device, kept: &mut [Kept])
    requires { length kept.old ≡ length device.now.codecs }
    ensures { kept.new ≡ spec.renewed_if kind touched device.now kept.old }
{
    if touched {
        renew_all(
            kind,
            device.codecs(),
            tag(device),
            format_word(device),
            kept,
        );
    }
}

/// Works the signals of the codec's pins out that took a command, where this sets a control.
pub(crate) fn renew_handed(
    kind: PinKind,
    handed: Option<Handed>,
    device: &Device,
    kept: &mut [Kept],
)
    requires there { IfSome handed (λ h. h.place < length device.now.codecs) }
    requires count { length kept.old ≡ length device.now.codecs }
    ensures { kept.new ≡ spec.renewed_after kind handed device.now kept.old }
{
    if let Some(handed) = handed {
        if is_set_command(handed.word) {
            renew_one(
                kind,
                device.codecs(),
                handed.place,
                tag(device),
                format_word(device),
                kept,
            );
        }
    }
}

/// The tag of the output stream (HDA 1.0a, 3.3.35).
fn tag(device: &Device) -> u8
    ensures { result ≡ device.now.registers.output.tag }
{
    device.registers().tag(1)
}

/// The format word of the output stream (HDA 1.0a, 3.3.41).
fn format_word(device: &Device) -> u16
    ensures { result ≡ device.now.registers.output.format }
{
    device.registers().format(1)
}
