//! Commands that are put last on a list.
ghost use Rattle.std.specs.Prelude.{◌≡◌, ◌<◌, ◌^◌, ◌++◌, false, OnOk};
ghost use Rattle.codec_graph.specs.Widget.{amplifier_offset};
ghost use Rattle.setup_verbs.specs.VerbList as spec;
ghost use Rattle.verb_codes.specs.Amplifiers as amplifiers;

use codec_graph::RawCodec;
use std::alloc::AllocError;
use verb_codes::{AmpSetting, Command, Verb};

/// Puts the command with this verb at the codec's node last, where it applies. This project's own.
///
/// # Errors
/// Want of memory.
pub fn send_if(
    commands: &mut Vec<Command>,
    codec: &RawCodec,
    nid: u8,
    applies: bool,
    verb: Verb,
) -> Result<(), AllocError>
    ensures { OnOk result (commands.new.items ≡ commands.old.items ++ spec.commands_to codec.now nid
        (spec.only_if applies verb)) }
{
    if applies {
        commands.push(Command {
            codec: codec.address,
            nid,
            verb,
        })?;
    }
    Ok(())
}

/// The 0 dB step of an amplifier with these capabilities.
fn neutral_gain(word: u32) -> u8
    ensures value { result ≡ amplifier_offset word }
    ensures small { result < 2 ^ 7 }
{
    codec_graph::amplifier_offset(word) as u8
}

/// Passes the input at this place, 0 to 15, at the 0 dB step of an amplifier with these capabilities (HDA 1.0a,
/// 7.3.3.7).
pub fn pass_input(word: u32, place: u8) -> Verb
    requires { place < 16 }
    ensures { result ≡ Verb.SetAmp
        (amplifiers.setting_payload (spec.input_setting place false (amplifier_offset word))) }
{
    let setting = AmpSetting {
        output: false,
        input: true,
        left: true,
        right: true,
        place,
        mute: false,
        gain: neutral_gain(word),
    };
    Verb::SetAmp(setting.payload())
}

/// Mutes the input at this place.
pub(crate) fn mute_input(place: u8) -> Verb
    requires { place < 16 }
    ensures { result ≡ spec.mute_input place }
{
    let setting = AmpSetting {
        output: false,
        input: true,
        left: true,
        right: true,
        place,
        mute: true,
        gain: 0,
    };
    Verb::SetAmp(setting.payload())
}

/// Sets the output to the 0 dB step of an amplifier with these capabilities.
pub(crate) fn pass_output(word: u32) -> Verb
    ensures { result ≡ Verb.SetAmp (amplifiers.setting_payload (spec.output_setting (amplifier_offset word))) }
{
    let setting = AmpSetting {
        output: true,
        input: false,
        left: true,
        right: true,
        place: 0,
        mute: false,
        gain: neutral_gain(word),
    };
    Verb::SetAmp(setting.payload())
}
