//! Commands as 32-bit words (HDA 1.0a, 7.3).
ghost use Rattle.std.specs.Prelude.{◌≡◌, ◌<◌, ◌+◌, ◌*◌, ◌/◌, ◌^◌, ◌↔◌, IsTrue, Some};
ghost use Rattle.verb_codes.specs.declared.verbs.Command.{Command};
ghost use Rattle.verb_codes.specs.Verbs as spec;

use crate::bits::{bits_of, joined};
use crate::codes;
use crate::verbs::{Command, Verb};

/// The greatest address of a codec: a word for codec 15 has no reading.
const LAST_CODEC: u32 = 14;
/// The greatest node identifier.
const LAST_NID: u32 = 0x7F;
/// The bits of GetAmp's payload that are 0: 14 and 12:4 (HDA 1.0a, 7.3.3.7).
const GET_AMP_ZEROS: u16 = 0x5FF0;

/// The word of a command: codec in bits 31:28, node identifier in 27:20, verb and payload in 19:0.
/// The codec is at most 14, the node identifier at most 7Fh, the place of SetDefault at most 3,
/// and GetAmp's payload has no bit but 15, 13 and 3:0.
pub fn encode(command: &Command) -> u32
    requires { spec.IsInRange command.now }
    ensures word { result ≡ spec.word_of command.now }
    ensures read_back { spec.reading_of result ≡ Some command.now }
{
    let node = joined(u32::from(command.codec), u32::from(command.nid), 8);
    joined(node, verb_bits(&command.verb), 20)
}

/// The command that this is the word of. `None` exactly where the word has no reading: for codec 15, a node identifier
/// above 7Fh, an unknown verb, a payload other than 0 at a get verb without an argument, and GetAmp with a bit other
/// than 15, 13 and 3:0.
pub fn decode(word: u32) -> Option<Command>
    ensures reading { result ≡ spec.reading_of word }
    ensures exact { (c : Command) → (result ≡ Some c) ↔ (spec.IsInRange c × (word ≡ spec.word_of c)) }
{
    let codec = bits_of(word, 28, 4);
    let nid = bits_of(word, 20, 8);
    if codec > LAST_CODEC || nid > LAST_NID {
        return None;
    }
    let verb = verb_of(bits_of(word, 0, 20))?;
    Some(Command {
        codec: codec as u8,
        nid: nid as u8,
        verb,
    })
}

/// Bits 19:0 of a command.
fn verb_bits(verb: &Verb) -> u32
    requires { IsTrue (spec.is_verb_in_range verb.now) }
    ensures value { result ≡ spec.verb_bits verb.now }
    ensures narrow { result < 2 ^ 20 }
{
    match *verb {
        Verb::GetParam(number) => short(codes::GET_PARAM, number),
        Verb::GetSelect => short(codes::GET_SELECT, 0),
        Verb::SetSelect(place) => short(codes::SET_SELECT, place),
        Verb::GetList(place) => short(codes::GET_LIST, place),
        Verb::GetPower => short(codes::GET_POWER, 0),
        Verb::SetPower(state) => short(codes::SET_POWER, state),
        Verb::GetStream => short(codes::GET_STREAM, 0),
        Verb::SetStream(stream) => short(codes::SET_STREAM, stream),
        Verb::GetPin => short(codes::GET_PIN, 0),
        Verb::SetPin(control) => short(codes::SET_PIN, control),
        Verb::GetUnsol => short(codes::GET_UNSOL, 0),
        Verb::SetUnsol(control) => short(codes::SET_UNSOL, control),
        Verb::GetSense => short(codes::GET_SENSE, 0),
        Verb::GetEapd => short(codes::GET_EAPD, 0),
        Verb::SetEapd(control) => short(codes::SET_EAPD, control),
        Verb::GetDigital => short(codes::GET_DIGITAL, 0),
        Verb::SetDigital(control) => short(codes::SET_DIGITAL, control),
        Verb::GetDefault => short(codes::GET_DEFAULT, 0),
        Verb::SetDefault(place, byte) => short(codes::SET_DEFAULT + u32::from(place), byte),
        Verb::GetFormat => long(codes::GET_FORMAT, 0),
        Verb::SetFormat(format) => long(codes::SET_FORMAT, format),
        Verb::GetAmp(side) => long(codes::GET_AMP, side),
        Verb::SetAmp(setting) => long(codes::SET_AMP, setting),
    }
}

/// A 12-bit code above 8 bits of payload.
fn short(code: u32, payload: u8) -> u32
    requires { code < 2 ^ 12 }
    ensures value { result ≡ code * 2 ^ 8 + payload }
    ensures narrow { result < 2 ^ 20 }
{
    joined(code, u32::from(payload), 8)
}

/// A 4-bit code above 16 bits of payload.
fn long(code: u32, payload: u16) -> u32
    requires { code < 2 ^ 4 }
    ensures value { result ≡ code * 2 ^ 16 + payload }
    ensures narrow { result < 2 ^ 20 }
{
    joined(code, u32::from(payload), 16)
}

/// The verb of bits 19:0 of a command.
fn verb_of(bits: u32) -> Option<Verb>
    requires { bits < 2 ^ 20 }
    ensures { result ≡ spec.verb_of_bits bits }
{
    let payload = bits_of(bits, 0, 16) as u16;
    let code = bits_of(bits, 8, 12);
    let argument = bits_of(bits, 0, 8) as u8;
    match bits_of(bits, 16, 4) {
        codes::SET_FORMAT => Some(Verb::SetFormat(payload)),
        codes::SET_AMP => Some(Verb::SetAmp(payload)),
        codes::GET_FORMAT if payload == 0 => Some(Verb::GetFormat),
        codes::GET_AMP if payload & GET_AMP_ZEROS == 0 => Some(Verb::GetAmp(payload)),
        0x7 => set_verb_of(code, argument),
        0xF => get_verb_of(code, argument),
        _ => None,
    }
}

/// The set verb of a code 7XXh and 8 bits of payload.
fn set_verb_of(code: u32, argument: u8) -> Option<Verb>
    requires { code / 2 ^ 8 ≡ 7 }
    ensures { result ≡ spec.verb_of_bits (code * 2 ^ 8 + argument) }
{
    match code {
        codes::SET_SELECT => Some(Verb::SetSelect(argument)),
        codes::SET_POWER => Some(Verb::SetPower(argument)),
        codes::SET_STREAM => Some(Verb::SetStream(argument)),
        codes::SET_PIN => Some(Verb::SetPin(argument)),
        codes::SET_UNSOL => Some(Verb::SetUnsol(argument)),
        codes::SET_EAPD => Some(Verb::SetEapd(argument)),
        codes::SET_DIGITAL => Some(Verb::SetDigital(argument)),
        _ if code >= codes::SET_DEFAULT && code - codes::SET_DEFAULT < 4 => {
            Some(Verb::SetDefault((code - codes::SET_DEFAULT) as u8, argument))
        }
        _ => None,
    }
}

/// The get verb of a code FXXh and 8 bits of payload: only two of these verbs have an argument.
fn get_verb_of(code: u32, argument: u8) -> Option<Verb>
    requires { code / 2 ^ 8 ≡ 15 }
    ensures { result ≡ spec.verb_of_bits (code * 2 ^ 8 + argument) }
{
    match code {
        codes::GET_PARAM => Some(Verb::GetParam(argument)),
        codes::GET_LIST => Some(Verb::GetList(argument)),
        _ if argument != 0 => None,
        codes::GET_SELECT => Some(Verb::GetSelect),
        codes::GET_POWER => Some(Verb::GetPower),
        codes::GET_STREAM => Some(Verb::GetStream),
        codes::GET_PIN => Some(Verb::GetPin),
        codes::GET_UNSOL => Some(Verb::GetUnsol),
        codes::GET_SENSE => Some(Verb::GetSense),
        codes::GET_EAPD => Some(Verb::GetEapd),
        codes::GET_DIGITAL => Some(Verb::GetDigital),
        codes::GET_DEFAULT => Some(Verb::GetDefault),
        _ => None,
    }
}
