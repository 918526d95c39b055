//! Words of commands and their parts.
use bitflags::Flags;
use std::alloc::{AllocError, Global};
use test_cases::{number_of, text_of};
use verb_codes::{
    AmpSetting, AmpSide, Parameter, PinCapabilities, PinControl, WidgetCapabilities, decode, encode,
};

/// The command that a word is, and the word that the command is.
pub fn tell_decoded(alloc: Global, words: &[Vec<u8>]) -> Result<String, AllocError> {
    let [word] = words else {
        return format!(in alloc; "no word");
    };
    match decode(number_of(word)) {
        Some(command) => {
            let back = encode(&command);
            format!(in alloc; "Some({command:?}), {back:08x}")
        }
        None => format!(in alloc; "None"),
    }
}

/// The payload of a command, of 16 bits.
fn payload_of(word: &[u8]) -> u16 {
    u16::try_from(number_of(word)).unwrap_or(0)
}

/// What a payload sets of an amplifier, and the payload that does.
pub fn tell_setting(alloc: Global, words: &[Vec<u8>]) -> Result<String, AllocError> {
    let [word] = words else {
        return format!(in alloc; "no word");
    };
    let setting = AmpSetting::of_payload(payload_of(word));
    let back = setting.payload();
    format!(in alloc; "{setting:?}, {back:04x}")
}

/// Which side of an amplifier a payload asks for, and the payload that does.
pub fn tell_side(alloc: Global, words: &[Vec<u8>]) -> Result<String, AllocError> {
    let [word] = words else {
        return format!(in alloc; "no word");
    };
    let side = AmpSide::of_payload(payload_of(word));
    let back = side.payload();
    format!(in alloc; "{side:?}, {back:04x}")
}

/// The parameter with a number, and its number.
pub fn tell_parameter(alloc: Global, words: &[Vec<u8>]) -> Result<String, AllocError> {
    let [word] = words else {
        return format!(in alloc; "no word");
    };
    match Parameter::of_number(u8::try_from(number_of(word)).unwrap_or(0)) {
        Some(parameter) => {
            let number = parameter.number();
            format!(in alloc; "Some({parameter:?}), {number:02x}")
        }
        None => format!(in alloc; "None"),
    }
}

/// The names of the flags that are set.
fn flag_names<F: Flags>(alloc: Global, set: &F) -> Result<String, AllocError> {
    let mut text = String::new(alloc);
    for (name, _) in set.iter_names() {
        if !text.is_empty() {
            text.push(' ')?;
        }
        text.push_str(name)?;
    }
    Ok(text)
}

/// The names of the flags of a pin's control, of a pin's capabilities or of a widget's that are set in a number.
pub fn tell_flags(alloc: Global, words: &[Vec<u8>]) -> Result<String, AllocError> {
    let [kind, number] = words else {
        return format!(in alloc; "no flags");
    };
    let number = number_of(number);
    match text_of(kind) {
        "control" => flag_names(alloc, &PinControl(u8::try_from(number).unwrap_or(0))),
        "pin" => flag_names(alloc, &PinCapabilities(number)),
        _ => flag_names(alloc, &WidgetCapabilities(number)),
    }
}
