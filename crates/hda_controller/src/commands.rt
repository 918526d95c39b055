//! Which commands may change settings of a codec.
ghost use Rattle.std.specs.Prelude.{◌≡◌};
ghost use Rattle.hda_controller.specs.Commands as spec;

use verb_codes::{Verb, decode};

/// Whether a word is that of a command that sets a control (HDA 1.0a, 7.3.3). One without a reading sets none.
pub fn is_set_command(word: u32) -> bool
    ensures { result ≡ spec.is_set_command word }
{
    match decode(word) {
        Some(command) => is_set_verb(command.verb),
        None => false,
    }
}

/// Whether a verb sets a control.
fn is_set_verb(verb: Verb) -> bool
    ensures { result ≡ spec.is_set_verb verb }
{
    match verb {
        Verb::GetParam(_)
        | Verb::GetSelect
        | Verb::GetList(_)
        | Verb::GetPower
        | Verb::GetStream
        | Verb::GetPin
        | Verb::GetUnsol
        | Verb::GetSense
        | Verb::GetEapd
        | Verb::GetDigital
        | Verb::GetDefault
        | Verb::GetFormat
        | Verb::GetAmp(_) => false,
        Verb::SetSelect(_)
        | Verb::SetPower(_)
        | Verb::SetStream(_)
        | Verb::SetPin(_)
        | Verb::SetUnsol(_)
        | Verb::SetEapd(_)
        | Verb::SetDigital(_)
        | Verb::SetDefault(_, _)
        | Verb::SetFormat(_)
        | Verb::SetAmp(_) => true,
    }
}
