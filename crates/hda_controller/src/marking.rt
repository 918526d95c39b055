//! Marks of the pins whose control a command sets.
ghost use Rattle.std.specs.Prelude.{◌≡◌, ◌+◌, ℕ};
ghost use Rattle.heard_lists.specs.Listings.{HasRoom, HasMarkRoom};
ghost use Rattle.heard_frames.specs.Marks.{control_in};
ghost use Rattle.hda_controller.specs.Commands as spec;

use codec_graph::has_bit;
use device_core::Handed;
use heard_lists::HeardLists;
use verb_codes::{Command, Verb, decode};

/// The bit of a pin's control that has it send, out enable (HDA 1.0a, 7.3.3.13).
const OUT_ENABLE: u32 = 6;

/// Notes a mark where a command was handed on that sets a pin's control.
pub(crate) fn mark_handed(heard: &mut HeardLists, handed: Option<Handed>)
    requires { HasMarkRoom 1 heard.old }
    ensures lists { heard.new ≡ spec.marked_handed handed heard.old }
    ensures items { (items : ℕ) → HasRoom items heard.old → HasRoom items heard.new }
    ensures room { (more : ℕ) → HasMarkRoom (1 + more) heard.old → HasMarkRoom more heard.new }
{
    if let Some(handed) = handed {
        if let Some(command) = decode(handed.word) {
            mark_put(heard, &command);
        }
    }
}

/// Notes a mark where the command sets a pin's control.
fn mark_put(heard: &mut HeardLists, command: &Command)
    requires { HasMarkRoom 1 heard.old }
    ensures lists { heard.new ≡ spec.marked_put command.now.codec command.now.nid (control_in command.now.verb) heard.old }
    ensures items { (items : ℕ) → HasRoom items heard.old → HasRoom items heard.new }
    ensures room { (more : ℕ) → HasMarkRoom (1 + more) heard.old → HasMarkRoom more heard.new }
{
    if let Verb::SetPin(control) = command.verb {
        heard.mark(
            command.codec,
            command.nid,
            has_bit(u32::from(control), OUT_ENABLE),
        );
    }
}
