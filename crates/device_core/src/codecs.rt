//! The codecs of a device, ascending by address.
ghost use Rattle.std.specs.Prelude.{◌≡◌, ◌≤◌, ◌<◌, ◌==◌, All, IfSome, Some, None, false, map, IsTrue, slice_get};
ghost use Rattle.std.specs.Prelude.{if◌then◌else◌};
ghost use Rattle.std.specs.Option.{option_map};
ghost use Rattle.codec_graph.specs.CodecStates as states;
ghost use Rattle.codec_nodes.specs.Queues as queues;
ghost use Rattle.hda_registers.specs.Fields.{is_out_of_reset};
ghost use Rattle.hda_world.specs.Worlds.{with_codec, codec_at};
ghost use Rattle.hda_world.specs.Steps as steps;
ghost use Rattle.device_core.specs.Codecs as spec;

use codec_nodes::Codec;
use hda_registers::{Raise, Registers};
use hda_world::FRAMES_TO_DISCOVERY;

/// A command that a codec took.
#[derive(Clone, Copy, Debug, PartialEq, Eq)]
pub struct Handed {
    /// The place of the codec among the device's codecs.
    pub place: usize,
    /// The word of the command, with the codec's address in bits 31:28.
    pub word: u32,
}

/// The address of a codec.
pub(crate) fn address(codec: &Codec) -> u8
    ensures { result ≡ codec.now.graph.address }
{
    codec.graph().raw().address
}

/// The place of the codec of this address. `None` exactly where there is none.
pub(crate) fn find(codecs: &[Codec], wanted: u8) -> Option<usize>
    ensures { result ≡ spec.place_of wanted codecs.now }
{
    for place in 0..codecs.len() {
        if address(&codecs[place]) == wanted {
            return Some(place);
        }
    }
    None
}

/// Says by the state change status that each of the codecs is there (HDA 1.0a, 4.3).
pub(crate) fn discover(codecs: &[Codec], regs: &mut Registers)
    requires out { IsTrue (is_out_of_reset regs.old.global) }
    requires few { All (λ address. address ≤ 14) (spec.addresses_of codecs.now) }
    ensures { regs.new ≡ steps.discovered codecs.now regs.old }
{
    for codec in codecs {
        regs.raise(Raise::Codec(address(codec)));
    }
}

/// Discovers the codecs where this is the link frame in which they are (HDA 1.0a, 4.3).
pub(crate) fn discover_at(frame: u32, codecs: &[Codec], regs: &mut Registers)
    requires out { IsTrue (is_out_of_reset regs.old.global) }
    requires few { All (λ address. address ≤ 14) (spec.addresses_of codecs.now) }
    ensures { regs.new ≡ steps.discovered_at frame codecs.now regs.old }
{
    if frame == FRAMES_TO_DISCOVERY {
        discover(codecs, regs);
    }
}

/// Drops all that waits at the codecs, where the controller was reset (HDA 1.0a, 5.5.1).
pub(crate) fn clear_if(reset: bool, codecs: &mut [Codec])
    ensures { codecs.new ≡ (if reset then map states.cleared codecs.old else codecs.old) }
{
    if reset {
        clear_all(codecs);
    }
}

/// Drops all that waits at the codecs.
fn clear_all(codecs: &mut [Codec])
    ensures { codecs.new ≡ map states.cleared codecs.old }
{
    for place in 0..codecs.len() {
        codecs[place].clear();
    }
}

/// Takes out the first item that waits at the codec of this address; the truth value marks one that was sent unasked.
/// `None` exactly where nothing waits there, and then nothing changes.
pub(crate) fn pop(codecs: &mut [Codec], wanted: u8) -> Option<(u32, bool)>
    requires { spec.AreAddresses (spec.addresses_of codecs.old) }
    ensures item { result ≡ option_map queues.marked (slice_get (steps.waiting_of (codec_at wanted codecs.old)) 0) }
    ensures codecs { codecs.new ≡ with_codec wanted states.without_first codecs.old }
    ensures unchanged { result ≡ None → codecs.new ≡ codecs.old }
    ensures few { IfSome result (λ _. wanted ≤ 14) }
{
    let Some(place) = find(codecs, wanted) else {
        return None;
    };
    codecs[place].next_answer()
}

/// Drops the first answer to a command that waits at the codec of this address.
pub(crate) fn lose(codecs: &mut [Codec], wanted: u8)
    requires { spec.AreAddresses (spec.addresses_of codecs.old) }
    ensures { codecs.new ≡ with_codec wanted states.without_answer codecs.old }
{
    if let Some(place) = find(codecs, wanted) {
        let _lost = codecs[place].lose();
    }
}

/// Says whether something is plugged in at a pin of the codec of this address.
pub(crate) fn plug(codecs: &mut [Codec], wanted: u8, nid: u8, present: bool)
    requires { spec.AreAddresses (spec.addresses_of codecs.old) }
    ensures { codecs.new ≡ with_codec wanted (λ codec. states.plugged codec nid present) codecs.old }
{
    if let Some(place) = find(codecs, wanted) {
        codecs[place].plug(nid, present);
    }
}

/// The address that a command's word names: bits 31:28 (HDA 1.0a, 7.3).
pub(crate) fn address_in(word: u32) -> u8
    ensures { result ≡ steps.address_of word }
{
    (word >> 28) as u8
}

/// Whether the codec that the word names is full.
pub(crate) fn is_busy(codecs: &[Codec], word: u32) -> bool
    ensures { result ≡ steps.is_busy (codec_at (steps.address_of word) codecs.now) }
{
    match find(codecs, address_in(word)) {
        Some(place) => codecs[place].full(),
        None => false,
    }
}

/// Hands a command to the codec that its word names, which is not full, and says which one took it. `None` exactly
/// where there is no such codec, and then nothing changes.
pub(crate) fn hand(codecs: &mut [Codec], word: u32) -> Option<Handed>
    requires addresses { spec.AreAddresses (spec.addresses_of codecs.old) }
    requires free { steps.is_busy (codec_at (steps.address_of word) codecs.old) ≡ false }
    ensures handed { result ≡ spec.handed_by (Some word) codecs.old }
    ensures codecs { codecs.new ≡ with_codec (steps.address_of word) (λ codec. states.taken codec word) codecs.old }
    ensures exactly { codecs.new ≡ spec.with_handed result codecs.old }
{
    let Some(place) = find(codecs, address_in(word)) else {
        return None;
    };
    let _answer = codecs[place].take(word);
    Some(Handed { place, word })
}
