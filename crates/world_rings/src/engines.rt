//! What one call of each ring's engine does with an entry.
ghost use Rattle.std.specs.Prelude.{◌≡◌, ◌<◌, ◌+◌, ◌*◌, ◌^◌, IsTrue};
ghost use Rattle.hda_registers.specs.Fields.{corb_address};
ghost use Rattle.world_rings.specs.Entries as entries;
ghost use Rattle.world_rings.specs.Engines as spec;

use crate::entries::{COMMAND_BYTES, RESPONSE_BYTES, next_place, store_response, word_from};
use crate::response::Response;
use hda_registers::{Moved, Registers};

/// The command that [`fetch`] would fetch. `None` exactly where CRST or CORBRUN is 0, CORBRPRST is 1, or the read
/// pointer is at the write pointer (HDA 1.0a, 4.4.1). Bytes outside the memory are 0.
pub fn next_word(regs: &Registers, memory: &[u8]) -> Option<u32>
    ensures { result ≡ spec.next_word regs.now memory.now }
{
    if can_fetch(regs) {
        Some(word_from(memory, command_address(regs)))
    } else {
        None
    }
}

/// Moves CORB's read pointer on and fetches the command there. `None` as for [`next_word`], and then nothing changes.
pub fn fetch(regs: &mut Registers, memory: &[u8]) -> Option<u32>
    ensures word { result ≡ spec.next_word regs.old memory.now }
    ensures registers { regs.new ≡ spec.after_corb regs.old }
{
    let word = next_word(regs, memory)?;
    let place = next_place(regs.corb_read_pointer(), regs.shape().corb.entries());
    regs.put(Moved::CorbRp(place));
    Some(word)
}

/// Whether CORB's engine can fetch a command.
fn can_fetch(regs: &Registers) -> bool
    ensures { result ≡ spec.can_fetch regs.now }
{
    regs.is_out_of_reset()
        && regs.is_corb_running()
        && !regs.is_corb_read_pointer_reset()
        && regs.corb_read_pointer() != regs.corb_write_pointer()
}

/// The address of CORB's next command.
fn command_address(regs: &Registers) -> usize
    ensures value { result ≡ corb_address regs.now + COMMAND_BYTES * entries.fetch_place regs.now }
    ensures small { result < 2 ^ 33 }
{
    let place = next_place(regs.corb_read_pointer(), regs.shape().corb.entries());
    regs.corb_address() as usize + COMMAND_BYTES * usize::from(place)
}

/// Whether RIRB's engine can write responses: CRST and its run bit are 1 and RINTFL is 0 (HDA 1.0a, 4.4.2; that it
/// waits for RINTFL is this project's own).
pub fn can_respond(regs: &Registers) -> bool
    ensures { result ≡ spec.can_respond regs.now }
{
    regs.is_out_of_reset() && regs.is_rirb_running() && !regs.is_response_flag_set()
}

/// How many responses are written at once at most: RINTCNT, where 0 stands for 256, and fewer than the ring has
/// entries.
pub fn batch_of(regs: &Registers) -> u16
    ensures { result ≡ spec.batch_of regs.now }
{
    regs.response_count().min(regs.shape().rirb.entries() - 1)
}

/// Writes a response to the entry after RIRB's write pointer, which moves on. An entry outside the memory is not
/// written.
pub fn write_response(regs: &mut Registers, memory: &mut [u8], response: Response)
    requires { IsTrue (spec.can_respond regs.old) }
    ensures registers { regs.new ≡ entries.after_response regs.old }
    ensures memory { memory.new ≡ entries.response_stored regs.old memory.old response }
{
    let place = next_place(regs.rirb_write_pointer(), regs.shape().rirb.entries());
    let at = regs.rirb_address() as usize + RESPONSE_BYTES * usize::from(place);
    store_response(memory, at, response);
    regs.put(Moved::RirbWp(place));
}
