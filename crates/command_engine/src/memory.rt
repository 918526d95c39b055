//! Accesses to the rings' blocks.
ghost use Rattle.std.specs.Prelude.{◌≡◌, ◌≤◌, ◌<◌, ◌+◌, ◌*◌, length};
ghost use Rattle.byteorder.specs.Endian.{little_bytes};
ghost use Rattle.world_rings.specs.declared.entries.TheConstants.{COMMAND_BYTES, RESPONSE_BYTES};
ghost use Rattle.hda_world.specs.Tellings.{Accessed, Between};
ghost use Rattle.hda_world.specs.Events.{DmaRead, DmaWrite};

use byteorder::{ByteOrder, LittleEndian};
use dma_pool::Lent;
use hda_platform::Platform;
use world_rings::{COMMAND_BYTES, RESPONSE_BYTES};

/// Writes a command to an entry of CORB.
pub(crate) fn write_command<P: Platform>(platform: &mut P, corb: &mut Lent, place: u8, word: u32)
    requires room { 1 ≤ P.spare_accesses platform.old }
    requires bytes_room { COMMAND_BYTES ≤ P.spare_bytes platform.old }
    requires within { COMMAND_BYTES * (place + 1) ≤ corb.old.bytes }
    ensures told { Between (λ old new. Accessed old new (DmaWrite (corb.old.address + COMMAND_BYTES * place)
        (little_bytes 4 word))) (P.told platform.old) (P.told platform.new) }
    ensures same { corb.new ≡ corb.old }
    ensures fixed { P.fixed platform.new ≡ P.fixed platform.old }
    ensures accesses { P.spare_accesses platform.new + 1 ≡ P.spare_accesses platform.old }
    ensures bytes { P.spare_bytes platform.new + COMMAND_BYTES ≡ P.spare_bytes platform.old }
{
    let mut bytes = [0; COMMAND_BYTES];
    LittleEndian::write_u32(&mut bytes, word);
    let at = (COMMAND_BYTES * usize::from(place)) as u64;
    let end = u64::from(corb.bytes());
    let mut window = corb.window(0, 0, end);
    platform.dma_write(&mut window, at, &bytes);
    window.close();
}

/// Reads an entry of RIRB.
pub(crate) fn read_entry<P: Platform>(
    platform: &mut P,
    rirb: &Lent,
    place: u8,
) -> [u8; RESPONSE_BYTES]
    requires room { 1 ≤ P.spare_accesses platform.old }
    requires bytes_room { RESPONSE_BYTES ≤ P.spare_bytes platform.old }
    requires within { RESPONSE_BYTES * (place + 1) ≤ rirb.now.bytes }
    ensures told { Between (λ old new. Accessed old new (DmaRead (rirb.now.address + RESPONSE_BYTES * place) result))
        (P.told platform.old) (P.told platform.new) }
    ensures whole { length result ≡ RESPONSE_BYTES }
    ensures fixed { P.fixed platform.new ≡ P.fixed platform.old }
    ensures accesses { P.spare_accesses platform.new + 1 ≡ P.spare_accesses platform.old }
    ensures bytes { P.spare_bytes platform.new + RESPONSE_BYTES ≡ P.spare_bytes platform.old }
{
    let mut entry = [0; RESPONSE_BYTES];
    platform.dma_read(
        rirb,
        (RESPONSE_BYTES * usize::from(place)) as u64,
        &mut entry,
    );
    entry
}
