//! Reads the top table of a codec file.
ghost use Rattle.std.specs.Prelude.{◌≡◌, All, IfOk};
ghost use Rattle.toml.specs.View.{table_view};
ghost use Rattle.hda_files.specs.Tops as tops;
ghost use Rattle.hda_files.specs.Readers.{IsMeant, IsReadCodec};

use crate::codec::{CodecTable, read_codecs};
use crate::fault::{FileFault, Key, Place};
use crate::values::{short_or, tables_at, word_or};
use hda_items::Items;
use std::alloc::Global;
use toml::Table;

/// How many entries a ring of commands or responses has (HDA 1.0a, 3.3.24 and 3.3.31).
#[derive(Clone, Copy, Debug, PartialEq, Eq)]
pub enum RingSize {
    /// 2 entries.
    Two,
    /// 16 entries.
    Sixteen,
    /// 256 entries.
    Full,
}

/// How many codecs a file may have.
const MOST_CODECS: usize = 4;

/// What a top table says of its machine.
#[derive(Debug, Drop)]
pub(crate) struct MachineTable {
    /// The bytes of a stream's FIFO.
    pub fifo: u16,
    /// The command ring.
    pub corb: RingSize,
    /// The response ring.
    pub rirb: RingSize,
    /// The codecs in the file's order.
    pub codecs: Items<CodecTable>,
}

/// The size of a ring with so many entries.
fn ring_size(entries: u32) -> Option<RingSize>
    ensures { result ≡ tops.ring_size entries }
{
    match entries {
        2 => Some(RingSize::Two),
        16 => Some(RingSize::Sixteen),
        256 => Some(RingSize::Full),
        _ => None,
    }
}

/// The size of a ring at a key.
fn ring_size_at(top: &Table, key: Key) -> Result<RingSize, FileFault>
    ensures { result ≡ tops.ring_size_at (table_view top.now) key }
{
    let entries = word_or(top, Place::Top, key, 256)?;
    ring_size(entries).ok_or(FileFault::OutOfRange(Place::Top, key))
}

/// Reads the codecs of a top table, in the file's order.
fn codecs_at(alloc: Global, top: &Table) -> Result<Items<CodecTable>, FileFault>
    ensures value { IsMeant result (tops.codecs_at (table_view top.now)) }
    ensures read { IfOk result (All IsReadCodec) }
{
    let array = tables_at(top, Place::Top, Key::Codec, MOST_CODECS)?;
    let codecs = read_codecs(alloc, array)?;
    Ok(Items::from_vec(codecs))
}

/// Reads the keys of the top table and of its codecs.
pub(crate) fn read_machine_table(alloc: Global, top: &Table) -> Result<MachineTable, FileFault>
    ensures value { IsMeant result (tops.machine_table_of (table_view top.now)) }
    ensures read { IfOk result (λ table. All IsReadCodec table.codecs) }
{
    let fifo = short_or(top, Place::Top, Key::Fifo, 8, 4096, 192)?;
    let corb = ring_size_at(top, Key::Corb)?;
    let rirb = ring_size_at(top, Key::Rirb)?;
    let codecs = codecs_at(alloc, top)?;
    Ok(MachineTable {
        fifo,
        corb,
        rirb,
        codecs,
    })
}
