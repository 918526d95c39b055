//! Reads a whole codec file.
ghost use Rattle.std.specs.Prelude.{◌≡◌, ◌≤◌, All, IfOk, length};
ghost use Rattle.toml.specs.View.{table_view};
ghost use Rattle.hda_files.specs.Machines as machines;
ghost use Rattle.hda_files.specs.Machines.{Reads, ReadsOnly, IsSound, IsSoundCodec};
ghost use Rattle.hda_files.specs.Memory.{OrMemory};
ghost use Rattle.hda_files.specs.Readers.{IsReadCodec};

use crate::codec::{CodecTable, codec_with_address, laid_out};
use crate::fault::FileFault;
use crate::list_faults::first_list_fault;
use crate::start::{presence_of, settings_of};
use crate::top::{MachineTable, RingSize, read_machine_table};
use codec_graph::{Graph, NODE_IDENTIFIERS, Presence, Settings};
use hda_items::Items;
use std::alloc::Global;
use toml::Table;

/// What a codec file says of one codec.
#[derive(Debug, Drop)]
pub struct CodecFile {
    /// The graph of its widgets.
    pub graph: Graph,
    /// The settings with which it starts.
    pub settings: Settings,
    /// Where something is plugged in as it starts.
    pub present: Presence,
}

/// The machine that a codec file describes.
#[derive(Debug, Drop)]
pub struct Machine {
    /// The bytes of a stream's FIFO, 8 to 4,096.
    pub fifo: u16,
    /// The size of its command ring.
    pub corb: RingSize,
    /// The size of its response ring.
    pub rirb: RingSize,
    /// Its codecs, one to four, ascending by address.
    pub codecs: Items<CodecFile>,
}

/// Most analog candidate pins of a file.
const MOST_PINS: usize = 16;

/// How many addresses a codec can have: 0 to 14.
const CODEC_ADDRESSES: u8 = 15;

/// Reads a codec file: its bytes, a TOML text with one to four tables in the array `codec`, whose codecs stand in the
/// machine ascending by address.
///
/// # Errors
/// The file's first fault: [`FileFault::Toml`] where the bytes are no TOML text, then the keys' faults in the order in
/// which the keys are tried, then those of the codecs ascending by address, each first with the fault of the least node
/// identifier whose connection list has one and then with the graph's fault, and last [`FileFault::TooManyPins`], where
/// the codecs have more than 16 analog candidate pins together. [`FileFault::OutOfMemory`] says nothing of the file.
pub fn read_machine(alloc: Global, bytes: &[u8]) -> Result<Machine, FileFault>
    ensures reading { Reads bytes.now result }
    ensures only { ReadsOnly bytes.now result }
    ensures sound { IfOk result IsSound }
{
    match toml::table_from_slice(alloc, bytes) {
        Ok(top) => read_top(alloc, &top),
        Err(error) if error.is_memory() => Err(FileFault::OutOfMemory),
        Err(_) => Err(FileFault::Toml),
    }
}

/// Reads the top table.
fn read_top(alloc: Global, top: &Table) -> Result<Machine, FileFault>
    ensures reading { OrMemory result (machines.IsReadingOf (table_view top.now) result) }
    ensures sound { IfOk result IsSound }
{
    let table = read_machine_table(alloc, top)?;
    judge_machine(alloc, table)
}

/// Checks the codecs' lists and graphs and their number of candidate pins.
fn judge_machine(alloc: Global, table: MachineTable) -> Result<Machine, FileFault>
    requires { All IsReadCodec table.codecs }
    ensures judged { OrMemory result (machines.IsJudgedMachine table result) }
    ensures sound { IfOk result IsSound }
{
    let codecs = judge_codecs(alloc, table.codecs.as_slice())?;
    if candidates_of(codecs.as_slice()) > MOST_PINS {
        return Err(FileFault::TooManyPins);
    }
    Ok(Machine {
        fifo: table.fifo,
        corb: table.corb,
        rirb: table.rirb,
        codecs,
    })
}

/// Checks the lists and the graph of each codec, ascending by address.
fn judge_codecs(alloc: Global, tables: &[CodecTable]) -> Result<Items<CodecFile>, FileFault>
    requires { All IsReadCodec tables.now }
    ensures judged { OrMemory result (machines.AreJudgedCodecs (machines.by_address tables.now) result) }
    ensures sound { IfOk result (All IsSoundCodec) }
{
    let mut codecs = Items::new(alloc);
    for address in 0..CODEC_ADDRESSES {
        if let Some(table) = codec_with_address(tables, address) {
            codecs.push(judge_codec(alloc, table)?)?;
        }
    }
    Ok(codecs)
}

/// Checks a codec's lists and its graph.
fn judge_codec(alloc: Global, table: &CodecTable) -> Result<CodecFile, FileFault>
    requires { IsReadCodec table.now }
    ensures judged { OrMemory result (machines.IsJudgedCodec table.now result) }
    ensures sound { IfOk result IsSoundCodec }
{
    let address = table.words.address;
    if let Some(list) = first_list_fault(table.nodes.as_slice()) {
        return Err(FileFault::List(address, list.nid, list.fault));
    }
    let raw = laid_out(alloc, table)?;
    let graph = match Graph::check(raw) {
        Ok(graph) => graph,
        Err(fault) => return Err(FileFault::Graph(address, fault)),
    };
    let settings = settings_of(alloc, &graph, table.group_power, table.nodes.as_slice())?;
    Ok(CodecFile {
        graph,
        settings,
        present: presence_of(table.nodes.as_slice()),
    })
}

/// How many of the node identifiers below `end` are those of candidate pins.
fn candidates_below(graph: &Graph, end: u8) -> usize
    ensures { result ≡ machines.candidates_below graph.now end }
{
    (0..end).filter(|nid| graph.is_candidate(*nid)).count()
}

/// How many candidate pins the codecs have together.
fn candidates_of(codecs: &[CodecFile]) -> usize
    requires { length codecs.now ≤ CODEC_ADDRESSES }
    ensures { result ≡ machines.candidates_of codecs.now }
{
    let mut pins = 0;
    for codec in codecs {
        pins += candidates_below(&codec.graph, NODE_IDENTIFIERS as u8);
    }
    pins
}
