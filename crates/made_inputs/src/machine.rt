//! The machine through which a made sound is played.
ghost use Rattle.std.specs.Prelude.{◌≡◌, ◌++◌, ◌∷◌, [], replicate, IfOk, OnOk};
ghost use Rattle.hda_files.specs.Machines.{IsSound};
ghost use Rattle.made_inputs.specs.MadeMachine as spec;

use codec_graph::{Graph, GroupWords, Presence, RawCodec, RawNode, Settings};
use hda_files::{CodecFile, Machine, RingSize};
use hda_items::Items;
use std::alloc::{AllocError, Global};

/// The capabilities of a vendor defined widget.
const VENDOR_DEFINED: u32 = 0x00F0_0000;

/// The converter 02, with two channels.
fn converter(alloc: Global) -> RawNode
    ensures { result ≡ spec.converter }
{
    RawNode::new(alloc, 0x0000_0001)
}

/// The mixer 0C of the connections 02 and 0B, whose inputs can be muted.
fn mixer(alloc: Global) -> Result<RawNode, AllocError>
    ensures { IfOk result (λ node. node ≡ spec.mixer) }
{
    let mut node = RawNode::new(alloc, 0x0020_010B);
    node.amp_in = 0x8000_0000;
    node.entries = Items::from_slice(alloc, &[0x02, 0x0B])?;
    node.list = Items::from_slice(alloc, &[0x02, 0x0B])?;
    Ok(node)
}

/// The pin 14 of the mixer: a green line out at the back, which can be muted.
fn pin(alloc: Global) -> Result<RawNode, AllocError>
    ensures { IfOk result (λ node. node ≡ spec.pin) }
{
    let mut node = RawNode::new(alloc, 0x0040_010D);
    node.pin_caps = 0x10;
    node.amp_out = 0x8000_0000;
    node.default = 0x0101_4010;
    node.entries = Items::from_slice(alloc, &[0x0C])?;
    node.list = Items::from_slice(alloc, &[0x0C])?;
    Ok(node)
}

/// Puts so many vendor defined widgets last.
fn push_vendor_defined(
    alloc: Global,
    nodes: &mut Items<RawNode>,
    count: u8,
) -> Result<(), AllocError>
    ensures { OnOk result (nodes.new ≡ nodes.old ++ replicate count spec.vendor_defined) }
{
    for _ in 0..count {
        nodes.push(RawNode::new(alloc, VENDOR_DEFINED))?;
    }
    Ok(())
}

/// The widgets 02 to 14.
fn widgets(alloc: Global) -> Result<Items<RawNode>, AllocError>
    ensures { IfOk result (λ nodes. nodes ≡ spec.widgets) }
{
    let mut nodes = Items::new(alloc);
    nodes.push(converter(alloc))?;
    push_vendor_defined(alloc, &mut nodes, 9)?;
    nodes.push(mixer(alloc)?)?;
    push_vendor_defined(alloc, &mut nodes, 7)?;
    nodes.push(pin(alloc)?)?;
    Ok(nodes)
}

/// The words of the codec at address 0, whose converter takes 16 bits at 48 kHz.
fn made_codec(alloc: Global) -> Result<RawCodec, AllocError>
    ensures { IfOk result (λ raw. raw ≡ spec.made_codec) }
{
    Ok(RawCodec {
        address: 0,
        vendor: 0x10EC_0889,
        revision: 0,
        group: 1,
        group_type: 1,
        group_words: GroupWords {
            pcm: 0x0002_0040,
            formats: 1,
            amp_in: 0,
            amp_out: 0,
            power: 0,
        },
        first: 0x02,
        count: 19,
        nodes: widgets(alloc)?,
    })
}

/// The graph of the codec.
fn made_graph(alloc: Global) -> Result<Graph, AllocError>
    ensures { IfOk result (λ graph. graph ≡ spec.made_codec) }
{
    let raw = made_codec(alloc)?;
    match Graph::check(raw) {
        Ok(graph) => Ok(graph),
        Err(_) => unreachable!(),
    }
}

/// The machine: a FIFO of 192 bytes, rings of 256 entries, and one codec at address 0 with the converter 02, the mixer
/// 0C and the pin 14.
///
/// # Errors
/// Want of memory.
pub fn made_machine(alloc: Global) -> Result<Machine, AllocError>
    ensures value { IfOk result (λ machine. machine ≡ spec.made_machine) }
    ensures sound { IfOk result IsSound }
{
    let graph = made_graph(alloc)?;
    let settings = Settings::opening(alloc, &graph)?;
    let mut codecs = Items::new(alloc);
    codecs.push(CodecFile {
        graph,
        settings,
        present: Presence::none(),
    })?;
    Ok(Machine {
        fifo: 192,
        corb: RingSize::Full,
        rirb: RingSize::Full,
        codecs,
    })
}
