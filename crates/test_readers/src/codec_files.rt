//! Codec files, and the machine or the fault that each reads as.
use codec_graph::{Presence, RawCodec, RawNode, Settings};
use hda_files::{CodecFile, Machine, read_machine};
use std::alloc::{AllocError, Global};
use std::fmt::Write;
use test_cases::push_hex;
use test_codecs::push_controls;

/// Puts the words of a widget that are not 0, and its connection list: its entries, and the nodes for which they stand.
fn push_widget(text: &mut String, node: &RawNode) -> Result<(), AllocError> {
    write!(text, "caps {:08x}", node.caps)?;
    for (name, word) in [
        ("pcm", node.pcm),
        ("formats", node.formats),
        ("pin_caps", node.pin_caps),
        ("amp_in", node.amp_in),
        ("amp_out", node.amp_out),
        ("power", node.power),
        ("default", node.default),
    ] {
        if word != 0 {
            write!(text, ", {name} {word:x}")?;
        }
    }
    if node.long {
        text.push_str(", long")?;
    }
    if !node.entries.is_empty() || !node.list.is_empty() {
        text.push_str(", entries ")?;
        push_hex(text, node.entries.as_slice())?;
        text.push_str(" list ")?;
        push_hex(text, node.list.as_slice())?;
    }
    Ok(())
}

/// Puts the words of a codec and of its function group.
fn push_codec(text: &mut String, codec: &RawCodec) -> Result<(), AllocError> {
    write!(
        text,
        "\n  codec {}: vendor {:08x}, revision {:x}",
        codec.address, codec.vendor, codec.revision
    )?;
    let group = &codec.group_words;
    write!(
        text,
        "\n    group {:02x}: type {}, pcm {:x}, formats {:x}",
        codec.group, codec.group_type, group.pcm, group.formats
    )?;
    write!(
        text,
        ", amp_in {:x}, amp_out {:x}, power {:x}",
        group.amp_in, group.amp_out, group.power
    )
}

/// Puts the nodes of a codec: the words of each, and what its controls are set to.
fn push_nodes(
    text: &mut String,
    codec: &RawCodec,
    settings: &Settings,
    present: &Presence,
) -> Result<(), AllocError> {
    push_controls(text, settings, codec.group)?;
    write!(
        text,
        "\n    {} widgets from {:02x}",
        codec.count, codec.first
    )?;
    for nid in 0..=u8::MAX {
        if let Some(node) = codec.node(nid) {
            write!(text, "\n    {nid:02x}: ")?;
            push_widget(text, node)?;
            push_controls(text, settings, nid)?;
            if nid < 128 && present.has(nid) {
                text.push_str(", present")?;
            }
        }
    }
    Ok(())
}

/// Puts a codec.
fn push_file(text: &mut String, codec: &CodecFile) -> Result<(), AllocError> {
    let raw = codec.graph.raw();
    push_codec(text, raw)?;
    push_nodes(text, raw, &codec.settings, &codec.present)
}

/// All that a machine says.
fn machine_text(alloc: Global, machine: &Machine) -> Result<String, AllocError> {
    let mut text = format!(in alloc;
        "fifo {}, corb {:?}, rirb {:?}",
        machine.fifo, machine.corb, machine.rirb
    )?;
    for codec in machine.codecs.as_slice() {
        push_file(&mut text, codec)?;
    }
    Ok(text)
}

/// The machine of the file of these parts, or its fault.
pub fn tell(alloc: Global, words: &[Vec<u8>]) -> Result<String, AllocError> {
    let mut bytes = Vec::new(alloc);
    for part in words {
        bytes.extend_from_slice(part)?;
    }
    match read_machine(alloc, &bytes) {
        Ok(machine) => machine_text(alloc, &machine),
        Err(fault) => format!(in alloc; "{fault:?}"),
    }
}
