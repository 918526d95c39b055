//! Changes a codec so that a codec file may say it.
ghost use Rattle.std.specs.Prelude.{◌≡◌, ◌==◌, ◌≤◌, ◌++◌, [], IfOk, OnOk, length, map, slice_get, unwrap_or};
ghost use Rattle.std.specs.Option.{option_map};
ghost use Rattle.verb_codes.specs.Words.{bits_of};
ghost use Rattle.codec_dump.specs.Mending as mending;

use codec_graph::{amplifier_offset, amplifier_steps, bits_of};
use dump_reader::{CodecFacts, Gain, NodeFacts};
use hda_items::Items;
use std::alloc::{AllocError, Global};

/// The connections that stay: all but those to the function group.
fn mended_list(alloc: Global, group: u8, list: &[u8]) -> Result<Items<u8>, AllocError>
    ensures { IfOk result (λ kept. kept ≡ mending.mended_list group list.now) }
{
    let mut kept = Vec::new(alloc);
    for nid in list {
        if *nid != group {
            kept.push(*nid)?;
        }
    }
    Ok(Items::from_vec(kept))
}

/// How many connections stay.
fn kept_count(group: u8, list: &[u8]) -> usize
    ensures value { result ≡ length (mending.mended_list group list.now) }
    ensures few { result ≤ length list.now }
{
    list.iter().filter(|nid| **nid != group).count()
}

/// The selected place among the connections that stay: that of the same connection, and the first where it was taken
/// out.
pub(crate) fn mended_place(group: u8, list: &[u8], place: u8) -> u8
    ensures { result ≡ mending.mended_place group list.now place }
{
    let end = usize::from(place);
    if end >= list.len() || list[end] == group {
        return 0;
    }
    kept_count(group, &list[..end]) as u8
}

/// Whether the gain at this place stays: behind the list, and where its connection stays.
fn stays_at(group: u8, list: &[u8], place: usize) -> bool
    ensures { result ≡ mending.stays_at group (slice_get list.now place) }
{
    match list.get(place) {
        Some(nid) => *nid != group,
        None => true,
    }
}

/// Puts a gain that stays behind the others.
fn push_kept(kept: &mut Vec<Gain>, stays: bool, gain: Gain) -> Result<(), AllocError>
    ensures { OnOk result (kept.new.items ≡ kept.old.items ++ mending.kept_one stays gain) }
{
    if stays {
        kept.push(gain)?;
    }
    Ok(())
}

/// The gains at the connections that stay.
fn kept_gains(
    alloc: Global,
    group: u8,
    list: &[u8],
    gains: &[Gain],
) -> Result<Items<Gain>, AllocError>
    ensures { IfOk result (λ kept. kept ≡ mending.kept_gains group list.now gains.now) }
{
    let mut kept = Vec::new(alloc);
    for place in 0..gains.len() {
        push_kept(&mut kept, stays_at(group, list, place), gains[place])?;
    }
    Ok(Items::from_vec(kept))
}

/// Amplifier capabilities whose offset is not above the steps.
pub(crate) fn mended_word(word: u32) -> u32
    ensures { result ≡ mending.mended_word word }
{
    let offset = amplifier_offset(word);
    let steps = amplifier_steps(word);
    if steps < offset {
        word - (offset - steps)
    } else {
        word
    }
}

/// The connections, of which there are none where no list is given.
pub(crate) fn listed(facts: &NodeFacts) -> &[u8]
    ensures { result.now ≡ unwrap_or facts.now.list [] }
{
    match &facts.list {
        Some(list) => list.as_slice(),
        None => &[],
    }
}

/// The connections of a widget that stay.
fn list_after(alloc: Global, group: u8, facts: &NodeFacts) -> Result<Option<Items<u8>>, AllocError>
    ensures { IfOk result (λ list. list ≡ option_map (mending.mended_list group) facts.now.list) }
{
    match &facts.list {
        Some(list) => {
            let kept = mended_list(alloc, group, list.as_slice())?;
            Ok(Some(kept))
        }
        None => Ok(None),
    }
}

/// The gains of a widget among the connections that stay; a pin's input amplifier belongs to no connection.
fn mended_gains(
    alloc: Global,
    is_pin: bool,
    group: u8,
    list: &[u8],
    gains: &Items<Gain>,
) -> Result<Items<Gain>, AllocError>
    ensures { IfOk result (λ kept. kept ≡ mending.mended_gains is_pin group list.now gains.now) }
{
    if is_pin {
        return gains.copy();
    }
    kept_gains(alloc, group, list, gains.as_slice())
}

/// The gains of a widget that stay.
fn gains_after(
    alloc: Global,
    group: u8,
    facts: &NodeFacts,
) -> Result<Option<Items<Gain>>, AllocError>
    ensures { IfOk result (λ gains. gains
        ≡ option_map (mending.mended_gains (bits_of facts.now.caps 20 4 == 4) group (unwrap_or facts.now.list []))
        facts.now.gains_in) }
{
    match &facts.gains_in {
        Some(gains) => {
            let is_pin = bits_of(facts.caps, 20, 4) == 4;
            let kept = mended_gains(alloc, is_pin, group, listed(facts), gains)?;
            Ok(Some(kept))
        }
        None => Ok(None),
    }
}

/// The selected place of a widget among the connections that stay.
fn select_after(group: u8, facts: &NodeFacts) -> Option<u8>
    ensures { result ≡ option_map (mending.mended_place group (unwrap_or facts.now.list [])) facts.now.select }
{
    match facts.select {
        Some(place) => Some(mended_place(group, listed(facts), place)),
        None => None,
    }
}

/// Amplifier capabilities, mended where they are given.
fn word_after(word: Option<u32>) -> Option<u32>
    ensures { result ≡ option_map mending.mended_word word }
{
    match word {
        Some(word) => Some(mended_word(word)),
        None => None,
    }
}

/// The function group or a widget, mended.
fn mended_node(alloc: Global, group: u8, facts: &NodeFacts) -> Result<NodeFacts, AllocError>
    ensures { IfOk result (λ after. after ≡ mending.mended_node group facts.now) }
{
    Ok(NodeFacts {
        nid: facts.nid,
        caps: facts.caps,
        pcm: facts.pcm,
        formats: facts.formats,
        pin_caps: facts.pin_caps,
        is_old_pin_caps: facts.is_old_pin_caps,
        amp_in: word_after(facts.amp_in),
        amp_out: word_after(facts.amp_out),
        power: facts.power,
        default: facts.default,
        list: list_after(alloc, group, facts)?,
        select: select_after(group, facts),
        power_state: facts.power_state,
        stream: facts.stream,
        control: facts.control,
        unsol: facts.unsol,
        eapd: facts.eapd,
        digital: facts.digital,
        gain_out: facts.gain_out,
        gains_in: gains_after(alloc, group, facts)?,
        lines: facts.lines,
        notes: facts.notes.copy()?,
        others: facts.others,
        first_other: facts.first_other,
    })
}

/// Widgets, mended.
fn mended_nodes(
    alloc: Global,
    group: u8,
    nodes: &[NodeFacts],
) -> Result<Items<NodeFacts>, AllocError>
    ensures { IfOk result (λ after. after ≡ map (mending.mended_node group) nodes.now) }
{
    let mut after = Items::new(alloc);
    for node in nodes {
        after.push(mended_node(alloc, group, node)?)?;
    }
    Ok(after)
}

/// The codec mended: connections to its function group are taken out, and an offset above its steps becomes the steps.
///
/// # Errors
/// Want of memory.
pub fn mended(alloc: Global, codec: &CodecFacts) -> Result<CodecFacts, AllocError>
    ensures { IfOk result (λ after. after ≡ mending.mended codec.now) }
{
    let group = codec.group_nid.unwrap_or(1);
    Ok(CodecFacts {
        name: codec.name.copy()?,
        line: codec.line,
        address: codec.address,
        vendor: codec.vendor,
        revision: codec.revision,
        group_type: codec.group_type,
        group_nid: codec.group_nid,
        is_modem: codec.is_modem,
        group: mended_node(alloc, group, &codec.group)?,
        nodes: mended_nodes(alloc, group, codec.nodes.as_slice())?,
    })
}
