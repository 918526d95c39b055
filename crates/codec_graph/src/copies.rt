//! Copies of a codec's words in new memory.
ghost use Rattle.std.specs.Prelude.{◌≡◌, IfOk};

use crate::raw::{GroupWords, RawCodec, RawNode};
use hda_items::Items;
use std::alloc::AllocError;

/// Equal words of a codec.
pub(crate) fn copy_codec(codec: &RawCodec) -> Result<RawCodec, AllocError>
    ensures { IfOk result (λ copy. copy ≡ codec.now) }
{
    Ok(RawCodec {
        address: codec.address,
        vendor: codec.vendor,
        revision: codec.revision,
        group: codec.group,
        group_type: codec.group_type,
        group_words: copy_group_words(&codec.group_words),
        first: codec.first,
        count: codec.count,
        nodes: copy_nodes(&codec.nodes)?,
    })
}

/// Equal words of a function group.
fn copy_group_words(words: &GroupWords) -> GroupWords
    ensures { result ≡ words.now }
{
    GroupWords {
        pcm: words.pcm,
        formats: words.formats,
        amp_in: words.amp_in,
        amp_out: words.amp_out,
        power: words.power,
    }
}

/// Equal widgets.
fn copy_nodes(nodes: &Items<RawNode>) -> Result<Items<RawNode>, AllocError>
    ensures { IfOk result (λ copies. copies ≡ nodes.now) }
{
    let mut copies = Items::new(nodes.allocator());
    for node in nodes.as_slice() {
        copies.push(node.copy()?)?;
    }
    Ok(copies)
}

impl RawNode {
    /// An equal widget, in memory of its own.
    ///
    /// # Errors
    /// Want of memory.
    pub fn copy(&self) -> Result<RawNode, AllocError>
        ensures { IfOk result (λ copy. copy ≡ self.now) }
    {
        Ok(RawNode {
            caps: self.caps,
            pcm: self.pcm,
            formats: self.formats,
            pin_caps: self.pin_caps,
            amp_in: self.amp_in,
            amp_out: self.amp_out,
            power: self.power,
            default: self.default,
            long: self.long,
            entries: self.entries.copy()?,
            list: self.list.copy()?,
        })
    }
}
