//! The test of a connection list that a codec could give.
ghost use Rattle.std.specs.Prelude.{◌≡◌, ◌<◌, ◌^◌, ◌↔◌, All, IsTrue, IfOk};
ghost use Rattle.verb_codes.specs.Lists.{entry_width};
ghost use Rattle.codec_graph.specs.Listed.{HasReadableList};

use crate::limits::MOST_ENTRIES;
use crate::raw::{RawCodec, RawNode};
use std::alloc::AllocError;
use verb_codes::{ListError, expand_entries};

impl RawNode {
    /// Whether the connection list is one that a codec can give: there are at most [`MOST_ENTRIES`] entries, each fits
    /// its form, and the list is their expansion.
    ///
    /// # Errors
    /// Want of memory.
    pub fn has_readable_list(&self) -> Result<bool, AllocError>
        ensures { IfOk result (λ is. IsTrue is ↔ HasReadableList self.now) }
    {
        let entries = self.entries.as_slice();
        if entries.len() > MOST_ENTRIES || !all_fit(entries, self.long) {
            return Ok(false);
        }
        match expand_entries(self.entries.allocator(), self.long, entries) {
            Ok(nids) => Ok(nids.as_slice() == self.list.as_slice()),
            Err(ListError::Fault(_)) => Ok(false),
            Err(ListError::OutOfMemory) => Err(AllocError),
        }
    }
}

impl RawCodec {
    /// Whether the connection list of each widget is one that a codec can give, as [`RawNode::has_readable_list`] says.
    ///
    /// # Errors
    /// Want of memory.
    pub fn has_readable_lists(&self) -> Result<bool, AllocError>
        ensures { IfOk result (λ is. IsTrue is ↔ All HasReadableList self.now.nodes) }
    {
        for node in self.nodes.as_slice() {
            if !node.has_readable_list()? {
                return Ok(false);
            }
        }
        Ok(true)
    }
}

/// Whether each entry fits the long form, of 16 bits, or else the short one, of 8.
fn all_fit(entries: &[u16], long: bool) -> bool
    ensures { IsTrue result ↔ All (λ entry. entry < 2 ^ entry_width long) entries.now }
{
    for entry in entries {
        if !fits(*entry, long) {
            return false;
        }
    }
    true
}

/// Whether the entry fits its form.
fn fits(entry: u16, long: bool) -> bool
    ensures { IsTrue result ↔ (entry < 2 ^ entry_width long) }
{
    long || entry <= 0xFF
}
