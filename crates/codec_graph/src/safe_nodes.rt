//! Nodes from which no connections through mixers and selectors alone lead into a cycle.
ghost use Rattle.std.specs.Prelude.{◌<◌, ℕ, Contains, IsTrue};
ghost use Rattle.codec_graph.specs.Cycles.{IsOnCycle};
ghost use Rattle.codec_graph.specs.Marks.{IsMarked};
ghost use Rattle.codec_graph.specs.SafeNodes.{AreSafe};

use crate::limits::NODE_IDENTIFIERS;
use crate::marks::{Marks, no_marks};
use crate::raw::RawCodec;

/// Whether no node is on a cycle: a node is safe once all are that it lists.
pub(crate) fn are_safe(codec: &RawCodec) -> bool
    ensures { IsTrue result → (nid : ℕ) → nid < 128 → IsOnCycle codec.now nid → ⊥ }
{
    let mut safe = no_marks();
    for _round in 0..NODE_IDENTIFIERS {
        let more = mark_more(codec, &mut safe);
        if are_marked(&safe) {
            return true;
        }
        if !more {
            return false;
        }
    }
    false
}

/// Looks at all nodes, the last first, and then the first first. Says whether one was marked.
fn mark_more(codec: &RawCodec, safe: &mut Marks) -> bool
    ensures { AreSafe codec.now safe.old → AreSafe codec.now safe.new }
{
    let down = look_down(codec, safe);
    let up = look_up(codec, safe);
    down || up
}

/// Looks at all nodes, the last first. Says whether one was marked.
fn look_down(codec: &RawCodec, safe: &mut Marks) -> bool
    ensures { AreSafe codec.now safe.old → AreSafe codec.now safe.new }
{
    let mut more = false;
    for place in 0..NODE_IDENTIFIERS as u8 {
        more |= look_at(codec, safe, NODE_IDENTIFIERS as u8 - 1 - place);
    }
    more
}

/// Looks at all nodes, the first first. Says whether one was marked.
fn look_up(codec: &RawCodec, safe: &mut Marks) -> bool
    ensures { AreSafe codec.now safe.old → AreSafe codec.now safe.new }
{
    let mut more = false;
    for nid in 0..NODE_IDENTIFIERS as u8 {
        more |= look_at(codec, safe, nid);
    }
    more
}

/// Marks a node where all are marked that it lists. Says whether it was not marked before and is now.
fn look_at(codec: &RawCodec, safe: &mut Marks, nid: u8) -> bool
    ensures { AreSafe codec.now safe.old → AreSafe codec.now safe.new }
{
    let place = usize::from(nid);
    if safe[place] {
        return false;
    }
    if !lists_marked(codec.inner_list(nid), safe) {
        return false;
    }
    safe[place] = true;
    true
}

/// Whether all nodes of a list are marked.
fn lists_marked(list: &[u8], marks: &Marks) -> bool
    ensures { IsTrue result → (nid : ℕ) → Contains list.now nid → IsMarked marks.now nid }
{
    for nid in list {
        if !marks[usize::from(*nid)] {
            return false;
        }
    }
    true
}

/// Whether all node identifiers are marked.
fn are_marked(marks: &Marks) -> bool
    ensures { IsTrue result → (nid : ℕ) → nid < 128 → IsMarked marks.now nid }
{
    for nid in 0..NODE_IDENTIFIERS {
        if !marks[nid] {
            return false;
        }
    }
    true
}
