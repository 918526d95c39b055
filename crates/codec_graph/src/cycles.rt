//! The search for cycles of mixers and selectors.
ghost use Rattle.std.specs.Prelude.{◌≡◌, ◌<◌, ◌↔◌, ◌⊎◌, ℕ, true, false, Contains, IsTrue, OnOk, IfErr, IfSome, IfNone};
ghost use Rattle.std.specs.Prelude.{slice_index_or};
ghost use Rattle.codec_graph.specs.Faults.{has_bad_count};
ghost use Rattle.codec_graph.specs.Cycles.{Reaches, IsOnCycle, IsCycleFault};
ghost use Rattle.codec_graph.specs.Marks.{IsMarked};

use crate::fault::GraphFault;
use crate::limits::NODE_IDENTIFIERS;
use crate::marks::{Marks, no_marks};
use crate::raw::RawCodec;
use crate::safe_nodes::are_safe;

/// Whether no connections through mixers and selectors alone lead back to where they began, or the least node from
/// which some do. The nodes have to be those of the count.
pub(crate) fn check_cycles(codec: &RawCodec) -> Result<(), GraphFault>
    requires { has_bad_count codec.now ≡ false }
    ensures acyclic { OnOk result ((nid : ℕ) → IsOnCycle codec.now nid → ⊥) }
    ensures cycle { IfErr result (IsCycleFault codec.now) }
{
    if are_safe(codec) {
        return Ok(());
    }
    for nid in 0..NODE_IDENTIFIERS as u8 {
        if is_on_cycle(codec, nid) {
            return Err(GraphFault::Cycle(nid));
        }
    }
    Ok(())
}

/// Whether connections through mixers and selectors alone lead from the node back to it.
fn is_on_cycle(codec: &RawCodec, nid: u8) -> bool
    ensures { IsTrue result ↔ IsOnCycle codec.now nid }
{
    reached_from(codec, nid)[usize::from(nid)]
}

/// Marks each node to which connections through mixers and selectors alone lead from this one.
fn reached_from(codec: &RawCodec, start: u8) -> Marks
    ensures { (nid : ℕ) → IsMarked result nid ↔ Reaches codec.now start nid }
{
    let mut found = no_marks();
    let mut followed = no_marks();
    mark(&mut found, codec.inner_list(start));
    while let Some(next) = next_open(&found, &followed) {
        followed[usize::from(next)] = true;
        mark(&mut found, codec.inner_list(next));
    }
    found
}

/// Marks each node of the list.
fn mark(marks: &mut Marks, list: &[u8])
    ensures kept { (nid : ℕ) → IsMarked marks.old nid → IsMarked marks.new nid }
    ensures listed { (nid : ℕ) → Contains list.now nid → IsMarked marks.new nid }
    ensures only { (nid : ℕ) → IsMarked marks.new nid → IsMarked marks.old nid ⊎ Contains list.now nid }
{
    for nid in list {
        marks[usize::from(*nid)] = true;
    }
}

/// A node that was found and not followed yet.
fn next_open(found: &Marks, followed: &Marks) -> Option<u8>
    ensures open { IfSome result (λ nid. IsMarked found.now nid × (slice_index_or followed.now nid false ≡ false)) }
    ensures none { IfNone result ((nid : ℕ) → IsMarked found.now nid → IsMarked followed.now nid) }
{
    for nid in 0..256 {
        if found[nid] && !followed[nid] {
            return Some(nid as u8);
        }
    }
    None
}
