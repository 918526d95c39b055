//! The faults of a codec's connection lists, by node identifier.
ghost use Rattle.std.specs.Prelude.{◌≡◌, MatchOption};
ghost use Rattle.codec_graph.specs.Listed.{HasNoListFault, IsFirstListFault};
ghost use Rattle.hda_files.specs.ListFaults as list_faults;

use crate::codec::table_with;
use crate::node::NodeTable;
use codec_graph::{FaultyList, NODE_IDENTIFIERS};
use verb_codes::ListFault;

/// What the list of the table with this node identifier has wrong.
fn list_fault_at(nodes: &[NodeTable], nid: u8) -> Option<ListFault>
    ensures { result ≡ list_faults.list_fault_at nodes.now nid }
{
    table_with(nodes, u16::from(nid)).and_then(|node| node.list_fault)
}

/// The list with a fault that has the least node identifier.
pub(crate) fn first_list_fault(nodes: &[NodeTable]) -> Option<FaultyList>
    ensures { MatchOption result (HasNoListFault (list_faults.list_fault_at nodes.now))
        (λ found. IsFirstListFault (list_faults.list_fault_at nodes.now) found.nid found.fault) }
{
    for nid in 0..NODE_IDENTIFIERS as u8 {
        if let Some(fault) = list_fault_at(nodes, nid) {
            return Some(FaultyList { nid, fault });
        }
    }
    None
}
