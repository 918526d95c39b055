//! The connection lists of a codec as the expansions of their entries.
ghost use Rattle.std.specs.Prelude.{◌≡◌, ◌≤◌, ◌<◌, ◌+◌, ◌-◌, ◌++◌, ℕ, Some, None, map, take, drop, length, slice_get};
ghost use Rattle.std.specs.Prelude.{MatchOption, IfOk, OnOk, OnErr};
ghost use Rattle.std.specs.Option.{option_and_then};
ghost use Rattle.codec_graph.specs.Listed as spec;

use crate::raw::{RawCodec, RawNode};
use hda_items::Items;
use std::alloc::AllocError;
use std::mem;
use verb_codes::{ListError, ListFault, expand_entries};

/// What is wrong with the connection lists of a codec: the fault of the first widget that has one. This project's own.
#[derive(Clone, Copy, Debug, PartialEq, Eq)]
pub struct FaultyList {
    /// The node identifier of the widget.
    pub nid: u8,
    /// What its entries have wrong.
    pub fault: ListFault,
}

impl RawNode {
    /// Makes the connection list the expansion of its entries (HDA 1.0a, 7.1.2), and empty where these have a fault,
    /// which is given.
    ///
    /// # Errors
    /// Want of memory; the widget is as it was.
    pub fn expand(&mut self) -> Result<Option<ListFault>, AllocError>
        ensures fault { IfOk result (λ fault. fault ≡ spec.list_fault self.old) }
        ensures list { OnOk result (self.new ≡ spec.listed_node self.old) }
        ensures err { OnErr result (self.new ≡ self.old) }
    {
        match expand_entries(self.entries.allocator(), self.long, self.entries.as_slice()) {
            Ok(nids) => {
                self.list = Items::from_vec(nids);
                Ok(None)
            }
            Err(ListError::Fault(fault)) => {
                self.list.clear();
                Ok(Some(fault))
            }
            Err(ListError::OutOfMemory) => Err(AllocError),
        }
    }
}

impl RawCodec {
    /// Makes the connection list of each widget the expansion of its entries, and gives the first widget whose entries
    /// have a fault. The node identifiers of the widgets fit a byte.
    ///
    /// # Errors
    /// Want of memory. Then, and after a fault, the lists of the first widgets are expanded, and all else is as it was.
    pub fn expand_lists(&mut self) -> Result<Option<FaultyList>, AllocError>
        requires { self.old.first + length self.old.nodes ≤ 256 }
        ensures found { IfOk result (λ found. MatchOption found
            ((self.new ≡ spec.listed self.old) × ((nid : ℕ) → spec.codec_list_fault self.old nid ≡ None))
            (λ faulty. spec.IsFirstListFault (spec.codec_list_fault self.old) faulty.nid faulty.fault)) }
        ensures front { (count : ℕ) × (self.new
            ≡ record self.old {
              nodes = map spec.listed_node (take count self.old.nodes) ++ drop count self.old.nodes;
            }) }
    {
        let none = Items::new(self.nodes.allocator());
        let mut nodes = mem::replace(&mut self.nodes, none).into_vec();
        let found = expand_nodes(nodes.as_mut_slice());
        self.nodes = Items::from_vec(nodes);
        match found? {
            Some((place, fault)) => Ok(Some(FaultyList {
                nid: self.first + place as u8,
                fault,
            })),
            None => Ok(None),
        }
    }
}

/// Makes each connection list the expansion of its entries, up to the first with a fault: its place and the fault.
fn expand_nodes(nodes: &mut [RawNode]) -> Result<Option<(usize, ListFault)>, AllocError>
    ensures found { IfOk result (λ found. MatchOption found
        ((nodes.new ≡ map spec.listed_node nodes.old)
        × ((place : ℕ) → option_and_then spec.list_fault (slice_get nodes.old place) ≡ None))
        (λ faulty. (faulty.0 < length nodes.old)
        × spec.IsFirstListFault (λ place. option_and_then spec.list_fault (slice_get nodes.old place)) faulty.0
        faulty.1)) }
    ensures front { (count : ℕ) × (nodes.new ≡ map spec.listed_node (take count nodes.old) ++ drop count nodes.old) }
{
    for place in 0..nodes.len() {
        if let Some(fault) = nodes[place].expand()? {
            return Ok(Some((place, fault)));
        }
    }
    Ok(None)
}
