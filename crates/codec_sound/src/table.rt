//! The table of what each node gives, each worked out once.
ghost use Rattle.std.specs.Prelude.{◌≡◌, ◌<◌, ◌↔◌, ℕ, IsTrue};
ghost use Rattle.codec_graph.specs.Cycles.{IsWellFormed, inner_list};
ghost use Rattle.codec_sound.specs.Signals as spec;
ghost use Rattle.codec_graph.specs.Marks.{IsMarked};
ghost use Rattle.codec_sound.specs.Depths.{in_table, IsReady, AreRight};

use crate::signals::{NAMED, Signal, Table};
use crate::sources::Sources;
use crate::widgets::gives;
use codec_graph::{Graph, NODE_IDENTIFIERS, RawCodec, Settings};

/// Which nodes' signals are worked out.
type Marks = [bool; NAMED];

/// What each node gives.
pub(crate) fn outputs(sources: Sources, graph: &Graph, settings: &Settings) -> Table
    ensures { (nid : ℕ) → in_table result nid ≡ spec.out_from sources graph.now settings.now nid }
{
    let codec = graph.raw();
    let mut table = [Signal::Silence; NAMED];
    let mut known = [false; NAMED];
    // No way through mixers and selectors is longer than there are nodes, so each node is ready in one of these rounds.
    for _round in 0..NODE_IDENTIFIERS + 1 {
        work_out_ready(sources, codec, settings, &mut table, &mut known);
    }
    table
}

/// Works out what each node gives that lists only nodes of which this is known.
fn work_out_ready(
    sources: Sources,
    codec: &RawCodec,
    settings: &Settings,
    table: &mut Table,
    known: &mut Marks,
)
    requires well_formed { IsWellFormed codec.now }
    requires right { AreRight sources codec.now settings.now table.old known.old }
    ensures right { AreRight sources codec.now settings.now table.new known.new }
    ensures further { (nid : ℕ) → nid < 256 → IsReady codec.now known.old nid → IsMarked known.new nid }
{
    for nid in 0..NAMED {
        work_out(sources, codec, settings, nid as u8, table, known);
    }
}

/// Works out what the node gives, where it is not known and the node lists only nodes of which it is.
fn work_out(
    sources: Sources,
    codec: &RawCodec,
    settings: &Settings,
    nid: u8,
    table: &mut Table,
    known: &mut Marks,
)
    requires well_formed { IsWellFormed codec.now }
    requires right { AreRight sources codec.now settings.now table.old known.old }
    ensures right { AreRight sources codec.now settings.now table.new known.new }
    ensures kept { (other : ℕ) → IsMarked known.old other → IsMarked known.new other }
    ensures here { IsReady codec.now known.old nid → IsMarked known.new nid }
{
    let place = usize::from(nid);
    if !known[place] && is_ready(codec, known, nid) {
        table[place] = gives(sources, codec, settings, table, nid);
        known[place] = true;
    }
}

/// Whether all nodes are marked that a mixer or selector lists. Other nodes give no signal on.
fn is_ready(codec: &RawCodec, known: &Marks, nid: u8) -> bool
    ensures { IsTrue result ↔ IsReady codec.now known.now nid }
{
    inner_connections(codec, nid)
        .iter()
        .all(|to| known[usize::from(*to)])
}

/// The connections of a mixer or selector, and none of any other node.
fn inner_connections(codec: &RawCodec, nid: u8) -> &[u8]
    ensures { result.now ≡ inner_list codec.now nid }
{
    match codec.node(nid) {
        Some(node) if node.is_inner() => node.list.as_slice(),
        _ => &[],
    }
}
