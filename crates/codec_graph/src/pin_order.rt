//! The order of the candidate pins of each kind.
ghost use Rattle.std.specs.Prelude.{◌≡◌, false, IfOk, MatchOption};
ghost use Rattle.codec_graph.specs.Cycles.{IsWellFormed};
ghost use Rattle.codec_graph.specs.Kinds as kinds;
ghost use Rattle.codec_graph.specs.Order as spec;
ghost use Rattle.codec_graph.specs.Places as place_words;
ghost use Rattle.codec_graph.specs.Widget.{node_at};

use crate::graph::Graph;
use crate::limits::NODE_IDENTIFIERS;
use crate::pin_kind::PinKind;
use crate::raw::{RawCodec, RawNode};
use std::alloc::{AllocError, Global};
use verb_codes::{bits_of, has_bit};

/// The default device of an S/PDIF output: SPDIF out (HDA 1.0a, 7.3.3.31).
const DIGITAL_DEVICE: u32 = 4;

/// The port connectivity of a pin to which nothing is connected (HDA 1.0a, 7.3.3.31).
pub const UNCONNECTED: u32 = 1;

/// The bit of the pin capabilities that says that it can drive an output (HDA 1.0a, 7.3.4.9).
const OUTPUT_CAPABLE: u32 = 4;

/// The place of a pin in the order.
#[derive(Clone, Copy, Debug, PartialEq, Eq, PartialOrd, Ord)]
pub(crate) struct Place {
    association: u32,
    sequence: u32,
    nid: u8,
}

/// The candidate pins in order: ascending by association, then by sequence, then by node identifier.
///
/// # Errors
/// Want of memory.
pub fn order(alloc: Global, graph: &Graph) -> Result<Vec<u8>, AllocError>
    ensures { IfOk result (λ pins. spec.IsOrder graph.now pins.items) }
{
    order_as(alloc, PinKind::Analog, graph)
}

/// The digital candidate pins, S/PDIF outputs of two channels, in the same order.
///
/// # Errors
/// Want of memory.
pub fn digital_order(alloc: Global, graph: &Graph) -> Result<Vec<u8>, AllocError>
    ensures { IfOk result (λ pins. spec.IsDigitalOrder graph.now pins.items) }
{
    order_as(alloc, PinKind::Digital, graph)
}

/// The candidate pins of a kind in that order.
///
/// # Errors
/// Want of memory.
pub fn order_as(alloc: Global, kind: PinKind, graph: &Graph) -> Result<Vec<u8>, AllocError>
    ensures { IfOk result (λ pins. spec.IsOrderAs kind graph.now pins.items) }
{
    let mut places = places_of(alloc, kind, graph.raw())?;
    places.sort()?;
    nids_of(alloc, places.as_slice())
}

/// The node identifiers of the places.
fn nids_of(alloc: Global, places: &[Place]) -> Result<Vec<u8>, AllocError>
    ensures { IfOk result (λ pins. pins.items ≡ place_words.nids places.now) }
{
    places.iter().map(|place| place.nid).collect(alloc)
}

/// The places of the candidate pins of a kind.
fn places_of(alloc: Global, kind: PinKind, codec: &RawCodec) -> Result<Vec<Place>, AllocError>
    requires { IsWellFormed codec.now }
    ensures { IfOk result (λ list. place_words.ArePlaces kind codec.now list.items) }
{
    let mut places = Vec::new(alloc);
    for nid in 0..NODE_IDENTIFIERS as u8 {
        if let Some(place) = place_of(kind, codec, nid) {
            places.push(place)?;
        }
    }
    Ok(places)
}

/// Whether the widget is a candidate pin of the kind.
fn is_candidate(kind: PinKind, node: &RawNode) -> bool
    ensures { result ≡ kinds.is_candidate_node_as kind node.now }
{
    match kind {
        PinKind::Analog => node.is_candidate(),
        PinKind::Digital => is_digital_candidate(node),
    }
}

/// Whether the widget is an S/PDIF output of two channels that is connected to something and has an association.
fn is_digital_candidate(node: &RawNode) -> bool
    ensures { result ≡ kinds.is_digital_candidate_node node.now }
{
    let connectivity = bits_of(node.default, 30, 2);
    let device = bits_of(node.default, 20, 4);
    node.is_pin()
        && node.is_stereo()
        && node.is_digital()
        && has_bit(node.pin_caps, OUTPUT_CAPABLE)
        && connectivity != UNCONNECTED
        && device == DIGITAL_DEVICE
        && node.association() != 0
}

/// The place of a node that is a candidate of the kind.
#[tactic(auto, using(crate::proofs::KindLemmas::candidate_some, crate::proofs::KindLemmas::candidate_none))]
fn place_of(kind: PinKind, codec: &RawCodec, nid: u8) -> Option<Place>
    ensures { MatchOption result
        (kinds.is_candidate_as kind codec.now nid ≡ false)
        (place_words.IsPlaceOf kind codec.now nid) }
{
    let node = codec.node(nid)?;
    if !is_candidate(kind, node) {
        return None;
    }
    Some(Place {
        association: node.association(),
        sequence: node.sequence(),
        nid,
    })
}

/// The association of the widget with this node identifier, and 0 where there is none.
fn association_at(codec: &RawCodec, nid: u8) -> u32
    ensures { result ≡ spec.association_of (node_at codec.now nid) }
{
    match codec.node(nid) {
        Some(node) => node.association(),
        None => 0,
    }
}

/// The sequence of the widget with this node identifier, and 0 where there is none.
fn sequence_at(codec: &RawCodec, nid: u8) -> u32
    ensures { result ≡ spec.sequence_of (node_at codec.now nid) }
{
    match codec.node(nid) {
        Some(node) => node.sequence(),
        None => 0,
    }
}

/// Whether a pin comes before another: by association, then by sequence, then by node identifier.
pub fn comes_before(codec: &RawCodec, pin: u8, other: u8) -> bool
    ensures { result ≡ spec.comes_before codec.now pin other }
{
    let associations = (association_at(codec, pin), association_at(codec, other));
    let sequences = (sequence_at(codec, pin), sequence_at(codec, other));
    associations.0 < associations.1
        || associations.0 == associations.1
            && (sequences.0 < sequences.1 || sequences.0 == sequences.1 && pin < other)
}
