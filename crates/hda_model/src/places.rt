//! The places of pins' lists.
ghost use Rattle.std.specs.Prelude.{◌≡◌, ◌<◌, ◌==◌, ◌&&◌, IfSome, is_some, nat_lt, length, map, get_or};
ghost use Rattle.std.specs.List.{find};
ghost use Rattle.std.specs.Option.{option_map};
ghost use Rattle.heard_lists.specs.declared.pin_list.PinHeard.{PinHeard};
ghost use Rattle.heard_lists.specs.Listings.{Listing, is_of, handed_out};
ghost use Rattle.hda_model.specs.Models.{name_of};

use heard_lists::HeardLists;

/// The name of a pin.
#[repr(C)]
#[derive(Clone, Copy, Debug, PartialEq, Eq)]
pub struct PinName {
    /// The address of its codec, 0 to 14.
    pub codec: u8,
    /// Its node identifier, 1 to 127.
    pub nid: u8,
}

/// The name of the pin of the list at a place. `None` where there are no more.
pub(crate) fn pin_at(lists: &HeardLists, place: usize) -> Option<PinName>
    ensures some { is_some result ≡ nat_lt place (length (map handed_out lists.now)) }
    ensures name { (pin : PinHeard)
        → IfSome result (λ name. name ≡ name_of (get_or (map handed_out lists.now) place pin)) }
{
    let is_past = lists.len() <= place;
    if is_past {
        return None;
    }
    let (codec, nid) = lists.head(place);
    Some(PinName { codec, nid })
}

/// The place of the list of a pin. `None` where there is no such pin.
pub(crate) fn place_of(lists: &HeardLists, codec: u8, nid: u8) -> Option<usize>
    ensures within { IfSome result (λ place. place < length lists.now) }
    ensures found { (listing : Listing)
        → find (is_of codec nid) lists.now ≡ option_map (λ place. get_or lists.now place listing) result }
{
    for place in 0..lists.len() {
        let is_there = is_at(lists, place, codec, nid);
        if is_there {
            return Some(place);
        }
    }
    None
}

/// Whether the list at a place is that of a pin.
fn is_at(lists: &HeardLists, place: usize, codec: u8, nid: u8) -> bool
    requires { place < length lists.now }
    ensures { (listing : Listing) → result ≡ is_of codec nid (get_or lists.now place listing) }
{
    let (its_codec, its_nid) = lists.head(place);
    its_codec == codec && its_nid == nid
}
