//! What a pin heard, as numbers of a fixed layout.
ghost use Rattle.std.specs.Prelude.{◌≡◌, ◌<◌, length, map, drop, get_or};
ghost use Rattle.heard_frames.specs.declared.heard.Heard.{Heard};
ghost use Rattle.heard_lists.specs.Listings.{Listing, handed_out};
ghost use Rattle.hda_model.specs.Copies.{copied, item_of, most_copied, list_of, count_of};

use crate::places::place_of;
use heard_frames::Heard;
use heard_lists::HeardLists;

/// What a pin heard of a block, or of a link frame that missed its blocks, as numbers of a fixed layout.
#[repr(C)]
#[derive(Clone, Copy, Debug, PartialEq, Eq)]
pub struct HeardItem {
    /// 0 nothing, 1 a link frame without its blocks, 2 a signal that is not followed, 3 two samples.
    pub kind: u32,
    /// The left sample where it is 3, and else 0.
    pub left: i32,
    /// The right sample where it is 3, and else 0.
    pub right: i32,
}

/// An item as numbers.
pub(crate) fn item_of(heard: Heard) -> HeardItem
    ensures { result ≡ item_of heard }
{
    match heard {
        Heard::Quiet => HeardItem {
            kind: 0,
            left: 0,
            right: 0,
        },
        Heard::Hole => HeardItem {
            kind: 1,
            left: 0,
            right: 0,
        },
        Heard::Altered => HeardItem {
            kind: 2,
            left: 0,
            right: 0,
        },
        Heard::Sound(left, right) => HeardItem {
            kind: 3,
            left,
            right,
        },
    }
}

/// How many of so many items or marks, from a place on, fit into so much room.
pub(crate) fn most_copied(count: usize, from: u64, room: usize) -> usize
    ensures { result ≡ most_copied count from room }
{
    if from < count as u64 {
        (count - from as usize).min(room)
    } else {
        0
    }
}

/// Copies the items from a number on, counted from 0, of the list at a place, as many as fit, and says how many the
/// list has.
fn copy_items(lists: &HeardLists, place: usize, from: u64, into: &mut [HeardItem]) -> u64
    requires { place < length lists.now }
    ensures count { (listing : Listing) → result ≡ length (get_or lists.now place listing).list }
    ensures items { (listing : Listing)
        → into.new ≡ copied (map item_of (drop from (get_or lists.now place listing).list)) into.old }
{
    let count = lists.count();
    let most = most_copied(count, from, into.len());
    let mut items = lists.reader(place, from as usize);
    for number in 0..most {
        into[number] = item_of(items.read());
    }
    count as u64
}

/// Copies the items of a pin from a number on, counted from 0, as many as fit, and says how many it has. `None` where
/// there is no such pin.
pub(crate) fn copy_heard(
    lists: &HeardLists,
    codec: u8,
    nid: u8,
    from: u64,
    into: &mut [HeardItem],
) -> Option<u64>
    ensures count { result ≡ count_of codec nid (map handed_out lists.now) }
    ensures items { into.new
        ≡ copied (map item_of (drop from (list_of codec nid (map handed_out lists.now)))) into.old }
{
    match place_of(lists, codec, nid) {
        Some(place) => Some(copy_items(lists, place, from, into)),
        None => None,
    }
}

/// Copies bytes, as many as fit.
pub fn copy_bytes(bytes: &[u8], into: &mut [u8])
    ensures { into.new ≡ copied bytes.now into.old }
{
    let most = bytes.len().min(into.len());
    into[..most].copy_from_slice(&bytes[..most]);
}
