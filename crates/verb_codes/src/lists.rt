//! Connection lists in words (HDA 1.0a, 7.3.3.3), both ways.
ghost use Rattle.std.specs.Prelude.{◌≡◌, ◌≤◌, ◌<◌, ◌+◌, ◌-◌, ◌*◌, ◌^◌, [], ◌∷◌, ◌++◌, length, take, slice_index};
ghost use Rattle.std.specs.Prelude.{EachIndex, MatchResult, IfOk, OnOk, Ok, true, false};
ghost use Rattle.std.specs.List.{range_with_len};
ghost use Rattle.verb_codes.specs.Lists as spec;

use crate::bits::{bits_of, joined};
use crate::entries::{Entry, ListError};
use std::alloc::{AllocError, Global};

/// The nodes that the first `len` entries of a connection list stand for, in order. The words hold `len` entries,
/// lowest bits first: two a word in the long form, else four. A range stands for all nodes from the one after the entry
/// before it up to its own, so there can be more nodes than entries.
///
/// # Errors
/// The fault of the first faulty entry, or want of memory.
pub fn expand_list(alloc: Global, len: u8, long: bool, words: &[u32]) -> Result<Vec<u8>, ListError>
    requires { len ≤ length words.now * spec.entries_per_word long }
    ensures { let expansion = spec.expansion_of long (take len (spec.entries_of_words long words.now)) in
        MatchResult result (λ nids. expansion ≡ Ok nids.items) (λ error. spec.IsRefusal error expansion) }
{
    let entries = unpack_list(alloc, len, long, words)?;
    expand_entries(alloc, long, entries.as_slice())
}

/// The first `len` entries of a connection list, as they stand in its words: lowest bits first, two a word in the long
/// form, else four. The words hold `len` entries.
///
/// # Errors
/// Want of memory.
pub fn unpack_list(
    alloc: Global,
    len: u8,
    long: bool,
    words: &[u32],
) -> Result<Vec<u16>, AllocError>
    requires { len ≤ length words.now * spec.entries_per_word long }
    ensures { IfOk result (λ entries. entries.items ≡ take len (spec.entries_of_words long words.now)) }
{
    let mut entries = Vec::new(alloc);
    for place in 0..usize::from(len) {
        entries.push(entry_at(words, long, place))?;
    }
    Ok(entries)
}

/// The nodes that the entries of a connection list stand for, in order. An entry has 16 bits in the long form, else 8.
/// A range stands for all nodes from the one after the entry before it up to its own, so there can be more nodes than
/// entries.
///
/// # Errors
/// The fault of the first faulty entry, or want of memory.
pub fn expand_entries(alloc: Global, long: bool, entries: &[u16]) -> Result<Vec<u8>, ListError>
    ensures { MatchResult result (λ nids. spec.expansion_of long entries.now ≡ Ok nids.items)
        (λ error. spec.IsRefusal error (spec.expansion_of long entries.now)) }
{
    let mut nids = Vec::new(alloc);
    let mut before = None;
    for bits in entries {
        let entry = Entry::read(long, *bits);
        if let Some(fault) = entry.fault_after(before) {
            return Err(ListError::Fault(fault));
        }
        push_nids(&mut nids, entry.first_after(before), entry.nid)?;
        before = Some(entry);
    }
    Ok(nids)
}

/// The entry at this place of the words.
fn entry_at(words: &[u32], long: bool, place: usize) -> u16
    requires { place < length words.now * spec.entries_per_word long }
    ensures { result ≡ slice_index (spec.entries_of_words long words.now) place }
{
    if long {
        bits_of(words[place / 2], 16 * (place % 2) as u32, 16) as u16
    } else {
        bits_of(words[place / 4], 8 * (place % 4) as u32, 8) as u16
    }
}

/// Puts the nodes from the first to the last one at the end.
fn push_nids(nids: &mut Vec<u8>, first: u16, last: u16) -> Result<(), AllocError>
    requires ascending { first ≤ last }
    requires small { last < 128 }
    ensures { OnOk result (nids.new.items ≡ nids.old.items ++ range_with_len first (last + 1 - first)) }
{
    for nid in first..last + 1 {
        nids.push(nid as u8)?;
    }
    Ok(())
}

/// The words whose entries, lowest bits first, are these and then zeros: as many words as the entries need.
/// An entry has 16 bits in the long form, else 8.
pub fn pack_list(alloc: Global, entries: &[u16], long: bool) -> Result<Vec<u32>, AllocError>
    requires { EachIndex entries.now (λ k. slice_index entries.now k < 2 ^ spec.entry_width long) }
    ensures { IfOk result (λ words. spec.IsPacking long entries.now words.items) }
{
    let per_word = if long { 2 } else { 4 };
    let mut words = Vec::new(alloc);
    for word in 0..entries.len().div_ceil(per_word) {
        words.push(packed(entries, long, per_word * word))?;
    }
    Ok(words)
}

/// The word of the entries from this place on.
fn packed(entries: &[u16], long: bool, place: usize) -> u32
    requires narrow { EachIndex entries.now (λ k. slice_index entries.now k < 2 ^ spec.entry_width long) }
    requires within { place < length entries.now }
    ensures long_form { long ≡ true → spec.entries_of_word true result
        ≡ slice_index entries.now place ∷ slice_index entries.now (place + 1) ∷ [] }
    ensures short_form { long ≡ false → spec.entries_of_word false result
        ≡ slice_index entries.now place ∷ slice_index entries.now (place + 1)
        ∷ slice_index entries.now (place + 2) ∷ slice_index entries.now (place + 3) ∷ [] }
{
    let first = entry_or_zero(entries, place);
    let second = entry_or_zero(entries, place + 1);
    if long {
        joined(second, first, 16)
    } else {
        let third = entry_or_zero(entries, place + 2);
        let fourth = entry_or_zero(entries, place + 3);
        joined(joined(fourth, third, 8), joined(second, first, 8), 16)
    }
}

/// The entry at this place, and 0 past the end.
fn entry_or_zero(entries: &[u16], place: usize) -> u32
    ensures { result ≡ slice_index entries.now place }
{
    entries.get(place).map_or(0, |entry| u32::from(*entry))
}
