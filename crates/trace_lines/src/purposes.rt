//! What a piece of memory is that the driver reads or writes.
ghost use Rattle.std.specs.Prelude.{◌≡◌, ◌≤◌, ◌^◌, ℕ, List, find, map};
ghost use Rattle.hda_world.specs.declared.entry.MemoryPiece.{MemoryPiece};
ghost use Rattle.hda_world.specs.Journals.{event_of};
ghost use Rattle.trace_lines.specs.declared.purposes.Listed.{Listed};
ghost use Rattle.trace_lines.specs.Purposes as spec;

use hda_registers::places::{CORBLBASE, OUTPUT_DESCRIPTOR, RIRBLBASE, SDBDPL, SDLVI};
use hda_world::Entry;
use world_rings::{COMMAND_BYTES, RESPONSE_BYTES};
use world_streams::{BUFFER_ENTRY_BYTES, Buffer};

/// How many entries CORB and RIRB have at most (HDA 1.0a, 3.3.24 and 3.3.31).
const RING_ENTRIES: u64 = 256;

/// Where CORB, RIRB and the output stream's list of buffers lie, where a journal says so.
#[derive(Clone, Copy)]
pub(crate) struct Bases {
    /// The first base address that is written to CORBLBASE.
    pub corb: Option<u32>,
    /// To RIRBLBASE.
    pub rirb: Option<u32>,
    /// To the output stream's BDPL.
    pub list: Option<u32>,
    /// The first value that is written to its LVI: the number of the list's last entry.
    pub last: Option<u32>,
}

/// An entry of the list of buffers that was written.
#[derive(Clone, Copy)]
pub(crate) struct Listed {
    /// Its number, from 0.
    pub index: u32,
    /// The buffer that it gives.
    pub buffer: Buffer,
}

/// What a piece of memory is.
#[derive(Clone, Copy)]
pub(crate) enum Purpose {
    /// The entry of CORB with this number.
    Command(u32),
    /// The entry of RIRB with this number.
    Response(u32),
    /// The entry of the list of buffers with this number.
    Buffer(u32),
    /// A part of the period with this number, from this place of it on.
    Period(u32, u64),
    /// None of these.
    Other,
}

/// The value that an entry writes to a register, if it does.
fn value_put(entry: &Entry, register: u16) -> Option<u32>
    ensures { (pieces : List MemoryPiece) (bytes : List ℕ)
        → result ≡ spec.value_put register (event_of pieces bytes entry.now) }
{
    match *entry {
        Entry::Write { at, value, .. } if at == register => Some(value),
        _ => None,
    }
}

/// The first value that is written to a register.
fn first_put(entries: &[Entry], register: u16) -> Option<u32>
    ensures { (pieces : List MemoryPiece) (bytes : List ℕ)
        → result ≡ spec.first_put register (map (event_of pieces bytes) entries.now) }
{
    for entry in entries {
        if let Some(value) = value_put(entry, register) {
            return Some(value);
        }
    }
    None
}

/// Where rings and list lie by some entries.
pub(crate) fn bases_in(entries: &[Entry]) -> Bases
    ensures { (pieces : List MemoryPiece) (bytes : List ℕ)
        → result ≡ spec.bases_in (map (event_of pieces bytes) entries.now) }
{
    Bases {
        corb: first_put(entries, CORBLBASE),
        rirb: first_put(entries, RIRBLBASE),
        list: first_put(entries, OUTPUT_DESCRIPTOR + SDBDPL),
        last: first_put(entries, OUTPUT_DESCRIPTOR + SDLVI),
    }
}

/// How many entries the list of buffers has.
fn list_entries(last: Option<u32>) -> u64
    ensures { result ≡ spec.list_entries last }
{
    match last {
        Some(last) => u64::from(last) + 1,
        None => 0,
    }
}

/// The number of the entry that a piece of so many bytes is, of so many entries of this size from a base on.
fn entry_from(base: u32, size: u32, entries: u64, at: u32, len: u64) -> Option<u32>
    requires some { 1 ≤ size }
    requires small { size ≤ 16 }
    requires few { entries ≤ 2 ^ 32 }
    ensures { result ≡ spec.entry_from base size entries at len }
{
    if at < base {
        return None;
    }
    let place = at - base;
    let end = u64::from(size) * entries;
    if u64::from(place) < end && place % size == 0 && len == u64::from(size) {
        Some(place / size)
    } else {
        None
    }
}

/// The same where the base is known.
fn entry_at(base: Option<u32>, size: u32, entries: u64, at: u32, len: u64) -> Option<u32>
    requires some { 1 ≤ size }
    requires small { size ≤ 16 }
    requires few { entries ≤ 2 ^ 32 }
    ensures { result ≡ spec.entry_at base size entries at len }
{
    match base {
        Some(base) => entry_from(base, size, entries, at, len),
        None => None,
    }
}

/// Whether a piece lies in the buffer of an entry.
fn holds(listed: &Listed, at: u32, len: u64) -> bool
    ensures { result ≡ spec.holds at len listed.now }
{
    let address = listed.buffer.address;
    let bytes = u64::from(listed.buffer.bytes);
    let at = u64::from(at);
    address <= at && at - address <= bytes && len <= bytes - (at - address)
}

/// The first buffer that holds a piece.
fn buffer_with(buffers: &[Listed], at: u32, len: u64) -> Option<Listed>
    ensures { result ≡ find (spec.holds at len) buffers.now }
{
    for listed in buffers {
        if holds(listed, at, len) {
            return Some(*listed);
        }
    }
    None
}

/// The part of a period that a piece is.
fn period_of(buffers: &[Listed], at: u32, len: u64) -> Purpose
    ensures { result ≡ spec.period_of at (find (spec.holds at len) buffers.now) }
{
    match buffer_with(buffers, at, len) {
        Some(listed) => Purpose::Period(
            listed.index,
            u64::from(at).saturating_sub(listed.buffer.address),
        ),
        None => Purpose::Other,
    }
}

/// What a piece of so many bytes at an address is, where these entries of the list of buffers were written.
pub(crate) fn purpose_of(bases: Bases, buffers: &[Listed], at: u32, len: u64) -> Purpose
    ensures { result ≡ spec.purpose_of bases buffers.now at len }
{
    if let Some(number) = entry_at(bases.corb, COMMAND_BYTES as u32, RING_ENTRIES, at, len) {
        return Purpose::Command(number);
    }
    if let Some(number) = entry_at(bases.rirb, RESPONSE_BYTES as u32, RING_ENTRIES, at, len) {
        return Purpose::Response(number);
    }
    let entries = list_entries(bases.last);
    if let Some(number) = entry_at(bases.list, BUFFER_ENTRY_BYTES, entries, at, len) {
        return Purpose::Buffer(number);
    }
    period_of(buffers, at, len)
}
