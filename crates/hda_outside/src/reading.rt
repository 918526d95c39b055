ghost use Rattle.std.specs.Prelude.{◌≡◌, ◌≢◌, ℕ, ◌+◌, ◌<◌, ◌≤◌, List, length, vec_len, nat_lt, if◌then◌else◌, Some};
ghost use Rattle.std.specs.Prelude.{IfSome, IsSomeAnd, IfOk};
ghost use Rattle.hda_outside.specs.Counts.{Rose};
ghost use Rattle.hda_outside.specs.Shelf.{file_of};
ghost use Rattle.hda_outside.specs.Reading.{of_fault, is_yes};
ghost use Rattle.hda_outside.specs.declared.reading.ReadAll.TheVariants.{OutOfMemory};

use crate::fault::Fault;
use crate::shelf::Shelf;
use std::alloc::{AllocError, Global};

/// Why a file wasn't read whole. This project's own.
#[derive(Clone, Copy, Debug, PartialEq, Eq)]
pub enum ReadAll {
    /// The shelf failed, and its count of faults under the file's name rose.
    Failed,
    /// The file has more bytes than were asked for.
    TooLong,
    /// There was no memory for the file.
    OutOfMemory,
}

impl From<Fault> for ReadAll {
    ghost from_gives = { λ fault e. e ≡ of_fault fault };

    fn from(fault: Fault) -> ReadAll {
        match fault {
            Fault::Failed => ReadAll::Failed,
            Fault::OutOfMemory => ReadAll::OutOfMemory,
        }
    }
}

impl From<AllocError> for ReadAll {
    ghost from_gives = { λ _ e. e ≡ OutOfMemory };

    fn from(_error: AllocError) -> ReadAll {
        ReadAll::OutOfMemory
    }
}

/// The most bytes that one read asks for.
const BUFFER_LEN: usize = 65_536;

// A buffer to read into.
fn zeroes(alloc: Global, len: usize) -> Result<Vec<u8>, AllocError>
    ensures { IfOk result (λ buffer. vec_len buffer ≡ len) }
{
    vec![in alloc; 0; len]
}

/// The bytes of the file `name`, of which there are at most `most`. It asks under no other name, for places
/// that run on from 0, and for at most one byte more than `most`.
///
/// # Errors
///
/// `TooLong` where the file has more than `most` bytes, `Failed` where the shelf failed, and
/// `OutOfMemory` where memory is short.
pub fn read_all<S: Shelf>(
    alloc: Global,
    shelf: &mut S,
    name: &str,
    most: u64,
) -> Result<Vec<u8>, ReadAll>
    ensures told { S.told shelf.new ≡ S.told shelf.old }
    ensures within { IfOk result (λ bytes. vec_len bytes ≤ most) }

    // Of a shelf that tells: exactly the file, or that it's longer.
    ensures bytes { IfSome (S.told shelf.old) (λ files.
        IfOk result (λ bytes. file_of files name.now ≡ Some bytes.items)) }
    ensures too_long { IfSome (S.told shelf.old) (λ files.
        result ≡ Err ReadAll.TooLong → IsSomeAnd (file_of files name.now) (λ file. most < length file)) }

    // It's given no more than it answers, and at most one byte beyond `most`.
    ensures given { IfOk result (λ bytes. S.given shelf.new ≤ S.given shelf.old + vec_len bytes) }
    ensures given_at_most { S.given shelf.new ≤ S.given shelf.old + most + 1 }
    ensures given_rises { S.given shelf.old ≤ S.given shelf.new }

    // It asks under this name alone.
    ensures asked { (other : List ℕ) → other ≢ name.now → S.asked shelf.new other ≡ S.asked shelf.old other }

    ensures later { (other : List ℕ) → S.faults shelf.old other ≤ S.faults shelf.new other }
    ensures empties_later { (other : List ℕ) → S.empties shelf.old other ≤ S.empties shelf.new other }
    ensures failed { result ≡ Err ReadAll.Failed →
        Rose (S.faults shelf.old name.now) (S.faults shelf.new name.now) }
{
    let mut buffer = zeroes(alloc, BUFFER_LEN)?;
    let mut bytes = Vec::new(alloc);
    loop {
        let from = bytes.len() as u64;
        let left = most - from;
        let room = left.saturating_add(1).min(BUFFER_LEN as u64) as usize;
        let piece = &mut buffer[..room];
        let n = shelf.read_at(alloc, name, from, piece)?;
        if n == 0 {
            return Ok(bytes);
        }
        if n as u64 > left {
            return Err(ReadAll::TooLong);
        }
        bytes.extend_from_slice(&piece[..n])?;
    }
}

/// The most that a file's length can be halved.
const HALVINGS: u32 = 64;

/// Whether the file `name` has a byte at a place, which it asks the shelf for.
///
/// # Errors
///
/// The shelf's fault.
fn has_byte<S: Shelf>(alloc: Global, shelf: &mut S, name: &str, at: u64) -> Result<bool, ReadAll>
    ensures told { S.told shelf.new ≡ S.told shelf.old }
    ensures exact { IfSome (S.told shelf.old)
        (λ files. IfOk result (λ has. IsSomeAnd (file_of files name.now) (λ file. has ≡ nat_lt at (length file)))) }
    ensures given { S.given shelf.new ≤ S.given shelf.old + (if is_yes result then 1 else 0) }
    ensures given_rises { S.given shelf.old ≤ S.given shelf.new }
    ensures asked { (other : List ℕ) → other ≢ name.now → S.asked shelf.new other ≡ S.asked shelf.old other }
    ensures later { (other : List ℕ) → S.faults shelf.old other ≤ S.faults shelf.new other }
    ensures empties_later { (other : List ℕ) → S.empties shelf.old other ≤ S.empties shelf.new other }
    ensures failed { result ≡ Err ReadAll.Failed → Rose (S.faults shelf.old name.now) (S.faults shelf.new name.now) }
    ensures short { result ≢ Err ReadAll.TooLong }
{
    let mut byte = [0u8; 1];
    let n = shelf.read_at(alloc, name, at, &mut byte)?;
    Ok(n != 0)
}

/// How many bytes the file `name` has, of at most `most`. It asks for single bytes, at halved places.
///
/// # Errors
///
/// `TooLong` where the file has more than `most` bytes, `Failed` where the shelf failed, and `OutOfMemory` where memory
/// is short.
pub fn file_length<S: Shelf>(
    alloc: Global,
    shelf: &mut S,
    name: &str,
    most: u64,
) -> Result<u64, ReadAll>
    ensures told { S.told shelf.new ≡ S.told shelf.old }
    ensures within { IfOk result (λ len. len ≤ most) }
    ensures exact { IfSome (S.told shelf.old)
        (λ files. IfOk result (λ len. IsSomeAnd (file_of files name.now) (λ file. len ≡ length file))) }
    ensures too_long { IfSome (S.told shelf.old) (λ files.
        result ≡ Err ReadAll.TooLong → IsSomeAnd (file_of files name.now) (λ file. most < length file)) }
    ensures given { S.given shelf.new ≤ S.given shelf.old + 64 }
    ensures given_rises { S.given shelf.old ≤ S.given shelf.new }
    ensures asked { (other : List ℕ) → other ≢ name.now → S.asked shelf.new other ≡ S.asked shelf.old other }
    ensures later { (other : List ℕ) → S.faults shelf.old other ≤ S.faults shelf.new other }
    ensures empties_later { (other : List ℕ) → S.empties shelf.old other ≤ S.empties shelf.new other }
    ensures failed { result ≡ Err ReadAll.Failed → Rose (S.faults shelf.old name.now) (S.faults shelf.new name.now) }
{
    if has_byte(alloc, shelf, name, most)? {
        return Err(ReadAll::TooLong);
    }
    let mut low = 0;
    let mut high = most;
    for _ in 0..HALVINGS {
        if low < high {
            let middle = low + (high - low) / 2;
            if has_byte(alloc, shelf, name, middle)? {
                low = middle + 1;
            } else {
                high = middle;
            }
        }
    }
    Ok(low)
}
