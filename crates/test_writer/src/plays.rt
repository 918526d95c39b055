//! Plays, and what comes of them.
use crate::scripts::play_of;
use std::alloc::{AllocError, Global};
use std::fmt::Write;
use test_cases::{number_of, push_stretches};
use writer_plays::{Access, Played, finish_over, play_over};

/// The bytes of the ring that are looked at after each run.
const SEEN_BYTES: usize = 768;

/// Puts what later runs answered, what is recorded, and what is left of the sound, of the answers and of the pool.
fn push_course(text: &mut String, played: &Played) -> Result<(), AllocError> {
    let (answers, free) = played.rest;
    write!(
        text,
        "{} bytes left, {answers} answers left, {free} granules free",
        played.left
    )?;
    for ran in &played.rans {
        write!(text, "\n  {ran:?}")?;
    }
    for (at, from, to, budget, written) in &played.runs {
        write!(text, "\n  run {at} {from} {to} {budget} {written}")?;
    }
    for (start, end) in &played.silences {
        write!(text, "\n  silence {start} {end}")?;
    }
    Ok(())
}

/// What comes of a play, with the ring after each run.
pub fn tell(alloc: Global, words: &[Vec<u8>]) -> Result<String, AllocError> {
    let Some(play) = play_of(alloc, words)? else {
        return format!(in alloc; "no play");
    };
    let pool = play.pool(alloc)?;
    let Some(played) = play_over(alloc, play.ring, pool, &play.script) else {
        return format!(in alloc; "no memory");
    };
    let mut text = String::new(alloc);
    push_course(&mut text, &played)?;
    for ring in played.rings.as_slice().chunks(SEEN_BYTES) {
        push_stretches(&mut text, "ring", ring)?;
    }
    Ok(text)
}

/// Puts some accesses.
pub fn push_accesses(text: &mut String, accesses: &[Access]) -> Result<(), AllocError> {
    for access in accesses {
        write!(text, "\n  {access:?}")?;
    }
    Ok(())
}

/// What comes of the first run of a play, over a pool of 64 granules, and of the last one, whose reads are those of its
/// turn; and the accesses from a first one on.
pub fn tell_last(alloc: Global, words: &[Vec<u8>]) -> Result<String, AllocError> {
    let [first, rest @ ..] = words else {
        return format!(in alloc; "no play");
    };
    let Some(play) = play_of(alloc, rest)? else {
        return format!(in alloc; "no play");
    };
    let Some(played) = finish_over(alloc, play.ring, &play.script) else {
        return format!(in alloc; "no memory");
    };
    let mut text = String::new(alloc);
    push_course(&mut text, &played)?;
    let first = number_of(first) as usize;
    push_accesses(
        &mut text,
        played.accesses.as_slice().get(first..).unwrap_or(&[]),
    )?;
    Ok(text)
}

/// How many of some accesses write to memory.
fn memory_writes(accesses: &[Access]) -> usize {
    accesses
        .iter()
        .filter(|access| matches!(access, Access::Memory(_, _)))
        .count()
}

/// Of the accesses of a play so many, from one on; how many there are, and how many of them write to memory; the room
/// that the first run left of what it asks for, in accesses and bytes; and the first two entries of the list.
pub fn tell_accesses(alloc: Global, words: &[Vec<u8>]) -> Result<String, AllocError> {
    let [first, count, rest @ ..] = words else {
        return format!(in alloc; "no play");
    };
    let Some(play) = play_of(alloc, rest)? else {
        return format!(in alloc; "no play");
    };
    let pool = play.pool(alloc)?;
    let Some(played) = play_over(alloc, play.ring, pool, &play.script) else {
        return format!(in alloc; "no memory");
    };
    let all = played.accesses.as_slice();
    let (accesses, bytes) = played.room;
    let mut text = format!(in alloc;
        "{} accesses, {} of memory, room {accesses} {bytes}, list",
        all.len(),
        memory_writes(all)
    )?;
    for byte in &played.list {
        write!(text, " {byte:02x}")?;
    }
    let first = number_of(first) as usize;
    let end = first.saturating_add(number_of(count) as usize);
    push_accesses(&mut text, all.get(first..end).unwrap_or(&[]))?;
    Ok(text)
}
