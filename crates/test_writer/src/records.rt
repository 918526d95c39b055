//! Recordings of a ring that is filled, and what comes of them.
use crate::plays::push_accesses;
use crate::rings::ring_of;
use dma_pool::Pool;
use std::alloc::{AllocError, Global};
use std::fmt::Write;
use test_cases::{number_of, push_stretches};
use writer_plays::{RecordPlayed, RecordScript, record_over};

/// The most granules of a pool here.
const MOST_GRANULES: u32 = 16_384;

/// What is recorded by its words: the frames, the value of all reads that have none, the clock that the first run reads
/// at its begin and that at its end; and of each later run the clock at its begin, LPIB, up to which position bytes
/// were stored by then, and the clock at its end.
fn script_of(alloc: Global, words: &[Vec<u8>]) -> Result<Option<RecordScript>, AllocError> {
    let [frames, otherwise, from, to, later @ ..] = words else {
        return Ok(None);
    };
    let mut turns = Vec::new(alloc);
    for turn in later.chunks(4) {
        if let [from, lpib, stored, to] = turn {
            turns.push((
                number_of(from),
                number_of(lpib),
                number_of(stored),
                number_of(to),
            ))?;
        }
    }
    Ok(Some(RecordScript {
        frames: number_of(frames),
        first: (number_of(from), number_of(to)),
        turns,
        otherwise: number_of(otherwise),
    }))
}

/// Puts what is left of the answers, of the pool, and of the room that the first run asks for; what the recorder tells
/// of itself; what later runs answered, and what is recorded.
fn push_played(text: &mut String, played: &RecordPlayed) -> Result<(), AllocError> {
    let (answers, free) = played.rest;
    let (accesses, bytes) = played.room;
    let (limit, runs, recorded) = played.told;
    write!(
        text,
        "{answers} answers left, {free} granules free, room {accesses} {bytes}"
    )?;
    write!(text, ", limit {limit}, {runs} runs, {recorded} bytes")?;
    for answer in &played.answers {
        write!(text, "\n  {answer:?}")?;
    }
    for run in &played.runs {
        write!(
            text,
            "\n  run {} {} {} {}",
            run.at, run.from, run.to, run.read
        )?;
    }
    push_stretches(text, "bytes", played.bytes.as_slice())
}

/// What comes of a recording, and so many of its accesses, from one on.
pub fn tell(alloc: Global, words: &[Vec<u8>]) -> Result<String, AllocError> {
    let [
        first,
        count,
        periods,
        period,
        fifo,
        rate,
        granules,
        rest @ ..,
    ] = words
    else {
        return format!(in alloc; "no recording");
    };
    let Ok(ring) = ring_of(periods, period, fifo, rate) else {
        return format!(in alloc; "no ring");
    };
    let Some(script) = script_of(alloc, rest)? else {
        return format!(in alloc; "no recording");
    };
    let pool = Pool::new(alloc, number_of(granules).clamp(1, MOST_GRANULES))?;
    match record_over(alloc, ring, pool, &script) {
        Ok(played) => {
            let mut text = String::new(alloc);
            push_played(&mut text, &played)?;
            let first = number_of(first) as usize;
            let end = first.saturating_add(number_of(count) as usize);
            push_accesses(
                &mut text,
                played.accesses.as_slice().get(first..end).unwrap_or(&[]),
            )?;
            Ok(text)
        }
        Err(fault) => format!(in alloc; "{fault:?}"),
    }
}
