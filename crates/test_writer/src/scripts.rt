//! Plays as cases describe them.
use crate::rings::ring_of;
use dma_pool::Pool;
use period_writer::Geometry;
use std::alloc::{AllocError, Global};
use test_cases::number_of;
use writer_plays::Script;

/// The most granules of a pool here.
const MOST_GRANULES: u32 = 16_384;

/// A ring, the granules of a pool, and what is played.
#[derive(Drop)]
pub struct Play {
    pub ring: Geometry,
    pub granules: u32,
    pub script: Script,
}

impl Play {
    /// The pool, of which nothing was taken.
    pub fn pool(&self, alloc: Global) -> Result<Pool, AllocError> {
        Pool::new(alloc, self.granules.clamp(1, MOST_GRANULES))
    }
}

/// A play by its words: the periods of the ring, their factor, the FIFO and the rate; the granules of the pool; the
/// frames of sound; the value of all reads that have none; the clock that the first run reads at its begin, that at its
/// end, and its budget; and of each later run the clock at its begin, LPIB, the clock at its end, and its budget.
pub fn play_of(alloc: Global, words: &[Vec<u8>]) -> Result<Option<Play>, AllocError> {
    let [
        periods,
        period,
        fifo,
        rate,
        granules,
        frames,
        otherwise,
        from,
        to,
        budget,
        later @ ..,
    ] = words
    else {
        return Ok(None);
    };
    let Ok(ring) = ring_of(periods, period, fifo, rate) else {
        return Ok(None);
    };
    let mut turns = Vec::new(alloc);
    for turn in later.chunks(4) {
        if let [from, lpib, to, budget] = turn {
            turns.push((
                number_of(from),
                number_of(lpib),
                number_of(to),
                number_of(budget),
            ))?;
        }
    }
    Ok(Some(Play {
        ring,
        granules: number_of(granules),
        script: Script {
            frames: number_of(frames),
            first: (number_of(from), number_of(to), number_of(budget)),
            turns,
            otherwise: number_of(otherwise),
        },
    }))
}
