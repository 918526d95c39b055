//! The shapes of rings, and the blocks that a writer takes.
use dma_pool::Pool;
use period_writer::{Geometry, GeometryFault};
use std::alloc::{AllocError, Global};
use stream_format::{Bits, Format, Rate};
use test_cases::{number_of, text_of};
use writer_plays::{format_at, free_in};

/// The rate of so many frames in a second.
fn rate_of(word: &[u8]) -> Rate {
    match text_of(word) {
        "8000" => Rate::R8,
        "44100" => Rate::R44,
        "96000" => Rate::R96,
        "192000" => Rate::R192,
        _ => Rate::R48,
    }
}

/// The sample size of so many bits.
fn bits_of(word: &[u8]) -> Bits {
    match text_of(word) {
        "24" => Bits::B24,
        "32" => Bits::B32,
        _ => Bits::B16,
    }
}

/// So many frames in a second, of 2, 4, 6 or 8 channels, with samples of so many bits.
fn format_of(rate: &[u8], channels: &[u8], bits: &[u8]) -> Format {
    Format {
        rate: rate_of(rate),
        bits: bits_of(bits),
        channels: match text_of(channels) {
            "8" => 8,
            "6" => 6,
            "4" => 4,
            _ => 2,
        },
    }
}

/// The ring of so many periods of a factor, for a FIFO and a format.
fn ring_for(
    periods: &[u8],
    period: &[u8],
    fifo: &[u8],
    format: Format,
) -> Result<Geometry, GeometryFault> {
    let periods = u8::try_from(number_of(periods)).unwrap_or(2).clamp(2, 32);
    let period = u8::try_from(number_of(period)).unwrap_or(1).clamp(1, 128);
    let fifo = u16::try_from(number_of(fifo)).unwrap_or(0);
    Geometry::new(periods, period, fifo, format)
}

/// The same for a rate, with two channels of 16 bits.
pub fn ring_of(
    periods: &[u8],
    period: &[u8],
    fifo: &[u8],
    rate: &[u8],
) -> Result<Geometry, GeometryFault> {
    ring_for(periods, period, fifo, format_at(rate_of(rate)))
}

/// The bytes of a ring, and how many link frames may pass: between two runs, and in one that takes silence back; or why
/// there is none.
pub fn tell_shape(alloc: Global, words: &[Vec<u8>]) -> Result<String, AllocError> {
    let [periods, period, fifo, rate, channels, bits] = words else {
        return format!(in alloc; "no ring");
    };
    match ring_for(periods, period, fifo, format_of(rate, channels, bits)) {
        Ok(ring) => {
            let (bytes, limit, slack) = (ring.ring(), ring.limit(), ring.slack());
            format!(in alloc; "{bytes} bytes, limit {limit}, slack {slack}")
        }
        Err(fault) => format!(in alloc; "{fault:?}"),
    }
}

/// How many granules of a pool are free while a writer of the small ring is open, and after it was closed or refused.
pub fn tell_free(alloc: Global, words: &[Vec<u8>]) -> Result<String, AllocError> {
    let [granules] = words else {
        return format!(in alloc; "no pool");
    };
    let pool = Pool::new(alloc, number_of(granules).clamp(1, 64))?;
    match free_in(alloc, pool) {
        Some((open, closed)) => format!(in alloc; "{open:?}, {closed}"),
        None => format!(in alloc; "no memory"),
    }
}
