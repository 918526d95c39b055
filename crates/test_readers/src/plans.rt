//! The plans of codec files.
use route_planner::{Bits, Format, Outcome, Plan, Rate, input_plan, order, plan};
use std::alloc::{AllocError, Global};
use std::fmt::Write;
use test_cases::{number_of, push_hex, text_of};
use test_codecs::codec_of;

/// The rate with this name.
fn rate_named(name: &str) -> Rate {
    match name {
        "8000" => Rate::R8,
        "16000" => Rate::R16,
        "44100" => Rate::R44,
        "96000" => Rate::R96,
        "192000" => Rate::R192,
        _ => Rate::R48,
    }
}

/// The sample size with this name.
fn bits_named(name: &str) -> Bits {
    match name {
        "24" => Bits::B24,
        "32" => Bits::B32,
        _ => Bits::B16,
    }
}

/// A line for each pin: the pin, its pair, its hops and its converter.
fn push_plan(text: &mut String, plan: &Plan) -> Result<(), AllocError> {
    for entry in plan.pins.as_slice() {
        write!(text, "\n  {:02x} pair {}:", entry.pin, entry.pair)?;
        match &entry.outcome {
            Outcome::Route(route) => {
                for hop in route.hops.as_slice() {
                    write!(text, " {:02x}.{}", hop.nid, hop.index)?;
                }
                write!(text, " {:02x}", route.converter)?;
            }
            Outcome::Blocked => text.push_str(" blocked")?,
            Outcome::NoPath => text.push_str(" nopath")?,
        }
    }
    Ok(())
}

/// The format of a rate, 2, 4, 6 or 8 channels, and samples of 16, 24 or 32 bits.
pub(crate) fn format_named(rate: &[u8], channels: &[u8], bits: &[u8]) -> Format {
    let channels = match number_of(channels) {
        2 => 2,
        4 => 4,
        6 => 6,
        _ => 8,
    };
    Format {
        rate: rate_named(text_of(rate)),
        bits: bits_named(text_of(bits)),
        channels,
    }
}

/// The order of the pins of a file's codec and its plan, for a format.
pub fn tell(alloc: Global, words: &[Vec<u8>]) -> Result<String, AllocError> {
    let [file, rate, channels, bits] = words else {
        return format!(in alloc; "no plan");
    };
    let Some(codec) = codec_of(alloc, file) else {
        return format!(in alloc; "refused");
    };
    let format = format_named(rate, channels, bits);
    let mut text = String::new(alloc);
    push_hex(&mut text, order(alloc, &codec.graph)?.as_slice())?;
    push_plan(&mut text, &plan(alloc, &codec.graph, format)?)?;
    Ok(text)
}

/// How many entries the plan of a file's codec for an input has, and the plan, for a format.
pub fn tell_input(alloc: Global, words: &[Vec<u8>]) -> Result<String, AllocError> {
    let [file, rate, channels, bits] = words else {
        return format!(in alloc; "no plan");
    };
    let Some(codec) = codec_of(alloc, file) else {
        return format!(in alloc; "refused");
    };
    let plan = input_plan(alloc, &codec.graph, format_named(rate, channels, bits))?;
    let mut text = format!(in alloc; "{}", plan.pins.len())?;
    push_plan(&mut text, &plan)?;
    Ok(text)
}
