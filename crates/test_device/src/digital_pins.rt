//! Digital pins: their plans, the words that set codecs up for them, and what they hear.
use crate::formats::format_of;
use crate::signals::heard_after;
use codec_sound::digital_order;
use digital_out::Digital;
use route_planner::{Outcome, PinKind, Plan, digital_plan};
use route_setup::Setter;
use setup_verbs::verbs_as;
use std::alloc::{AllocError, Global};
use std::fmt::Write;
use test_cases::push_hex;
use test_codecs::codec_of;
use verb_codes::encode;

/// The tag of the stream.
const TAG: u8 = 1;

/// A line for each pin: the pin, its pair, its hops and its converter.
fn push_plan(text: &mut String, plan: &Plan) -> Result<(), AllocError> {
    for entry in plan.pins.as_slice() {
        write!(text, "\n  {:02x} pair {}:", entry.pin, entry.pair)?;
        match &entry.outcome {
            Outcome::Route(route) => {
                for hop in route.hops.as_slice() {
                    write!(text, " {:02x}.{}", hop.nid, hop.index)?;
                }
                write!(text, " {:02x}", route.converter)?;
            }
            Outcome::Blocked => text.push_str(" blocked")?,
            Outcome::NoPath => text.push_str(" nopath")?,
        }
    }
    Ok(())
}

/// The order of the digital pins of a file's codec and its plan for them, for a format.
pub fn tell_plan(alloc: Global, words: &[Vec<u8>]) -> Result<String, AllocError> {
    let [file, rate, channels, bits] = words else {
        return format!(in alloc; "no plan");
    };
    let Some(codec) = codec_of(alloc, file) else {
        return format!(in alloc; "refused");
    };
    let format = format_of(rate, channels, bits);
    let mut text = String::new(alloc);
    push_hex(&mut text, digital_order(alloc, &codec.graph)?.as_slice())?;
    push_plan(&mut text, &Digital.plan(alloc, &codec.graph, format)?)?;
    Ok(text)
}

/// The words that set the codec of a file up for its digital pins and a format, with the tag 1.
pub fn tell_setup(alloc: Global, words: &[Vec<u8>]) -> Result<String, AllocError> {
    let [file, rate, channels, bits] = words else {
        return format!(in alloc; "no codec");
    };
    let Some(codec) = codec_of(alloc, file) else {
        return format!(in alloc; "refused");
    };
    let format = format_of(rate, channels, bits);
    let plan = digital_plan(alloc, &codec.graph, format)?;
    let commands = verbs_as(alloc, PinKind::Digital, &codec.graph, &plan, format, TAG)?;
    if Digital
        .verbs(alloc, &codec.graph, &plan, format, TAG)?
        .len()
        != commands.len()
    {
        return format!(in alloc; "the setter has others");
    }
    let mut asked = Vec::new(alloc);
    for command in &commands {
        asked.push(encode(command))?;
    }
    let mut text = String::new(alloc);
    push_hex(&mut text, asked.as_slice())?;
    Ok(text)
}

/// What a pin hears of the stream with the tag 1 and two channels after the codec of the file took some words: as a
/// digital pin, and as an analog one.
pub fn tell_heard(alloc: Global, words: &[Vec<u8>]) -> Result<String, AllocError> {
    let [file, pin, given @ ..] = words else {
        return format!(in alloc; "no codec");
    };
    match heard_after(alloc, file, pin, given)? {
        Some((digital, analog)) => format!(in alloc; "{digital:?}, analog {analog:?}"),
        None => format!(in alloc; "refused"),
    }
}
