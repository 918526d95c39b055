//! What the pins of codecs hear: after some words, and once their codec was set up, whatever it was set to before; and
//! what input converters hear.
ghost use Rattle.std.specs.Prelude.{◌≤◌};

use codec_graph::Graph;
use codec_nodes::Codec;
use codec_sound::{Kept, Signal, digital_signal, in_signal, is_taking, signal};
use route_planner::{Bits, Format, Rate, plan};
use route_setup::verbs;
use std::alloc::{AllocError, Global};
use std::fmt::Write;
use test_cases::{number_of, text_of};
use test_codecs::{codec_of, push_controls};
use verb_codes::encode;

/// The tag of the stream that is heard after some words, and of the one that is heard after set-up.
const TAG: u8 = 1;

const SET_UP_TAG: u8 = 15;

/// What each control of a node is set to before set-up, by the verb and payload of a command.
struct Before {
    /// All controls but the selected connection, the amplifiers and the configuration default.
    plain: [u32; 7],
    /// Both sides of both amplifiers, for the place 0.
    amplifiers: u32,
}

/// Each control that is heard has its greatest number: nodes are off, amplifiers muted at their greatest gain.
const GREATEST: Before = Before {
    plain: [
        0x0007_0503,
        0x0007_06FF,
        0x0007_07FF,
        0x0007_08FF,
        0x0007_0CFF,
        0x0007_0DFF,
        0x0002_FFFF,
    ],
    amplifiers: 0x0003_F0FF,
};

/// All nodes are on and pass at 0 dB where that is the least gain, each pin listens, and each converter plays the first
/// pair of a stream of four channels with the tag 15.
const LOUD: Before = Before {
    plain: [
        0x0007_0500,
        0x0007_06F0,
        0x0007_07FF,
        0x0007_08FF,
        0x0007_0CFF,
        0x0007_0D00,
        0x0002_0013,
    ],
    amplifiers: 0x0003_F000,
};

/// 48 kHz and 16 bits, for 2, 4 or 8 channels.
fn format_of(channels: &[u8]) -> Format {
    Format {
        rate: Rate::R48,
        bits: Bits::B16,
        channels: match text_of(channels) {
            "8" => 8,
            "4" => 4,
            _ => 2,
        },
    }
}

/// A number of a byte: the node identifier of a pin or a converter, or a tag.
fn byte_of(word: &[u8]) -> u8 {
    u8::try_from(number_of(word)).unwrap_or(0)
}

/// Hands the codec a word.
fn give(codec: &mut Codec, word: u32) {
    codec.clear();
    if !codec.full() {
        codec.take(word);
    }
}

/// The codec of a file after it took some words.
fn after(alloc: Global, file: &[u8], words: &[Vec<u8>]) -> Result<Option<Codec>, AllocError> {
    let Some(file) = codec_of(alloc, file) else {
        return Ok(None);
    };
    let mut codec = Codec::new(alloc, file.graph, file.settings, file.present)?;
    for word in words {
        give(&mut codec, number_of(word));
    }
    Ok(Some(codec))
}

/// What a pin hears of the stream with the tag 1 and two channels after the codec of the file took some words, as a
/// digital pin and as an analog one.
pub fn heard_after(
    alloc: Global,
    file: &[u8],
    pin: &[u8],
    words: &[Vec<u8>],
) -> Result<Option<(Signal, Signal)>, AllocError> {
    let Some(codec) = after(alloc, file, words)? else {
        return Ok(None);
    };
    let (graph, settings) = (codec.graph(), codec.settings());
    let (pin, format) = (byte_of(pin), format_of(b"2"));
    Ok(Some((
        digital_signal(graph, settings, pin, TAG, format),
        signal(graph, settings, pin, TAG, format),
    )))
}

/// What a pin hears of the stream with the tag 1 and two channels after the codec of the file took some words.
pub fn tell(alloc: Global, words: &[Vec<u8>]) -> Result<String, AllocError> {
    let [file, pin, given @ ..] = words else {
        return format!(in alloc; "no codec");
    };
    let Some(codec) = after(alloc, file, given)? else {
        return format!(in alloc; "refused");
    };
    let heard = signal(
        codec.graph(),
        codec.settings(),
        byte_of(pin),
        TAG,
        format_of(b"2"),
    );
    format!(in alloc; "{heard:?}")
}

/// What an input converter hears after the codec of the file took some words.
pub fn tell_inward(alloc: Global, words: &[Vec<u8>]) -> Result<String, AllocError> {
    let [file, converter, given @ ..] = words else {
        return format!(in alloc; "no codec");
    };
    let Some(codec) = after(alloc, file, given)? else {
        return format!(in alloc; "refused");
    };
    let heard = in_signal(codec.graph(), codec.settings(), byte_of(converter));
    format!(in alloc; "{heard:?}")
}

/// Whether a converter takes the stream on the way in with a tag and a format word, after the codec of the file took
/// some words.
pub fn tell_taking(alloc: Global, words: &[Vec<u8>]) -> Result<String, AllocError> {
    let [file, converter, tag, word, given @ ..] = words else {
        return format!(in alloc; "no codec");
    };
    let Some(codec) = after(alloc, file, given)? else {
        return format!(in alloc; "refused");
    };
    let taking = is_taking(
        codec.graph(),
        codec.settings(),
        byte_of(converter),
        byte_of(tag),
        u16::try_from(number_of(word)).unwrap_or(0),
    );
    format!(in alloc; "{taking}")
}

/// What is kept of a pin after the codec of the file took some words, and once it was renewed for no stream; and how
/// often it was renewed.
pub fn tell_kept(alloc: Global, words: &[Vec<u8>]) -> Result<String, AllocError> {
    let [file, pin, given @ ..] = words else {
        return format!(in alloc; "no codec");
    };
    let Some(codec) = after(alloc, file, given)? else {
        return format!(in alloc; "refused");
    };
    let pin = byte_of(pin);
    let format = Some(format_of(b"2"));
    let pins = vec![in alloc; pin]?;
    let mut kept = Kept::new(alloc, codec.graph(), codec.settings(), pins, TAG, format)?;
    let open = kept.hear(pin);
    kept.renew(codec.graph(), codec.settings(), TAG, None);
    let renewed = kept.hear(pin);
    format!(in alloc; "{open:?}, {renewed:?}, renewed {}", kept.renewals())
}

/// Sets the controls of all nodes but the configuration default; each selector and pin selects its last connection.
fn set_all(codec: &mut Codec, before: &Before) {
    for nid in 0..128_u32 {
        let node = nid << 20;
        for payload in before.plain {
            give(codec, node | payload);
        }
        for place in 0..16_u32 {
            give(codec, node | before.amplifiers | (place << 8));
        }
        for place in 0..64_u32 {
            give(codec, node | 0x0007_0100 | place);
        }
    }
}

/// The words that set the codec with this graph up.
fn words_for(alloc: Global, graph: &Graph, format: Format) -> Result<Vec<u32>, AllocError>
    requires { graph.now.address ≤ 14 }
{
    let plan = plan(alloc, graph, format)?;
    let commands = verbs(alloc, graph, &plan, format, SET_UP_TAG)?;
    let mut words = Vec::new(alloc);
    for command in &commands {
        words.push(encode(command))?;
    }
    Ok(words)
}

/// Puts what each of some pins hears.
fn push_signals(
    text: &mut String,
    codec: &Codec,
    format: Format,
    pins: &[Vec<u8>],
) -> Result<(), AllocError> {
    for pin in pins {
        let heard = signal(
            codec.graph(),
            codec.settings(),
            byte_of(pin),
            SET_UP_TAG,
            format,
        );
        write!(text, " {heard:?}")?;
    }
    Ok(())
}

/// What pins hear with all controls set, and after set-up then.
fn heard_text(alloc: Global, words: &[Vec<u8>], before: &Before) -> Result<String, AllocError> {
    let [file, channels, pins @ ..] = words else {
        return format!(in alloc; "no codec");
    };
    let Some(file) = codec_of(alloc, file) else {
        return format!(in alloc; "refused");
    };
    let format = format_of(channels);
    let opening = words_for(alloc, &file.graph, format)?;
    let mut codec = Codec::new(alloc, file.graph, file.settings, file.present)?;
    set_all(&mut codec, before);
    let mut text = String::from_str(alloc, "before")?;
    push_signals(&mut text, &codec, format, pins)?;
    for word in &opening {
        give(&mut codec, *word);
    }
    text.push_str(", set up")?;
    push_signals(&mut text, &codec, format, pins)?;
    Ok(text)
}

/// What pins hear with all controls of the codec of a file set loud, and after set-up for so many channels then.
pub fn tell_loud(alloc: Global, words: &[Vec<u8>]) -> Result<String, AllocError> {
    heard_text(alloc, words, &LOUD)
}

/// The same with all controls at their greatest.
pub fn tell_greatest(alloc: Global, words: &[Vec<u8>]) -> Result<String, AllocError> {
    heard_text(alloc, words, &GREATEST)
}

/// What the controls of some nodes of the codec of a file are set to once all are at their greatest.
pub fn tell_controls(alloc: Global, words: &[Vec<u8>]) -> Result<String, AllocError> {
    let [file, nodes @ ..] = words else {
        return format!(in alloc; "no codec");
    };
    let Some(mut codec) = after(alloc, file, &[])? else {
        return format!(in alloc; "refused");
    };
    set_all(&mut codec, &GREATEST);
    let mut text = String::new(alloc);
    for node in nodes {
        let nid = byte_of(node);
        write!(text, "\n  {nid:02x}")?;
        push_controls(&mut text, codec.settings(), nid)?;
    }
    Ok(text)
}
