//! Pieces of memory in words.
ghost use Rattle.std.specs.Prelude.{◌≡◌, ◌++◌, OnOk};
ghost use Rattle.world_streams.specs.Lists as lists;
ghost use Rattle.trace_lines.specs.Lines as text;

use crate::purposes::Purpose;
use crate::situations::{Situation, response_in};
use crate::verbs::push_order;
use crate::words::{push_double, push_whole_word};
use command_engine::Outstanding;
use sound_report::{push_hex, push_number, push_word};
use std::alloc::AllocError;
use verb_codes::has_bit;
use world_rings::{Response, word_from};
use world_streams::Buffer;

/// How many bytes of a piece are shown at most.
const MOST_SHOWN: usize = 16;

/// The buffer that an entry of the list gives (HDA 1.0a, 3.6.3).
pub(crate) fn buffer_in(bytes: &[u8]) -> Buffer
    ensures { result ≡ lists.buffer_of bytes.now 0 0 }
{
    Buffer {
        address: u64::from(word_from(bytes, 0)) + (u64::from(word_from(bytes, 4)) << 32),
        bytes: word_from(bytes, 8),
        interrupts: has_bit(word_from(bytes, 12), 0),
    }
}

/// How many bytes a piece has, and the first of them.
fn push_bytes(out: &mut Vec<u8>, bytes: &[u8]) -> Result<(), AllocError>
    ensures { OnOk result (out.new.items ≡ out.old.items ++ text.bytes_text bytes.now) }
{
    push_number(out, bytes.len() as u64)?;
    push_word(out, " ")?;
    if bytes.len() <= MOST_SHOWN {
        return push_hex(out, bytes);
    }
    push_hex(out, &bytes[..MOST_SHOWN])?;
    push_word(out, "..")
}

/// The command that a response answers.
fn push_answered(out: &mut Vec<u8>, waits: Option<Outstanding>) -> Result<(), AllocError>
    ensures { OnOk result (out.new.items ≡ out.old.items ++ text.command_answered waits) }
{
    match waits {
        Some(command) => {
            push_word(out, " answers ")?;
            push_whole_word(out, command.word)
        }
        None => Ok(()),
    }
}

/// What a response is.
fn push_kind(out: &mut Vec<u8>, situation: &Situation, response: Response) -> Result<(), AllocError>
    ensures { OnOk result (out.new.items ≡ out.old.items ++ text.response_kind situation.now response) }
{
    if response.unsolicited {
        push_word(out, " unsolicited")
    } else if situation.is_answer(response) {
        push_answered(out, situation.waits)
    } else {
        Ok(())
    }
}

/// A response and who sent it.
fn push_answer(out: &mut Vec<u8>, response: Response) -> Result<(), AllocError>
    ensures { OnOk result (out.new.items ≡ out.old.items ++ text.answer_text response) }
{
    push_whole_word(out, response.answer)?;
    push_word(out, " codec ")?;
    push_number(out, response.codec.into())
}

/// An entry of RIRB.
fn push_response(
    out: &mut Vec<u8>,
    situation: &Situation,
    response: Response,
) -> Result<(), AllocError>
    ensures { OnOk result (out.new.items ≡ out.old.items ++ text.response_text situation.now response) }
{
    push_answer(out, response)?;
    push_kind(out, situation, response)
}

/// An entry of the list of buffers.
fn push_buffer(out: &mut Vec<u8>, buffer: Buffer) -> Result<(), AllocError>
    ensures { OnOk result (out.new.items ≡ out.old.items ++ text.buffer_text buffer) }
{
    push_double(out, buffer.address)?;
    push_word(out, " ")?;
    push_number(out, buffer.bytes.into())?;
    if buffer.interrupts {
        push_word(out, " IOC")?;
    }
    Ok(())
}

/// A word, a number behind it, and a space.
fn push_numbered(out: &mut Vec<u8>, word: &str, number: u32) -> Result<(), AllocError>
    ensures { OnOk result (out.new.items ≡ out.old.items ++ text.numbered word.now number) }
{
    push_word(out, word)?;
    push_number(out, number.into())?;
    push_word(out, " ")
}

/// A place of a period.
fn push_place(out: &mut Vec<u8>, number: u32, place: u64) -> Result<(), AllocError>
    ensures { OnOk result (out.new.items ≡ out.old.items ++ text.place_text number place) }
{
    push_numbered(out, "period ", number)?;
    push_number(out, place)?;
    push_word(out, " ")
}

/// Appends a piece of memory by what it is.
///
/// # Errors
/// Want of memory.
pub(crate) fn push_piece(
    out: &mut Vec<u8>,
    situation: &Situation,
    purpose: Purpose,
    at: u32,
    bytes: &[u8],
) -> Result<(), AllocError>
    ensures { OnOk result (out.new.items ≡ out.old.items ++ text.piece_text situation.now purpose at bytes.now) }
{
    match purpose {
        Purpose::Command(number) => {
            push_numbered(out, "CORB ", number)?;
            push_order(out, word_from(bytes, 0))
        }
        Purpose::Response(number) => {
            push_numbered(out, "RIRB ", number)?;
            push_response(out, situation, response_in(bytes))
        }
        Purpose::Buffer(number) => {
            push_numbered(out, "BDL ", number)?;
            push_buffer(out, buffer_in(bytes))
        }
        Purpose::Period(number, place) => {
            push_place(out, number, place)?;
            push_bytes(out, bytes)
        }
        Purpose::Other => {
            push_whole_word(out, at)?;
            push_word(out, " ")?;
            push_bytes(out, bytes)
        }
    }
}
