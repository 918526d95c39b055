//! What the engine tells: answers to commands, and events of codecs.
ghost use Rattle.std.specs.Prelude.{◌≡◌, ◌<◌, ◌^◌, ◌++◌, length, if◌then◌else◌, Option};
ghost use Rattle.command_engine.specs.Entries as entries;
ghost use Rattle.command_engine.specs.Polling as polling;
ghost use Rattle.command_engine.specs.Reading as reading;

use circular_buffer::HeapCircularBuffer;
use verb_codes::{bits_of, has_bit};
use world_rings::{Response, word_from};

/// After how many ticks of the wall clock a command counts as not answered: 1,000 link frames of 500. This project's
/// own.
pub const ANSWER_LIMIT: u32 = 500_000;

/// What a codec told unasked (HDA 1.0a, 7.3.3.14).
#[derive(Clone, Copy, Debug, PartialEq, Eq)]
pub struct Event {
    /// The address of the codec.
    pub codec: u8,
    /// The tag that was set at the node that tells it.
    pub tag: u8,
}

/// A command that was submitted and is not answered.
#[derive(Clone, Copy, Debug, PartialEq, Eq)]
pub struct Outstanding {
    /// The address of the codec that is asked.
    pub codec: u8,
    /// The command's word.
    pub word: u32,
    /// The clock at which it was submitted, in ticks of 1/24,000,000 s.
    pub issued: u32,
}

/// What a poll finds.
#[derive(Clone, Copy, Debug, PartialEq, Eq)]
pub enum Poll {
    /// No command is outstanding.
    Idle,
    /// The outstanding command was answered, with this.
    Answered(u32),
    /// It was not answered yet.
    Waiting,
    /// It was not answered within [`ANSWER_LIMIT`] ticks. It stays outstanding.
    Unanswered {
        /// The clock at which it was submitted.
        issued: u32,
        /// The clock of the poll.
        noticed: u32,
    },
}

/// The response that an entry of RIRB holds.
pub(crate) fn response_in(entry: &[u8]) -> Response
    ensures { result ≡ entries.response_in entry.now }
{
    let source = word_from(entry, 4);
    Response {
        codec: bits_of(source, 0, 4) as u8,
        answer: word_from(entry, 0),
        unsolicited: has_bit(source, 4),
    }
}

/// Whether a response answers a command of the codec that is asked, if one is.
fn answers_it(asked: Option<u8>, response: Response) -> bool
    ensures { result ≡ entries.answers_it asked response }
{
    match asked {
        Some(codec) => !response.unsolicited && response.codec == codec,
        None => false,
    }
}

/// The answer that was found already, or else that of this response, if it is one.
pub(crate) fn found_with(found: Option<u32>, asked: Option<u8>, response: Response) -> Option<u32>
    ensures { result ≡ reading.found_with found asked response }
{
    match found {
        Some(answer) => Some(answer),
        None if answers_it(asked, response) => Some(response.answer),
        None => None,
    }
}

/// Notes the event of a response that came unasked.
pub(crate) fn note_event(events: &mut HeapCircularBuffer<Event>, response: Response)
    requires { length events.old.items < events.old.capacity }
    ensures items { events.new.items ≡ events.old.items ++ reading.event_in response }
    ensures capacity { events.new.capacity ≡ events.old.capacity }
{
    if response.unsolicited {
        events.push_back(Event {
            codec: response.codec,
            tag: bits_of(response.answer, 26, 6) as u8,
        });
    }
}

/// The codec of the outstanding command.
pub(crate) fn asked_of(outstanding: Option<Outstanding>) -> Option<u8>
    ensures { result ≡ polling.asked_of outstanding }
{
    match outstanding {
        Some(command) => Some(command.codec),
        None => None,
    }
}

/// What a poll tells.
pub(crate) fn poll_of(outstanding: Option<Outstanding>, found: Option<u32>, clock: u32) -> Poll
    ensures { result ≡ polling.poll_of outstanding found clock }
{
    let Some(command) = outstanding else {
        return Poll::Idle;
    };
    match found {
        Some(answer) => Poll::Answered(answer),
        None => without_answer(command, clock),
    }
}

/// What a poll tells that found no answer.
fn without_answer(command: Outstanding, clock: u32) -> Poll
    ensures { result ≡ polling.without_answer command clock }
{
    if u64::from(command.issued) + u64::from(ANSWER_LIMIT) <= u64::from(clock) {
        Poll::Unanswered {
            issued: command.issued,
            noticed: clock,
        }
    } else {
        Poll::Waiting
    }
}

/// The command that is outstanding after a poll.
pub(crate) fn still_outstanding(
    outstanding: Option<Outstanding>,
    found: Option<u32>,
) -> Option<Outstanding>
    ensures { result ≡ polling.still_outstanding outstanding found }
{
    match found {
        Some(_) => None,
        None => outstanding,
    }
}
