//! Where a driver stands between two entries of its journal, as the entries before show it.
ghost use Rattle.std.specs.Prelude.{◌≡◌};
ghost use Rattle.command_engine.specs.Entries as rirb;

use crate::purposes::Purpose;
use command_engine::Outstanding;
use driver_progress::Phase;
use hda_registers::places::{CORBCTL, GCTL, OUTPUT_DESCRIPTOR, SDCTL, WALCLK};
use verb_codes::{bits_of, has_bit};
use world_rings::{Response, word_from};

/// The output stream's control register.
const CONTROL: u16 = OUTPUT_DESCRIPTOR + SDCTL;

/// What was seen in the call of the driver that is open.
#[derive(Clone, Copy)]
pub(crate) struct Call {
    /// The wall clock as it was read first, in ticks of 1/24,000,000 s.
    pub clock: Option<u32>,
    /// Whether CRST was read as 1.
    pub woken: bool,
    /// Whether CORBRUN was written 1.
    pub started: bool,
    /// Whether a command was written to CORB.
    pub asked: bool,
    /// Whether the answer to the command that waited was read of RIRB.
    pub answered: bool,
    /// Whether RUN of the output stream was written 1.
    pub ran: bool,
    /// Whether it was written 0.
    pub stopped: bool,
}

/// Where the driver stands.
#[derive(Clone, Copy)]
pub(crate) struct Situation {
    /// The phase after the last call.
    pub phase: Phase,
    /// How many commands are left to send.
    pub left: u32,
    /// How many commands of the walks are left to send.
    pub unwalked: u128,
    /// Whether the one that was sent last is none of them.
    pub setting: bool,
    /// The command that waits for its answer.
    pub waits: Option<Outstanding>,
    /// What was seen in the call that is open.
    pub call: Call,
}

impl Call {
    ghost use Rattle.std.specs.Prelude.{◌≡◌};
    ghost use Rattle.trace_lines.specs.Situations as spec;

    /// A call in which nothing was seen yet.
    pub(crate) fn opened() -> Call
        ensures { result ≡ spec.call_opened }
    {
        Call {
            clock: None,
            woken: false,
            started: false,
            asked: false,
            answered: false,
            ran: false,
            stopped: false,
        }
    }

    /// After a read of a register.
    pub(crate) fn after_get(self, at: u16, value: u32) -> Call
        ensures { result ≡ spec.after_get at value self }
    {
        Call {
            clock: if at == WALCLK {
                self.clock.or(Some(value))
            } else {
                self.clock
            },
            woken: self.woken || (at == GCTL && has_bit(value, 0)),
            ..self
        }
    }

    /// After a write of a register.
    pub(crate) fn after_put(self, at: u16, value: u32) -> Call
        ensures { result ≡ spec.after_put at value self }
    {
        Call {
            started: self.started || (at == CORBCTL && has_bit(value, 1)),
            ran: self.ran || (at == CONTROL && has_bit(value, 1)),
            stopped: self.stopped || (at == CONTROL && !has_bit(value, 1)),
            ..self
        }
    }
}

/// The response that an entry of RIRB holds (HDA 1.0a, 4.4.2).
pub(crate) fn response_in(bytes: &[u8]) -> Response
    ensures { result ≡ rirb.response_in bytes.now }
{
    let source = word_from(bytes, 4);
    Response {
        codec: bits_of(source, 0, 4) as u8,
        answer: word_from(bytes, 0),
        unsolicited: has_bit(source, 4),
    }
}

impl Situation {
    ghost use Rattle.std.specs.Prelude.{◌≡◌};
    ghost use Rattle.trace_lines.specs.Situations as spec;

    /// Before the first entry of a run that takes so many commands, of which so many are those of the walks.
    pub(crate) fn opened(commands: u32, walks: u128) -> Situation
        ensures { result ≡ spec.situation_opened commands walks }
    {
        Situation {
            phase: Phase::Reset,
            left: commands,
            unwalked: walks,
            setting: false,
            waits: None,
            call: Call::opened(),
        }
    }

    /// After a command was written to CORB.
    fn sent(self, word: u32) -> Situation
        ensures { result ≡ spec.sent word self }
    {
        Situation {
            left: self.left.saturating_sub(1),
            unwalked: self.unwalked.saturating_sub(1),
            setting: self.unwalked == 0,
            waits: Some(Outstanding {
                codec: bits_of(word, 28, 4) as u8,
                word,
                issued: self.call.clock.unwrap_or(0),
            }),
            call: Call {
                asked: true,
                ..self.call
            },
            ..self
        }
    }

    /// Whether a response answers the command that waits.
    pub(crate) fn is_answer(&self, response: Response) -> bool
        ensures { result ≡ spec.is_answer self.now response }
    {
        match self.waits {
            Some(command) => !response.unsolicited && response.codec == command.codec,
            None => false,
        }
    }

    /// After a response was read of RIRB.
    fn after_response(self, response: Response) -> Situation
        ensures { result ≡ spec.after_response response self }
    {
        if !self.is_answer(response) {
            return self;
        }
        Situation {
            waits: None,
            call: Call {
                answered: true,
                ..self.call
            },
            ..self
        }
    }

    /// After a piece of memory was written.
    pub(crate) fn after_store(self, purpose: Purpose, bytes: &[u8]) -> Situation
        ensures { result ≡ spec.after_store purpose bytes.now self }
    {
        match purpose {
            Purpose::Command(_) => self.sent(word_from(bytes, 0)),
            Purpose::Response(_) | Purpose::Buffer(_) | Purpose::Period(..) | Purpose::Other =>
                self,
        }
    }

    /// After a piece of memory was read.
    pub(crate) fn after_load(self, purpose: Purpose, bytes: &[u8]) -> Situation
        ensures { result ≡ spec.after_load purpose bytes.now self }
    {
        match purpose {
            Purpose::Response(_) => self.after_response(response_in(bytes)),
            Purpose::Command(_) | Purpose::Buffer(_) | Purpose::Period(..) | Purpose::Other => self,
        }
    }
}
