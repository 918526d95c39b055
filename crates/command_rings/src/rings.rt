//! The engines of both rings, and the responses that wait for RIRB.
ghost use Rattle.std.specs.Prelude.{◌≡◌, ◌==◌, ◌≤◌, ◌<◌, ◌+◌, ◌*◌, ◌^◌, ◌++◌, [], ◌∷◌, IfOk, IsTrue, length, take};
ghost use Rattle.std.specs.Prelude.{drop};
ghost use Rattle.world_rings.specs.Entries as entries;
ghost use Rattle.world_rings.specs.Engines as engines;

use circular_buffer::HeapCircularBuffer;
use hda_registers::{Raise, Registers};
use std::alloc::{AllocError, Global};
use std::marker::Model;
use world_rings::{
    MOST_WAITING, Response, batch_of, can_respond, fetch, next_word, write_response,
};

/// The controller's side of both rings: the responses that wait for RIRB, oldest first. The queue and its limit are
/// this project's own.
#[derive(Drop)]
pub struct Rings {
    waiting: HeapCircularBuffer<Response>,
}

impl Model for Rings {
    ghost use Rattle.std.specs.Prelude.{◌≡◌, ◌≤◌, List, length};
    ghost use Rattle.world_rings.specs.declared.response.Response.{Response};
    ghost use Rattle.world_rings.specs.declared.response.TheConstants.{MOST_WAITING};

    ghost Value = { List Response };

    ghost view = { λ rings. rings.waiting.items };

    ghost invariant = { λ rings. (rings.waiting.capacity ≡ MOST_WAITING)
        × (length rings.waiting.items ≤ MOST_WAITING) };
}

impl Rings {
    /// Rings for which nothing waits, with room for all that may ever wait.
    ///
    /// # Errors
    /// Want of memory.
    pub fn new(alloc: Global) -> Result<Rings, AllocError>
        ensures { IfOk result (λ rings. rings ≡ []) }
    {
        Ok(Rings {
            waiting: HeapCircularBuffer::with_capacity(alloc, MOST_WAITING)?,
        })
    }

    /// The command that [`Rings::corb`] would fetch. `None` exactly where CRST or CORBRUN is 0, CORBRPRST is 1, or the
    /// read pointer is at the write pointer (HDA 1.0a, 4.4.1). Bytes outside the memory are 0.
    pub fn next_word(&self, regs: &Registers, memory: &[u8]) -> Option<u32>
        ensures { result ≡ engines.next_word regs.now memory.now }
    {
        next_word(regs, memory)
    }

    /// Moves CORB's read pointer on and fetches the command there. `None` as for [`Rings::next_word`], and then nothing
    /// changes.
    pub fn corb(&mut self, regs: &mut Registers, memory: &[u8]) -> Option<u32>
        ensures word { result ≡ engines.next_word regs.old memory.now }
        ensures registers { regs.new ≡ engines.after_corb regs.old }
        ensures waiting { self.new ≡ self.old }
    {
        fetch(regs, memory)
    }

    /// Whether no further response may wait: [`MOST_WAITING`] do.
    pub fn full(&self) -> bool
        ensures value { result ≡ (length self.now == MOST_WAITING) }
        ensures few { length self.now ≤ MOST_WAITING }
    {
        self.waiting.is_full()
    }

    /// Puts a response of the codec of this address, at most 14, last among those that wait. Fewer than
    /// [`MOST_WAITING`] wait.
    pub fn accept(&mut self, codec: u8, answer: u32, unsolicited: bool)
        requires room { length self.old < MOST_WAITING }
        requires codec { codec ≤ 14 }
        ensures { self.new ≡ self.old ++ record { codec = codec; answer = answer; unsolicited = unsolicited } ∷ [] }
    {
        self.waiting.push_back(Response {
            codec,
            answer,
            unsolicited,
        });
    }

    /// Writes responses to RIRB, oldest first, each at the place after the write pointer, which moves on; then sets
    /// RINTFL. Gives their number: as many as wait, but at most RINTCNT, where 0 stands for 256, and fewer than the
    /// ring has entries. 0 where CRST or the engine's run bit is 0, RINTFL is 1 or nothing waits, and then nothing
    /// changes (HDA 1.0a, 4.4.2; that the engine waits for RINTFL is this project's own). An entry outside the memory
    /// is not written.
    pub fn rirb(&mut self, regs: &mut Registers, memory: &mut [u8]) -> u32
        ensures number { result ≡ length (engines.batch regs.old self.old) }
        ensures registers { regs.new ≡ engines.after_rirb regs.old self.old }
        ensures memory { memory.new ≡ entries.responses_stored regs.old memory.old (engines.batch regs.old self.old) }
        ensures waiting { self.new ≡ drop result self.old }
    {
        if !can_respond(regs) {
            return 0;
        }
        let written = self.write_batch(regs, memory);
        if written > 0 {
            regs.raise(Raise::Response);
        }
        written
    }

    /// Writes the oldest responses, as many as may be written at once, and moves RIRB's write pointer.
    fn write_batch(&mut self, regs: &mut Registers, memory: &mut [u8]) -> u32
        requires { IsTrue (engines.can_respond regs.old) }
        ensures number { result ≡ length (take (engines.batch_of regs.old) self.old) }
        ensures registers { regs.new ≡ entries.after_responses regs.old (take (engines.batch_of regs.old) self.old) }
        ensures memory { memory.new ≡ entries.responses_stored regs.old memory.old
            (take (engines.batch_of regs.old) self.old) }
        ensures waiting { self.new ≡ drop result self.old }
    {
        let most = batch_of(regs);
        for written in 0..most {
            let Some(response) = self.waiting.pop_front() else {
                return u32::from(written);
            };
            write_response(regs, memory, response);
        }
        u32::from(most)
    }

    /// Drops all that waits.
    pub fn clear(&mut self)
        ensures { self.new ≡ [] }
    {
        self.waiting.clear();
    }
}
