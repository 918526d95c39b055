//! How an answer is looked for.
ghost use Rattle.std.specs.Prelude.{◌≡◌, ◌≤◌, ◌<◌, ◌+◌, ◌*◌, [], length, slice_get, drop};
ghost use Rattle.hda_registers.specs.Fields.{entries_of};
ghost use Rattle.world_rings.specs.declared.entries.TheConstants.{RESPONSE_BYTES};
ghost use Rattle.command_engine.specs.Polling as spec;
ghost use Rattle.command_engine.specs.Reading as reading;
ghost use Rattle.command_engine.specs.Told as told;
ghost use Rattle.hda_world.specs.Tellings.{Between};
ghost use Rattle.command_engine.specs.Blocks.{rirb_bytes};
ghost use Rattle.command_engine.specs.declared.room.TheConstants.{BATCH_ACCESSES, POLL_ACCESSES, POLL_BYTES};

use super::Engine;
use crate::answers::{
    Event, Poll, asked_of, found_with, note_event, poll_of, response_in, still_outstanding,
};
use crate::memory::read_entry;
use crate::ring_places::{RingPlaces, new_entries, read_to};
use circular_buffer::HeapCircularBuffer;
use dma_pool::Lent;
use hda_platform::Platform;
use hda_registers::{Width, places};
use verb_codes::has_bit;

/// RINTFL: responses were written. The driver clears it by writing 1 (HDA 1.0a, 3.3.30).
const RESPONSES_WRITTEN: u32 = 1;

impl Engine {
    /// Looks for the answer to the outstanding command, at this clock. Where responses were written it reads all that
    /// are new: the first to a command of the codec that is asked is the answer, other answers are dropped, and what
    /// was sent unasked becomes events, in order. A command that has no answer stays outstanding. No event is left from
    /// earlier polls (HDA 1.0a, 4.4.2).
    ///
    /// On a platform that tells, where the engine stood to the world as a start, a submission or a poll left it: the
    /// poll reads just the responses that were written since the last one. An answer is that of the outstanding command
    /// by the codec that it asks, with the settings and the presence at the moment at which it took it. Then no other
    /// answer is on its way.
    ///
    /// A write pointer names fewer new entries than RIRB has, whatever it reads, so at most [`crate::MOST_RESPONSES`];
    /// the queue holds 256 events.
    #[tactic(auto, using(hda_world::proofs::Callers::rows))]
    pub fn poll<P: Platform>(&mut self, platform: &mut P, clock: u32) -> Poll
        requires events { self.old.events ≡ [] }
        requires room { POLL_ACCESSES ≤ P.spare_accesses platform.old }
        requires bytes_room { POLL_BYTES ≤ P.spare_bytes platform.old }
        ensures polls { spec.Polls self.old.rirb.address clock self.old.rings result self.new.rings
            self.new.events (P.told platform.old) (P.told platform.new) }
        ensures tells { Between (told.PollTellsOf clock self.old.corb.address self.old.rirb.address self.old.rings
            result self.new.rings self.new.events) (P.told platform.old) (P.told platform.new) }
        ensures corb { self.new.corb ≡ self.old.corb }
        ensures rirb { self.new.rirb ≡ self.old.rirb }
        ensures fixed { P.fixed platform.new ≡ P.fixed platform.old }
        ensures accesses { P.spare_accesses platform.old ≤ P.spare_accesses platform.new + POLL_ACCESSES }
        ensures bytes { P.spare_bytes platform.old ≤ P.spare_bytes platform.new + POLL_BYTES }
    {
        let flag = platform.read(places::RIRBSTS, Width::One);
        let found = self.read_new(platform, flag);
        let answer = poll_of(self.rings.outstanding, found, clock);
        self.rings.outstanding = still_outstanding(self.rings.outstanding, found);
        answer
    }

    /// The oldest event that is left. `None` exactly where none is left.
    pub fn next_event(&mut self) -> Option<Event>
        ensures oldest { result ≡ slice_get self.old.events 0 }
        ensures events { self.new.events ≡ drop 1 self.old.events }
        ensures rings { self.new.rings ≡ self.old.rings }
        ensures corb { self.new.corb ≡ self.old.corb }
        ensures rirb { self.new.rirb ≡ self.old.rirb }
    {
        self.events.pop_front()
    }

    /// Reads the new entries where the flag says that responses were written, and gives the answer among them.
    fn read_new<P: Platform>(&mut self, platform: &mut P, flag: u32) -> Option<u32>
        requires events { self.old.events ≡ [] }
        requires room { BATCH_ACCESSES ≤ P.spare_accesses platform.old }
        requires bytes_room { POLL_BYTES ≤ P.spare_bytes platform.old }
        ensures reads { reading.ReadsNew self.old.rirb.address self.old.rings flag result self.new.rings
            self.new.events (P.told platform.old) (P.told platform.new) }
        ensures corb { self.new.corb ≡ self.old.corb }
        ensures rirb { self.new.rirb ≡ self.old.rirb }
        ensures fixed { P.fixed platform.new ≡ P.fixed platform.old }
        ensures accesses { P.spare_accesses platform.old ≤ P.spare_accesses platform.new + BATCH_ACCESSES }
        ensures bytes { P.spare_bytes platform.old ≤ P.spare_bytes platform.new + POLL_BYTES }
    {
        if has_bit(flag, 0) {
            self.read_batch(platform)
        } else {
            None
        }
    }

    /// Reads the new entries, and gives the answer among them.
    fn read_batch<P: Platform>(&mut self, platform: &mut P) -> Option<u32>
        requires events { self.old.events ≡ [] }
        requires room { BATCH_ACCESSES ≤ P.spare_accesses platform.old }
        requires bytes_room { POLL_BYTES ≤ P.spare_bytes platform.old }
        ensures reads { reading.ReadsBatch self.old.rirb.address self.old.rings result self.new.rings
            self.new.events (P.told platform.old) (P.told platform.new) }
        ensures corb { self.new.corb ≡ self.old.corb }
        ensures rirb { self.new.rirb ≡ self.old.rirb }
        ensures fixed { P.fixed platform.new ≡ P.fixed platform.old }
        ensures accesses { P.spare_accesses platform.old ≤ P.spare_accesses platform.new + BATCH_ACCESSES }
        ensures bytes { P.spare_bytes platform.old ≤ P.spare_bytes platform.new + POLL_BYTES }
    {
        let pointer = platform.read(places::RIRBWP, Width::Two);
        let count = new_entries(self.rings, pointer);
        let found = read_entries(platform, &self.rirb, self.rings, count, &mut self.events);
        platform.write(places::RIRBSTS, Width::One, RESPONSES_WRITTEN);
        self.rings.read = read_to(self.rings, pointer);
        found
    }
}

/// Reads so many entries of RIRB from the one after the last that was read on. It notes their events, and gives the
/// answer among them.
fn read_entries<P: Platform>(
    platform: &mut P,
    rirb: &Lent,
    rings: RingPlaces,
    count: u16,
    events: &mut HeapCircularBuffer<Event>,
) -> Option<u32>
    requires few { count < 256 }
    requires block { rirb.now.bytes ≡ rirb_bytes }
    requires events_room { length events.old.items + count ≤ events.old.capacity }
    requires room { count ≤ P.spare_accesses platform.old }
    requires bytes_room { RESPONSE_BYTES * count ≤ P.spare_bytes platform.old }
    ensures reads { reading.ReadsEntries rirb.now.address (entries_of rings.rirb) (rings.read + 1) count
        (spec.asked_of rings.outstanding)
        events.old.items events.new.items result (P.told platform.old) (P.told platform.new) }
    ensures capacity { events.new.capacity ≡ events.old.capacity }
    ensures fixed { P.fixed platform.new ≡ P.fixed platform.old }
    ensures accesses { P.spare_accesses platform.new + count ≡ P.spare_accesses platform.old }
    ensures bytes { P.spare_bytes platform.new + RESPONSE_BYTES * count ≡ P.spare_bytes platform.old }
{
    let asked = asked_of(rings.outstanding);
    let size = rings.rirb.entries();
    let mut found = None;
    for step in 0..count {
        let place = ((u16::from(rings.read) + 1 + step) % size) as u8;
        let response = response_in(&read_entry(platform, rirb, place));
        found = found_with(found, asked, response);
        note_event(events, response);
    }
    found
}
