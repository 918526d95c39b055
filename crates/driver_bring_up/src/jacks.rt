//! The counters.
ghost use Rattle.std.specs.Prelude.{◌≡◌, ◌≤◌, ◌<◌, ◌+◌, ◌++◌, ℕ, List, [], ◌∷◌, length, replicate, All, IfOk, vec_len};
ghost use Rattle.std.specs.Prelude.{vec_capacity, min};
ghost use Rattle.command_engine.specs.declared.answers.Event.{Event};
ghost use Rattle.std.proofs.Props.{props};
ghost use Rattle.driver_bring_up.specs.Jacks as spec;
ghost use Rattle.driver_bring_up.specs.Jacks.{counter_of};

use crate::listing::list_row;
use command_engine::{Engine, Event};
use driver_progress::Jack;
use std::alloc::{AllocError, Global};

/// How many codecs an event can name (HDA 1.0a, 4.4.2).
pub const CODECS: usize = 16;
/// How many tags an event can have (HDA 1.0a, 7.3.3.14).
pub const TAGS: usize = 64;

/// How often each tag of each codec was told, with room for the list of them.
#[derive(Drop)]
pub struct Jacks {
    times: [[u32; TAGS]; CODECS],
    taken: u32,
    /// Empty, with room for a jack of each counter.
    listed: Vec<Jack>,
    pub ghost codecs: { length times ≡ 16 },
    pub ghost tags: { All (λ row. length row ≡ 64) times } by { Prim.hlevel props },
    pub ghost few: { (codec tag : ℕ) → counter_of times codec tag ≤ taken } by { Prim.hlevel props },
    pub ghost empty: { listed.items ≡ [] },
    pub ghost none: { vec_len listed ≡ 0 },
    pub ghost room: { 1024 ≤ vec_capacity listed },
}

impl Jacks {
    ghost use Rattle.driver_bring_up.specs.Counted.{IsCount};

    /// Counters that have counted nothing, with all the memory that they will need.
    ///
    /// # Errors
    /// Want of memory.
    pub fn new(alloc: Global) -> Result<Jacks, AllocError>
        ensures counts { IfOk result (IsCount []) }
        ensures taken { IfOk result (λ jacks. jacks.taken ≡ 0) }
    {
        let listed = Vec::with_capacity(alloc, CODECS * TAGS)?;
        Ok(Jacks {
            times: no_times(),
            taken: 0,
            listed,
        })
    }

    /// Counters that go on from a list of jacks: where it is that of at most 4,294,967,295 events, they have counted
    /// these. This project's own.
    ///
    /// # Errors
    /// Want of memory.
    pub fn of_list(alloc: Global, list: &[Jack]) -> Result<Jacks, AllocError>
        ensures { IfOk result (λ jacks. (events : List Event) → spec.Counts events list.now → All spec.IsOfPin events
            → length events ≤ 4294967295 → IsCount events jacks) }
    {
        let mut jacks = Jacks::new(alloc)?;
        for jack in list {
            jacks.add(*jack);
        }
        Ok(jacks)
    }

    /// Takes all events that are left of the engine, in order, and counts them.
    pub fn take_events(&mut self, engine: &mut Engine)
        requires few { self.old.taken + length engine.old.events ≤ 4294967295 }
        requires of_pins { All spec.IsOfPin engine.old.events }
        ensures counts { (events : List Event) → IsCount events self.old
            → IsCount (events ++ engine.old.events) self.new }
        ensures taken { self.new.taken ≡ self.old.taken + length engine.old.events }
        ensures events { engine.new.events ≡ [] }
        ensures rings { engine.new.rings ≡ engine.old.rings }
        ensures corb { engine.new.corb ≡ engine.old.corb }
        ensures rirb { engine.new.rirb ≡ engine.old.rirb }
    {
        while let Some(event) = engine.next_event() {
            self.note(event);
        }
    }

    /// Counts an event, if it is one of the first 4,294,967,295: later ones are not counted. This project's own.
    pub fn note(&mut self, event: Event)
        requires { spec.IsOfPin event }
        ensures counts { self.old.taken < 4294967295
            → (events : List Event) → IsCount events self.old → IsCount (events ++ event ∷ []) self.new }
        ensures taken { self.new.taken ≡ min (self.old.taken + 1) 4294967295 }
        ensures full { self.old.taken ≡ 4294967295 → self.new ≡ self.old }
    {
        if self.taken < u32::MAX {
            self.times[usize::from(event.codec)][usize::from(event.tag)] += 1;
            self.taken += 1;
        }
    }

    /// Counts all events of a jack, as far as there are still some of the first 4,294,967,295. What no event can name is
    /// not counted.
    fn add(&mut self, jack: Jack)
        ensures taken { spec.CanAdd self.old.taken jack → self.new.taken ≡ self.old.taken + jack.times }
        ensures counters { spec.CanAdd self.old.taken jack → (codec tag : ℕ) → counter_of self.new.times codec tag
            ≡ counter_of self.old.times codec tag + spec.times_at codec tag jack }
    {
        let codec = usize::from(jack.codec);
        let tag = usize::from(jack.tag);
        if codec < CODECS && tag < TAGS {
            let times = jack.times.min(u32::MAX - self.taken);
            self.times[codec][tag] += times;
            self.taken += times;
        }
    }

    /// The jacks that were told, codecs ascending and each one's tags ascending, with how often.
    pub fn into_list(self) -> Vec<Jack>
        ensures { (events : List Event) → IsCount events self → All spec.IsOfPin events
            → spec.Counts events result.items }
    {
        let Jacks {
            times,
            taken: _,
            mut listed,
        } = self;
        for (codec, row) in times.iter().enumerate() {
            list_row(&mut listed, codec as u8, row);
        }
        listed
    }
}

/// Counters that have counted nothing.
fn no_times() -> [[u32; TAGS]; CODECS]
    ensures { result ≡ replicate 16 (replicate 64 0) }
{
    [[0; TAGS]; CODECS]
}
