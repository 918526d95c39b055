//! A command's answer.
ghost use Rattle.std.specs.Prelude.{◌≡◌, ◌≤◌, ◌+◌, []};
ghost use Rattle.hda_world.specs.Tellings.{Between};
ghost use Rattle.command_engine.specs.declared.room.TheConstants.{POLL_BYTES};
ghost use Rattle.command_engine.specs.Told as told;
ghost use Rattle.driver_progress.specs.declared.room.TheConstants.{ASK_ACCESSES};
ghost use Rattle.driver_progress.specs.Commands as spec;

use command_engine::{Engine, Poll};
use hda_platform::Platform;
use hda_registers::{Width, places};

/// What a look for an answer found, and when.
#[derive(Clone, Copy, Debug, PartialEq, Eq)]
pub struct Asked {
    /// The clock, in ticks of 1/24,000,000 s.
    pub clock: u32,
    /// What was found.
    pub poll: Poll,
}

/// Reads the clock, and looks for the answer to the outstanding command. No event is left from earlier looks (HDA 1.0a,
/// 4.4.2).
///
/// On a platform that tells, where the engine stood to the world as a start, a submission or a look left it: what was
/// found is that of the responses that were written since the look before, and an answer belongs to the outstanding
/// command.
pub fn ask<P: Platform>(platform: &mut P, engine: &mut Engine) -> Asked
    requires events { engine.old.events ≡ [] }
    requires room { ASK_ACCESSES ≤ P.spare_accesses platform.old }
    requires bytes_room { POLL_BYTES ≤ P.spare_bytes platform.old }
    ensures asks { spec.Asks engine.old.rirb.address engine.old.rings result engine.new.rings engine.new.events
        (P.told platform.old) (P.told platform.new) }
    ensures tells { Between (told.PollTellsOf result.clock engine.old.corb.address engine.old.rirb.address
        engine.old.rings result.poll engine.new.rings engine.new.events) (P.told platform.old)
        (P.told platform.new) }
    ensures corb { engine.new.corb ≡ engine.old.corb }
    ensures rirb { engine.new.rirb ≡ engine.old.rirb }
    ensures fixed { P.fixed platform.new ≡ P.fixed platform.old }
    ensures accesses { P.spare_accesses platform.old ≤ P.spare_accesses platform.new + ASK_ACCESSES }
    ensures bytes { P.spare_bytes platform.old ≤ P.spare_bytes platform.new + POLL_BYTES }
{
    let clock = platform.read(places::WALCLK, Width::Four);
    let poll = engine.poll(platform, clock);
    Asked { clock, poll }
}
