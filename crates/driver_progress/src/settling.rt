//! The codecs announce themselves, and the rings are set going.
ghost use Rattle.std.specs.Prelude.{◌≡◌, ◌≤◌, ◌+◌};
ghost use Rattle.driver_progress.specs.Expected.{has_settled};
ghost use Rattle.hda_world.specs.Tellings.{Between};
ghost use Rattle.command_engine.specs.declared.room.TheConstants.{START_ACCESSES};
ghost use Rattle.driver_progress.specs.declared.room.TheConstants.{SETTLE_ACCESSES};
ghost use Rattle.driver_progress.specs.Settling as spec;
ghost use Rattle.driver_progress.specs.Announcing as announcing;

use command_engine::Engine;
use hda_platform::Platform;
use hda_registers::{Width, places};

/// For how many ticks of 1/24,000,000 s the codecs may announce themselves: 25 link frames of 500 (HDA 1.0a, 4.3).
pub const SETTLING_TICKS: u32 = 12_500;

/// What was found of the codecs.
#[derive(Clone, Copy, Debug, PartialEq, Eq)]
pub enum Settled {
    /// They may still announce themselves.
    TooEarly,
    /// None did, or a size register of a ring names no size.
    NoCodec,
    /// These did: bit n for the codec with address n, 0 to 14. The rings run.
    Codecs(u16),
}

/// Whether the codecs had their time.
fn has_settled(kept: u32, clock: u32) -> bool
    ensures { result ≡ has_settled kept clock }
{
    u64::from(kept) + u64::from(SETTLING_TICKS) <= u64::from(clock)
}

/// Looks at the clock, and sets the rings going once the codecs had their time since the clock that was kept of the
/// reset.
///
/// On a platform that tells, where the codecs announce themselves as a reset left them: too early nothing has changed.
/// Else just the codecs on the link are found, where there is one, and the engine stands to the world as a start leaves
/// it. No codec takes a command meanwhile.
pub fn settle<P: Platform>(platform: &mut P, engine: &mut Engine, kept: u32) -> Settled
    requires { SETTLE_ACCESSES ≤ P.spare_accesses platform.old }
    ensures settles { spec.Settles kept engine.old.corb.address engine.old.rirb.address engine.old.rings result
        engine.new.rings (P.told platform.old) (P.told platform.new) }
    ensures tells { Between (announcing.LeadsToRings engine.old.corb.address engine.old.rirb.address engine.new.rings
        result) (P.told platform.old) (P.told platform.new) }
    ensures corb { engine.new.corb ≡ engine.old.corb }
    ensures rirb { engine.new.rirb ≡ engine.old.rirb }
    ensures events { engine.new.events ≡ engine.old.events }
    ensures fixed { P.fixed platform.new ≡ P.fixed platform.old }
    ensures accesses { P.spare_accesses platform.old ≤ P.spare_accesses platform.new + SETTLE_ACCESSES }
    ensures bytes { P.spare_bytes platform.new ≡ P.spare_bytes platform.old }
{
    let clock = platform.read(places::WALCLK, Width::Four);
    start_if(platform, engine, has_settled(kept, clock))
}

/// Sets the rings going, once the codecs had their time.
fn start_if<P: Platform>(platform: &mut P, engine: &mut Engine, settled: bool) -> Settled
    requires { START_ACCESSES ≤ P.spare_accesses platform.old }
    ensures starts { spec.StartsIf settled engine.old.corb.address engine.old.rirb.address engine.old.rings result
        engine.new.rings (P.told platform.old) (P.told platform.new) }
    ensures tells { Between (announcing.StartLeads engine.old.corb.address engine.old.rirb.address engine.new.rings
        result) (P.told platform.old) (P.told platform.new) }
    ensures corb { engine.new.corb ≡ engine.old.corb }
    ensures rirb { engine.new.rirb ≡ engine.old.rirb }
    ensures events { engine.new.events ≡ engine.old.events }
    ensures fixed { P.fixed platform.new ≡ P.fixed platform.old }
    ensures accesses { P.spare_accesses platform.old ≤ P.spare_accesses platform.new + START_ACCESSES }
    ensures bytes { P.spare_bytes platform.new ≡ P.spare_bytes platform.old }
{
    if settled {
        let codecs = engine.start(platform);
        found(codecs)
    } else {
        Settled::TooEarly
    }
}

/// What a start of the rings found.
fn found(codecs: u16) -> Settled
    ensures { result ≡ spec.codecs_found codecs }
{
    match codecs {
        0 => Settled::NoCodec,
        _ => Settled::Codecs(codecs),
    }
}
