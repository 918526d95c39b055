//! The next command.
ghost use Rattle.std.specs.Prelude.{◌≡◌, ◌≤◌, ◌+◌, true, None};
ghost use Rattle.std.specs.Option.{is_some};
ghost use Rattle.hda_world.specs.Tellings.{Between, Makes};
ghost use Rattle.command_engine.specs.declared.room.TheConstants.{SUBMIT_ACCESSES, SUBMIT_BYTES};
ghost use Rattle.command_engine.specs.Told as told;
ghost use Rattle.driver_bring_up.specs.Standing as standing;
ghost use Rattle.driver_bring_up.specs.Commanding as spec;

use command_engine::Engine;
use driver_agenda::Agenda;
use hda_platform::Platform;

/// Submits the command that comes next at this clock, where one may be submitted and is left, and tells whether it did.
///
/// On a platform that tells, where the engine stood to the world, it stands to it after the call.
pub fn submit_next<P: Platform>(
    platform: &mut P,
    engine: &mut Engine,
    agenda: &Agenda,
    is_free: bool,
    clock: u32,
) -> bool
    requires started { engine.old.rings.started ≡ true }
    requires idle { is_free ≡ true → engine.old.rings.outstanding ≡ None }
    requires room { SUBMIT_ACCESSES ≤ P.spare_accesses platform.old }
    requires bytes_room { SUBMIT_BYTES ≤ P.spare_bytes platform.old }
    ensures made { Between (Makes (spec.submit_made engine.old.corb.address engine.old.rings
        (spec.order_if is_free (standing.next_on agenda.now)))) (P.told platform.old) (P.told platform.new) }
    ensures rings { engine.new.rings ≡ spec.rings_with (spec.order_if is_free (standing.next_on agenda.now)) clock
        engine.old.rings }
    ensures tells { Between (told.LeadsOn engine.old.corb.address engine.old.rirb.address engine.old.rings
        engine.new.rings) (P.told platform.old) (P.told platform.new) }
    ensures submitted { result ≡ is_some (spec.order_if is_free (standing.next_on agenda.now)) }
    ensures corb { engine.new.corb ≡ engine.old.corb }
    ensures rirb { engine.new.rirb ≡ engine.old.rirb }
    ensures events { engine.new.events ≡ engine.old.events }
    ensures fixed { P.fixed platform.new ≡ P.fixed platform.old }
    ensures accesses { P.spare_accesses platform.old ≤ P.spare_accesses platform.new + SUBMIT_ACCESSES }
    ensures bytes { P.spare_bytes platform.old ≤ P.spare_bytes platform.new + SUBMIT_BYTES }
{
    if !is_free {
        return false;
    }
    match agenda.next() {
        Some(command) => {
            engine.submit(platform, command, clock);
            true
        }
        None => false,
    }
}
