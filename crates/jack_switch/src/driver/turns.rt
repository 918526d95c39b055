//! What the calls of a driver that switches are made of.
ghost use Rattle.std.specs.Prelude.{◌≡◌, ◌≤◌, ◌<◌, ◌+◌, [], length, true, false, slice_get, ◌-◌, if◌then◌else◌, Some};
ghost use Rattle.command_engine.specs.declared.room.TheConstants.{POLL_ACCESSES, POLL_BYTES};
ghost use Rattle.command_engine.specs.declared.room.TheConstants.{SUBMIT_ACCESSES, SUBMIT_BYTES};
ghost use Rattle.period_writer.specs.declared.room.TheConstants.{MOST_RUN_ACCESSES};
ghost use Rattle.period_writer.specs.Writers.{IsWriter, KeepsRing, tally_of, ring_size};
ghost use Rattle.audio_driver.specs.States as states;
ghost use Rattle.jack_rules.specs.Switching.{KeepsPins};
ghost use Rattle.jack_switch.specs.SwitchRules as rules;
ghost use Rattle.jack_switch.specs.JackDrivers as drivers;
ghost use Rattle.jack_switch.specs.JackSteps as spec;

use crate::looking::{look, submit_next};
use command_engine::Engine;
use driver_bring_up::Jacks;
use driver_progress::Phase;
use hda_platform::Platform;
use jack_rules::Switching;
use period_writer::{Ran, Run, Writer};
use wav_reader::Supply;

/// Whether a run of a writer comes next: none was late, and the sound was not all played.
pub(super) fn is_open(writer: &Writer) -> bool
    ensures { result ≡ states.is_open writer.now.course.ran }
{
    matches!(writer.course().ran, Ran::Playing)
}

/// How far the two of a driver have come, that gave up at this clock, if it did.
pub(super) fn phase_of(engine: &Engine, writer: &Writer, given_up: Option<u32>) -> Phase
    ensures value { result ≡ drivers.phase_if writer.now.course.started given_up engine.now.rings.outstanding
        (tally_of writer.now) }
    ensures writer { IsWriter writer.now }
{
    let course = writer.course();
    if !course.started {
        return Phase::Ready;
    }
    match given_up {
        Some(noticed) => unanswered(engine, noticed),
        None => played_as(course.ran),
    }
}

/// The phase of a driver that gave up its outstanding command at this clock.
fn unanswered(engine: &Engine, noticed: u32) -> Phase
    ensures { result ≡ drivers.unanswered_as engine.now.rings.outstanding noticed }
{
    match engine.outstanding() {
        Some(command) => Phase::Unanswered {
            codec: command.codec,
            command: command.word,
            issued: command.issued,
            noticed,
        },
        None => Phase::Ready,
    }
}

/// The phase by how the last run ended.
fn played_as(ran: Ran) -> Phase
    ensures { result ≡ states.played_as ran }
{
    match ran {
        Ran::Playing => Phase::Playing,
        Ran::Drained => Phase::Drained,
        Ran::Late { from, to, limit } => Phase::Late { from, to, limit },
    }
}

/// The clock that the last of some runs read last, 0 where there is none.
fn last_run_clock(runs: &[Run]) -> u32
    ensures { result ≡ rules.last_run_clock (slice_get runs.now (length runs.now - 1)) }
{
    match runs.last() {
        Some(run) => run.to,
        None => 0,
    }
}

/// The clock that the last run of a writer read last.
fn last_clock(writer: &Writer) -> u32
    ensures { result ≡ rules.clock_of (tally_of writer.now) }
{
    match writer.course().ran {
        Ran::Playing | Ran::Drained => last_run_clock(writer.runs()),
        Ran::Late { to, .. } => to,
    }
}

/// What comes after a run: the next command at the clock that the run read last, where the stream plays on and none is
/// outstanding. It gives that clock.
pub(super) fn submit_after<P: Platform>(
    platform: &mut P,
    engine: &mut Engine,
    switching: &mut Switching,
    writer: &Writer,
) -> u32
    requires quiet { engine.old.events ≡ [] }
    requires started { engine.old.rings.started ≡ true }
    requires room { SUBMIT_ACCESSES ≤ P.spare_accesses platform.old }
    requires bytes_room { SUBMIT_BYTES ≤ P.spare_bytes platform.old }
    ensures submits { spec.SubmitsNow engine.old engine.new
        (rules.order_by writer.now.course.ran engine.old.rings switching.old) result
        (P.told platform.old) (P.told platform.new) }
    ensures chosen { switching.new
        ≡ (rules.choice_by writer.now.course.ran engine.old.rings switching.old).next }
    ensures clock { result ≡ rules.clock_of (tally_of writer.now) }
    ensures pins { KeepsPins switching.old switching.new }
    ensures asked { drivers.IsAskedBy engine.old.rings.outstanding switching.old.asking
        → drivers.IsAskedBy engine.new.rings.outstanding switching.new.asking }
    ensures quiet { engine.new.events ≡ [] }
    ensures started { engine.new.rings.started ≡ engine.old.rings.started }
    ensures corb { engine.new.corb ≡ engine.old.corb }
    ensures rirb { engine.new.rirb ≡ engine.old.rirb }
    ensures fixed { P.fixed platform.new ≡ P.fixed platform.old }
    ensures accesses { P.spare_accesses platform.old ≤ P.spare_accesses platform.new + SUBMIT_ACCESSES }
    ensures bytes { P.spare_bytes platform.old ≤ P.spare_bytes platform.new + SUBMIT_BYTES }
{
    let clock = last_clock(writer);
    let may = is_open(writer) && engine.outstanding().is_none();
    submit_next(platform, engine, switching, may, clock);
    clock
}

/// Where the driver did not give up and the stream plays, a look at the clock that the run before read last, and then
/// the last run; or the stop, where the outstanding command was not answered in its time. Whether it gives up.
pub(super) fn end_sound<P: Platform>(
    platform: &mut P,
    engine: &mut Engine,
    jacks: &mut Jacks,
    switching: &mut Switching,
    writer: &mut Writer,
    supply: &mut Supply,
    on: bool,
    clock: u32,
) -> bool
    requires quiet { engine.old.events ≡ [] }
    requires on { on ≡ true → states.is_open writer.old.course.ran ≡ true }
    requires free { length writer.old.runs < writer.old.records }
    requires room { POLL_ACCESSES + MOST_RUN_ACCESSES ≤ P.spare_accesses platform.old }
    requires bytes_room { ring_size writer.old + POLL_BYTES ≤ P.spare_bytes platform.old }
    ensures ends { spec.EndsNow on clock engine.old engine.new writer.old writer.new supply.old
        switching.old switching.new jacks.old jacks.new result (P.told platform.old) (P.told platform.new) }
    ensures corb { engine.new.corb ≡ engine.old.corb }
    ensures rirb { engine.new.rirb ≡ engine.old.rirb }
    ensures keeps { KeepsRing writer.old writer.new }
    ensures fixed { P.fixed platform.new ≡ P.fixed platform.old }
    ensures accesses { P.spare_accesses platform.old
        ≤ P.spare_accesses platform.new + (POLL_ACCESSES + MOST_RUN_ACCESSES) }
    ensures bytes { P.spare_bytes platform.old ≤ P.spare_bytes platform.new + (ring_size writer.old + POLL_BYTES) }
{
    if !on || !writer.course().started {
        return false;
    }
    let overdue = look(platform, engine, jacks, switching, clock);
    if overdue {
        writer.stop(platform);
    } else {
        let _ran = writer.finish(platform, supply);
    }
    overdue
}

/// The clock at which a driver gave up, once it gave up at this clock or did not.
pub(super) fn given_after(gave: bool, clock: u32, given_up: Option<u32>) -> Option<u32>
    ensures { result ≡ (if gave then Some clock else given_up) }
{
    if gave { Some(clock) } else { given_up }
}
