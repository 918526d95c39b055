//! How a driver plays.
ghost use Rattle.std.specs.Prelude.{◌≡◌, ◌≤◌, ◌<◌, ◌+◌, length, true, false};
ghost use Rattle.wav_reader.specs.Supplies.{IsTaken};
ghost use Rattle.period_writer.specs.Accounts.{Accounts};
ghost use Rattle.period_writer.specs.Runs.{tally_opened};
ghost use Rattle.period_writer.specs.Writers.{KeepsRing, measures_of, tally_of, ring_size};
ghost use Rattle.driver_progress.specs.Phases.{is_ready};
ghost use Rattle.driver_bring_up.specs.Calls.{IsKept};
ghost use Rattle.audio_driver.specs.declared.room.TheConstants.{CALL_BYTES, PLAY_ACCESSES, PLAY_INTERRUPT_ACCESSES};
ghost use Rattle.audio_driver.specs.States as states;
ghost use Rattle.audio_driver.specs.Calls.{SufficesIfOpen, SoundsAny};

use driver_bring_up::BringUp;
use driver_progress::{Phase, has_interrupt};
use hda_platform::Platform;
use period_writer::{Ran, Writer};
use wav_reader::Supply;

/// How far the two of a driver have come.
pub(super) fn phase_of(bring_up: &BringUp, writer: &Writer) -> Phase
    ensures { result ≡ states.phase_of bring_up.now writer.now }
{
    let course = writer.course();
    if !course.started {
        return bring_up.phase();
    }
    match course.ran {
        Ran::Playing => Phase::Playing,
        Ran::Drained => Phase::Drained,
        Ran::Late { from, to, limit } => Phase::Late { from, to, limit },
    }
}

/// Whether calls play, where the bring-up has come so far.
pub(super) fn plays_now(play: bool, bring_up: &BringUp) -> bool
    ensures { result ≡ states.plays_now play bring_up.now }
{
    play && bring_up.phase().is_ready()
}

/// Whether a run of a writer comes next: none was late, and the sound was not all played.
pub(super) fn is_open(writer: &Writer) -> bool
    ensures { result ≡ states.is_open writer.now.course.ran }
{
    matches!(writer.course().ran, Ran::Playing)
}

/// A run of the writer, the first where it was not started. Before each later one it reads what codecs told unasked.
/// Nothing where a run was late, or all sound was played.
pub(super) fn play_on<P: Platform>(
    platform: &mut P,
    bring_up: &mut BringUp,
    writer: &mut Writer,
    supply: &mut Supply,
    budget: u32,
)
    requires ready { is_ready bring_up.old.phase ≡ true }
    requires enough { SufficesIfOpen budget writer.old supply.old }
    requires fresh { writer.old.course.started ≡ false → tally_of writer.old ≡ tally_opened }
    requires few { bring_up.old.looks ≤ 1000000 }
    requires free { length writer.old.runs < writer.old.records }
    requires room { PLAY_ACCESSES ≤ P.spare_accesses platform.old }
    requires bytes_room { ring_size writer.old + CALL_BYTES ≤ P.spare_bytes platform.old }
    ensures sounds { SoundsAny false budget bring_up.old bring_up.new writer.old writer.new
        supply.old supply.new (P.told platform.old) (P.told platform.new) }
    ensures taken { IsTaken supply.old supply.new }
    ensures accounts { Accounts (measures_of writer.old) supply.old supply.new
        writer.old.course writer.new.course }
    ensures keeps { KeepsRing writer.old writer.new }
    ensures kept { IsKept bring_up.old bring_up.new }
    ensures phase { bring_up.new.phase ≡ bring_up.old.phase }
    ensures recorded { length writer.new.runs ≤ length writer.old.runs + 1 }
    ensures fresh { writer.new.course.started ≡ false → tally_of writer.new ≡ tally_opened }
    ensures fixed { P.fixed platform.new ≡ P.fixed platform.old }
    ensures accesses { P.spare_accesses platform.old ≤ P.spare_accesses platform.new + PLAY_ACCESSES }
    ensures bytes { P.spare_bytes platform.old ≤ P.spare_bytes platform.new + (ring_size writer.old + CALL_BYTES) }
{
    if !writer.course().started {
        writer.start(platform, supply, budget);
        return;
    }
    if is_open(writer) {
        bring_up.listen(platform);
        let _ran = writer.run(platform, supply, budget);
    }
}

/// Where there is an interrupt, a run of the writer as [`play_on`] makes it. Where no run comes next, interrupts are
/// not looked for.
pub(super) fn play_if_interrupted<P: Platform>(
    platform: &mut P,
    bring_up: &mut BringUp,
    writer: &mut Writer,
    supply: &mut Supply,
    budget: u32,
)
    requires ready { is_ready bring_up.old.phase ≡ true }
    requires enough { SufficesIfOpen budget writer.old supply.old }
    requires fresh { writer.old.course.started ≡ false → tally_of writer.old ≡ tally_opened }
    requires few { bring_up.old.looks ≤ 1000000 }
    requires free { length writer.old.runs < writer.old.records }
    requires room { PLAY_INTERRUPT_ACCESSES ≤ P.spare_accesses platform.old }
    requires bytes_room { ring_size writer.old + CALL_BYTES ≤ P.spare_bytes platform.old }
    ensures sounds { SoundsAny true budget bring_up.old bring_up.new writer.old writer.new
        supply.old supply.new (P.told platform.old) (P.told platform.new) }
    ensures taken { IsTaken supply.old supply.new }
    ensures accounts { Accounts (measures_of writer.old) supply.old supply.new
        writer.old.course writer.new.course }
    ensures keeps { KeepsRing writer.old writer.new }
    ensures kept { IsKept bring_up.old bring_up.new }
    ensures phase { bring_up.new.phase ≡ bring_up.old.phase }
    ensures recorded { length writer.new.runs ≤ length writer.old.runs + 1 }
    ensures fresh { writer.new.course.started ≡ false → tally_of writer.new ≡ tally_opened }
    ensures fixed { P.fixed platform.new ≡ P.fixed platform.old }
    ensures accesses { P.spare_accesses platform.old ≤ P.spare_accesses platform.new + PLAY_INTERRUPT_ACCESSES }
    ensures bytes { P.spare_bytes platform.old ≤ P.spare_bytes platform.new + (ring_size writer.old + CALL_BYTES) }
{
    if !is_open(writer) {
        return;
    }
    if has_interrupt(platform) {
        play_on(platform, bring_up, writer, supply, budget);
    }
}
