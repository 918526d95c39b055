//! The bring-up.
ghost use Rattle.std.specs.Prelude.{◌≡◌, ◌≤◌, ◌*◌, [], true, false, None};
ghost use Rattle.command_engine.specs.Blocks.{most_events};
ghost use Rattle.driver_progress.specs.Phases.{is_asking, is_ready, goes_on, is_early};
ghost use Rattle.driver_bring_up.specs.Standing.{phase_of};

mod calling;
mod opening;
mod running;

use crate::jacks::Jacks;
use command_engine::Engine;
use driver_agenda::Agenda;
use driver_progress::Phase;
pub use opening::BroughtUp;
use std::alloc::Global;
use stream_format::Format;

/// How far the bring-up of the codecs has come: both rings, which command comes next, and what codecs told unasked.
/// This project's own.
pub struct BringUp {
    alloc: Global,
    format: Format,
    engine: Engine,
    agenda: Agenda,
    jacks: Jacks,
    phase: Phase,
    /// The clock of the reset, in ticks of 1/24,000,000 s.
    kept: u32,
    /// How many commands were submitted.
    sent: u32,
    /// How many of its calls looked for an answer.
    looks: u32,
    pub ghost formats: { agenda.format ≡ format },
    pub ghost led: { goes_on phase ≡ true → phase ≡ phase_of agenda },
    pub ghost started: { is_asking phase ≡ true → engine.rings.started ≡ true },
    pub ghost runs: { is_ready phase ≡ true → engine.rings.started ≡ true },
    pub ghost idle: { is_ready phase ≡ true → engine.rings.outstanding ≡ None },
    pub ghost quiet: { engine.events ≡ [] },
    pub ghost early: { is_early phase ≡ true },
    pub ghost sent_within: { sent ≤ looks },
    pub ghost few_looks: { looks ≤ 1000001 },
    pub ghost few_jacks: { jacks.taken ≤ most_events * looks },
}
