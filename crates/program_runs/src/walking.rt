//! A walk: the reset, the walk over all codecs and their set-up, by a schedule.
ghost use Rattle.std.specs.Prelude.{◌≡◌, ◌≤◌, ◌+◌, true, false, IfOk};
ghost use Rattle.driver_agenda.specs.Planned.{have_route};
ghost use Rattle.hda_files.specs.Machines.{IsSound};
ghost use Rattle.schedule_reader.specs.Schedules.{IsLimited};
ghost use Rattle.laws_start.specs.Reading.{IsWhole};
ghost use Rattle.laws_start.specs.Tasks.{HavePlans};
ghost use Rattle.program_runs.specs.Ends.{walk_can_end};
ghost use Rattle.program_runs.specs.Feeding.{IsSilent};
ghost use Rattle.program_runs.specs.Openings.{IsFresh};
ghost use Rattle.program_runs.specs.Walks as spec;

use crate::commands::command_count;
use crate::driving::drive;
use crate::lines::line_count;
use crate::opening::open_driver;
use audio_driver::{Driver, ROOM_BYTES};
use driver_progress::Phase;
use hda_files::Machine;
use hda_items::Items;
use hda_outside::SureShelf;
use heard_lists::HeardPins;
use laws_driver::drivers_keep_to_progress;
use laws_start::{machines_have_tasks, machines_rest, opened_drivers_can_begin};
use period_writer::Geometry;
use rig::Rig;
use route_planner::{PinKind, Plan};
use route_setup::Analog;
use schedule_reader::Schedule;
use sound_report::{PlayFault, Played};
use std::alloc::{AllocError, Global};
use stream_format::{Bits, Format, Rate};
use wav_reader::{Supply, Wav};

/// How many periods the ring of a driver has that plays nothing.
const PERIODS: u8 = 4;

/// The units of each of them.
const PERIOD: u8 = 8;

/// The bytes of that ring.
const RING_BYTES: u32 = 12_288;

/// The format for which a walk sets codecs up: 48 kHz, 16 bits, 2 channels.
pub fn walk_format() -> Format
    ensures { result ≡ spec.walk_format }
{
    Format {
        rate: Rate::R48,
        bits: Bits::B16,
        channels: 2,
    }
}

/// A supply without sound.
fn no_sound(alloc: Global) -> Supply
    ensures { IsSilent result }
{
    Supply::whole(Wav {
        format: walk_format(),
        mono: false,
        frames: 0,
        pcm: Items::new(alloc),
    })
}

/// A driver that plays nothing, for so many calls, whose blocks lie in a region of its own.
///
/// # Errors
/// Want of memory.
fn silent_driver(alloc: Global, fifo: u16, calls: u32) -> Result<Driver<Analog>, AllocError>
    requires some { 8 ≤ fifo }
    requires small { fifo ≤ 4096 }
    requires few { calls ≤ 1000000 }
    ensures fresh { IfOk result (λ driver. IsFresh fifo calls driver.bring_up driver.writer) }
    ensures play { IfOk result (λ driver. driver.play ≡ false) }
    ensures calls { IfOk result (λ driver. driver.calls ≡ 0) }
    ensures runs { IfOk result (λ driver. driver.runs ≡ calls) }
    ensures supply { IfOk result (λ driver. IsSilent driver.supply) }
{
    let Ok(geometry) = Geometry::new(PERIODS, PERIOD, fifo, walk_format()) else {
        unreachable!();
    };
    let driver = open_driver(alloc, Analog, geometry, no_sound(alloc), calls, false)?;
    Ok(driver)
}

/// Why a walk ended before it was done, where the driver came so far and sent so many of so many commands.
pub(crate) fn walk_fault(phase: Phase, sent: u32, of: u32) -> Option<PlayFault>
    requires { walk_can_end phase ≡ true }
    ensures { result ≡ spec.walk_fault phase sent of }
{
    match phase {
        Phase::Ready => None,
        Phase::Unanswered {
            codec,
            command,
            issued,
            noticed,
        } => Some(PlayFault::Unanswered {
            codec,
            command,
            issued,
            noticed,
        }),
        Phase::Reset | Phase::Settling | Phase::Walking | Phase::SettingUp => {
            Some(PlayFault::CommandsLeft { sent, of })
        }
        Phase::Playing
        | Phase::Drained
        | Phase::NothingRouted
        | Phase::Late { .. }
        | Phase::Malformed { .. }
        | Phase::Failed => unreachable!(),
    }
}

/// Runs a driver over a machine by a whole schedule: it resets the controller, walks over all codecs, plans their routes
/// and sends the verbs that open them for the first stream, in the format of [`walk_format`]. Nothing is played. The
/// machine has well-formed graphs, as each has that a codec file describes, and these plans of its codecs, of which
/// some has a route.
///
/// # Errors
/// Want of memory.
pub fn walk(
    alloc: Global,
    machine: Machine,
    plans: Vec<Plan>,
    schedule: &Schedule,
) -> Result<Played, AllocError>
    requires sound { IsSound machine }
    requires whole { IsWhole machine }
    requires plans { HavePlans spec.walk_format machine.codecs plans.items }
    requires routed { have_route plans.items ≡ true }
    requires limits { IsLimited schedule.now }
    ensures { IfOk result (λ played. spec.IsWalked machine plans.items schedule.now played) }
{
    machines_have_tasks::<Analog>();
    machines_rest();
    opened_drivers_can_begin::<Analog>();
    drivers_keep_to_progress::<Analog>();
    let commands = command_count(
        alloc,
        PinKind::Analog,
        machine.codecs.as_slice(),
        plans.as_slice(),
        walk_format(),
    )?;
    let fifo = machine.fifo;
    let mut rig = Rig::new(alloc, machine)?;
    let driver = silent_driver(alloc, fifo, line_count(schedule))?;
    let mut no_files = SureShelf::new(Vec::new(alloc));
    let mut cut = None;
    let driven = drive(
        alloc,
        &mut no_files,
        &mut cut,
        &mut rig,
        driver,
        schedule,
        RING_BYTES + ROOM_BYTES,
    )?;
    let closed = driven.closed;
    let (machine, _, journal) = rig.parts();
    Ok(Played {
        machine,
        format: walk_format(),
        total: 0,
        read: 0,
        commands,
        plans: Items::from_vec(plans),
        graphs: Items::from_vec(closed.graphs),
        runs: Items::from_vec(closed.runs),
        silences: Items::from_vec(closed.silences),
        heard: HeardPins::none(alloc),
        jacks: Items::from_vec(closed.jacks),
        journal,
        walk: true,
        fault: walk_fault(closed.phase, closed.sent, commands),
        cut: None,
    })
}
