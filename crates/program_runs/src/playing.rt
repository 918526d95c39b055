//! Playing: the reset, the walk over all codecs, their set-up, and then the sound, by a schedule.
ghost use Rattle.std.specs.Prelude.{◌≡◌, ◌≢◌, ◌≤◌, ℕ, ◌+◌, ◌*◌, List, true, false, Some, IfOk};
ghost use Rattle.hda_outside.specs.Counts.{Rose};
ghost use Rattle.hda_outside.specs.declared.pieces.Cut.TheVariants.{OutOfMemory};
ghost use Rattle.stream_format.specs.Layouts.{layout};
ghost use Rattle.wav_reader.specs.Heads.{frame_length};
ghost use Rattle.program_runs.specs.Reading as reading;
ghost use Rattle.driver_agenda.specs.Planned.{have_route};
ghost use Rattle.hda_files.specs.Machines.{IsSound};
ghost use Rattle.schedule_reader.specs.Schedules.{IsLimited};
ghost use Rattle.laws_start.specs.Reading.{IsWhole};
ghost use Rattle.program_runs.specs.Ends.{play_can_end};
ghost use Rattle.program_runs.specs.Outputs.{HavePlansOf};
ghost use Rattle.program_runs.specs.Plays as spec;
ghost use Rattle.program_runs.specs.FrameCounts as counts;

use crate::commands::command_count;
use crate::driving::drive;
use crate::frame_counts::{frames_below, frames_written, last_at};
use crate::lines::line_count;
use crate::opening::open_driver;
use crate::walking::walk_fault;
use audio_driver::{Closed, ROOM_BYTES};
use digital_out::Outputs;
use driver_progress::Phase;
use hda_files::Machine;
use hda_items::Items;
use hda_outside::{Cut, Shelf};
use laws_driver::drivers_keep_to_progress;
use laws_start::{machines_have_tasks, machines_rest, opened_drivers_can_begin};
use period_writer::{Geometry, runs_keep_the_course, runs_write_the_line};
use rig::Rig;
use route_planner::{PinKind, Plan, one_order_of_each_kind};
use schedule_reader::Schedule;
use sound_report::{CutLine, PlayFault, Played};
use std::alloc::{AllocError, Global};
use wav_reader::{Supply, WavHead};

/// The frames that were left when the schedule ended, of so many with blocks of so many bytes.
fn frames_left(closed: &Closed, block: u32, total: u64) -> PlayFault
    requires some { 1 ≤ block }
    requires few { counts.written_by closed.now.runs.items ≤ 0xFFFFFFFFFFFFFFFF }
    ensures { result ≡ PlayFault.FramesLeft (counts.frames_written block closed.now.runs.items)
        (counts.frames_below block closed.now.silences.items (counts.last_at closed.now.runs.items)) total }
{
    let runs = closed.runs.as_slice();
    PlayFault::FramesLeft {
        written: frames_written(block, runs),
        heard: frames_below(block, closed.silences.as_slice(), last_at(runs)),
        of: total,
    }
}

/// Why it ended before all frames were played, of so many with blocks of so many bytes, where so many commands set the
/// codecs up.
fn play_fault(closed: &Closed, of: u32, block: u32, total: u64) -> Option<PlayFault>
    requires can_end { play_can_end closed.now.phase ≡ true }
    requires some { 1 ≤ block }
    requires few { counts.written_by closed.now.runs.items ≤ 0xFFFFFFFFFFFFFFFF }
    ensures { result ≡ spec.play_fault closed.now.phase closed.now.sent of block total closed.now.runs.items
        closed.now.silences.items }
{
    match closed.phase {
        Phase::Drained => None,
        Phase::Playing => Some(frames_left(closed, block, total)),
        Phase::Late { from, to, limit } => Some(PlayFault::Late { from, to, limit }),
        Phase::Ready => Some(PlayFault::CommandsLeft {
            sent: closed.sent,
            of,
        }),
        // until all codecs are set up it ends as a walk does
        early => walk_fault(early, closed.sent, of),
    }
}

/// How many frames of the sound were read, of so many with blocks of so many bytes: all of them where the reading was
/// not cut.
fn frames_read(cut: &Option<Cut>, bytes: u64, block: u32, total: u64) -> u64
    requires { 1 ≤ block }
    ensures { result ≡ reading.frames_read cut.now bytes block total }
{
    match cut {
        None => total,
        Some(_) => bytes / u64::from(block),
    }
}

/// How the reading of the sound under this name was cut, for the report.
///
/// # Errors
/// Want of memory.
fn cut_line(alloc: Global, cut: Option<Cut>, name: &str) -> Result<Option<CutLine>, AllocError>
    requires { cut ≢ Some OutOfMemory }
    ensures { IfOk result (reading.IsLineOf name.now cut) }
{
    match cut {
        None => Ok(None),
        Some(Cut::Failed) => {
            let name = String::from_str(alloc, name)?;
            Ok(Some(CutLine::Failed(name)))
        }
        Some(Cut::Short(place)) => Ok(Some(CutLine::Short(place))),
        Some(Cut::OutOfMemory) => unreachable!(),
    }
}

/// Runs a driver over a machine by a whole schedule: it resets the controller, walks over all codecs, plans routes to
/// their output pins of the kind, sends the verbs that open them, and plays the sound through a ring of this geometry,
/// until all of it was played or a run was late. The sound is that of the WAV file `name`, of which `head` says what
/// stands before it; it is read while it plays, before each call that may play as much as the ring takes. Where the
/// shelf fails or the file gets shorter meanwhile, the run goes on over the sound that was read until then. The machine
/// has well-formed graphs, as each has that a codec file describes, and these plans of its codecs for the kind of pins
/// and the format of the sound, of which some has a route.
///
/// # Errors
/// Want of memory.
pub fn play<S: Shelf>(
    alloc: Global,
    shelf: &mut S,
    kind: PinKind,
    machine: Machine,
    plans: Vec<Plan>,
    head: WavHead,
    name: &str,
    geometry: Geometry,
    schedule: &Schedule,
) -> Result<Played, AllocError>
    requires sound { IsSound machine }
    requires whole { IsWhole machine }
    requires plans { HavePlansOf kind head.format machine.codecs plans.items }
    requires routed { have_route plans.items ≡ true }
    requires short { head.length ≤ 67108864 }
    requires within { head.from + head.frames * frame_length head.mono (layout head.format) ≤ head.length }
    requires format { geometry.format ≡ head.format }
    requires fifo { geometry.fifo ≡ machine.fifo }
    requires limits { IsLimited schedule.now }
    ensures played { IfOk result (λ played. spec.IsPlayedFrom kind (S.told shelf.old) name.now head machine plans.items
        geometry schedule.now played) }
    ensures cut { IfOk result (λ played. spec.IsCutUnder name.now head played.read
        (Rose (S.faults shelf.old name.now) (S.faults shelf.new name.now))
        (Rose (S.empties shelf.old name.now) (S.empties shelf.new name.now)) played.cut) }
    ensures not_short { IfOk result (λ played. ((place : ℕ) → played.cut ≢ Some (CutLine.Short place))
        → S.empties shelf.new name.now ≡ S.empties shelf.old name.now) }
    ensures given { IfOk result (λ played. S.given shelf.new ≤ S.given shelf.old + spec.most_read geometry played) }
    ensures frames { IfOk result (λ played. S.given shelf.new ≤ S.given shelf.old + spec.most_of_frames head
        played.read) }
    ensures told { S.told shelf.new ≡ S.told shelf.old }
    ensures asked { (other : List ℕ) → other ≢ name.now → S.asked shelf.new other ≡ S.asked shelf.old other }
    ensures later { (other : List ℕ) → S.faults shelf.old other ≤ S.faults shelf.new other }
    ensures empties_later { (other : List ℕ) → S.empties shelf.old other ≤ S.empties shelf.new other }
{
    machines_have_tasks::<Outputs>();
    machines_rest();
    opened_drivers_can_begin::<Outputs>();
    drivers_keep_to_progress::<Outputs>();
    one_order_of_each_kind();
    runs_keep_the_course();
    runs_write_the_line();
    let format = head.format;
    let total = head.frames;
    let commands = command_count(
        alloc,
        kind,
        machine.codecs.as_slice(),
        plans.as_slice(),
        format,
    )?;
    let mut rig = Rig::of_kind(alloc, kind, machine)?;
    let supply = Supply::stream(alloc, head, name, geometry.ring())?;
    let setter = Outputs { kind };
    let driver = open_driver(alloc, setter, geometry, supply, line_count(schedule), true)?;
    let mut cut = None;
    let driven = drive(
        alloc,
        shelf,
        &mut cut,
        &mut rig,
        driver,
        schedule,
        geometry.ring() + ROOM_BYTES,
    )?;
    let closed = driven.closed;
    let read = frames_read(&cut, driven.read, format.block_bytes(), total);
    let (machine, heard, journal) = rig.parts();
    let fault = play_fault(&closed, commands, format.block_bytes(), total);
    let cut = cut_line(alloc, cut, name)?;
    Ok(Played {
        machine,
        format,
        total,
        read,
        commands,
        plans: Items::from_vec(plans),
        graphs: Items::from_vec(closed.graphs),
        runs: Items::from_vec(closed.runs),
        silences: Items::from_vec(closed.silences),
        heard: heard.into_lists(),
        jacks: Items::from_vec(closed.jacks),
        journal,
        walk: false,
        fault,
        cut,
    })
}
