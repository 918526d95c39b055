//! Capturing: the reset, the walk over all codecs, the set-up of an input, and then the record, by a schedule.
ghost use Rattle.std.specs.Prelude.{◌≡◌, ◌≤◌, ◌*◌, length, true, IfOk};
ghost use Rattle.stream_format.specs.Cadence.{block_bytes};
ghost use Rattle.wav_writer.specs.declared.file.TheConstants.{MOST_RING_BYTES};
ghost use Rattle.hda_files.specs.Machines.{IsSound};
ghost use Rattle.schedule_reader.specs.Schedules.{IsLimited};
ghost use Rattle.laws_start.specs.Reading.{IsWhole};
ghost use Rattle.program_captures.specs.Inputs.{IsInputOf};
ghost use Rattle.wav_reader.specs.Laws.{CanBeWritten};
ghost use Rattle.program_runs.specs.Ends.{play_can_end};
ghost use Rattle.program_captures.specs.Captures.{IsCaptured};
ghost use Rattle.program_captures.specs.Kept.{IsKept};

use crate::closing::{Driven, drive};
use crate::commands::capture_count;
use crate::faults::capture_fault;
use crate::opening::open_driver;
use crate::terms::CaptureTerms;
use analog_in::Input;
use capture_report::Captured;
use hda_capture::whole_records_can_be_written;
use hda_files::Machine;
use hda_items::Items;
use hda_world::the_given_sound_stays;
use laws_capture::{drivers_that_capture_keep_to_progress, open_inputs_are_heard};
use laws_start::{machines_have_tasks, machines_rest, opened_drivers_can_begin};
use period_writer::Geometry;
use program_runs::line_count;
use rig::Rig;
use route_planner::Plan;
use schedule_reader::Schedule;
use std::alloc::{AllocError, Global};
use wav_reader::Wav;
use wav_writer::wav_file;

/// What is kept of a capture, of which so much is left, with a file of the bytes that were recorded.
///
/// # Errors
/// Want of memory.
fn kept(
    alloc: Global,
    rig: Rig,
    plans: Vec<Plan>,
    driven: Driven,
    commands: u32,
    terms: CaptureTerms,
) -> Result<Captured, AllocError>
    requires can_end { play_can_end driven.phase ≡ true }
    requires can { CanBeWritten terms.geometry.format driven.bytes.items }
    ensures { IfOk result (IsKept terms rig plans.items driven commands) }
{
    let format = terms.geometry.format();
    let taken = Items::from_slice(alloc, rig.taken())?;
    let (machine, _, journal) = rig.parts();
    let read = driven.bytes.len() as u64 / u64::from(format.block_bytes());
    let fault = capture_fault(driven.phase, driven.sent, commands, read, terms.frames);
    let file = wav_file(alloc, format, driven.bytes.as_slice())?;
    Ok(Captured {
        machine,
        format,
        total: terms.frames,
        commands,
        plans: Items::from_vec(plans),
        graphs: Items::from_vec(driven.graphs),
        runs: Items::from_vec(driven.runs),
        taken,
        file: Items::from_vec(file),
        journal,
        fault,
    })
}

/// Runs a driver over a machine by a whole schedule: it resets the controller, walks over all codecs, sends the verbs
/// that open the input of the codec at an address, and from the next line on records what the input stream takes
/// through a ring of this geometry, until all of a sound was recorded or a run was late. The sound is given to every
/// input pin. The machine has well-formed graphs, as each has that a codec file describes, and these plans of its
/// codecs for the input of that codec and the format of the sound.
///
/// # Errors
/// Want of memory.
pub fn capture(
    alloc: Global,
    address: u8,
    machine: Machine,
    plans: Vec<Plan>,
    wav: Wav,
    geometry: Geometry,
    schedule: &Schedule,
) -> Result<Captured, AllocError>
    requires sound { IsSound machine }
    requires whole { IsWhole machine }
    requires input { IsInputOf wav.format machine.codecs address plans.items }
    requires pcm { length wav.pcm ≡ wav.frames * block_bytes wav.format }
    requires short { length wav.pcm ≤ MOST_RING_BYTES }
    requires format { geometry.format ≡ wav.format }
    requires fifo { geometry.fifo ≡ machine.fifo }
    requires limits { IsLimited schedule.now }
    ensures { IfOk result (IsCaptured address machine plans.items wav geometry schedule.now) }
{
    machines_have_tasks::<Input>();
    machines_rest();
    opened_drivers_can_begin::<Input>();
    drivers_that_capture_keep_to_progress::<Input>();
    open_inputs_are_heard();
    the_given_sound_stays();
    whole_records_can_be_written();
    let input = Input { codec: address };
    let commands = capture_count(
        alloc,
        input,
        machine.codecs.as_slice(),
        plans.as_slice(),
        wav.format,
    )?;
    let terms = CaptureTerms {
        input,
        geometry,
        runs: line_count(schedule),
        frames: wav.frames,
    };
    let mut rig = Rig::new(alloc, machine)?;
    rig.give(wav.pcm.into_vec());
    let driver = open_driver(alloc, terms)?;
    let driven = drive(alloc, &mut rig, driver, schedule, terms)?;
    kept(alloc, rig, plans, driven, commands, terms)
}
