//! Playing the sound that is made of a number.
ghost use Rattle.std.specs.Prelude.{◌≡◌, ◌≤◌, ◌+◌, ◌*◌, IfOk};
ghost use Rattle.stream_format.specs.Layouts.{layout};
ghost use Rattle.wav_reader.specs.Heads.{frame_length};
ghost use Rattle.hda_files.specs.Machines.{IsSound};
ghost use Rattle.laws_start.specs.Tasks.{HavePlans};
ghost use Rattle.made_inputs.specs.MadeMachine as made;
ghost use Rattle.made_inputs.specs.MadeSound.{made_format};
ghost use Rattle.program_runs.specs.MadeRuns as spec;
ghost use Rattle.program_runs.specs.Shelves as shelves;

use crate::playing::play;
use hda_files::Machine;
use hda_outside::SureShelf;
use made_inputs::{made_codec_is_well_formed, made_schedule, made_wav};
use period_writer::Geometry;
use route_planner::{PinKind, Plan};
use sound_report::Played;
use std::alloc::{AllocError, Global};
use wav_reader::{WavHead, WavOpen, open_wav, written_sound_is_read};

/// The name under which the sound stands on its shelf.
const SOUND_NAME: &str = "made.wav";

/// How many periods the ring has.
const PERIODS: u8 = 4;

/// How many units of 384 bytes each of them has.
const PERIOD: u8 = 8;

/// A shelf in memory with the sound that is made of a number.
fn made_shelf(alloc: Global, number: u16) -> Result<SureShelf, AllocError>
    ensures { IfOk result (λ shelf. shelf ≡ shelves.made_shelf number) }
{
    let file = made_wav(alloc, number)?;
    let name = String::from_str(alloc, SOUND_NAME)?;
    let mut files = Vec::new(alloc);
    files.push((name, file))?;
    Ok(SureShelf::new(files))
}

/// What the file of the sound says before it.
fn open_made(alloc: Global, shelf: &mut SureShelf, number: u16) -> Result<WavHead, AllocError>
    requires { shelf.old.files ≡ shelves.made_files number }
    ensures head { IfOk result (shelves.IsMadeHead number) }
    ensures short { IfOk result (λ head. head.length ≤ 67108864) }
    ensures within { IfOk result (λ head. head.from + head.frames * frame_length head.mono
        (layout head.format) ≤ head.length) }
    ensures kept { shelf.new.files ≡ shelf.old.files }
{
    written_sound_is_read();
    match open_wav(alloc, shelf, SOUND_NAME) {
        Ok(head) => Ok(head),
        Err(WavOpen::OutOfMemory) => Err(AllocError),
        Err(WavOpen::Failed) => unreachable!(),
        Err(WavOpen::TooLong) => unreachable!(),
        Err(WavOpen::Wav(_)) => unreachable!(),
    }
}

/// Plays the sound that is made of a number through the machine that [`made_machine`](made_inputs::made_machine) makes,
/// with these plans of its codecs, by the schedule that is made of the number, and a ring of four periods of eight
/// units. The sound is read of a shelf in memory.
///
/// # Errors
/// Want of memory.
pub fn play_made(
    alloc: Global,
    number: u16,
    machine: Machine,
    plans: Vec<Plan>,
) -> Result<Played, AllocError>
    requires machine { machine ≡ made.made_machine }
    requires sound { IsSound machine }
    requires plans { HavePlans made_format machine.codecs plans.items }
    ensures { IfOk result (spec.IsMadeRun number) }
{
    made_codec_is_well_formed();
    written_sound_is_read();
    let schedule = made_schedule(alloc, number)?;
    let mut shelf = made_shelf(alloc, number)?;
    let head = open_made(alloc, &mut shelf, number)?;
    let Ok(geometry) = Geometry::new(PERIODS, PERIOD, machine.fifo, head.format) else {
        unreachable!();
    };
    play(
        alloc,
        &mut shelf,
        PinKind::Analog,
        machine,
        plans,
        head,
        SOUND_NAME,
        geometry,
        &schedule,
    )
}
