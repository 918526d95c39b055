//! The moments of a journal at which the output stream runs: after each link frame, and after each other entry.
ghost use Rattle.std.specs.Prelude.{◌≡◌, fold};
ghost use Rattle.run_picture.specs.Moments as spec;
ghost use Rattle.run_picture.specs.declared.meter.Meter.{Meter};

use crate::meter::Meter;
use hda_world::Entry;
use stream_format::Format;
use world_steps::Step;

/// What notes moments.
pub(crate) trait Notes {
    /// After it noted a moment.
    ghost noted: { Self → Meter → Self };

    /// Notes a moment.
    fn note(&mut self, moment: &Meter)
        ensures { self.new ≡ noted self.old moment.now };
}

/// Lets so many link frames of the running stream pass.
fn pass_frames<N: Notes>(notes: &mut N, meter: &mut Meter, format: Format, frames: u32)
    ensures meter { meter.new ≡ spec.frames_passed format frames meter.old }
    ensures notes { notes.new ≡ fold N.noted notes.old (spec.frame_moments format frames meter.old) }
{
    for _frame in 0..frames {
        *meter = (*meter).passed(format);
        notes.note(meter);
    }
}

/// Lets so many link frames pass.
fn pass_link<N: Notes>(notes: &mut N, meter: &mut Meter, format: Format, frames: u32)
    ensures meter { meter.new ≡ spec.linked format frames meter.old }
    ensures notes { notes.new ≡ fold N.noted notes.old (spec.link_moments format frames meter.old) }
{
    if meter.running {
        pass_frames(notes, meter, format, frames);
    } else {
        *meter = (*meter).waited(frames);
    }
}

/// Notes where the stream stands, if it runs.
fn note_running<N: Notes>(notes: &mut N, meter: &Meter)
    ensures { notes.new ≡ fold N.noted notes.old (spec.moment_of meter.now) }
{
    if meter.running {
        notes.note(meter);
    }
}

/// Goes on over an entry of a journal.
fn pass_entry<N: Notes>(notes: &mut N, meter: &mut Meter, format: Format, fifo: u16, entry: &Entry)
    ensures meter { meter.new ≡ spec.after_entry format fifo entry.now meter.old }
    ensures notes { notes.new ≡ fold N.noted notes.old (spec.entry_moments format fifo entry.now meter.old) }
{
    match entry {
        Entry::Step(Step::Link(frames)) => pass_link(notes, meter, format, *frames),
        _ => {
            *meter = (*meter).told(fifo, entry);
            note_running(notes, meter);
        }
    }
}

/// What notes nothing.
#[derive(Drop)]
struct Unnoted;

impl Notes for Unnoted {
    ghost noted = { λ unnoted moment. unnoted };

    fn note(&mut self, _moment: &Meter) {}
}

/// Where the output stream stands after one entry more of a journal, of a stream of this format with a FIFO of so many
/// bytes.
pub fn meter_after(meter: Meter, format: Format, fifo: u16, entry: &Entry) -> Meter
    ensures { result ≡ spec.after_entry format fifo entry.now meter }
{
    let mut now = meter;
    pass_entry(&mut Unnoted, &mut now, format, fifo, entry);
    now
}

/// Notes the moments of a journal, of a stream of this format with a FIFO of so many bytes, and gives where the stream
/// stands at its end.
pub(crate) fn note_moments<N: Notes>(
    notes: &mut N,
    format: Format,
    fifo: u16,
    entries: &[Entry],
) -> Meter
    ensures notes { notes.new ≡ fold N.noted notes.old (spec.moments format fifo entries.now) }
    ensures meter { result ≡ spec.meter_after format fifo entries.now }
{
    let mut meter = Meter::opened();
    for entry in entries {
        pass_entry(notes, &mut meter, format, fifo, entry);
    }
    meter
}
