//! The room in heard lists and in the list of marks that a step asks.
ghost use Rattle.std.specs.Prelude.{◌≡◌};
ghost use Rattle.hda_controller.specs.Hearing as spec;

use world_steps::Step;

/// For how many items in each heard list a step asks room, and for how many marks of blocks that come: a link frame has
/// at most four blocks each way, and one that misses those of the output stream adds one hole. This project's own.
pub fn most_items(step: &Step) -> u64
    ensures { result ≡ spec.most_items step.now }
{
    match *step {
        Step::Link(frames) => 4 * u64::from(frames),
        Step::Corb
        | Step::Answer(_)
        | Step::Lose(_)
        | Step::Rirb
        | Step::Fetch(_, _)
        | Step::Plug(_, _)
        | Step::Unplug(_, _) => 0,
    }
}

/// For how many marks of pins a step asks room: one where CORB's engine may hand a command on. This project's own.
pub fn most_marks(step: &Step) -> u64
    ensures { result ≡ spec.most_marks step.now }
{
    match *step {
        Step::Corb => 1,
        Step::Answer(_)
        | Step::Lose(_)
        | Step::Rirb
        | Step::Fetch(_, _)
        | Step::Link(_)
        | Step::Plug(_, _)
        | Step::Unplug(_, _) => 0,
    }
}
