//! What C says and is told by numbers. The same stand in c/hda.h.
ghost use Rattle.std.specs.Prelude.{◌≡◌, ◌<◌};
ghost use Rattle.hda_c.specs.Numbers as numbers;

use hda_model::{Step, StepFault, Width};

/// It was done.
pub(crate) const DONE: u8 = 0;

/// Memory was wanting; nothing changed.
pub(crate) const NO_MEMORY: u8 = 1;

/// The text is refused.
pub(crate) const REFUSED: u8 = 2;

/// There is no such width, step, codec, stream or pin; nothing changed.
pub(crate) const NO_SUCH: u8 = 3;

/// There is no device model: the place was never opened, or is closed.
pub(crate) const CLOSED: u8 = 5;

/// The steps of the device.
pub(crate) const CORB: u8 = 1;

pub(crate) const ANSWER: u8 = 2;

pub(crate) const LOSE: u8 = 3;

pub(crate) const RIRB: u8 = 4;

pub(crate) const FETCH: u8 = 5;

pub(crate) const LINK: u8 = 6;

pub(crate) const PLUG: u8 = 7;

pub(crate) const UNPLUG: u8 = 8;

/// The width of so many bytes.
pub(crate) fn width_of(bytes: u8) -> Option<Width>
    ensures { result ≡ numbers.width_of bytes }
{
    match bytes {
        1 => Some(Width::One),
        2 => Some(Width::Two),
        4 => Some(Width::Four),
        _ => None,
    }
}

/// The step of a kind, with the address of a codec or the number of a stream, a node identifier, and how many bytes or
/// link frames.
pub(crate) fn step_of(kind: u8, part: u8, node: u8, count: u32) -> Option<Step>
    ensures { result ≡ numbers.step_of kind part node count }
{
    match kind {
        CORB => Some(Step::Corb),
        ANSWER => Some(Step::Answer(part)),
        LOSE => Some(Step::Lose(part)),
        RIRB => Some(Step::Rirb),
        FETCH => fetch_of(part, count),
        LINK => Some(Step::Link(count)),
        PLUG => Some(Step::Plug(part, node)),
        UNPLUG => Some(Step::Unplug(part, node)),
        _ => None,
    }
}

/// A fetch of so many bytes, at most 65,535.
fn fetch_of(stream: u8, count: u32) -> Option<Step>
    ensures { result ≡ numbers.fetch_of stream count }
{
    if count <= 65535 {
        Some(Step::Fetch(stream, count as u16))
    } else {
        None
    }
}

/// The status of a step.
pub(crate) fn status_of(made: Result<(), StepFault>) -> u8
    ensures { result ≡ numbers.status_of made }
{
    match made {
        Ok(()) => DONE,
        Err(StepFault::OutOfMemory) => NO_MEMORY,
        Err(StepFault::NoCodec) => NO_SUCH,
        Err(StepFault::NoStream) => NO_SUCH,
    }
}
