//! Why a capture ended.
ghost use Rattle.std.specs.Prelude.{◌≡◌, ◌≤◌, ◌/◌, ◌^◌, ◌<◌, true};
ghost use Rattle.hda_capture.specs.Recorders.{bytes_read};
ghost use Rattle.program_runs.specs.Ends.{play_can_end};
ghost use Rattle.program_captures.specs.Captures as spec;

use driver_progress::Phase;
use sound_report::PlayFault;

/// Why it ended before all was recorded, where the driver came so far and sent so many of so many commands, and so many
/// of so many frames were read.
pub(crate) fn capture_fault(
    phase: Phase,
    sent: u32,
    of: u32,
    read: u64,
    total: u64,
) -> Option<PlayFault>
    requires { play_can_end phase ≡ true }
    ensures { result ≡ spec.capture_fault phase sent of read total }
{
    match phase {
        Phase::Drained => None,
        Phase::Playing => Some(PlayFault::FramesLeft {
            written: read,
            heard: read,
            of: total,
        }),
        Phase::Late { from, to, limit } => Some(PlayFault::Late { from, to, limit }),
        Phase::Unanswered {
            codec,
            command,
            issued,
            noticed,
        } => Some(PlayFault::Unanswered {
            codec,
            command,
            issued,
            noticed,
        }),
        Phase::Reset | Phase::Settling | Phase::Walking | Phase::SettingUp | Phase::Ready => {
            Some(PlayFault::CommandsLeft { sent, of })
        }
        Phase::NothingRouted | Phase::Malformed { .. } | Phase::Failed => unreachable!(),
    }
}
