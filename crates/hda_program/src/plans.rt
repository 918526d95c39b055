//! The plans of a machine's codecs, and what is said of them.
ghost use Rattle.std.specs.Prelude.{◌≡◌, IfOk};
ghost use Rattle.hda_program.specs.Meanings.{message_meant, telling, unrouted};
ghost use Rattle.program_runs.specs.Outputs.{HavePlansOf};
ghost use Rattle.driver_agenda.specs.Planned.{have_route};
ghost use Rattle.sound_report.specs.PlanLines.{plans_lines};

use crate::message::Message;
use hda_files::CodecFile;
use route_planner::{Format, PinKind, Plan, plan_as};
use sound_report::{Status, push_plans};
use std::alloc::{AllocError, Global};

/// The plan of the pins of the kind of each codec.
///
/// # Errors
/// Want of memory.
pub fn plans_of(
    alloc: Global,
    kind: PinKind,
    codecs: &[CodecFile],
    format: Format,
) -> Result<Vec<Plan>, AllocError>
    ensures { IfOk result (λ plans. HavePlansOf kind format codecs.now plans.items) }
{
    let mut plans = Vec::new(alloc);
    for codec in codecs {
        plans.push(plan_as(alloc, kind, &codec.graph, format)?)?;
    }
    Ok(plans)
}

/// The lines of plans of which some has a route.
///
/// # Errors
/// Want of memory.
pub(crate) fn routed(
    alloc: Global,
    codecs: &[CodecFile],
    plans: &[Plan],
) -> Result<Message, AllocError>
    ensures { IfOk result (λ message. message_meant message ≡ telling Status.Done (plans_lines codecs.now plans.now)) }
{
    let mut text = String::new(alloc);
    push_plans(&mut text, codecs, plans)?;
    Ok(Message {
        status: Status::Done,
        text,
    })
}

/// The lines of plans of which none has a route, and one that says so.
///
/// # Errors
/// Want of memory.
pub(crate) fn nothing_routed(
    alloc: Global,
    codecs: &[CodecFile],
    plans: &[Plan],
) -> Result<Message, AllocError>
    ensures { IfOk result (λ message. message_meant message ≡ unrouted codecs.now plans.now) }
{
    let mut text = String::new(alloc);
    push_plans(&mut text, codecs, plans)?;
    text.push_str("nothing routed\n")?;
    Ok(Message {
        status: Status::NothingRouted,
        text,
    })
}
