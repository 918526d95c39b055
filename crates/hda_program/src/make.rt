//! The command `make`: the inputs that are made of a number are played.
ghost use Rattle.std.specs.Prelude.{◌≡◌, IfOk};
ghost use Rattle.hda_program.specs.Made.{MakeAnswers};
ghost use Rattle.hda_program.specs.Meanings.{answer_meant};

use crate::answer::Answer;
use crate::made_ends::made_runs_end_so;
use crate::plans::plans_of;
use codec_graph::PinKind;
use made_inputs::{made_format, made_machine};
use program_runs::play_made;
use std::alloc::{AllocError, Global};

/// What `make` answers for a number.
///
/// # Errors
/// Want of memory.
pub(crate) fn answer_make(alloc: Global, number: u16) -> Result<Answer, AllocError>
    ensures { IfOk result (λ answer. MakeAnswers number (answer_meant answer)) }
{
    made_runs_end_so();
    let machine = made_machine(alloc)?;
    let plans = plans_of(
        alloc,
        PinKind::Analog,
        machine.codecs.as_slice(),
        made_format(),
    )?;
    let played = play_made(alloc, number, machine, plans)?;
    Ok(Answer::Made(number, played))
}
