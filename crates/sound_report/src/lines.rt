//! The lines of runs, silences, jacks and switches: each has a line of its own, and the page goes out where it is full.
ghost use Rattle.std.specs.Prelude.{◌≡◌, ◌≤◌, ℕ, List, max, ◌++◌, OnOk, codes, decimal};
ghost use Rattle.std.specs.List.{flat_map};
ghost use Rattle.hda_outside.specs.Counts.{Rose};
ghost use Rattle.sound_report.specs.Pages.{Writes};
ghost use Rattle.sound_report.specs.RunLines as text;

use crate::pages::turn;
use crate::pieces::{push_hex, push_word};
use crate::switch::Switch;
use driver_progress::Jack;
use hda_outside::{Fault, Sink};
use period_writer::{Run, Span};
use std::alloc::AllocError;
use std::io::Write;

/// What has a line of its own in the text of a run.
pub(crate) trait HasLine {
    /// Its line.
    ghost line: { Self → List ℕ };

    /// Appends its line to the page.
    fn push_line(&self, page: &mut Vec<u8>) -> Result<(), AllocError>
        ensures { OnOk result (page.new.items ≡ page.old.items ++ line self.now) };
}

impl HasLine for Run {
    ghost line = { λ run. text.run_line run };

    fn push_line(&self, page: &mut Vec<u8>) -> Result<(), AllocError> {
        write!(page, "run {} {} {}", self.at, self.from, self.to).map_err(|_| AllocError)?;
        writeln!(page, " {} {}", self.budget, self.written).map_err(|_| AllocError)
    }
}

impl HasLine for Span {
    ghost line = { λ span. text.silence_line span };

    fn push_line(&self, page: &mut Vec<u8>) -> Result<(), AllocError> {
        writeln!(page, "silence {} {}", self.start, self.end).map_err(|_| AllocError)
    }
}

impl HasLine for Jack {
    ghost line = { λ jack. text.jack_line jack };

    fn push_line(&self, page: &mut Vec<u8>) -> Result<(), AllocError> {
        writeln!(page, "jack {} {} {}", self.codec, self.tag, self.times).map_err(|_| AllocError)
    }
}

impl HasLine for Switch {
    ghost line = { λ switch. text.switch_line switch };

    fn push_line(&self, page: &mut Vec<u8>) -> Result<(), AllocError> {
        push_switch(page, *self)
    }
}

/// Whether a pin's output is enabled.
fn push_on(page: &mut Vec<u8>, on: bool) -> Result<(), AllocError>
    ensures { OnOk result (page.new.items ≡ page.old.items ++ text.on_text on) }
{
    if on {
        push_word(page, "on")
    } else {
        push_word(page, "off")
    }
}

/// The line of a switch.
#[tactic(auto, unfolding(crate::specs::PlanLines::nid_text))]
fn push_switch(page: &mut Vec<u8>, switch: Switch) -> Result<(), AllocError>
    ensures { OnOk result (page.new.items ≡ page.old.items ++ text.switch_line switch) }
{
    write!(page, "switch {} ", switch.codec).map_err(|_| AllocError)?;
    push_hex(page, &[switch.pin])?;
    write!(page, " {} ", switch.at).map_err(|_| AllocError)?;
    push_on(page, switch.on)?;
    push_word(page, "\n")
}

/// The lines of these, in order.
///
/// # Errors
/// The sink's fault, or want of memory.
pub(crate) fn write_lines<K: Sink, L: HasLine>(
    out: &mut K,
    page: &mut Vec<u8>,
    lines: &[L],
) -> Result<(), Fault>
    ensures text { Writes result (K.taken out.old) (K.taken out.new) (page.old.items ++ flat_map L.line lines.now)
        page.new.items }
    ensures pieces { K.longest out.new ≤ max (K.longest out.old) 4096 }
    ensures later { K.faults out.old ≤ K.faults out.new }
    ensures failed { result ≡ Err Fault.Failed → Rose (K.faults out.old) (K.faults out.new) }
{
    for line in lines {
        line.push_line(page)?;
        turn(out, page)?;
    }
    Ok(())
}
