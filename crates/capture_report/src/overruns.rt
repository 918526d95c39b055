//! The lines of overruns.
ghost use Rattle.std.specs.Prelude.{◌≡◌, ◌<◌, ◌≤◌, ◌-◌, ◌^◌, max, ◌++◌, OnOk};
ghost use Rattle.std.specs.List.{flat_map};
ghost use Rattle.hda_outside.specs.Counts.{Rose};
ghost use Rattle.sound_report.specs.Pages.{Writes};
ghost use Rattle.capture_report.specs.Overruns.{overrun_line, overrun_lines};
ghost use Rattle.capture_report.specs.BegunOverruns.{IsUpTo, longer, begun_one};

use hda_outside::{Fault, Sink};
use sound_report::turn;
use std::alloc::AllocError;
use std::io::Write;

/// Blocks one after another that came and were dropped, as many as can be. This project's own.
#[derive(Clone, Copy, Debug, PartialEq, Eq)]
pub struct Overrun {
    /// The number of the first one; the first block that came has number 0.
    pub first: usize,
    /// How many there are.
    pub count: usize,
}

/// The line of an overrun.
fn push_overrun(page: &mut Vec<u8>, overrun: Overrun) -> Result<(), AllocError>
    ensures { OnOk result (page.new.items ≡ page.old.items ++ overrun_line overrun) }
{
    writeln!(page, "overrun {} {}", overrun.first, overrun.count).map_err(|_| AllocError)
}

/// The line of an overrun that has ended, where there is one.
fn write_begun<K: Sink>(
    out: &mut K,
    page: &mut Vec<u8>,
    begun: Option<Overrun>,
) -> Result<(), Fault>
    ensures text { Writes result (K.taken out.old) (K.taken out.new)
        (page.old.items ++ flat_map overrun_line (begun_one begun)) page.new.items }
    ensures pieces { K.longest out.new ≤ max (K.longest out.old) 4096 }
    ensures later { K.faults out.old ≤ K.faults out.new }
    ensures failed { result ≡ Err Fault.Failed → Rose (K.faults out.old) (K.faults out.new) }
{
    if let Some(overrun) = begun {
        push_overrun(page, overrun)?;
    }
    turn(out, page)
}

/// An overrun, or none, with the dropped block of a number behind it.
fn with_one_more(begun: Option<Overrun>, number: usize) -> Overrun
    requires up { IsUpTo number begun }
    requires room { number < 2 ^ 64 - 1 }
    ensures { result ≡ longer begun number }
{
    match begun {
        Some(overrun) => Overrun {
            first: overrun.first,
            count: overrun.count + 1,
        },
        None => Overrun {
            first: number,
            count: 1,
        },
    }
}

/// The lines of the overruns of blocks, of each of which a mark says whether it was taken.
///
/// # Errors
/// The sink's fault, or want of memory.
pub(crate) fn write_overruns<K: Sink>(
    out: &mut K,
    page: &mut Vec<u8>,
    taken: &[bool],
) -> Result<(), Fault>
    ensures text { Writes result (K.taken out.old) (K.taken out.new) (page.old.items ++ overrun_lines taken.now)
        page.new.items }
    ensures pieces { K.longest out.new ≤ max (K.longest out.old) 4096 }
    ensures later { K.faults out.old ≤ K.faults out.new }
    ensures failed { result ≡ Err Fault.Failed → Rose (K.faults out.old) (K.faults out.new) }
{
    let mut begun = None;
    for number in 0..taken.len() {
        if taken[number] {
            write_begun(out, page, begun)?;
            begun = None;
        } else {
            begun = Some(with_one_more(begun, number));
        }
    }
    write_begun(out, page, begun)
}
