//! Schedules, and the parts or the fault that each reads as.
use schedule_reader::{DriverLine, Item, MOST_SCHEDULE_BYTES, Schedule, read_schedule};
use std::alloc::{AllocError, Global};
use std::fmt::Write;
use world_steps::Step;

/// Puts the steps of a group, in brackets.
fn push_steps(text: &mut String, steps: &[Step]) -> Result<(), AllocError> {
    text.push_str(" [")?;
    for (place, step) in steps.iter().enumerate() {
        if place > 0 {
            text.push_str(", ")?;
        }
        write!(text, "{step:?}")?;
    }
    text.push(']')
}

/// Puts a call of the driver with the groups of steps between its accesses.
fn push_line(text: &mut String, line: &DriverLine) -> Result<(), AllocError> {
    let call = if line.irq { "irq" } else { "run" };
    write!(text, " {call} {}", line.budget)?;
    for group in line.groups.as_slice() {
        push_steps(text, group.steps.as_slice())?;
    }
    Ok(())
}

/// Puts what one line says.
fn push_item(text: &mut String, item: &Item) -> Result<(), AllocError> {
    match item {
        Item::Device(step) => write!(text, " {step:?}"),
        Item::Drive(line) => push_line(text, line),
    }
}

/// How many parts a schedule has, and each of them on a line: how often it comes, and its items.
fn schedule_text(alloc: Global, schedule: &Schedule) -> Result<String, AllocError> {
    let parts = schedule.parts.as_slice();
    let mut text = format!(in alloc; "{} parts", parts.len())?;
    for part in parts {
        write!(text, "\n  {} times", part.times)?;
        for item in part.items.as_slice() {
            push_item(&mut text, item)?;
        }
    }
    Ok(text)
}

/// What a schedule says, or its fault.
pub fn tell(alloc: Global, words: &[Vec<u8>]) -> Result<String, AllocError> {
    let [text] = words else {
        return format!(in alloc; "no schedule");
    };
    if text.len() > MOST_SCHEDULE_BYTES {
        return format!(in alloc; "too long");
    }
    match read_schedule(alloc, text) {
        Ok(schedule) => schedule_text(alloc, &schedule),
        Err(fault) => format!(in alloc; "{fault:?}"),
    }
}
