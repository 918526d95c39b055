//! Puts lines together to parts.
ghost use Rattle.std.specs.Prelude.{◌≡◌, ◌++◌, ◌≤◌, length, IfOk, OnOk, map, true, false};
ghost use Rattle.std.specs.Str.Lines.{lines};
ghost use Rattle.schedule_reader.specs.Faults as faults;
ghost use Rattle.schedule_reader.specs.Parts as parts;
ghost use Rattle.schedule_reader.specs.Schedules.{rows};
ghost use Rattle.schedule_reader.specs.Left.{lines_left, rows_left, IsCheckFor};

use crate::cuts::{Lines, Words};
use crate::fault::SchedFault;
use crate::rows::{Row, row_on};
use crate::schedule::{Item, Part};
use hda_items::Items;
use std::alloc::{AllocError, Global};

/// The greatest length of a schedule, in bytes.
pub const MOST_SCHEDULE_BYTES: usize = 4_194_304;

/// Whether the lines behind the one of this number stand inside a repeat, where `inside` says whether that one does.
///
/// # Errors
/// The line's fault.
fn inside_after(number: u32, inside: bool, row: &Option<Row>) -> Result<bool, SchedFault>
    ensures { result ≡ faults.inside_after number inside row.now }
{
    match row {
        None => Err(SchedFault::Line(number)),
        Some(Row::Skipped) => Ok(inside),
        Some(Row::Item(_)) => Ok(inside),
        Some(Row::Repeat(_)) => {
            if inside {
                Err(SchedFault::Nested(number))
            } else {
                Ok(true)
            }
        }
        Some(Row::End) => {
            if inside {
                Ok(false)
            } else {
                Err(SchedFault::Line(number))
            }
        }
    }
}

/// Looks for the first fault of the lines.
pub(crate) fn check_lines(alloc: Global, bytes: &[u8]) -> Result<(), SchedFault>
    requires { length bytes.now ≤ MOST_SCHEDULE_BYTES }
    ensures { IsCheckFor (faults.first_fault (rows bytes.now)) result }
{
    let mut number = 1;
    let mut inside = false;
    for line in Lines::new(bytes) {
        let row = row_on(alloc, line)?;
        inside = inside_after(number, inside, &row)?;
        number += 1;
    }
    if inside {
        return Err(SchedFault::Unclosed);
    }
    Ok(())
}

/// What a line begins with.
enum Beginning {
    /// Nothing, or a comment.
    Nothing,
    /// `repeat`
    Repeat,
    /// `end`
    End,
    /// Another word.
    Item,
}

/// What a line begins with.
fn beginning_of(line: &[u8]) -> Beginning {
    match Words::new(line).next() {
        None => Beginning::Nothing,
        Some([b'#', ..]) => Beginning::Nothing,
        Some(b"repeat") => Beginning::Repeat,
        Some(b"end") => Beginning::End,
        Some(_) => Beginning::Item,
    }
}

/// How many items stand ahead of the next `repeat` or `end`.
fn room_for_items(lines: Lines) -> usize {
    let mut room = 0usize;
    for line in lines {
        match beginning_of(line) {
            Beginning::Nothing => {}
            Beginning::Item => room = room.saturating_add(1),
            Beginning::Repeat | Beginning::End => return room,
        }
    }
    room
}

/// How many parts the lines make.
fn room_for_parts(lines: Lines) -> usize {
    let mut room = 0usize;
    let mut begun = false;
    for line in lines {
        match beginning_of(line) {
            Beginning::Nothing => {}
            Beginning::End => begun = false,
            Beginning::Item => {
                if !begun {
                    room = room.saturating_add(1);
                }
                begun = true;
            }
            Beginning::Repeat => {
                room = room.saturating_add(1);
                begun = true;
            }
        }
    }
    room
}

/// Reads the items up to the next `repeat` or `end`, behind the ones that are given.
fn items_ahead(
    alloc: Global,
    lines: &mut Lines,
    mut items: Vec<Item>,
) -> Result<Items<Item>, AllocError>
    ensures items { IfOk result (λ all. all ≡ items.items ++ parts.items_ahead (rows_left lines.old)) }
    ensures rest { OnOk result (parts.parts_of false (rows_left lines.new) ≡ parts.parts_of true
        (rows_left lines.old)) }
    ensures shorter { OnOk result (length (lines_left lines.new) ≤ length (lines_left lines.old)) }
{
    loop {
        let here = *lines;
        let Some(line) = lines.next() else {
            return Ok(Items::from_vec(items));
        };
        match row_on(alloc, line)? {
            Some(Row::Item(item)) => items.push(item)?,
            Some(Row::Repeat(_)) | Some(Row::End) => {
                *lines = here;
                return Ok(Items::from_vec(items));
            }
            Some(Row::Skipped) | None => {}
        }
    }
}

/// Reads the parts that the lines make. Lines without reading are passed over.
pub(crate) fn parts_of(alloc: Global, bytes: &[u8]) -> Result<Items<Part>, AllocError>
    ensures { IfOk result (λ all. all ≡ parts.parts (rows bytes.now)) }
{
    let mut lines = Lines::new(bytes);
    let mut parts = Vec::with_capacity(alloc, room_for_parts(lines))?;
    while let Some(line) = lines.next() {
        match row_on(alloc, line)? {
            Some(Row::Item(item)) => {
                let room = room_for_items(lines).saturating_add(1);
                let mut items = Vec::with_capacity(alloc, room)?;
                items.push(item)?;
                let items = items_ahead(alloc, &mut lines, items)?;
                parts.push(Part { times: 1, items })?;
            }
            Some(Row::Repeat(times)) => {
                let items = Vec::with_capacity(alloc, room_for_items(lines))?;
                let items = items_ahead(alloc, &mut lines, items)?;
                parts.push(Part { times, items })?;
            }
            _ => {}
        }
    }
    Ok(Items::from_vec(parts))
}
