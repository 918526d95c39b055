//! Reads one line.
ghost use Rattle.std.specs.Prelude.{◌≡◌, IfOk};
ghost use Rattle.schedule_reader.specs.Rows as rows;
ghost use Rattle.schedule_reader.specs.Left.{pieces_left};

use crate::cuts::{Pieces, Words};
use crate::heads::{Head, head_in};
use crate::schedule::{DriverLine, Group, Item};
use crate::steps::{one, step_in};
use hda_items::Items;
use std::alloc::{AllocError, Global};
use world_steps::Step;

/// What one line says.
#[derive(Debug, Drop)]
pub(crate) enum Row {
    /// Nothing, or a comment.
    Skipped,
    /// A step of the device or a run of the driver.
    Item(Item),
    /// `repeat K`
    Repeat(u32),
    /// `end`
    End,
}

/// Whether a text is a dash, with spaces round it.
fn is_dash(text: &[u8]) -> bool
    ensures { result ≡ rows.is_dash text.now }
{
    match one(Words::new(text)) {
        Some(word) => word == b"-".as_slice(),
        None => false,
    }
}

/// The steps that the pieces write, if all have a reading.
fn steps_on(alloc: Global, pieces: Pieces) -> Result<Option<Items<Step>>, AllocError>
    ensures { IfOk result (λ steps. steps ≡ rows.all_of rows.step_in (pieces_left pieces.entry)) }
{
    let mut steps = Vec::with_capacity(alloc, pieces.room())?;
    for piece in pieces {
        match step_in(piece) {
            Some(step) => steps.push(step)?,
            None => return Ok(None),
        }
    }
    Ok(Some(Items::from_vec(steps)))
}

/// The group that a text writes, if it has a reading.
#[tactic(auto, unfolding(crate::specs::Rows::group_in, crate::specs::Rows::steps_in))]
fn group_in(alloc: Global, text: &[u8]) -> Result<Option<Group>, AllocError>
    ensures { IfOk result (λ group. group ≡ rows.group_in text.now) }
{
    if is_dash(text) {
        return Ok(Some(Group {
            steps: Items::new(alloc),
        }));
    }
    match steps_on(alloc, Pieces::new(text, b','))? {
        Some(steps) => Ok(Some(Group { steps })),
        None => Ok(None),
    }
}

/// The groups that the pieces write, if all have a reading.
fn groups_on(alloc: Global, pieces: Pieces) -> Result<Option<Items<Group>>, AllocError>
    ensures { IfOk result (λ groups. groups ≡ rows.all_of rows.group_in (pieces_left pieces.entry)) }
{
    let mut groups = Vec::with_capacity(alloc, pieces.room())?;
    for piece in pieces {
        match group_in(alloc, piece)? {
            Some(group) => groups.push(group)?,
            None => return Ok(None),
        }
    }
    Ok(Some(Items::from_vec(groups)))
}

/// What a line says with this head and with these pieces behind its bars.
fn row_with(alloc: Global, head: Head, mut pieces: Pieces) -> Result<Option<Row>, AllocError>
    ensures { IfOk result (λ row. row ≡ rows.row_with head (pieces_left pieces.entry)) }
{
    match head {
        Head::Drive(irq, budget) => match groups_on(alloc, pieces)? {
            Some(groups) => Ok(Some(Row::Item(Item::Drive(DriverLine {
                irq,
                budget,
                groups,
            })))),
            None => Ok(None),
        },
        _ if pieces.next().is_some() => Ok(None),
        Head::Device(step) => Ok(Some(Row::Item(Item::Device(step)))),
        Head::Repeat(times) => Ok(Some(Row::Repeat(times))),
        Head::End => Ok(Some(Row::End)),
    }
}

/// Whether nothing stands on a line, or a comment.
fn is_skipped(line: &[u8]) -> bool
    ensures { result ≡ rows.is_skipped line.now }
{
    match Words::new(line).next() {
        Some(word) => word.first() == Some(&b'#'),
        None => true,
    }
}

/// What a line says, if it has a reading.
#[tactic(auto, unfolding(crate::specs::Rows::row_on))]
pub(crate) fn row_on(alloc: Global, line: &[u8]) -> Result<Option<Row>, AllocError>
    ensures { IfOk result (λ row. row ≡ rows.row_on line.now) }
{
    if is_skipped(line) {
        return Ok(Some(Row::Skipped));
    }
    let mut pieces = Pieces::new(line, b'|');
    let Some(text) = pieces.next() else {
        return Ok(None);
    };
    match head_in(text) {
        Some(head) => row_with(alloc, head, pieces),
        None => Ok(None),
    }
}
