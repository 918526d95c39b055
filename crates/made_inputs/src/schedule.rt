//! The schedule that is made of a number.
ghost use Rattle.std.specs.Prelude.{◌≡◌, ◌<◌, ◌^◌, ◌++◌, ◌+◌, ◌*◌, ◌%◌, ℕ, [], ◌∷◌, IfOk, OnOk};
ghost use Rattle.std.specs.List.{flat_map};
ghost use Rattle.schedule_reader.specs.Schedules.{IsLimited};
ghost use Rattle.made_inputs.specs.MadeSchedule as spec;

use crate::sound::frames_for;
use hda_items::Items;
use schedule_reader::{DriverLine, Item, Part, Schedule};
use std::alloc::{AllocError, Global};
use world_steps::Step;

/// The number that follows this one.
fn next_draw(draw: u32) -> u32
    ensures { result ≡ (1103515245 * draw + 12345) % 2147483648 }
{
    ((1_103_515_245 * u64::from(draw) + 12_345) % 2_147_483_648) as u32
}

/// A call of the driver that may write so many bytes.
fn run(alloc: Global, budget: u32) -> Item
    ensures { result ≡ spec.call_with budget }
{
    Item::Drive(DriverLine {
        irq: false,
        budget,
        groups: Items::new(alloc),
    })
}

/// The reset, until codecs have said that they are there.
fn reset_items(alloc: Global) -> Result<Items<Item>, AllocError>
    ensures { IfOk result (λ items. items ≡ spec.reset_items) }
{
    let mut items = Items::new(alloc);
    items.push(run(alloc, 0))?;
    items.push(Item::Device(Step::Link(25)))?;
    items.push(run(alloc, 0))?;
    Ok(items)
}

/// A command, and its answer.
fn command_items(alloc: Global) -> Result<Items<Item>, AllocError>
    ensures { IfOk result (λ items. items ≡ spec.command_items) }
{
    let mut items = Items::new(alloc);
    items.push(run(alloc, 0))?;
    items.push(Item::Device(Step::Corb))?;
    items.push(Item::Device(Step::Answer(0)))?;
    items.push(Item::Device(Step::Rirb))?;
    Ok(items)
}

/// Puts a turn last: a call, a FIFO full of sound, and so many link frames.
fn push_turn(alloc: Global, items: &mut Items<Item>, frames: u32) -> Result<(), AllocError>
    ensures { OnOk result (items.new ≡ items.old ++ spec.turn_items frames) }
{
    items.push(run(alloc, 100_000))?;
    items.push(Item::Device(Step::Fetch(1, 192)))?;
    items.push(Item::Device(Step::Link(frames)))?;
    Ok(())
}

/// Puts the turns of a number last: until they have no fewer link frames than the sound has frames.
fn push_turns(alloc: Global, items: &mut Items<Item>, number: u16) -> Result<(), AllocError>
    ensures { OnOk result ((count : ℕ) × spec.AreTurns number count
        × (items.new ≡ items.old ++ flat_map spec.turn_items (spec.turns number count))) }
{
    let frames = frames_for(number);
    let mut draw = u32::from(number);
    let mut linked = 0;
    while linked < frames {
        draw = next_draw(draw);
        let length = 16 + draw % 32;
        push_turn(alloc, items, length)?;
        linked += length;
    }
    Ok(())
}

/// The last answer is read, the turns of a number play, and one more call follows.
fn sound_items(alloc: Global, number: u16) -> Result<Items<Item>, AllocError>
    ensures { IfOk result (λ items. (count : ℕ) × spec.AreTurns number count
        × (items ≡ spec.sound_items number count)) }
{
    let mut items = Items::new(alloc);
    items.push(run(alloc, 0))?;
    push_turns(alloc, &mut items, number)?;
    items.push(run(alloc, 100_000))?;
    Ok(items)
}

/// The schedule of a number N. It resets the controller, gives time and answers for 44 commands to codec 0, and plays
/// in turns: a call of the driver that may write 100,000 bytes, a fetch of 192 bytes, and link frames. Turn j, counted
/// from 1, has 16 + x(j) mod 32 of them, where x(0) is N and x(j) is (1,103,515,245 x(j - 1) + 12,345) mod 2^31. There
/// are as few turns as have no fewer link frames than the sound has frames, and one more call follows.
///
/// # Errors
/// Want of memory.
pub fn made_schedule(alloc: Global, number: u16) -> Result<Schedule, AllocError>
    ensures made { IfOk result (spec.IsMadeSchedule number) }
    ensures limited { IfOk result IsLimited }
{
    let mut parts = Items::new(alloc);
    parts.push(Part {
        times: 1,
        items: reset_items(alloc)?,
    })?;
    parts.push(Part {
        times: 44,
        items: command_items(alloc)?,
    })?;
    parts.push(Part {
        times: 1,
        items: sound_items(alloc, number)?,
    })?;
    Ok(Schedule { parts })
}
