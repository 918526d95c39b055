//! Counts steps and link frames with repeats written out.
ghost use Rattle.std.specs.Prelude.{◌≡◌, ◌+◌, ◌*◌, sum_by};
ghost use Rattle.schedule_reader.specs.Counts as counts;
ghost use Rattle.schedule_reader.specs.Left.{held};

use crate::schedule::{Group, Item, Part, Schedule};
use world_steps::Step;

/// How many steps and how many link frames. Each is held at the greatest number of 64 bits.
#[derive(Clone, Copy)]
pub(crate) struct Tally {
    pub steps: u64,
    pub frames: u64,
}

impl Tally {
    /// Nothing.
    const ZERO: Tally = Tally {
        steps: 0,
        frames: 0,
    };

    /// Both together.
    #[tactic(auto, unfolding(crate::specs::Left::held))]
    fn plus(self, other: Tally) -> Tally
        ensures steps { result.steps ≡ held (self.steps + other.steps) }
        ensures frames { result.frames ≡ held (self.frames + other.frames) }
    {
        Tally {
            steps: self.steps.saturating_add(other.steps),
            frames: self.frames.saturating_add(other.frames),
        }
    }

    /// So often the same.
    #[tactic(auto, unfolding(crate::specs::Left::held))]
    fn times(self, times: u32) -> Tally
        ensures steps { result.steps ≡ held (times * self.steps) }
        ensures frames { result.frames ≡ held (times * self.frames) }
    {
        Tally {
            steps: u64::from(times).saturating_mul(self.steps),
            frames: u64::from(times).saturating_mul(self.frames),
        }
    }
}

/// The link frames of a step.
#[tactic(auto, unfolding(crate::specs::Left::held))]
fn step_frames(step: Step) -> u64
    ensures { result ≡ held (counts.step_frames step) }
{
    match step {
        Step::Link(frames) => u64::from(frames),
        _ => 0,
    }
}

/// The link frames of the steps.
fn frames_in(steps: &[Step]) -> u64
    ensures { result ≡ held (sum_by counts.step_frames steps.now) }
{
    let mut frames = 0u64;
    for step in steps {
        frames = frames.saturating_add(step_frames(*step));
    }
    frames
}

/// What a group comes to.
#[tactic(auto, unfolding(crate::specs::Left::held))]
fn tally_of_group(group: &Group) -> Tally
    ensures steps { result.steps ≡ held (counts.group_steps group.now) }
    ensures frames { result.frames ≡ held (counts.group_frames group.now) }
{
    let steps = group.steps.as_slice();
    Tally {
        steps: (steps.len() as u64).saturating_add(1),
        frames: frames_in(steps),
    }
}

/// What the groups come to.
fn tally_of_groups(groups: &[Group]) -> Tally
    ensures steps { result.steps ≡ held (sum_by counts.group_steps groups.now) }
    ensures frames { result.frames ≡ held (sum_by counts.group_frames groups.now) }
{
    let mut tally = Tally::ZERO;
    for group in groups {
        tally = tally.plus(tally_of_group(group));
    }
    tally
}

/// What an item comes to.
#[tactic(auto, unfolding(crate::specs::Left::held))]
fn tally_of_item(item: &Item) -> Tally
    ensures steps { result.steps ≡ held (counts.item_steps item.now) }
    ensures frames { result.frames ≡ held (counts.item_frames item.now) }
{
    match item {
        Item::Device(step) => Tally {
            steps: 1,
            frames: step_frames(*step),
        },
        Item::Drive(line) => {
            let groups = tally_of_groups(line.groups.as_slice());
            Tally {
                steps: groups.steps.saturating_add(1),
                frames: groups.frames,
            }
        }
    }
}

/// What the items come to, once.
fn tally_of_items(items: &[Item]) -> Tally
    ensures steps { result.steps ≡ held (sum_by counts.item_steps items.now) }
    ensures frames { result.frames ≡ held (sum_by counts.item_frames items.now) }
{
    let mut tally = Tally::ZERO;
    for item in items {
        tally = tally.plus(tally_of_item(item));
    }
    tally
}

/// What a part comes to.
fn tally_of_part(part: &Part) -> Tally
    ensures steps { result.steps ≡ held (sum_by counts.item_steps (counts.items_in part.now)) }
    ensures frames { result.frames ≡ held (sum_by counts.item_frames (counts.items_in part.now)) }
{
    let once = tally_of_items(part.items.as_slice());
    once.times(part.times)
}

/// What the parts come to.
fn tally_of_parts(parts: &[Part]) -> Tally
    ensures steps { result.steps ≡ held (sum_by (λ part. sum_by counts.item_steps (counts.items_in part)) parts.now) }
    ensures frames { result.frames ≡ held (sum_by (λ part. sum_by counts.item_frames (counts.items_in part))
        parts.now) }
{
    let mut tally = Tally::ZERO;
    for part in parts {
        tally = tally.plus(tally_of_part(part));
    }
    tally
}

/// How many steps and link frames a schedule has.
pub(crate) fn tally_of(schedule: &Schedule) -> Tally
    ensures steps { result.steps ≡ held (counts.steps_of schedule.now) }
    ensures frames { result.frames ≡ held (counts.frames_of schedule.now) }
{
    tally_of_parts(schedule.parts.as_slice())
}
