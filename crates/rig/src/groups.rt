//! The groups of steps of a run.
ghost use Rattle.std.specs.Prelude.{◌≡◌, ◌≤◌, ◌+◌, ℕ, [], ◌∷◌, IfOk, length, map, drop};
ghost use Rattle.hda_world.specs.Events.{Stepped};
ghost use Rattle.hda_world.specs.Tellings.{Went};
ghost use Rattle.rig.specs.Recordings.{HasRoomFor, items_for};
ghost use Rattle.rig.specs.Rigs.{told_of, sound_given};
ghost use Rattle.rig.specs.Rooms.{steps_before, step_count, item_count};
ghost use Rattle.rig.specs.Stretches.{all_steps_in};

use crate::recording::Recording;
use hda_items::Items;
use schedule_reader::Group;
use std::alloc::{AllocError, Global};

/// Groups of their own with the same steps.
///
/// # Errors
/// Want of memory.
pub(crate) fn copied(alloc: Global, groups: &[Group]) -> Result<Items<Group>, AllocError>
    ensures { IfOk result (λ copies. copies ≡ groups.now) }
{
    let mut copies = Items::new(alloc);
    for group in groups {
        copies.push(Group {
            steps: group.steps.copy()?,
        })?;
    }
    Ok(copies)
}

/// Makes the steps before the access of this number, counted from 0: those of its group, if there is one.
pub(crate) fn pass(recording: &mut Recording, groups: &[Group], number: usize)
    requires { HasRoomFor (length (steps_before number groups.now)) 0 (items_for (steps_before number groups.now))
        recording.old.journal recording.old.heard recording.old.came }
    ensures told { Went (told_of recording.old) (told_of recording.new) (map Stepped (steps_before number groups.now)) }
    ensures machine { recording.new.machine ≡ recording.old.machine }
    ensures kind { recording.new.kind ≡ recording.old.kind }
    ensures sound { sound_given recording.new ≡ sound_given recording.old }
    ensures room { (entries bytes items : ℕ)
        → HasRoomFor (length (steps_before number groups.now) + entries) bytes
        (items_for (steps_before number groups.now) + items) recording.old.journal recording.old.heard
        recording.old.came
        → HasRoomFor entries bytes items recording.new.journal recording.new.heard recording.new.came }
{
    if number < groups.len() {
        recording.make_steps(groups[number].steps.as_slice());
    }
}

/// Makes the steps of all groups in turn.
pub(crate) fn pass_all(recording: &mut Recording, groups: &[Group])
    requires { HasRoomFor (step_count groups.now) 0 (item_count groups.now) recording.old.journal recording.old.heard
        recording.old.came }
    ensures told { Went (told_of recording.old) (told_of recording.new) (all_steps_in groups.now) }
    ensures machine { recording.new.machine ≡ recording.old.machine }
    ensures kind { recording.new.kind ≡ recording.old.kind }
    ensures sound { sound_given recording.new ≡ sound_given recording.old }
    ensures room { (entries bytes items : ℕ)
        → HasRoomFor (step_count groups.now + entries) bytes (item_count groups.now + items) recording.old.journal
        recording.old.heard recording.old.came
        → HasRoomFor entries bytes items recording.new.journal recording.new.heard recording.new.came }
{
    for group in groups {
        recording.make_steps(group.steps.as_slice());
    }
}
