//! The marks of pins.
ghost use Rattle.std.specs.Prelude.{◌≡◌, ◌<◌, [], OnOk, OnErr, IfOk, max};
ghost use Rattle.heard_lists.specs.Marked.{MarkState, with_pin_mark, marks_among};

use heard_frames::Mark;
use std::alloc::{AllocError, Global};
use std::marker::Model;

/// A mark, and whose it is.
#[derive(Clone, Copy, Debug, PartialEq, Eq)]
pub(crate) struct PinMark {
    /// The address of the pin's codec.
    pub(crate) codec: u8,
    /// The pin's node identifier.
    pub(crate) pin: u8,
    pub(crate) mark: Mark,
}

/// The marks of all pins, oldest first.
#[derive(Drop)]
pub(crate) struct PinMarks {
    marks: Vec<PinMark>,
    /// For how many more there is room.
    room: usize,
}

impl Model for PinMarks {
    ghost use Rattle.std.specs.Prelude.{◌≤◌, ◌+◌, vec_len, vec_capacity};
    ghost use Rattle.heard_lists.specs.Marked.{MarkState};

    ghost Value = { MarkState };

    ghost view = { λ m. record { marks = m.marks.items; room = m.room } };

    ghost invariant = { λ m. vec_len m.marks + m.room ≤ vec_capacity m.marks };
}

impl PinMarks {
    /// No mark, and no room.
    pub(crate) fn new(alloc: Global) -> PinMarks
        ensures { result ≡ record { marks = []; room = 0 } }
    {
        PinMarks {
            marks: Vec::new(alloc),
            room: 0,
        }
    }

    /// Makes room for so many more marks.
    ///
    /// # Errors
    /// Want of memory. Nothing changes then.
    pub(crate) fn reserve(&mut self, marks: usize) -> Result<(), AllocError>
        ensures ok { OnOk result (self.new ≡ record self.old { room = max self.old.room marks }) }
        ensures err { OnErr result (self.new ≡ self.old) }
    {
        if marks > self.room {
            self.marks.reserve(marks)?;
            self.room = marks;
        }
        Ok(())
    }

    /// Puts a mark last, for which there is room.
    pub(crate) fn push(&mut self, mark: PinMark)
        requires { 0 < self.old.room }
        ensures { self.new ≡ with_pin_mark mark self.old }
    {
        if self.marks.push(mark).is_err() {
            unreachable!();
        }
        self.room -= 1;
    }

    /// Forgets the marks. Their room stays.
    pub(crate) fn clear(&mut self)
        ensures { self.new ≡ record self.old { marks = [] } }
    {
        self.marks.clear();
    }

    /// The marks of one pin, as a list of their own.
    ///
    /// # Errors
    /// Want of memory.
    pub(crate) fn of(&self, alloc: Global, codec: u8, pin: u8) -> Result<Vec<Mark>, AllocError>
        ensures { IfOk result (λ marks. marks.items ≡ marks_among self.now.marks codec pin) }
    {
        self.marks
            .iter()
            .filter(|one| codec == one.codec && pin == one.pin)
            .map(|one| one.mark)
            .collect(alloc)
    }
}
