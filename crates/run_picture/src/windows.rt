//! The link frames that a picture shows, and the columns that they fall in.
ghost use Rattle.std.specs.Prelude.{◌≡◌, ◌≤◌, ◌<◌};
ghost use Rattle.run_picture.specs.Windows as spec;

use crate::meter::Meter;
use crate::moments::Notes;

/// How many columns a picture has at most.
pub(crate) const MOST_COLUMNS: u64 = 540;

/// From which link frame to which there were moments.
#[derive(Clone, Copy)]
pub(crate) struct Extent {
    /// Whether there was one.
    pub seen: bool,
    /// The frames that had passed at the first.
    pub first: u64,
    /// The frames that had passed at the last.
    pub last: u64,
}

impl Notes for Extent {
    ghost use Rattle.run_picture.specs.Windows as spec;

    ghost noted = { λ extent moment. spec.extent_noted extent moment };

    fn note(&mut self, moment: &Meter) {
        if !self.seen {
            self.first = moment.time;
        }
        self.seen = true;
        self.last = moment.time;
    }
}

/// Columns of as many link frames each, from a first one on.
#[derive(Clone, Copy)]
pub(crate) struct Window {
    /// How many frames had passed before the first column.
    pub first: u64,
    /// How many frames a column has.
    pub per: u64,
    /// How many columns there are.
    pub columns: u64,
    pub ghost some: { 0 < per },
    pub ghost few: { columns ≤ 540 },
}

/// No moment at all.
pub(crate) fn no_extent() -> Extent
    ensures { result ≡ spec.extent_none }
{
    Extent {
        seen: false,
        first: 0,
        last: 0,
    }
}

/// The columns for the frames from one count to another: as few frames in each as can be.
pub(crate) fn window_of(first: u64, last: u64) -> Window
    ensures first { result.first ≡ first }
    ensures per { result.per ≡ spec.per_column first last }
    ensures columns { result.columns ≡ spec.columns_of first last }
{
    let span = last.saturating_sub(first);
    let per = span / MOST_COLUMNS + 1;
    Window {
        first,
        per,
        columns: (span / per).min(MOST_COLUMNS - 1) + 1,
    }
}

impl Window {
    ghost use Rattle.std.specs.Prelude.{◌≡◌};
    ghost use Rattle.run_picture.specs.Windows as spec;

    /// In which column a moment falls.
    pub(crate) fn column(&self, time: u64) -> u64
        ensures { result ≡ spec.column_in self.now.first self.now.per time }
    {
        time.saturating_sub(self.first) / self.per
    }
}
