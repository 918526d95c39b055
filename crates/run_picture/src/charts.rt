//! A chart: the columns of a run's moments.
ghost use Rattle.std.specs.Prelude.{◌≡◌, ◌≤◌, length, replicate, IfOk, OnOk};
ghost use Rattle.run_picture.specs.Charts as spec;

use crate::columns::{Column, sight_of};
use crate::meter::Meter;
use crate::moments::Notes;
use crate::windows::Window;
use period_writer::Run;
use std::alloc::{AllocError, Global};
use std::marker::Model;

/// The columns of the moments of a run.
#[derive(Drop)]
pub(crate) struct Chart<'a> {
    window: Window,
    /// The recorded runs.
    runs: &'a [Run],
    /// How many ticks a run took that was too late.
    late: u32,
    columns: Vec<Column>,
}

impl<'a> Model for Chart<'a> {
    ghost use Rattle.std.specs.Prelude.{◌≤◌, vec_len};
    ghost use Rattle.run_picture.specs.Charts.{ChartState};

    ghost Value = { ChartState };

    ghost view = { λ chart. record {
      first = chart.window.first;
      per = chart.window.per;
      runs = chart.runs.now;
      late = chart.late;
      columns = chart.columns.items;
    } };

    ghost invariant = { λ chart. vec_len chart.columns ≤ 540 };
}

impl<'a> Notes for Chart<'a> {
    ghost use Rattle.run_picture.specs.Charts as spec;

    ghost noted = { λ chart moment. spec.chart_noted chart moment };

    fn note(&mut self, moment: &Meter) {
        let place = self.window.column(moment.time);
        if place < self.columns.len() as u64 {
            let column = self.columns[place as usize];
            let sight = sight_of(self.runs, self.late, moment);
            self.columns[place as usize] = column.with(sight, moment);
        }
    }
}

impl<'a> Chart<'a> {
    /// A chart without a moment.
    ///
    /// # Errors
    /// Want of memory.
    pub(crate) fn new(
        alloc: Global,
        window: Window,
        runs: &'a [Run],
        late: u32,
    ) -> Result<Chart<'a>, AllocError>
        ensures { IfOk result (λ chart. chart ≡ spec.chart_empty window.first window.per window.columns runs.now late) }
    {
        let mut columns = Vec::new(alloc);
        for _column in 0..window.columns {
            columns.push(Column::empty())?;
        }
        Ok(Chart {
            window,
            runs,
            late,
            columns,
        })
    }

    /// Its columns.
    pub(crate) fn columns(&self) -> &[Column]
        ensures value { result.now ≡ self.now.columns }
        ensures few { length result.now ≤ 540 }
    {
        self.columns.as_slice()
    }
}
