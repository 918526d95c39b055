//! Runs of granules, and the gaps between them.
ghost use Rattle.std.specs.Prelude.{◌≡◌, ◌≤◌, ◌<◌, ◌+◌, length, MatchOption, Contains, slice_index_or};
ghost use Rattle.dma_pool.specs.Pools.{IsLaidOut, HasNoRun, granules_of};
ghost use Rattle.dma_pool.specs.Gaps.{IsGap};

/// Granules that stand together: the first, and how many.
#[derive(Clone, Copy, Debug, PartialEq, Eq)]
pub struct Run {
    pub first: u32,
    pub count: u32,
}

/// Free granules between taken runs: how many runs stand before them, and the first granule.
#[derive(Clone, Copy, Debug)]
pub(crate) struct Gap {
    pub(crate) index: usize,
    pub(crate) first: u32,
}

/// The lowest gap of a pool that has so many granules.
pub(crate) fn first_gap(taken: &[Run], granules: u32, count: u32) -> Option<Gap>
    requires some { 1 ≤ count }
    requires laid_out { IsLaidOut 0 granules taken.now }
    ensures { MatchOption result (HasNoRun granules taken.now count)
        (λ gap. IsGap granules taken.now gap.index gap.first count) }
{
    let mut first = 0;
    for (index, run) in taken.iter().enumerate() {
        if count <= run.first - first {
            return Some(Gap { index, first });
        }
        first = run.first + run.count;
    }
    if count <= granules - first {
        return Some(Gap {
            index: taken.len(),
            first,
        });
    }
    None
}

/// The place of a run that is taken.
pub(crate) fn index_of(taken: &[Run], run: Run) -> usize
    requires { Contains taken.now run }
    ensures within { result < length taken.now }
    ensures here { slice_index_or taken.now result run ≡ run }
{
    for (index, other) in taken.iter().enumerate() {
        if *other == run {
            return index;
        }
    }
    unreachable!()
}

/// How many granules of a pool are in no taken run.
pub(crate) fn free_granules(taken: &[Run], granules: u32) -> u32
    requires { IsLaidOut 0 granules taken.now }
    ensures { result + granules_of taken.now ≡ granules }
{
    let mut free = granules;
    for run in taken {
        free -= run.count;
    }
    free
}
