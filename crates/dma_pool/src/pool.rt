//! The pool.
ghost use Rattle.std.specs.Prelude.{◌≡◌, ◌≢◌, ◌≤◌, ◌+◌, ◌/◌, [], All, Contains, IfOk, OnErr};
ghost use Rattle.dma_pool.specs.Pools.{IsFirstFit, HasNoRun, IsLaidOut, AddsRun, granules_of, granules_for};
ghost use Rattle.dma_pool.specs.Blocks.{run_at, IsElsewhere};
ghost use Rattle.dma_pool.specs.declared.runs.Run.{Run};

use crate::blocks::Block;
use crate::region::MOST_GRANULES;
use crate::runs::{Run, first_gap, free_granules, index_of};
use std::alloc::{AllocError, Global};
use std::marker::Model;

/// The bytes of a granule.
pub const GRANULE: u32 = 128;

/// So many free granules stand together nowhere.
#[derive(Clone, Copy, Debug, PartialEq, Eq)]
pub struct NoRun;

/// A pool of granules, of which runs are taken as blocks. Contracts see the number of granules and the taken runs,
/// ascending.
#[derive(Debug, Drop)]
pub struct Pool {
    granules: u32,
    taken: Vec<Run>,
}

impl Model for Pool {
    ghost use Rattle.std.specs.Prelude.{◌≤◌, vec_capacity};
    ghost use Rattle.dma_pool.specs.Pools.{PoolState, IsLaidOut};
    ghost use Rattle.dma_pool.specs.declared.region.TheConstants.{MOST_GRANULES};

    ghost Value = { PoolState };

    ghost view = { λ pool. record { granules = pool.granules; taken = pool.taken.items } };

    ghost invariant = { λ pool. (pool.granules ≤ MOST_GRANULES) × IsLaidOut 0 pool.granules pool.taken.items
        × (pool.granules ≤ vec_capacity pool.taken) };
}

impl Pool {
    /// A pool of 1 to [`MOST_GRANULES`] granules, all of them free.
    ///
    /// # Errors
    /// Want of memory. No other call takes any.
    pub fn new(alloc: Global, granules: u32) -> Result<Pool, AllocError>
        requires some { 1 ≤ granules }
        requires most { granules ≤ MOST_GRANULES }
        ensures { IfOk result (λ pool. pool ≡ record { granules = granules; taken = [] }) }
    {
        Ok(Pool {
            granules,
            taken: Vec::with_capacity(alloc, granules as usize)?,
        })
    }

    /// Takes as many granules as so many bytes need, at the lowest place where they stand together.
    ///
    /// # Errors
    /// `NoRun` exactly where they stand together nowhere. The pool is then as it was.
    pub fn take(&mut self, bytes: u32) -> Result<Block, NoRun>
        requires { 1 ≤ bytes }
        ensures fits { IfOk result (λ block. IsFirstFit self.old.granules self.old.taken (block.address / 128)
            (granules_for bytes)) }
        ensures bytes { IfOk result (λ block. block.bytes ≡ bytes) }
        ensures takes { IfOk result (λ block. AddsRun self.old.taken (run_at block.address bytes) self.new.taken) }
        ensures elsewhere { IfOk result (λ block. All (IsElsewhere block.address bytes) self.old.taken) }
        ensures fresh { IfOk result (λ block. Contains self.old.taken (run_at block.address block.bytes) → ⊥) }
        ensures owned { IfOk result (λ block. Contains self.new.taken (run_at block.address block.bytes)) }
        ensures kept { (run : Run) → Contains self.old.taken run → Contains self.new.taken run }
        ensures granules { self.new.granules ≡ self.old.granules }
        ensures none { OnErr result (HasNoRun self.old.granules self.old.taken (granules_for bytes)) }
        ensures unchanged { OnErr result (self.new ≡ self.old) }
    {
        let count = bytes.div_ceil(GRANULE);
        let Some(gap) = first_gap(&self.taken, self.granules, count) else {
            return Err(NoRun);
        };
        let run = Run {
            first: gap.first,
            count,
        };
        if self.taken.insert(gap.index, run).is_err() {
            unreachable!();
        }
        Ok(Block::new(gap.first * GRANULE, bytes))
    }

    /// Gives a block back whose run of granules is one of this pool's taken runs.
    pub fn give(&mut self, block: Block)
        requires { Contains self.old.taken (run_at block.address block.bytes) }
        ensures gives { AddsRun self.new.taken (run_at block.address block.bytes) self.old.taken }
        ensures kept { (run : Run) → Contains self.old.taken run → run ≢ run_at block.address block.bytes
            → Contains self.new.taken run }
        ensures granules { self.new.granules ≡ self.old.granules }
    {
        let (address, bytes) = block.end();
        let run = Run {
            first: address / GRANULE,
            count: bytes.div_ceil(GRANULE),
        };
        let index = index_of(&self.taken, run);
        self.taken.remove(index);
    }

    /// How many granules are free.
    pub fn free(&self) -> u32
        ensures free { result + granules_of self.now.taken ≡ self.now.granules }
        ensures laid_out { IsLaidOut 0 self.now.granules self.now.taken }
    {
        free_granules(&self.taken, self.granules)
    }
}
