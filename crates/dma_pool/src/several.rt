//! Several blocks at once.
ghost use Rattle.std.specs.Prelude.{◌≡◌, ◌≤◌, ◌-◌, None, Some, All, length, take, drop, replicate, OnOk, OnErr};
ghost use Rattle.dma_pool.specs.Several.{TakesAll, MeetsNoRun, HasBlock, addresses_in};

use crate::blocks::Block;
use crate::pool::{NoRun, Pool};
use std::mem::replace;

/// Puts a block to a place that has none.
fn put(place: &mut Option<Block>, block: Block)
    requires { place.old ≡ None }
    ensures { place.new ≡ Some block }
{
    match replace(place, Some(block)) {
        None => {}
        Some(_block) => unreachable!(),
    }
}

/// Takes a block of so many bytes for each place from an index on.
fn take_from(
    pool: &mut Pool,
    bytes: u32,
    into: &mut [Option<Block>],
    index: usize,
) -> Result<(), NoRun>
    requires some { 1 ≤ bytes }
    requires within { index ≤ length into.old }
    requires empty { drop index into.old ≡ replicate (length into.old - index) None }
    ensures takes { OnOk result (TakesAll pool.old.granules bytes pool.old.taken (addresses_in (drop index into.new))
        pool.new.taken) }
    ensures blocks { OnOk result (All (HasBlock bytes) (drop index into.new)) }
    ensures before { take index into.new ≡ take index into.old }
    ensures granules { pool.new.granules ≡ pool.old.granules }
    ensures none { OnErr result (MeetsNoRun pool.old.granules bytes (length into.old - index) pool.old.taken) }
    ensures unchanged { OnErr result (pool.new ≡ pool.old) }
    ensures emptied { OnErr result (into.new ≡ into.old) }
{
    if index == into.len() {
        return Ok(());
    }
    let block = pool.take(bytes)?;
    if take_from(pool, bytes, into, index + 1).is_err() {
        pool.give(block);
        return Err(NoRun);
    }
    put(&mut into[index], block);
    Ok(())
}

impl Pool {
    /// Takes a block of so many bytes for each place of a list, in order, each at the lowest place for it.
    ///
    /// # Errors
    /// `NoRun` exactly where one of these takes meets no run. Then no place has a block, and the pool is as it was.
    pub fn take_all(&mut self, bytes: u32, into: &mut [Option<Block>]) -> Result<(), NoRun>
        requires some { 1 ≤ bytes }
        requires empty { into.old ≡ replicate (length into.old) None }
        ensures takes { OnOk result (TakesAll self.old.granules bytes self.old.taken (addresses_in into.new)
            self.new.taken) }
        ensures blocks { OnOk result (All (HasBlock bytes) into.new) }
        ensures granules { self.new.granules ≡ self.old.granules }
        ensures none { OnErr result (MeetsNoRun self.old.granules bytes (length into.old) self.old.taken) }
        ensures unchanged { OnErr result (self.new ≡ self.old) }
        ensures emptied { OnErr result (into.new ≡ into.old) }
    {
        take_from(self, bytes, into, 0)
    }
}
