//! Writers over pools with holes, and several blocks taken at once. Where blocks stay taken, the test ends by a panic
//! of its own.
ghost use Rattle.std.specs.Prelude.{◌≤◌, Contains};
ghost use Rattle.dma_pool.specs.declared.runs.Run.{Run};
ghost use Rattle.dma_pool.specs.Blocks.{run_at};

use dma_pool::{Block, NoRun, Pool};
use hda_registers::Width::Four;
use std::alloc::{AllocError, Global};
use std::mem::replace;
use std::process::Abort;
use std::test::Fail;
use writer_plays::Access::{self, Memory, Read, Write};
use writer_plays::{Script, free_in, play_over, small_ring, sound_at};

/// Bytes of memory: how many, and the position of the first in the sound where they are sound.
type Bytes = (u32, Option<u32>);

/// The bytes that a list describes.
fn bytes_of(alloc: Global, parts: &[Bytes]) -> Result<Vec<u8>, AllocError> {
    let mut bytes = Vec::new(alloc);
    for (len, sound) in parts {
        for index in 0..*len {
            bytes.push(match sound {
                Some(first) => sound_at(first.saturating_add(index)),
                None => 0,
            })?;
        }
    }
    Ok(bytes)
}

/// The granules that stay taken where the list's granule and both periods have just their holes.
const HOLES: [usize; 5] = [1, 5, 9, 10, 11];

/// One more, in the hole of the second period.
const FEWER: [usize; 6] = [1, 5, 8, 9, 10, 11];

/// Stops the test where a place has a block.
fn for_none(rt: &impl Abort, place: Option<Block>) {
    match place {
        None => {}
        Some(_block) => panic!(rt; "a place has a block"),
    }
}

/// The block of a place.
fn block_of(rt: &impl Abort, place: Option<Block>) -> Block {
    match place {
        None => panic!(rt; "a place has no block"),
        Some(block) => block,
    }
}

#[test]
fn a_refused_take_of_several_takes_none(rt: HostRuntime) -> Result<(), Fail> {
    let mut pool = Pool::new(rt.alloc(), 5)?;
    let mut places = [None, None, None];
    let answer = pool.take_all(200, &mut places);
    let [first, second, third] = places;
    for_none(&rt, first);
    for_none(&rt, second);
    for_none(&rt, third);
    assert!(rt; answer == Err(NoRun));
    assert!(rt; pool.free() == 5);
    Ok(())
}

#[test]
#[should_panic(expected = "all three stand in a row")]
fn several_are_taken_in_a_row(rt: HostRuntime) {
    let Ok(mut pool) = Pool::new(rt.alloc(), 6) else {
        panic!(rt; "no memory");
    };
    let mut places = [None, None, None];
    assert!(rt; pool.take_all(200, &mut places).is_ok());
    let [first, second, third] = places;
    let first = block_of(&rt, first);
    let second = block_of(&rt, second);
    let third = block_of(&rt, third);
    assert!(rt; first.address() == 0 && first.bytes() == 200);
    assert!(rt; second.address() == 256 && second.bytes() == 200);
    assert!(rt; third.address() == 512 && third.bytes() == 200);
    assert!(rt; pool.free() == 0);
    panic!(rt; "all three stand in a row");
}

/// Takes a block, which has to be there.
fn take_some(rt: &impl Abort, pool: &mut Pool, bytes: u32) -> Block
    requires { 1 ≤ bytes }
    ensures owned { Contains pool.new.taken (run_at result.address result.bytes) }
    ensures fresh { Contains pool.old.taken (run_at result.address result.bytes) → ⊥ }
    ensures kept { (run : Run) → Contains pool.old.taken run → Contains pool.new.taken run }
{
    match pool.take(bytes) {
        Ok(block) => block,
        Err(NoRun) => panic!(rt; "no run"),
    }
}

/// Puts a block to a place, which has to have none.
fn put(rt: &impl Abort, place: &mut Option<Block>, block: Block) {
    match replace(place, Some(block)) {
        None => {}
        Some(_block) => panic!(rt; "a place has a block"),
    }
}

/// Takes a granule for each place from an index on, one after another, and then gives those back that aren't to be
/// kept, the last one first. The others stand in their places.
fn make_holes(
    rt: &impl Abort,
    pool: &mut Pool,
    keeps: &[usize],
    into: &mut [Option<Block>],
    index: usize,
)
    ensures kept { (run : Run) → Contains pool.old.taken run → Contains pool.new.taken run }
{
    if index < into.len() {
        let block = take_some(rt, pool, 128);
        make_holes(rt, pool, keeps, into, index + 1);
        if keeps.contains(&index) {
            put(rt, &mut into[index], block);
        } else {
            pool.give(block);
        }
    }
}

/// A pool of 12 granules, all of which were taken, and of which these stay taken. The blocks are kept beside it.
fn holed(rt: &impl Abort, alloc: Global, keeps: &[usize]) -> (Pool, [Option<Block>; 12]) {
    let Ok(mut pool) = Pool::new(alloc, 12) else {
        panic!(rt; "no memory");
    };
    let mut kept = [
        None, None, None, None, None, None, None, None, None, None, None, None,
    ];
    make_holes(rt, &mut pool, keeps, &mut kept, 0);
    (pool, kept)
}

/// Whether a first run over a pool writes its list and periods at these addresses, and leaves so many granules free in
/// the end.
fn stands_at(alloc: Global, pool: Pool, places: [u32; 3], free: u32) -> Result<bool, Fail> {
    let [list, first, second] = places;
    let script = Script {
        frames: 2,
        first: (0, 0, 8),
        turns: Vec::new(alloc),
        otherwise: 0,
    };
    let played = play_over(alloc, small_ring()?, pool, &script).ok_or("no play")?;
    let wanted = [
        Memory(list as usize, 16),
        Memory(list.saturating_add(16) as usize, 16),
        Memory(first as usize, 384),
        Memory(second as usize, 384),
    ];
    let all = played.accesses.as_slice();
    let named = all.get(12).copied() == Some(Write(0xB8, Four, list));
    Ok(all.get(5..9) == Some(wanted.as_slice()) && named && played.rest.1 == free)
}

/// Later runs over a ring whose periods stand at 256 and 768, each on from the one before: in the first period, from it
/// to the second, and from the second round to the first.
const SCATTERED: [Access; 14] = [
    Read(0x30, Four),
    Read(0xA4, Four),
    Memory(256, 200),
    Read(0x30, Four),
    Read(0x30, Four),
    Read(0xA4, Four),
    Memory(456, 184),
    Memory(768, 116),
    Read(0x30, Four),
    Read(0x30, Four),
    Read(0xA4, Four),
    Memory(884, 268),
    Memory(256, 100),
    Read(0x30, Four),
];

/// Memory from 128 to 896 after the first run and each later one: a granule that stays taken, the first period, another
/// such granule, and the first third of the second period.
const SCATTERED_BYTES: [Bytes; 20] = [
    (128, None),
    (384, Some(0)),
    (128, None),
    (128, Some(384)),
    (128, None),
    (200, Some(768)),
    (184, Some(200)),
    (128, None),
    (128, Some(384)),
    (128, None),
    (384, Some(768)),
    (128, None),
    (116, Some(1_152)),
    (12, Some(500)),
    (128, None),
    (100, Some(1_536)),
    (284, Some(868)),
    (128, None),
    (116, Some(1_152)),
    (12, Some(1_268)),
];

/// Whether later runs over a pool with two holes for the periods write there, and nowhere else.
fn runs_scattered(alloc: Global, pool: Pool) -> Result<bool, Fail> {
    let script = Script {
        frames: 512,
        first: (0, 0, 768),
        turns: vec![in alloc; (0, 200, 0, 768), (0, 500, 0, 768), (0, 100, 0, 768)]?,
        otherwise: 0,
    };
    let played = play_over(alloc, small_ring()?, pool, &script).ok_or("no play")?;
    let bytes = bytes_of(alloc, &SCATTERED_BYTES)?;
    let later = played.accesses.as_slice().get(17..);
    Ok(
        later == Some(SCATTERED.as_slice())
            && played.rings.as_slice() == bytes.as_slice()
            && played.left == 412
            && played.rest == (0, 7),
    )
}

/// The value of an answer, which has to be there.
fn value_of<T>(rt: &impl Abort, answer: Result<T, Fail>) -> T {
    match answer {
        Ok(value) => value,
        Err(_fault) => panic!(rt; "no answer"),
    }
}

#[test]
#[should_panic(expected = "the list stands after what was taken")]
fn the_list_stands_where_there_is_room(rt: HostRuntime) {
    let Ok(mut pool) = Pool::new(rt.alloc(), 8) else {
        panic!(rt; "no memory");
    };
    let _kept = take_some(&rt, &mut pool, 128);
    assert!(rt; value_of(&rt, stands_at(rt.alloc(), pool, [128, 256, 640], 7)));
    panic!(rt; "the list stands after what was taken");
}

#[test]
#[should_panic(expected = "the ring stands in the holes")]
fn a_ring_stands_in_holes(rt: HostRuntime) {
    let (pool, _kept) = holed(&rt, rt.alloc(), &HOLES);
    assert!(rt; value_of(&rt, stands_at(rt.alloc(), pool, [0, 256, 768], 7)));
    panic!(rt; "the ring stands in the holes");
}

#[test]
#[should_panic(expected = "as many are free as before")]
fn a_ring_takes_all_holes_or_none(rt: HostRuntime) {
    let (pool, _kept) = holed(&rt, rt.alloc(), &HOLES);
    assert!(rt; free_in(rt.alloc(), pool) == Some((Some(0), 7)));
    let (pool, _also_kept) = holed(&rt, rt.alloc(), &FEWER);
    assert!(rt; free_in(rt.alloc(), pool) == Some((None, 6)));
    panic!(rt; "as many are free as before");
}

#[test]
#[should_panic(expected = "later runs write to the holes")]
fn later_runs_write_to_the_holes(rt: HostRuntime) {
    let (pool, _kept) = holed(&rt, rt.alloc(), &HOLES);
    assert!(rt; value_of(&rt, runs_scattered(rt.alloc(), pool)));
    panic!(rt; "later runs write to the holes");
}
