//! Accesses that are written out over any platform, and a rig's journal of them: the steps of a group are made before
//! the access of its number, and those that are left at the end.
ghost use Rattle.std.specs.Prelude.{◌≡◌, ◌≤◌, false};
ghost use Rattle.hda_files.specs.Machines.{IsSound};
ghost use Rattle.rig.specs.Rigs.{setting_of};
ghost use Rattle.codec_graph.specs.declared.pin_kind.PinKind.TheVariants.{Analog};

use dma_pool::{Lent, Pool, REGION_BYTES};
use hda_files::read_machine;
use hda_items::Items;
use hda_platform::{Entry, Platform, Step};
use hda_registers::Width;
use hda_registers::places::{GCTL, WALCLK};
use hda_world::MemoryPiece;
use rig::Rig;
use schedule_reader::Group;
use std::alloc::{AllocError, Global};
use std::test::Fail;
use test_codecs::LEAST;

/// Groups with these steps.
fn groups_of(alloc: Global, steps: &[&[Step]]) -> Result<Vec<Group>, AllocError> {
    let mut groups = Vec::new(alloc);
    for some in steps {
        groups.push(Group {
            steps: Items::from_slice(alloc, some)?,
        })?;
    }
    Ok(groups)
}

/// Two accesses to registers.
fn use_registers<P: Platform>(platform: &mut P)
    requires { 2 ≤ P.spare_accesses platform.old }
    ensures { P.fixed platform.new ≡ P.fixed platform.old }
{
    platform.read(WALCLK, Width::Four);
    platform.write(GCTL, Width::Four, 0x101);
}

/// Writes the block's last byte and then no byte, and reads the last byte.
fn use_memory<P: Platform>(platform: &mut P, lent: &mut Lent)
    requires accesses { 3 ≤ P.spare_accesses platform.old }
    requires bytes { 2 ≤ P.spare_bytes platform.old }
    ensures fixed { P.fixed platform.new ≡ P.fixed platform.old }
    ensures same { lent.new ≡ lent.old }
{
    let size = u64::from(lent.bytes());
    let mut window = lent.window(0, 0, size);
    platform.dma_write(&mut window, size - 1, &[7]);
    platform.dma_write(&mut window, 0, &[]);
    window.close();
    let mut byte = [0];
    platform.dma_read(lent, size - 1, &mut byte);
}

/// Three runs: one with fewer accesses than groups, one with more, and one without accesses.
fn run(alloc: Global, rig: &mut Rig, lent: &mut Lent) -> Result<(), AllocError>
    requires closed { (setting_of rig.old).in_run ≡ false }
    requires sound { IsSound (setting_of rig.old).machine }
    requires kind { (setting_of rig.old).kind ≡ Analog }
    ensures same { lent.new ≡ lent.old }
    ensures sound { IsSound (setting_of rig.new).machine }
    ensures kind { (setting_of rig.new).kind ≡ Analog }
{
    let few = groups_of(
        alloc,
        &[&[Step::Corb, Step::Answer(0)], &[], &[Step::Lose(0)]],
    )?;
    rig.begin(few.as_slice(), 2, 0)?;
    use_registers(rig);
    rig.end();
    let many = groups_of(alloc, &[&[Step::Rirb, Step::Fetch(1, 64)]])?;
    rig.begin(many.as_slice(), 3, 2)?;
    use_memory(rig, lent);
    rig.end();
    let none = groups_of(
        alloc,
        &[
            &[Step::Plug(0, 0x14)],
            &[Step::Unplug(0, 0x14), Step::Link(1)],
        ],
    )?;
    rig.begin(none.as_slice(), 0, 0)?;
    rig.end();
    Ok(())
}

/// How many items the pin of the first codec heard. `None` where it is no candidate pin, or where memory is wanting.
#[tactic(auto, using(rig::proofs::Callers::candidate_known))]
fn heard_by(alloc: Global, rig: &Rig, pin: u8) -> Option<usize>
    requires sound { IsSound (setting_of rig.now).machine }
    requires kind { (setting_of rig.now).kind ≡ Analog }
{
    let codecs = rig.machine().codecs.as_slice();
    if codecs.is_empty() {
        return None;
    }
    let codec = &codecs[0];
    if !codec.graph.is_candidate(pin) {
        return None;
    }
    let items = rig.heard(alloc, codec.graph.raw().address, pin).ok()?;
    Some(items.len())
}

/// The journal of the three runs.
const ENTRIES: [Entry; 18] = [
    Entry::Begin,
    Entry::Step(Step::Corb),
    Entry::Step(Step::Answer(0)),
    Entry::Read {
        at: WALCLK,
        width: Width::Four,
        value: 0,
    },
    Entry::Write {
        at: GCTL,
        width: Width::Four,
        value: 0x101,
    },
    Entry::Step(Step::Lose(0)),
    Entry::End,
    Entry::Begin,
    Entry::Step(Step::Rirb),
    Entry::Step(Step::Fetch(1, 64)),
    Entry::DmaWrite(0),
    Entry::DmaWrite(1),
    Entry::DmaRead(2),
    Entry::End,
    Entry::Begin,
    Entry::Step(Step::Plug(0, 0x14)),
    Entry::Step(Step::Unplug(0, 0x14)),
    Entry::Step(Step::Link(1)),
];

/// Its pieces of memory: the last byte of the region, none, and the last one again.
const PIECES: [MemoryPiece; 3] = [
    MemoryPiece {
        at: 4_194_303,
        len: 1,
        from: 0,
    },
    MemoryPiece {
        at: 0,
        len: 0,
        from: 1,
    },
    MemoryPiece {
        at: 4_194_303,
        len: 1,
        from: 1,
    },
];

#[test]
fn groups_stand_before_their_accesses(rt: HostRuntime) -> Result<(), Fail> {
    let alloc = rt.alloc();
    let mut rig = Rig::new(alloc, read_machine(alloc, LEAST.as_bytes())?)?;
    let mut pool = Pool::new(alloc, REGION_BYTES / 128)?;
    let Ok(block) = pool.take(REGION_BYTES) else {
        panic!(rt; "the whole region");
    };
    let mut lent = block.lend();
    let outcome = run(alloc, &mut rig, &mut lent);
    pool.give(lent.back());
    outcome?;
    assert!(rt; heard_by(alloc, &rig, 0x14) == Some(0));
    let (machine, lists, journal) = rig.parts();
    let [all @ .., last] = journal.entries() else {
        panic!(rt; "no entries");
    };
    assert!(rt; all == ENTRIES.as_slice() && *last == Entry::End);
    assert!(rt; journal.pieces() == PIECES.as_slice());
    assert!(rt; journal.bytes() == [7, 7].as_slice());
    assert!(rt; machine.codecs.len() == 1 && lists.into_lists().len() == 1);
    Ok(())
}

#[test]
fn an_entry_has_twelve_bytes(rt: HostRuntime) {
    assert!(rt; std::mem::size_of::<Entry>() == 12);
}
