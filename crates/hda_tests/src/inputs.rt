//! Both streams of a rig in turns: what the output's pin hears, which blocks the input stream takes, and where it stores
//! them.
ghost use Rattle.std.specs.Prelude.{◌≡◌, false, OnOk};
ghost use Rattle.rig.specs.Rigs.{setting_of};

use dma_pool::{Lent, Pool, REGION_BYTES};
use hda_files::read_machine;
use hda_platform::{Platform, Step};
use hda_registers::Width;
use hda_registers::places::{
    GCTL, INPUT_DESCRIPTOR, OUTPUT_DESCRIPTOR, SDBDPL, SDCBL, SDCTL, SDFMT, SDLPIB, SDLVI, SDSTS,
};
use heard_frames::Heard;
use rig::Rig;
use std::alloc::{AllocError, Global};
use std::test::Fail;

/// The converter 02 plays to the pin 14, and 08 hears the pin 18. A FIFO has room for four blocks of 4 bytes.
const BOTH_WAYS: &str = "
fifo = 16
[[codec]]
address = 0
vendor = 0x10EC0889
node = [
    {nid = 0x02, caps = 0x1, stream = 0x10, format = 0x0011},
    {nid = 0x08, caps = 0x100111, formats = 1, pcm = 0x20040, list = [0x18], stream = 0x10, format = 0x0011},
    {nid = 0x14, caps = 0x400101, pin_caps = 0x10, default = 0x01014010, list = [0x02], control = 0x40},
    {nid = 0x18, caps = 0x400001, pin_caps = 0x20, default = 0x01A19030, control = 0x20},
]
";

/// The blocks that pins are given, eight of them.
const GIVEN: [u8; 32] = [
    0x11, 0x21, 0x31, 0x41, 0x12, 0x22, 0x32, 0x42, 0x13, 0x23, 0x33, 0x43, 0x14, 0x24, 0x34, 0x44,
    0x15, 0x25, 0x35, 0x45, 0x16, 0x26, 0x36, 0x46, 0x17, 0x27, 0x37, 0x47, 0x18, 0x28, 0x38, 0x48,
];

/// The list of the output stream at 1024, with two buffers of 128 bytes of which the first has eight blocks, and that of
/// the input stream at 2048, with two like it from 2176 on: words of four bytes.
const WORDS: [(u32, u32); 16] = [
    (1024, 1152),
    (1032, 128),
    (1040, 1280),
    (1048, 128),
    (1152, 0x0002_0001),
    (1156, 0x0004_0003),
    (1160, 0x0006_0005),
    (1164, 0x0008_0007),
    (1168, 0x000A_0009),
    (1172, 0x000C_000B),
    (1176, 0x000E_000D),
    (1180, 0x0010_000F),
    (2048, 2176),
    (2056, 128),
    (2064, 2304),
    (2072, 128),
];

/// CRST, and both streams with the tag 1, 48 kHz, 16 bits and two channels, and RUN.
const WRITES: [(u16, Width, u32); 13] = [
    (GCTL, Width::Four, 1),
    (OUTPUT_DESCRIPTOR + SDFMT, Width::Two, 0x0011),
    (OUTPUT_DESCRIPTOR + SDCBL, Width::Four, 256),
    (OUTPUT_DESCRIPTOR + SDLVI, Width::Two, 1),
    (OUTPUT_DESCRIPTOR + SDBDPL, Width::Four, 1024),
    (OUTPUT_DESCRIPTOR + SDCTL + 2, Width::One, 0x10),
    (OUTPUT_DESCRIPTOR + SDCTL, Width::One, 2),
    (INPUT_DESCRIPTOR + SDFMT, Width::Two, 0x0011),
    (INPUT_DESCRIPTOR + SDCBL, Width::Four, 256),
    (INPUT_DESCRIPTOR + SDLVI, Width::Two, 1),
    (INPUT_DESCRIPTOR + SDBDPL, Width::Four, 2048),
    (INPUT_DESCRIPTOR + SDCTL + 2, Width::One, 0x10),
    (INPUT_DESCRIPTOR + SDCTL, Width::One, 2),
];

/// Of four blocks that are played the last link frames have none, and the seventh block finds no room in the input's
/// FIFO. Then each FIFO is filled or emptied, and a last link frame passes.
const STEPS: [Step; 14] = [
    Step::Fetch(0, 12),
    Step::Fetch(1, 12),
    Step::Link(1),
    Step::Fetch(0, 4),
    Step::Fetch(1, 4),
    Step::Link(2),
    Step::Fetch(0, 6),
    Step::Fetch(1, 2),
    Step::Link(2),
    Step::Link(2),
    Step::Fetch(1, 65535),
    Step::Fetch(0, 65535),
    Step::Link(1),
    Step::Fetch(0, 3),
];

/// What the pin 14 heard.
const HEARD: [Heard; 8] = [
    Heard::Sound(1, 2),
    Heard::Sound(3, 4),
    Heard::Sound(5, 6),
    Heard::Sound(7, 8),
    Heard::Hole,
    Heard::Hole,
    Heard::Hole,
    Heard::Sound(9, 10),
];

/// Of which blocks the input stream had room for all.
const TAKEN: [bool; 8] = [true, true, true, true, true, true, false, true];

/// The memory at 2176: six blocks, and of the eighth one all but its last byte.
const STORED: [u8; 28] = [
    0x11, 0x21, 0x31, 0x41, 0x12, 0x22, 0x32, 0x42, 0x13, 0x23, 0x33, 0x43, 0x14, 0x24, 0x34, 0x44,
    0x15, 0x25, 0x35, 0x45, 0x16, 0x26, 0x36, 0x46, 0x18, 0x28, 0x38, 0,
];

/// FIFOE of both streams, and FIFORDY of the output's; and the bytes that the link took and gave.
const READ: [(u16, Width, u32); 4] = [
    (OUTPUT_DESCRIPTOR + SDSTS, Width::One, 0x28),
    (OUTPUT_DESCRIPTOR + SDLPIB, Width::Four, 20),
    (INPUT_DESCRIPTOR + SDSTS, Width::One, 0x08),
    (INPUT_DESCRIPTOR + SDLPIB, Width::Four, 28),
];

/// Writes a register in a run of its own.
fn write(rig: &mut Rig, at: u16, width: Width, value: u32) -> Result<(), AllocError>
    requires { (setting_of rig.old).in_run ≡ false }
    ensures { OnOk result ((setting_of rig.new).in_run ≡ false) }
{
    rig.begin(&[], 1, 0)?;
    rig.write(at, width, value);
    rig.end();
    Ok(())
}

/// Reads a register in a run of its own.
fn read(rig: &mut Rig, at: u16, width: Width) -> Result<u32, AllocError>
    requires { (setting_of rig.old).in_run ≡ false }
    ensures { OnOk result ((setting_of rig.new).in_run ≡ false) }
{
    rig.begin(&[], 1, 0)?;
    let value = rig.read(at, width);
    rig.end();
    Ok(value)
}

/// Writes a word of memory, where the block has it.
fn put(rig: &mut Rig, lent: &mut Lent, at: u32, word: u32) -> Result<(), AllocError>
    requires { (setting_of rig.old).in_run ≡ false }
    ensures closed { OnOk result ((setting_of rig.new).in_run ≡ false) }
    ensures same { lent.new ≡ lent.old }
{
    let size = u64::from(lent.bytes());
    if size < u64::from(at) + 4 {
        return Ok(());
    }
    rig.begin(&[], 1, 4)?;
    let mut window = lent.window(0, 0, size);
    rig.dma_write(&mut window, u64::from(at), &word.to_le_bytes());
    window.close();
    rig.end();
    Ok(())
}

/// Writes all words and registers, and makes all steps.
fn run(rig: &mut Rig, lent: &mut Lent) -> Result<(), AllocError>
    requires { (setting_of rig.old).in_run ≡ false }
    ensures closed { OnOk result ((setting_of rig.new).in_run ≡ false) }
    ensures same { lent.new ≡ lent.old }
{
    for (at, word) in WORDS {
        put(rig, lent, at, word)?;
    }
    for (at, width, value) in WRITES {
        write(rig, at, width, value)?;
    }
    for step in &STEPS {
        rig.step(step)?;
    }
    Ok(())
}

/// The bytes at 2176.
fn stored(rig: &mut Rig, lent: &Lent) -> Result<[u8; 28], AllocError>
    requires { (setting_of rig.old).in_run ≡ false }
    ensures { OnOk result ((setting_of rig.new).in_run ≡ false) }
{
    let mut bytes = [0; 28];
    if lent.bytes() < 2204 {
        return Ok(bytes);
    }
    rig.begin(&[], 1, 28)?;
    rig.dma_read(lent, 2176, &mut bytes);
    rig.end();
    Ok(bytes)
}

#[test]
fn both_streams_move_in_turns(rt: HostRuntime) -> Result<(), Fail> {
    let alloc = rt.alloc();
    let mut rig = Rig::new(alloc, read_machine(alloc, BOTH_WAYS.as_bytes())?)?;
    rig.give(GIVEN.to_vec(alloc)?);
    let mut pool = Pool::new(alloc, REGION_BYTES / 128)?;
    let Ok(block) = pool.take(REGION_BYTES) else {
        panic!(rt; "the whole region");
    };
    let mut lent = block.lend();
    let outcome = run(&mut rig, &mut lent);
    let bytes = match outcome {
        Ok(()) => stored(&mut rig, &lent),
        Err(fault) => Err(fault),
    };
    pool.give(lent.back());
    assert!(rt; bytes? == STORED);
    for (at, width, value) in READ {
        assert!(rt; read(&mut rig, at, width)? == value);
    }
    assert!(rt; rig.taken() == TAKEN.as_slice());
    let (_, lists, _) = rig.parts();
    let pins = lists.into_lists();
    assert!(rt; pins.len() == 1);
    let heard = pins.pin(alloc, 0)?;
    assert!(rt; heard.pin == 0x14 && heard.list.as_slice() == HEARD.as_slice());
    Ok(())
}
