//! The text of what pins heard, put together by hand: signals that are not followed, which no route of this driver has.
ghost use Rattle.codec_sound.specs.declared.signals.Signal.TheVariants.{Silence, Pair, Altered};

use codec_sound::Signal;
use hda_files::{Machine, read_machine};
use hda_items::Items;
use hda_world::Journal;
use heard_lists::{HeardLists, HeardPins, Sounds};
use route_planner::{Bits, Format, Rate};
use sound_report::{Played, report};
use std::alloc::Global;
use std::test::Fail;

/// A codec with the pin 14, and one at the address 3 with the pin 7F.
const TWO_PINS: &str = "
[[codec]]
address = 0
vendor = 0x10EC0889
node = [
    {nid = 0x02, caps = 0x1},
    {nid = 0x14, caps = 0x40010D, amp_out = 0x80000000, pin_caps = 0x10, default = 0x01014010, list = [0x02]},
]

[[codec]]
address = 3
vendor = 0x10EC0889
node = [
    {nid = 0x02, caps = 0x1},
    {nid = 0x7F, caps = 0x40010D, amp_out = 0x80000000, pin_caps = 0x10, default = 0x01014010, list = [0x02]},
]
";

/// Each pin is silent.
struct Silent;

impl Sounds for Silent {
    ghost signal_of = { λ _ _ _. Silence };

    ghost IsKnown = { λ _ _ _. Unit {0} };

    fn signal(&self, _codec: u8, _pin: u8) -> Signal {
        Signal::Silence
    }
}

/// The signal of each pin is not followed.
struct NotFollowed;

impl Sounds for NotFollowed {
    ghost signal_of = { λ _ _ _. Altered };

    ghost IsKnown = { λ _ _ _. Unit {0} };

    fn signal(&self, _codec: u8, _pin: u8) -> Signal {
        Signal::Altered
    }
}

/// Each pin hears the first pair of channels.
struct FirstPair;

impl Sounds for FirstPair {
    ghost signal_of = { λ _ _ _. Pair 0 };

    ghost IsKnown = { λ _ _ _. Unit {0} };

    fn signal(&self, _codec: u8, _pin: u8) -> Signal {
        Signal::Pair(0)
    }
}

/// 48 kHz and 16 bits, two channels.
fn stereo() -> Format {
    Format {
        rate: Rate::R48,
        bits: Bits::B16,
        channels: 2,
    }
}

/// What both pins of a machine heard: each kind of signal, in stretches of one item and of more.
fn heard(alloc: Global) -> Result<(Machine, HeardPins), Fail> {
    let machine = read_machine(alloc, TWO_PINS.as_bytes())?;
    let mut lists = HeardLists::new(alloc, &machine)?;
    lists.reserve(2, 0)?;
    lists.hear(&Silent, stereo(), &[0; 8]);
    lists.reserve(1, 0)?;
    lists.hear(&NotFollowed, stereo(), &[0; 4]);
    lists.reserve(1, 0)?;
    lists.miss();
    lists.reserve(3, 0)?;
    lists.hear(&NotFollowed, stereo(), &[0; 12]);
    lists.reserve(1, 0)?;
    lists.hear(&FirstPair, stereo(), &[0x00, 0x80, 0xFF, 0x7F]);
    lists.reserve(1, 0)?;
    lists.miss();
    lists.reserve(1, 0)?;
    lists.miss();
    lists.reserve(1, 0)?;
    lists.hear(&Silent, stereo(), &[1, 0, 2, 0]);
    Ok((machine, lists.into_lists()))
}

/// The lines of both pins.
const TEXT: &str = "\
pin 0 14
quiet 2
altered 1
hole 1
altered 3
sound 0080ff7f
hole 2
quiet 1
pin 3 7f
quiet 2
altered 1
hole 1
altered 3
sound 0080ff7f
hole 2
quiet 1
played 8
";

#[test]
fn stretches_of_each_kind_are_told(rt: HostRuntime) -> Result<(), Fail> {
    let alloc = rt.alloc();
    let (machine, heard) = heard(alloc)?;
    let played = Played {
        machine,
        format: stereo(),
        total: 8,
        read: 8,
        commands: 0,
        plans: Items::new(alloc),
        graphs: Items::new(alloc),
        runs: Items::new(alloc),
        silences: Items::new(alloc),
        heard,
        jacks: Items::new(alloc),
        journal: Journal::new(alloc),
        walk: false,
        fault: None,
        cut: None,
    };
    let text = report(alloc, &played)?;
    assert!(rt; text.as_slice() == TEXT.as_bytes());
    Ok(())
}
