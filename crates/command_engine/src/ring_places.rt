//! Where the engine stands in both rings.
ghost use Rattle.std.specs.Prelude.{◌≡◌, ◌<◌, ◌%◌};
ghost use Rattle.hda_registers.specs.Fields.{entries_of};
ghost use Rattle.command_engine.specs.Sizes as sizes;
ghost use Rattle.command_engine.specs.Starting as starting;
ghost use Rattle.command_engine.specs.Submitting as submitting;
ghost use Rattle.command_engine.specs.Polling as polling;

use crate::answers::Outstanding;
use hda_registers::RingSize;
use verb_codes::has_bit;
use world_rings::next_place;

/// Where the engine stands in both rings (HDA 1.0a, 4.4.1 and 4.4.2).
#[derive(Clone, Copy, Debug, PartialEq, Eq)]
pub struct RingPlaces {
    /// The size of CORB.
    pub corb: RingSize,
    /// The size of RIRB.
    pub rirb: RingSize,
    /// The entry of CORB that has the last command.
    pub submitted: u8,
    /// The entry of RIRB that was read last.
    pub read: u8,
    /// Whether the rings were set going.
    pub started: bool,
    /// The command that is outstanding.
    pub outstanding: Option<Outstanding>,
}

/// The largest size that a size register names as supported, if it names one (HDA 1.0a, 3.3.24 and 3.3.31).
pub(crate) fn largest_size(code: u32) -> Option<RingSize>
    ensures { result ≡ sizes.largest_size code }
{
    if has_bit(code, 6) {
        Some(RingSize::Full)
    } else if has_bit(code, 5) {
        Some(RingSize::Sixteen)
    } else if has_bit(code, 4) {
        Some(RingSize::Two)
    } else {
        None
    }
}

/// Half of the entries of a ring.
pub(crate) fn half_of(size: RingSize) -> u16
    ensures { result ≡ sizes.half_of size }
{
    size.entries() / 2
}

/// The codecs that announced themselves, of what the state change status read.
pub(crate) fn codecs_in(status: u32) -> u16
    ensures { result ≡ starting.codecs_in status }
{
    (status % (1 << 15)) as u16
}

/// Both rings at their beginning, where a codec is there and both size registers name a size.
pub(crate) fn rings_found(status: u32, corb_size: u32, rirb_size: u32) -> Option<RingPlaces>
    ensures { result ≡ starting.rings_found status corb_size rirb_size }
{
    if codecs_in(status) == 0 {
        return None;
    }
    let corb = largest_size(corb_size)?;
    let rirb = largest_size(rirb_size)?;
    Some(RingPlaces {
        corb,
        rirb,
        submitted: 0,
        read: 0,
        started: true,
        outstanding: None,
    })
}

/// The entry of CORB after the last one that has a command.
pub(crate) fn command_place(rings: RingPlaces) -> u8
    ensures value { result ≡ submitting.command_place rings }
    ensures within { result < entries_of rings.corb }
{
    next_place(rings.submitted, rings.corb.entries())
}

/// The rings after a command was written to the next entry.
pub(crate) fn rings_submitted(rings: RingPlaces, command: Outstanding) -> RingPlaces
    ensures { result ≡ submitting.rings_submitted rings command }
{
    RingPlaces {
        submitted: command_place(rings),
        outstanding: Some(command),
        ..rings
    }
}

/// How many entries of RIRB are new, where its write pointer reads this.
pub(crate) fn new_entries(rings: RingPlaces, pointer: u32) -> u16
    requires { rings.read < entries_of rings.rirb }
    ensures value { result ≡ polling.new_entries rings pointer }
    ensures few { result < entries_of rings.rirb }
{
    let size = rings.rirb.entries();
    let written = (pointer % u32::from(size)) as u16;
    (written + (size - u16::from(rings.read))) % size
}

/// The entry of RIRB that was read last, once all up to its write pointer were read.
pub(crate) fn read_to(rings: RingPlaces, pointer: u32) -> u8
    ensures value { result ≡ pointer % entries_of rings.rirb }
    ensures within { result < entries_of rings.rirb }
{
    (pointer % u32::from(rings.rirb.entries())) as u8
}
