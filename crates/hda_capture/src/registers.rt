//! The registers of the input stream's descriptor (HDA 1.0a, 3.3.35 to 3.3.42), and what is written there.

use hda_registers::places;

/// Control: CTL.
pub const CONTROL: u16 = places::INPUT_DESCRIPTOR + places::SDCTL;
/// The position of the link: LPIB.
pub const POSITION: u16 = places::INPUT_DESCRIPTOR + places::SDLPIB;
/// The bytes of the ring: CBL.
pub const RING_LENGTH: u16 = places::INPUT_DESCRIPTOR + places::SDCBL;
/// The last entry of the list: LVI.
pub const LAST_INDEX: u16 = places::INPUT_DESCRIPTOR + places::SDLVI;
/// The format: FMT.
pub const FORMAT: u16 = places::INPUT_DESCRIPTOR + places::SDFMT;
/// The address of the list: BDPL.
pub const LIST_ADDRESS: u16 = places::INPUT_DESCRIPTOR + places::SDBDPL;

/// SRST, by which the driver resets the stream (HDA 1.0a, 3.3.35).
pub const STREAM_RESET: u32 = 1;
/// Tag 1, and IOCE, FEIE and DEIE: the stream may interrupt where a period is full, its FIFO overran or its list is
/// bad.
pub const TAG_AND_INTERRUPTS: u32 = 0x0010_001C;
/// RUN beside these.
pub const RUN: u32 = 0x1E;
/// The input stream and the controller may interrupt: GIE, CIE and SIE of the input stream (HDA 1.0a, 3.3.14).
pub const INPUT_INTERRUPTS: u32 = 0xC000_0001;
/// Neither RUN nor an interrupt.
pub const STOP: u32 = 0;
