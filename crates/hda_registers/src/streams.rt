//! The registers of one stream descriptor (HDA 1.0a, 3.3.35 to 3.3.43).
ghost use Rattle.std.specs.Prelude.{◌≡◌, ◌==◌, ◌≤◌, ◌*◌, ◌%◌, ◌/◌, ◌^◌, ℕ, bit_and, bit_or, if◌then◌else◌};
ghost use Rattle.hda_registers.specs.Access.{stream_shown, stream_written};
ghost use Rattle.hda_registers.specs.Fields.{is_running, list_address, reset_descriptor};
ghost use Rattle.hda_registers.specs.Status.{stream_asks, worth};

use crate::accesses::Access;
use crate::conditions::{any, both};
use crate::flags::StreamControl;
use crate::masks::BASE;
use crate::places;
use crate::shapes::Shape;
use bitflags::Flags;
use std::marker::Model;

/// The word of SDnCTL and SDnSTS in the descriptor.
const CONTROL_AT: u16 = places::SDCTL / 4;
/// The word of SDnLPIB in the descriptor.
const POSITION_AT: u16 = places::SDLPIB / 4;
/// The word of SDnCBL in the descriptor.
const LENGTH_AT: u16 = places::SDCBL / 4;
/// The word of SDnLVI in the descriptor.
const LAST_INDEX_AT: u16 = places::SDLVI / 4;
/// The word of SDnFIFOS and SDnFMT in the descriptor.
const FORMAT_AT: u16 = places::SDFIFOS / 4;
/// The word of SDnBDPL in the descriptor.
const LIST_BASE_AT: u16 = places::SDBDPL / 4;

/// SRST.
const SRST: u32 = StreamControl::SRST.0;
/// The bits of SDnCTL that are kept: SRST, RUN, IOCE, FEIE, DEIE and the tag in 23:20.
const CONTROL_BITS: u32 = 0xF0_001F;
/// The bits of SDnSTS that a driver clears.
const STATUS_BITS: u32 = StreamControl::BCIS.0 | StreamControl::FIFOE.0 | StreamControl::DESE.0;
/// FIFORDY.
const FIFORDY: u32 = StreamControl::FIFORDY.0;
/// The last valid index in its word.
const LVI: u32 = 0xFF;
/// The format in its word.
const FMT: u32 = 0xFFFF_0000;

/// The words that hold them, each as it stands at its place.
#[derive(Drop)]
pub(crate) struct Stream {
    control: StreamControl,
    position: u32,
    buffer_length: u32,
    last_index: u32,
    /// FMT in the upper half.
    format: u32,
    list_base: u32,
}

impl Model for Stream {
    ghost use Rattle.hda_registers.specs.Fields.{Descriptor};
    ghost use Rattle.hda_registers.specs.Words.{stream_in};

    ghost Value = { Descriptor };

    ghost view = { λ s. stream_in s.control.0 s.position s.buffer_length s.last_index s.format s.list_base };
}

impl Stream {
    /// After a reset of the controller.
    pub(crate) fn new() -> Stream
        ensures { result ≡ reset_descriptor 0 }
    {
        Stream::reset_to(StreamControl(0))
    }

    /// After a reset that leaves this in CTL.
    fn reset_to(control: StreamControl) -> Stream
        ensures none { control.0 ≡ 0 → result ≡ reset_descriptor 0 }
        ensures one { control.0 ≡ 1 → result ≡ reset_descriptor 1 }
    {
        Stream {
            control,
            position: 0,
            buffer_length: 0,
            last_index: 0,
            format: 0,
            list_base: 0,
        }
    }

    /// A write there, by the rules of the table; writing SRST 1 resets the descriptor.
    pub(crate) fn write(&mut self, access: Access)
        requires { bit_and access.written access.covered ≡ access.written }
        ensures { self.new ≡ stream_written access self.old }
    {
        match access.word {
            CONTROL_AT => {
                if access.written & SRST == 0 {
                    let word = access.leaves(self.control.0, CONTROL_BITS, STATUS_BITS);
                    self.control = StreamControl(word);
                } else {
                    *self = Stream::reset_to(StreamControl(SRST));
                }
            }
            LENGTH_AT => self.buffer_length = access.leaves(
                self.buffer_length,
                self.at_rest(u32::MAX),
                0,
            ),
            LAST_INDEX_AT => self.last_index = access.leaves(self.last_index, self.at_rest(LVI), 0),
            FORMAT_AT => self.format = access.leaves(self.format, self.at_rest(FMT), 0),
            LIST_BASE_AT => self.list_base = access.leaves(self.list_base, self.at_rest(BASE), 0),
            _ => {}
        }
    }

    /// These bits, or none while the stream runs.
    fn at_rest(&self, bits: u32) -> u32
        ensures { result ≡ (if is_running self.now then 0 else bits) }
    {
        if self.is_running() { 0 } else { bits }
    }

    /// The word with this number as it stands there.
    pub(crate) fn word(&self, shape: Shape, word: u16) -> u32
        ensures { (covered written : ℕ)
            → stream_shown shape self.now (record { word = word; covered = covered; written = written }) ≡ bit_and
            result covered }
    {
        match word {
            CONTROL_AT => self.control.0 & (CONTROL_BITS | STATUS_BITS | FIFORDY),
            POSITION_AT => {
                let bytes = self.position;
                bytes
            }
            LENGTH_AT => {
                let bytes = self.buffer_length;
                bytes
            }
            LAST_INDEX_AT => self.last_index & LVI,
            FORMAT_AT => self.format & FMT | u32::from(shape.fifo),
            LIST_BASE_AT => self.list_base & BASE,
            _ => 0,
        }
    }

    /// Whether RUN is 1.
    pub(crate) fn is_running(&self) -> bool
        ensures { result ≡ is_running self.now }
    {
        self.control.contains(StreamControl::RUN)
    }

    /// Whether a status bit is 1 whose enable bit is 1.
    pub(crate) fn asks(&self) -> bool
        ensures { result ≡ stream_asks self.now }
    {
        let control = self.control;
        any(
            both(
                control.contains(StreamControl::BCIS),
                control.contains(StreamControl::IOCE),
            ),
            both(
                control.contains(StreamControl::FIFOE),
                control.contains(StreamControl::FEIE),
            ),
            both(
                control.contains(StreamControl::DESE),
                control.contains(StreamControl::DEIE),
            ),
        )
    }

    /// Sets BCIS.
    pub(crate) fn set_completion(&mut self)
        ensures { self.new ≡ record self.old { completion = 1 } }
    {
        self.control.insert(StreamControl::BCIS);
    }

    /// Sets FIFOE.
    pub(crate) fn set_fifo_error(&mut self)
        ensures { self.new ≡ record self.old { fifo_error = 1 } }
    {
        self.control.insert(StreamControl::FIFOE);
    }

    /// Sets DESE and clears RUN.
    pub(crate) fn set_descriptor_error(&mut self)
        ensures { self.new ≡ record self.old { descriptor_error = 1; run = 0 } }
    {
        self.control.insert(StreamControl::DESE);
        self.control.remove(StreamControl::RUN);
    }

    /// Moves LPIB.
    pub(crate) fn set_position(&mut self, bytes: u32)
        ensures { self.new ≡ record self.old { link_position = bytes } }
    {
        self.position = bytes;
    }

    /// Sets or clears FIFORDY.
    pub(crate) fn set_ready(&mut self, ready: bool)
        ensures { self.new ≡ record self.old { fifo_ready = worth ready 0 } }
    {
        if ready {
            self.control.insert(StreamControl::FIFORDY);
        } else {
            self.control.remove(StreamControl::FIFORDY);
        }
    }

    /// LPIB, in bytes.
    pub(crate) fn position(&self) -> u32
        ensures { result ≡ self.now.link_position }
    {
        let bytes = self.position;
        bytes
    }

    /// CBL, in bytes.
    pub(crate) fn buffer_length(&self) -> u32
        ensures { result ≡ self.now.buffer_length }
    {
        let bytes = self.buffer_length;
        bytes
    }

    /// LVI.
    pub(crate) fn last_index(&self) -> u8
        ensures { result ≡ self.now.last_index }
    {
        (self.last_index % 0x100) as u8
    }

    /// FMT.
    pub(crate) fn format(&self) -> u16
        ensures { result ≡ self.now.format }
    {
        (self.format >> 16) as u16
    }

    /// The tag.
    pub(crate) fn tag(&self) -> u8
        ensures { result ≡ self.now.tag }
    {
        (self.control.0 >> 20 & 0xF) as u8
    }

    /// Where the buffer list stands, in bytes.
    pub(crate) fn list_address(&self) -> u32
        ensures { result ≡ list_address self.now }
    {
        self.list_base & BASE
    }
}
